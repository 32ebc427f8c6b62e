// A whole trace: its head, its operations, and the form of what follows them.
ghost use Rattle.std.specs.Prelude.{◌≡◌};
ghost use Rattle.trace.specs.Trace.{operations_from, read_trace};
ghost use Rattle.trace.specs.Answer.{judged, summary};
ghost use Rattle.trace.specs.Inner.{soundness};

use crate::Fault;
use crate::head::{Head, read_head};
use crate::operation::operation_at;
use crate::section::section_three;

#[tactic(auto, using(crate::proofs::Turns::one_step))]
fn operations(bytes: &[u8], number: u32) -> Result<(), Fault>
    ensures { judged result ≡ soundness (operations_from bytes.now 0 number) }
{
    for k in 0..number {
        operation_at(bytes, k)?;
    }
    Ok(())
}

// What the head says, of a trace that is sound to its end.
#[tactic(auto, using(crate::proofs::Turns::in_turn), unfolding(crate::specs::Trace::read_trace))]
pub fn judge(bytes: &[u8]) -> Result<Head, Fault>
    ensures { judged result ≡ summary (read_trace bytes.now) }
{
    let head = read_head(bytes)?;
    operations(bytes, head.operations)?;
    section_three(bytes, head.operations)?;
    Ok(head)
}

// Checkpoints beside a trace: the board after each 256 operations, in section three. They are compared with the trace (checking.rt), made (marking.rt), and a replay begins
// at one of them (starting.rt).
#![tactic(auto)]

pub mod checking;
pub mod marking;
pub mod starting;

ghost use Rattle.std.specs.Prelude.{◌≡◌, ◌-◌};
ghost use Rattle.recorded.specs.Made.{make_all};
ghost use Rattle.runner.specs.Inner.{found_from};
ghost use Rattle.checkpoint.specs.Boards.{checkpoints_in};

use board::Board;
pub use checking::check_into;
pub use marking::mark_into;
use runner::Form;
pub use starting::replay_from_into;
use trace::section::{checkpoints_of, section_begun};

// The board after the operations from the first index up to the last, which is not made any more. Nothing is said of them.
fn board_after(trace: &[u8], start: Board, first: u32, last: u32) -> Board
    ensures { result ≡ make_all start (found_from trace.now first (last - first)) }
{
    let mut nothing = [0u8; 1];
    let told = runner::tell(Form::Silent, trace, start, first, last, &mut nothing, 0);
    told.board
}

// How many checkpoints the bytes of a sound trace have: none where section three is missing.
fn checkpoints_in(trace: &[u8], operations: u32) -> u32
    ensures { result ≡ checkpoints_in trace.now operations }
{
    if section_begun(trace, operations) {
        return checkpoints_of(operations);
    }
    0
}

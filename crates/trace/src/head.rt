// The settings and the operation count: four numbers, each first there and then by its rule.
ghost use Rattle.std.specs.Prelude.{◌≡◌, ◌+◌, ◌<◌, ◌^◌};
ghost use Rattle.numbers.specs.Number.{number_at};
ghost use Rattle.trace.specs.Judgement.{sound, present};
ghost use Rattle.trace.specs.Head.{read_head};
ghost use Rattle.trace.specs.Answer.{judged};

use crate::{Fault, MOST_OPERATIONS};
use channel::PitType;
use numbers::number_at;
use refusal::Refusal;

#[derive(Clone, Copy, Debug, PartialEq, Eq)]
pub struct Head {
    pub divisor: u32,
    pub model: PitType,
    // How many operations the trace says it has.
    pub operations: u32,
}

// A number of four bytes, all of which must be there. Refusal 9.
pub(crate) fn field(bytes: &[u8], place: usize) -> Result<u32, Fault>
    requires { place + 4 < 2 ^ 64 }
    ensures { judged result ≡ present bytes.now (place + 4) (sound (number_at bytes.now place)) }
{
    if bytes.len() < place + 4 {
        return Err(Fault::outside(Refusal::TraceEnds, bytes.len()));
    }
    Ok(number_at(bytes, place))
}

// Refusals 9, 10, 3, 21 and 11.
#[tactic(auto, unfolding(crate::specs::Head::read_head))]
pub fn read_head(bytes: &[u8]) -> Result<Head, Fault>
    ensures { judged result ≡ read_head bytes.now }
{
    if field(bytes, 0)? != 2 {
        return Err(Fault::outside(Refusal::SettingsCount, 0));
    }
    let divisor = field(bytes, 4)?;
    if divisor == 0 {
        return Err(Fault::outside(Refusal::DivisorZero, 4));
    }
    let model = field(bytes, 8)?;
    if 1 < model {
        return Err(Fault::outside(Refusal::TooLarge, 8));
    }
    let operations = field(bytes, 12)?;
    if MOST_OPERATIONS < operations {
        return Err(Fault::outside(Refusal::TooManyOperations, 12));
    }
    Ok(Head {
        divisor,
        model: PitType::numbered(model),
        operations,
    })
}

// Section three: the form of the checkpoints behind the last operation. What their boards say is not looked at here.
ghost use Rattle.std.specs.Prelude.{◌≡◌};
ghost use Rattle.trace.specs.Sizes.{checkpoints_of};
ghost use Rattle.trace.specs.Section.{checkpoint_place, section_begun, section_three};
ghost use Rattle.trace.specs.Answer.{judged};

use crate::head::field;
use crate::operation::place_of;
use crate::{CHECKPOINT_EVERY, COUNT_SIZE, Fault};
use board_encoding::BOARD_SIZE;
use refusal::Refusal;

// How many checkpoints so many operations have.
pub fn checkpoints_of(operations: u32) -> u32
    ensures { result ≡ checkpoints_of operations }
{
    operations / CHECKPOINT_EVERY
}

// Where the board of a checkpoint begins.
pub fn checkpoint_place(operations: u32, k: u32) -> usize
    ensures { result ≡ checkpoint_place operations k }
{
    place_of(operations) + COUNT_SIZE + BOARD_SIZE * (k as usize)
}

// Whether there is a section three, whole or not.
pub fn section_begun(bytes: &[u8], operations: u32) -> bool
    ensures { result ≡ section_begun bytes.now operations }
{
    place_of(operations) < bytes.len()
}

// Refusals 9, 17 and 13.
#[tactic(auto, unfolding(crate::specs::Section::section_three))]
pub(crate) fn section_three(bytes: &[u8], operations: u32) -> Result<(), Fault>
    ensures { judged result ≡ section_three bytes.now operations }
{
    let place = place_of(operations);
    if bytes.len() <= place {
        return Ok(());
    }
    if field(bytes, place)? != checkpoints_of(operations) {
        return Err(Fault::outside(Refusal::CheckpointCount, place));
    }
    let end = checkpoint_place(operations, checkpoints_of(operations));
    if bytes.len() < end {
        return Err(Fault::outside(Refusal::TraceEnds, bytes.len()));
    }
    if end < bytes.len() {
        return Err(Fault::outside(Refusal::BytesAfter, end));
    }
    Ok(())
}

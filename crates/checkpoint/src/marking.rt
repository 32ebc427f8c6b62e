// A trace with its section three, made anew.
ghost use Rattle.std.specs.Prelude.{◌≡◌, ◌+◌, ◌*◌, ◌≤◌, length};
ghost use Rattle.board_encoding.specs.Places.{board_size};
ghost use Rattle.text.specs.Put.{put, answered};
ghost use Rattle.trace.specs.Sizes.{checkpoints_of};
ghost use Rattle.trace.specs.Operation.{place_of};
ghost use Rattle.trace.specs.Section.{section_end};
ghost use Rattle.runner.specs.Lent.{replayed};
ghost use Rattle.checkpoint.specs.Boards.{boards_from};
ghost use Rattle.checkpoint.specs.Mark.{marked_as, mark_into};
ghost use Rattle.checkpoint.specs.Inner.{trace_found};

use crate::board_after;
use board::Board;
use runner::lending::ReplayError;
use trace::CHECKPOINT_EVERY;
use trace::head::Head;
use trace::operation::place_of;
use trace::section::{checkpoint_place, checkpoints_of};

// The boards of the checkpoints, put one after another.
fn put_boards(trace: &[u8], head: Head, number: u32, out: &mut [u8], place: usize) -> usize
    requires number_bound { number ≤ checkpoints_of head.operations }
    requires number_in_bounds { place + board_size * number ≤ length out.old }
    ensures { answered result out.new ≡ put (boards_from (trace_found trace.now head) 0 number) out.old place }
{
    let mut board = Board::new(head.model, head.divisor).board;
    let mut at = place;
    for k in 0..number {
        let first = CHECKPOINT_EVERY * k;
        board = board_after(trace, board, first, first + CHECKPOINT_EVERY);
        let bytes = board_encoding::board_bytes(board);
        at = text::put(out, at, &bytes);
    }
    at
}

// The trace up to its last operation, the count of its checkpoints, and their boards.
fn mark_sound(trace: &[u8], head: Head, out: &mut [u8]) -> usize
    requires operations_in_bounds { place_of head.operations ≤ length trace.now }
    requires operations_in_bounds_2 { section_end head.operations ≤ length out.old }
    ensures { answered result out.new ≡ put (marked_as trace.now (trace_found trace.now head)) out.old 0 }
{
    let operations = head.operations;
    let number = checkpoints_of(operations);
    let count = numbers::four_bytes(number);
    let end = place_of(operations);
    let mut place = text::put(out, 0, &trace[..end]);
    place = text::put(out, place, &count);
    put_boards(trace, head, number, out, place)
}

// The marked trace, where the lent bytes have room for it.
pub fn mark_into(trace: &[u8], out: &mut [u8]) -> Result<usize, ReplayError>
    ensures { replayed result out.new ≡ mark_into trace.now out.old }
{
    match trace::judge(trace) {
        Err(fault) => Err(ReplayError::Refused(fault.refusal, fault.operation)),
        Ok(head) => {
            let operations = head.operations;
            if out.len() < checkpoint_place(operations, checkpoints_of(operations)) {
                return Err(ReplayError::Short);
            }
            Ok(mark_sound(trace, head, out))
        }
    }
}

// The full check: the trace is replayed, and every checkpoint compared with the board.
ghost use Rattle.std.specs.Prelude.{◌≡◌, not, ◌+◌, ◌≤◌, length};
ghost use Rattle.board_encoding.specs.Places.{board_size};
ghost use Rattle.board_encoding.specs.Stored.{board_bytes};
ghost use Rattle.trace.specs.Answer.{judged};
ghost use Rattle.line.specs.Said.{sentence_text};
ghost use Rattle.runner.specs.Lent.{replayed};
ghost use Rattle.checkpoint.specs.Boards.{board_part};
ghost use Rattle.checkpoint.specs.Check.{same_bytes, check_first, check, checked_text, check_into};
ghost use Rattle.checkpoint.specs.Inner.{trace_found, Standing};

use crate::{board_after, checkpoints_in};
use board::Board;
use board_encoding::BOARD_SIZE;
use line::LINE_ROOM;
use line::sentence::Sentence;
use refusal::Refusal;
use runner::lending::ReplayError;
use runner::put_sentence;
use trace::head::Head;
use trace::section::checkpoint_place;
use trace::{CHECKPOINT_EVERY, Fault};

// Whether the bytes at a place are other than the board's.
fn differs(trace: &[u8], place: usize, board: Board) -> bool
    requires { place + board_size ≤ length trace.now }
    ensures { result ≡ not (same_bytes (board_part trace.now place) (board_bytes board)) }
{
    let bytes = board_encoding::board_bytes(board);
    let end = place + BOARD_SIZE;
    !check::same(&trace[place..end], &bytes)
}

// The first so many checkpoints, one after another. Refusal 18.
fn compare(trace: &[u8], head: Head, number: u32) -> Result<u32, Fault>
    requires { Standing trace.now head.operations number }
    ensures { judged result ≡ check_first trace.now (trace_found trace.now head) number }
{
    let mut board = Board::new(head.model, head.divisor).board;
    for k in 0..number {
        let first = CHECKPOINT_EVERY * k;
        let place = checkpoint_place(head.operations, k);
        board = board_after(trace, board, first, first + CHECKPOINT_EVERY);
        if differs(trace, place, board) {
            return Err(Fault::outside(Refusal::CheckpointWrong, place));
        }
    }
    Ok(number)
}

// How many checkpoints there are, all right, or the trace's fault. All faults of form come before a checkpoint that is wrong.
pub fn check(trace: &[u8]) -> Result<u32, Fault>
    ensures { judged result ≡ check trace.now }
{
    let head = trace::judge(trace)?;
    compare(trace, head, checkpoints_in(trace, head.operations))
}

fn sentence_of(checked: Result<u32, Fault>) -> Sentence
    ensures { sentence_text result ≡ checked_text (judged checked) }
{
    match checked {
        Ok(number) => Sentence::Checked(number),
        Err(fault) => Sentence::Fault(fault),
    }
}

// The line that says what the full check comes to.
pub fn check_into(trace: &[u8], out: &mut [u8]) -> Result<usize, ReplayError>
    ensures { replayed result out.new ≡ check_into trace.now out.old }
{
    if out.len() < LINE_ROOM {
        return Err(ReplayError::Short);
    }
    Ok(put_sentence(out, 0, sentence_of(check(trace))))
}

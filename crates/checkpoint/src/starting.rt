// A replay that begins at a checkpoint.
ghost use Rattle.std.specs.Prelude.{◌≡◌, suc, ◌-◌, ◌*◌, ◌≤◌};
ghost use Rattle.trace.specs.Judgement.{sound};
ghost use Rattle.trace.specs.Section.{section_three};
ghost use Rattle.trace.specs.Answer.{fault_of, judged};
ghost use Rattle.line.specs.Line.{line_room};
ghost use Rattle.line.specs.Lines.{fault_line};
ghost use Rattle.runner.specs.Lent.{in_room, replayed};
ghost use Rattle.checkpoint.specs.From.{start_at, start_of, start_checked, replay_from_into};
ghost use Rattle.checkpoint.specs.Inner.{trace_found, lines_found, from_found};

use crate::checkpoints_in;
use board::Board;
use board_encoding::BOARD_SIZE;
use in_bytes::loading::{is_board, load_board};
use line::LINE_ROOM;
use line::sentence::Sentence;
use refusal::Refusal;
use runner::lending::ReplayError;
use runner::{Form, put_sentence};
use trace::head::Head;
use trace::section::checkpoint_place;
use trace::{CHECKPOINT_EVERY, Fault};

fn say_fault(out: &mut [u8], fault: Fault) -> Result<usize, ReplayError>
    ensures { replayed result out.new ≡ in_room line_room (fault_line (fault_of fault)) out.old }
{
    if out.len() < LINE_ROOM {
        return Err(ReplayError::Short);
    }
    Ok(put_sentence(out, 0, Sentence::Fault(fault)))
}

// The lines of the operations from the first index on, from a board on, and the end line.
fn lines_from(
    trace: &[u8],
    board: Board,
    first: u32,
    operations: u32,
    out: &mut [u8],
) -> Result<usize, ReplayError>
    requires { first ≤ operations }
    ensures { replayed result out.new ≡ in_room (line_room * suc (operations - first)) (lines_found trace.now board first operations) out.old }
{
    if out.len() < LINE_ROOM * ((operations - first) as usize + 1) {
        return Err(ReplayError::Short);
    }
    let told = runner::tell(Form::Lines, trace, board, first, operations, out, 0);
    Ok(put_sentence(out, told.place, Sentence::End(operations)))
}

// Refusal 18. A missing checkpoint is told of at the whole length, one that is not readable at its first byte.
fn start_in(trace: &[u8], operations: u32, k: u32) -> Result<(), Fault>
    requires { section_three trace.now operations ≡ sound tt }
    ensures { judged result ≡ start_checked (start_at trace.now operations k) }
{
    if checkpoints_in(trace, operations) <= k {
        return Err(Fault::outside(Refusal::CheckpointWrong, trace.len()));
    }
    let place = checkpoint_place(operations, k);
    let end = place + BOARD_SIZE;
    if is_board(&trace[place..end]) {
        return Ok(());
    }
    Err(Fault::outside(Refusal::CheckpointWrong, place))
}

// Whether a replay can begin at a checkpoint, or why not: a fault of the trace's form, or the checkpoint's.
pub fn start_of(trace: &[u8], k: u32) -> Result<(), Fault>
    ensures { judged result ≡ start_checked (start_of trace.now k) }
{
    let head = trace::judge(trace)?;
    start_in(trace, head.operations, k)
}

fn from_sound(trace: &[u8], head: Head, k: u32, out: &mut [u8]) -> Result<usize, ReplayError>
    requires { section_three trace.now head.operations ≡ sound tt }
    ensures { replayed result out.new ≡ from_found trace.now (trace_found trace.now head) k out.old }
{
    let operations = head.operations;
    match start_in(trace, operations, k) {
        Err(fault) => say_fault(out, fault),
        Ok(()) => {
            let place = checkpoint_place(operations, k);
            let end = place + BOARD_SIZE;
            let board = load_board(&trace[place..end]);
            let first = CHECKPOINT_EVERY * k + CHECKPOINT_EVERY;
            lines_from(trace, board, first, operations, out)
        }
    }
}

// What a replay from a checkpoint prints, where the lent bytes have room for it.
pub fn replay_from_into(trace: &[u8], k: u32, out: &mut [u8]) -> Result<usize, ReplayError>
    ensures { replayed result out.new ≡ replay_from_into trace.now k out.old }
{
    match trace::judge(trace) {
        Err(fault) => say_fault(out, fault),
        Ok(head) => from_sound(trace, head, k, out),
    }
}

// The whole replay of a trace: from its bytes to the bytes that are printed, or to its answers in bytes. Nothing is put before the whole trace is judged.
//
// `tell` is the runner: one loop that owns the board, and each operation changes it where it stands (`recorded::make`). answering.rt has an answer in bytes, lending.rt replays into
// lent bytes of any length.
#![tactic(auto)]

mod answering;
pub mod lending;

ghost use Rattle.std.specs.Prelude.{◌≡◌, ◌+◌, ◌-◌, ◌*◌, ◌≤◌, length};
ghost use Rattle.board.specs.Answer.{reply_of};
ghost use Rattle.line.specs.Line.{line_room};
ghost use Rattle.line.specs.Said.{sentence_text};
ghost use Rattle.trace.specs.Judgement.{sound};
ghost use Rattle.trace.specs.Trace.{operations_from, trace_of};
ghost use Rattle.trace.specs.Inner.{soundness};
ghost use Rattle.runner.specs.Printed.{said, room_of, printed_trace, printed, Prints};
ghost use Rattle.runner.specs.Inner.{to_tell, found_from, Puts, Tells};
ghost use Rattle.io.specs.Counts.{IsPrefixLen};

use board::Board;
pub use lending::{answers_into, replay_into};
use line::LINE_ROOM;
use line::sentence::Sentence;
use recorded::Made;
use time::SystemTicks;
use trace::MOST_OPERATIONS;
use trace::head::Head;

// Room for what is printed of every trace: a line for the head, for each operation and for the end.
pub const TEXT_ROOM: usize = LINE_ROOM * (MOST_OPERATIONS as usize + 2);

// What is said of each operation: its line, its answer in bytes, or nothing.
#[derive(Clone, Copy)]
pub enum Form {
    Lines,
    Answers,
    Silent,
}

// The board after the operations, and the place behind what was said of them.
#[derive(Clone, Copy)]
pub struct Told {
    pub board: Board,
    pub place: usize,
}

// The line of a sentence, put at a place.
pub fn put_sentence(out: &mut [u8], place: usize, sentence: Sentence) -> usize
    ensures { Puts (sentence_text sentence) line_room out.old place result out.new }
{
    let line = line::line_of(sentence);
    text::put(out, place, line.as_bytes())
}

// What is said of an operation, put behind what was said before.
fn say(form: Form, out: &mut [u8], place: usize, index: u32, made: Made, left: SystemTicks) -> usize
    ensures { Puts (said form index (reply_of made.answer) made.events left.0) (room_of form) out.old place result out.new }
{
    let Made { answer, events } = made;
    match form {
        Form::Lines => put_sentence(
            out,
            place,
            Sentence::Operation {
                index,
                answer,
                events,
                left,
            },
        ),
        Form::Answers => {
            let bytes = answering::trace_answer_bytes(answer, events, left);
            text::put(out, place, &bytes)
        }
        Form::Silent => place,
    }
}

// What is said of the operations from the first index up to the last, which is not told of any more, and the board after them. A replay from the start begins at 0, one
// from a checkpoint at the operation behind it.
pub fn tell(
    form: Form,
    trace: &[u8],
    start: Board,
    first: u32,
    last: u32,
    out: &mut [u8],
    place: usize,
) -> Told
    ensures { Tells form first (last - first) (found_from trace.now first (last - first)) start place out.old result out.new }
{
    let mut board = start;
    let mut at = place;
    for index in first..last {
        let made = recorded::make(&mut board, trace::operation_in(trace, index));
        at = say(form, out, at, index, made, board.remainder);
    }
    Told { board, place: at }
}

fn replay_sound(trace: &[u8], head: Head, out: &mut [u8]) -> usize
    requires operations_value { soundness (operations_from trace.now 0 head.operations) ≡ sound tt }
    requires operations_bound { head.operations ≤ 4096 }
    requires operations_in_bounds { line_room * (head.operations + 2) ≤ length out.old }
    ensures { Prints (printed_trace (trace_of head (to_tell trace.now 0 head.operations))) out.old result out.new }
{
    let board = Board::new(head.model, head.divisor).board;
    let place = put_sentence(out, 0, Sentence::Head(head.model, head.divisor));
    let told = tell(Form::Lines, trace, board, 0, head.operations, out, place);
    put_sentence(out, told.place, Sentence::End(head.operations))
}

// How many bytes are printed. They stand at the front; the rest stays as it was.
pub fn replay(trace: &[u8], out: &mut [u8; TEXT_ROOM]) -> usize
    ensures prints { Prints (printed trace.now) out.old result out.new }
    ensures prefix_len { IsPrefixLen result out.new }
{
    match trace::judge(trace) {
        Err(fault) => put_sentence(out, 0, Sentence::Fault(fault)),
        Ok(head) => replay_sound(trace, head, out),
    }
}

// What a line can say, and the line that says it.
ghost use Rattle.std.specs.Prelude.{◌≡◌, ◌≤◌, length};
ghost use Rattle.line.specs.Line.{line_room};
ghost use Rattle.line.specs.Said.{sentence_text};

use crate::{Line, checked_line, end_line, fault_line, head_line, operation_line};
use board::Answer;
use channel::PitType;
use refusal::Refusal;
use time::SystemTicks;
use trace::Fault;

#[derive(Clone, Copy)]
pub enum Sentence {
    // Model and divisor.
    Head(PitType, u32),
    Operation {
        index: u32,
        answer: Result<Answer, Refusal>,
        // The lent event bytes after the operation, in six places, and the remainder after it.
        events: [u8; 6],
        left: SystemTicks,
    },
    // How many operations there were.
    End(u32),
    // Why a trace is refused, and where.
    Fault(Fault),
    // How many checkpoints are right.
    Checked(u32),
}

pub fn line_of(sentence: Sentence) -> Line
    ensures says { result ≡ sentence_text sentence }
    ensures fits { length (sentence_text sentence) ≤ line_room }
{
    match sentence {
        Sentence::Head(model, divisor) => head_line(model, divisor),
        Sentence::Operation {
            index,
            answer,
            events,
            left,
        } => operation_line(index, answer, events, left),
        Sentence::End(number) => end_line(number),
        Sentence::Fault(fault) => fault_line(fault),
        Sentence::Checked(number) => checked_line(number),
    }
}

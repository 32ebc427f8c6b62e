// An operation's answer in bytes: docs/ENCODING.md, "The answers of a trace".
ghost use Rattle.std.specs.Prelude.{◌≡◌};
ghost use Rattle.board.specs.Answer.{reply_of};
ghost use Rattle.runner.specs.Answers.{read_number, bytes_written, said_in, trace_answer_bytes};

use board::{Answer, PortRead};
use refusal::Refusal;
use time::SystemTicks;

// The refusal's number, how many event bytes were written, six event bytes, and two numbers.
pub(crate) const TRACE_ANSWER_SIZE: usize = 1 + 1 + 6 + 4 + 4;

// The refusal's number, how many event bytes were written, and what was read, the ticks yielded or the ticks made; each 0 where there is none.
#[derive(Clone, Copy)]
pub struct Said {
    pub refusal: u8,
    pub written: u8,
    pub value: u32,
}

fn saying(written: u8, value: u32) -> Said
    ensures { result ≡ record { refusal = 0; written = written; value = value } }
{
    Said {
        refusal: 0,
        written,
        value,
    }
}

// The byte, which half it is, and whether it was held, each in a byte of its own.
fn read_number(read: PortRead) -> u32
    ensures { result ≡ read_number read }
{
    let half = read.label.half_number();
    u32::from_le_bytes([read.byte, half, u8::from(read.label.held), 0])
}

// The events were lent at place 0, so as many bytes were written as the new place says. No more than six are lent.
fn bytes_written(at: usize) -> u8
    ensures { result ≡ bytes_written at }
{
    at.min(6) as u8
}

fn said_in(answer: Result<Answer, Refusal>) -> Said
    ensures { result ≡ said_in (reply_of answer) }
{
    match answer {
        Err(refusal) => Said {
            refusal: refusal.number(),
            written: 0,
            value: 0,
        },
        Ok(Answer::Place(at)) => saying(bytes_written(at), 0),
        Ok(Answer::Byte(read)) => saying(0, read_number(read)),
        Ok(Answer::Ticks(yielded)) => saying(0, yielded.0),
        Ok(Answer::Worked(worked)) => saying(bytes_written(worked.place), worked.made.0),
        // Of these only `Done` answers an operation of a trace.
        Ok(
            Answer::Done
            | Answer::OutputState(_)
            | Answer::Count(_)
            | Answer::Retriggers(_)
            | Answer::Dirty(_),
        ) => saying(0, 0),
    }
}

#[tactic(auto, unfolding(crate::specs::Answers::trace_answer_bytes))]
pub(crate) fn trace_answer_bytes(
    answer: Result<Answer, Refusal>,
    events: [u8; 6],
    left: SystemTicks,
) -> [u8; TRACE_ANSWER_SIZE]
    ensures { result ≡ trace_answer_bytes (reply_of answer) events left.0 }
{
    let said = said_in(answer);
    let [e0, e1, e2, e3, e4, e5] = events;
    let [v0, v1, v2, v3] = numbers::four_bytes(said.value);
    let [r0, r1, r2, r3] = numbers::four_bytes(left.0);
    [
        said.refusal,
        said.written,
        e0,
        e1,
        e2,
        e3,
        e4,
        e5,
        v0,
        v1,
        v2,
        v3,
        r0,
        r1,
        r2,
        r3,
    ]
}

// What an operation on a board answers, in numbers.
ghost use Rattle.std.specs.Prelude.{◌≡◌};
ghost use Rattle.numbers.specs.Flags.{flag_number};
ghost use Rattle.board.specs.Answer.{value_of, reply_of};
ghost use Rattle.board_operation.specs.Made.{read_numbers, value_numbers, numbers_of, numbered};

use board::{Answer, PortRead};
use refusal::Refusal;

// The refusal's number, or 0 and what the operation answers; 0 where it does not. The refusal is a number beside the others and no error: the contracts of `saying` and
// `numbers_of` are equations on all four, and a number said beside a refusal is one of the mistakes that they refuse.
#[derive(Clone, Copy, Debug, PartialEq, Eq)]
pub struct Numbers {
    pub refusal: u8,
    pub first: u64,
    pub second: u32,
    pub third: u32,
}

pub fn saying(first: u64, second: u32, third: u32) -> Numbers
    ensures { result ≡ numbered 0 first second third }
{
    Numbers {
        refusal: 0,
        first,
        second,
        third,
    }
}

// The byte, which half it is, and whether it was held.
fn read_numbers(read: PortRead) -> Numbers
    ensures { result ≡ read_numbers read }
{
    saying(
        u64::from(read.byte),
        u32::from(read.label.half_number()),
        u32::from(read.label.held),
    )
}

fn value_numbers(answer: Answer) -> Numbers
    ensures { result ≡ value_numbers (value_of answer) }
{
    match answer {
        Answer::Done => saying(0, 0, 0),
        Answer::Place(at) => saying(at as u64, 0, 0),
        Answer::Byte(read) => read_numbers(read),
        Answer::Ticks(ticks) => saying(u64::from(ticks.0), 0, 0),
        Answer::OutputState(level) => saying(u64::from(level), 0, 0),
        Answer::Count(count) => saying(
            u64::from(count.count_register),
            u32::from(count.counting_element),
            u32::from(count.counting),
        ),
        Answer::Retriggers(answer) => saying(u64::from(answer), 0, 0),
        Answer::Dirty(marks) => saying(
            u64::from(marks.dirty),
            u32::from(marks.counting),
            u32::from(marks.ticked),
        ),
        Answer::Worked(work) => saying(work.place as u64, work.made.0, 0),
    }
}

pub fn numbers_of(answer: Result<Answer, Refusal>) -> Numbers
    ensures { result ≡ numbers_of (reply_of answer) }
{
    match answer {
        Ok(answer) => value_numbers(answer),
        Err(refusal) => Numbers {
            refusal: refusal.number(),
            first: 0,
            second: 0,
            third: 0,
        },
    }
}

// Refusals, operations and faults in English words, by value: for a person who gets a number, or bytes.
#![tactic(auto)]

pub mod faults;
mod operations;
mod refusals;
mod rules;
mod there;

ghost use Rattle.std.specs.Prelude.{◌≡◌, ◌++◌, ◌+◌, ◌≤◌, length};
ghost use Rattle.text.specs.Number.{decimal};
ghost use Rattle.line.specs.Line.{line_room};
ghost use Rattle.words.specs.Inner.{number_room};

pub use faults::{FAULT_ROOM, FaultSentence, fault_sentence};
use line::Line;
pub use operations::operation_words;
pub use refusals::{refusal_words, words_of};

// A text as a line.
fn said(text: &[u8]) -> Line
    requires { length text.now ≤ line_room }
    ensures { result ≡ text.now }
{
    let mut line = Line::new();
    line.push(text);
    line
}

// A number as a line, with text in front of it and behind it.
fn said_number(front: &[u8], number: u32, behind: &[u8]) -> Line
    requires { length front.now + number_room + length behind.now ≤ line_room }
    ensures says { result ≡ front.now ++ decimal number ++ behind.now }
    ensures fits { length (front.now ++ decimal number ++ behind.now) ≤ line_room }
{
    let mut line = Line::new();
    line.push(front);
    line.push_decimal(u64::from(number));
    line.push(behind);
    line
}

// The lines of a replay, by value: document 01, "Recorded traces".
#![tactic(auto)]

pub mod operation;
pub mod sentence;

ghost use Rattle.std.specs.Prelude.{◌≡◌, ◌++◌, ◌≤◌, length, take};
ghost use Rattle.text.specs.Ascii.{ascii};
ghost use Rattle.text.specs.Number.{decimal};
ghost use Rattle.trace.specs.Answer.{fault_of};
ghost use Rattle.line.specs.Line.{line_room};
ghost use Rattle.line.specs.Inner.{within_room};
ghost use Rattle.line.specs.Lines.{newline, model_name, head_line, end_line, checked_line, within_text, fault_line};

use channel::PitType;
pub use operation::operation_line;
pub use sentence::line_of;
use text::Text;
use trace::Fault;

// No line has more bytes.
pub const LINE_ROOM: usize = 64;

pub type Line = Text<LINE_ROOM>;

fn model_name(model: PitType) -> [u8; 4]
    ensures { result ≡ model_name model }
{
    match model {
        PitType::Model8253 => *b"8253",
        PitType::Model8254 => *b"8254",
    }
}

pub fn head_line(model: PitType, divisor: u32) -> Line
    ensures says { result ≡ head_line model divisor }
    ensures fits { length (head_line model divisor) ≤ line_room }
{
    let mut line = Line::new();
    line.push(b"pit ");
    line.push(&model_name(model));
    line.push(b" divisor ");
    line.push_decimal(u64::from(divisor));
    line.push(b"\n");
    line
}

// A word and a number.
fn numbered_line(word: &[u8], number: u32) -> Line
    requires { length word.now ≤ 8 }
    ensures says { result ≡ word.now ++ decimal number ++ newline }
    ensures fits { length (word.now ++ decimal number ++ newline) ≤ line_room }
{
    let mut line = Line::new();
    line.push(word);
    line.push_decimal(u64::from(number));
    line.push(b"\n");
    line
}

#[tactic(auto, unfolding(crate::specs::Lines::end_line))]
pub fn end_line(number: u32) -> Line
    ensures says { result ≡ end_line number }
    ensures fits { length (end_line number) ≤ line_room }
{
    numbered_line(b"end ", number)
}

#[tactic(auto, unfolding(crate::specs::Lines::checked_line))]
pub fn checked_line(number: u32) -> Line
    ensures says { result ≡ checked_line number }
    ensures fits { length (checked_line number) ≤ line_room }
{
    numbered_line(b"checked ", number)
}

fn push_within(line: &mut Line, operation: Option<u32>)
    ensures says { line.new ≡ take line_room (line.old ++ within_text operation) }
    ensures fits { length (within_text operation) ≤ within_room }
{
    match operation {
        None => line.push(b""),
        Some(index) => {
            line.push(b" operation ");
            line.push_decimal(u64::from(index));
        }
    }
}

pub fn fault_line(fault: Fault) -> Line
    ensures says { result ≡ fault_line (fault_of fault) }
    ensures fits { length (fault_line (fault_of fault)) ≤ line_room }
{
    let mut line = Line::new();
    line.push(b"trace refused ");
    line.push_decimal(u64::from(fault.refusal.number()));
    line.push(b" at ");
    line.push_decimal(fault.place as u64);
    push_within(&mut line, fault.operation);
    line.push(b"\n");
    line
}

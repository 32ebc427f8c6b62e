// A fault of a trace as a sentence: where it stands, the rule that is broken (rules.rt), and what stands there (there.rt).
ghost use Rattle.std.specs.Prelude.{◌≡◌, ◌++◌, ◌≤◌, length, take};
ghost use Rattle.line.specs.Line.{line_room};
ghost use Rattle.trace.specs.Answer.{fault_of};
ghost use Rattle.words.specs.Faults.{which_words, where_words, fault_sentence, fault_room};
ghost use Rattle.words.specs.Inner.{which_room, where_room};

use crate::rules::{code_in, rule_words};
use crate::there::there_words;
use line::Line;
use text::Text;
use trace::Fault;

// No sentence has more bytes.
pub const FAULT_ROOM: usize = 160;

pub type FaultSentence = Text<FAULT_ROOM>;

fn push_which(line: &mut Line, operation: Option<u32>)
    ensures says { line.new ≡ take line_room (line.old ++ which_words operation) }
    ensures fits { length (which_words operation) ≤ which_room }
{
    match operation {
        None => line.push(b""),
        Some(index) => {
            line.push(b"operation ");
            line.push_decimal(u64::from(index));
            line.push(b", ");
        }
    }
}

fn where_words(operation: Option<u32>, place: usize) -> Line
    ensures says { result ≡ where_words operation place }
    ensures fits { length (where_words operation place) ≤ where_room }
{
    let mut line = Line::new();
    push_which(&mut line, operation);
    line.push(b"byte ");
    line.push_decimal(place as u64);
    line.push(b": ");
    line
}

// The fault may be any, and of any trace: what the trace does not have is not shown.
pub fn fault_sentence(trace: &[u8], fault: Fault) -> FaultSentence
    ensures says { result ≡ fault_sentence trace.now (fault_of fault) }
    ensures fits { length (fault_sentence trace.now (fault_of fault)) ≤ fault_room }
{
    let lead = where_words(fault.operation, fault.place);
    let rule = rule_words(fault.refusal, code_in(trace, fault.operation));
    let there = there_words(fault.refusal, trace, fault.place);
    let mut sentence = FaultSentence::new();
    sentence.push(lead.as_bytes());
    sentence.push(rule.as_bytes());
    sentence.push(there.as_bytes());
    sentence.push(b"\n");
    sentence
}

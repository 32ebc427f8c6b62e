// What stands at a place of a trace.
ghost use Rattle.std.specs.Prelude.{◌≡◌, ◌≤◌, length};
ghost use Rattle.refusal.specs.Refusal.{refusal_number};
ghost use Rattle.words.specs.Faults.{byte_there, number_there, there_words};
ghost use Rattle.words.specs.Inner.{there_room};

use crate::said;
use line::Line;
use numbers::number_at;
use refusal::Refusal;

fn byte_there(text: &[u8], trace: &[u8], place: usize) -> Line
    requires { length text.now ≤ 15 }
    ensures says { result ≡ byte_there text.now trace.now place }
    ensures fits { length (byte_there text.now trace.now place) ≤ there_room }
{
    let mut line = Line::new();
    if place < trace.len() {
        line.push(text);
        line.push_decimal(u64::from(trace[place]));
    }
    line
}

// The place may be any: its end is not computed, since it can be past the largest number.
fn number_there(trace: &[u8], place: usize) -> Line
    ensures says { result ≡ number_there trace.now place }
    ensures fits { length (number_there trace.now place) ≤ there_room }
{
    let mut line = Line::new();
    if 4 <= trace.len().saturating_sub(place) {
        line.push(b"; here it is ");
        line.push_decimal(u64::from(number_at(trace, place)));
    }
    line
}

#[tactic(auto, unfolding(crate::specs::Faults::there_words))]
pub(crate) fn there_words(refusal: Refusal, trace: &[u8], place: usize) -> Line
    ensures says { result ≡ there_words (refusal_number refusal) trace.now place }
    ensures fits { length (there_words (refusal_number refusal) trace.now place) ≤ there_room }
{
    match refusal {
        Refusal::TraceEnds => said(b"; here the trace ends"),
        Refusal::BytesAfter => byte_there(b"; the first is ", trace, place),
        // A byte.
        Refusal::UnknownCode | Refusal::TargetNotZero => byte_there(b"; here it is ", trace, place),
        // A number.
        Refusal::SettingsCount
        | Refusal::TooManyOperations
        | Refusal::CheckpointCount
        | Refusal::NumberNotZero
        | Refusal::TooLarge => number_there(trace, place),
        _ => Line::new(),
    }
}

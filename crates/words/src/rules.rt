// The rule of a trace that is broken. Three refusals stand for several rules each, which the operation's code, the byte that the trace has, tells apart.
ghost use Rattle.std.specs.Prelude.{◌≡◌, ◌≤◌, length};
ghost use Rattle.refusal.specs.Refusal.{refusal_number};
ghost use Rattle.line.specs.Line.{line_room};
ghost use Rattle.words.specs.Refusals.{words_in, refusal_words};
ghost use Rattle.words.specs.Faults.{target_rows, zero_rows, size_rows, rule_words, code_in};

use crate::refusals::refusal_words;
use crate::said;
use line::Line;
use refusal::Refusal;
use trace::operation::place_of;

#[tactic(auto, unfolding(crate::specs::Refusals::refusal_words))]
fn target_words(code: u8) -> Line
    ensures says { result ≡ words_in target_rows code (refusal_words 19) }
    ensures fits { length (words_in target_rows code (refusal_words 19)) ≤ line_room }
{
    match code {
        6 => said(b"a catch-up's target is 0"),
        7 => said(b"a run's target is 0"),
        8 => said(b"a reset's target is 0"),
        9 => said(b"a work-off's target is 0"),
        _ => refusal_words(Refusal::TargetNotZero),
    }
}

#[tactic(auto, unfolding(crate::specs::Refusals::refusal_words))]
fn zero_words(code: u8) -> Line
    ensures says { result ≡ words_in zero_rows code (refusal_words 20) }
    ensures fits { length (words_in zero_rows code (refusal_words 20)) ≤ line_room }
{
    match code {
        2 => said(b"a port read's number is 0"),
        5 => said(b"a load cycle's number is 0"),
        8 => said(b"a reset's number is 0"),
        _ => refusal_words(Refusal::NumberNotZero),
    }
}

#[tactic(auto, unfolding(crate::specs::Refusals::refusal_words))]
fn size_words(code: u8) -> Line
    ensures says { result ≡ words_in size_rows code (refusal_words 21) }
    ensures fits { length (words_in size_rows code (refusal_words 21)) ≤ line_room }
{
    match code {
        0 => said(b"the model is 0 or 1"),
        1 => said(b"a written byte is at most 255"),
        3 => said(b"a gate's level is 0 or 1"),
        _ => refusal_words(Refusal::TooLarge),
    }
}

#[tactic(auto, unfolding(crate::specs::Faults::rule_words))]
pub(crate) fn rule_words(refusal: Refusal, code: u8) -> Line
    ensures says { result ≡ rule_words (refusal_number refusal) code }
    ensures fits { length (rule_words (refusal_number refusal) code) ≤ line_room }
{
    match refusal {
        Refusal::TargetNotZero => target_words(code),
        Refusal::NumberNotZero => zero_words(code),
        Refusal::TooLarge => size_words(code),
        _ => refusal_words(refusal),
    }
}

// The index may be any: what is past the end reads as 0.
pub(crate) fn code_in(trace: &[u8], operation: Option<u32>) -> u8
    ensures { result ≡ code_in trace.now operation }
{
    let Some(index) = operation else {
        return 0;
    };
    let place = place_of(index);
    if trace.len() <= place {
        return 0;
    }
    trace[place]
}

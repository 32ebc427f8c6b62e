// The line of an operation: its index, and what it answered.
ghost use Rattle.std.specs.Prelude.{◌≡◌, ◌+◌, ◌≤◌, ◌++◌, length, take};
ghost use Rattle.board.specs.Answer.{reply_of};
ghost use Rattle.line.specs.Line.{line_room};
ghost use Rattle.line.specs.Inner.{answer_room, event_room};
ghost use Rattle.line.specs.Lines.{refused_text, half_text, held_text, read_text, ticks_text, out_text, event_text, made_text, answer_text, operation_line};

use crate::Line;
use board::{Answer, PortRead, Worked};
use latch::Half;
use refusal::Refusal;
use time::{SystemTicks, TimerTicks};

fn push_refused(line: &mut Line, number: u8)
    ensures says { line.new ≡ take line_room (line.old ++ refused_text number) }
    ensures fits { length (refused_text number) ≤ answer_room }
{
    line.push(b"refused ");
    line.push_decimal(u64::from(number));
}

fn push_half(line: &mut Line, half: Option<Half>)
    ensures says { line.new ≡ take line_room (line.old ++ half_text half) }
{
    match half {
        Some(Half::Low) => line.push(b" low"),
        Some(Half::High) => line.push(b" high"),
        None => line.push(b" none"),
    }
}

fn push_held(line: &mut Line, held: bool)
    ensures says { line.new ≡ take line_room (line.old ++ held_text held) }
{
    if held {
        line.push(b" held");
    } else {
        line.push(b" live");
    }
}

fn push_read(line: &mut Line, read: PortRead)
    ensures says { line.new ≡ take line_room (line.old ++ read_text read) }
    ensures fits { length (read_text read) ≤ answer_room }
{
    line.push(b"read ");
    line.push_hex(read.byte);
    push_half(line, read.label.half);
    push_held(line, read.label.held);
}

fn push_ticks(line: &mut Line, number: TimerTicks, left: SystemTicks)
    ensures says { line.new ≡ take line_room (line.old ++ ticks_text number.0 left.0) }
    ensures fits { length (ticks_text number.0 left.0) ≤ answer_room }
{
    line.push(b"ticks ");
    line.push_decimal(u64::from(number.0));
    line.push(b" left ");
    line.push_decimal(u64::from(left.0));
}

fn push_out(line: &mut Line, events: [u8; 6])
    ensures says { line.new ≡ take line_room (line.old ++ out_text events) }
    ensures fits { length (out_text events) ≤ answer_room }
{
    line.push(b"out ");
    line.push_decimal(u64::from(events[0]));
    line.push(b" ");
    line.push_decimal(u64::from(events[1]));
}

// The event at a place of the lent bytes, if it was written: the new place says how many bytes were.
fn push_event(line: &mut Line, written: usize, at: usize, events: [u8; 6])
    requires { at + 2 ≤ 6 }
    ensures says { line.new ≡ take line_room (line.old ++ event_text written at events) }
    ensures fits { length (event_text written at events) ≤ event_room }
{
    if at < written {
        line.push(b" out ");
        line.push_decimal(u64::from(events[at]));
        line.push(b" ");
        line.push_decimal(u64::from(events[at + 1]));
    } else {
        line.push(b"");
    }
}

fn push_made(line: &mut Line, worked: Worked, events: [u8; 6])
    ensures says { line.new ≡ take line_room (line.old ++ made_text worked.made.0 worked.place events) }
    ensures fits { length (made_text worked.made.0 worked.place events) ≤ answer_room }
{
    line.push(b"made ");
    line.push_decimal(u64::from(worked.made.0));
    push_event(line, worked.place, 0, events);
    push_event(line, worked.place, 2, events);
    push_event(line, worked.place, 4, events);
}

fn push_answer(line: &mut Line, answer: Result<Answer, Refusal>, events: [u8; 6], left: SystemTicks)
    ensures says { line.new ≡ take line_room (line.old ++ answer_text (reply_of answer) events left.0) }
    ensures fits { length (answer_text (reply_of answer) events left.0) ≤ answer_room }
{
    match answer {
        Err(refusal) => push_refused(line, refusal.number()),
        Ok(Answer::Byte(read)) => push_read(line, read),
        Ok(Answer::Ticks(number)) => push_ticks(line, number, left),
        Ok(Answer::Place(at)) => {
            if at == 0 {
                line.push(b"ok");
            } else {
                push_out(line, events);
            }
        }
        Ok(Answer::Worked(worked)) => push_made(line, worked, events),
        Ok(
            Answer::Done
            | Answer::OutputState(_)
            | Answer::Count(_)
            | Answer::Retriggers(_)
            | Answer::Dirty(_),
        ) => line.push(b"ok"),
    }
}

// The events are the bytes that were lent, as the operation left them, in six places; left is the remainder after it.
pub fn operation_line(
    index: u32,
    answer: Result<Answer, Refusal>,
    events: [u8; 6],
    left: SystemTicks,
) -> Line
    ensures says { result ≡ operation_line index (reply_of answer) events left.0 }
    ensures fits { length (operation_line index (reply_of answer) events left.0) ≤ line_room }
{
    let mut line = Line::new();
    line.push_decimal(u64::from(index));
    line.push(b" ");
    push_answer(&mut line, answer, events, left);
    line.push(b"\n");
    line
}

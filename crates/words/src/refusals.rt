// The words of a refusal.
ghost use Rattle.std.specs.Prelude.{◌≡◌, ◌≤◌, length};
ghost use Rattle.refusal.specs.Refusal.{refusal_number};
ghost use Rattle.line.specs.Line.{line_room};
ghost use Rattle.words.specs.Refusals.{refusal_words};

use crate::said;
use line::Line;
use refusal::Refusal;

// Of a number that no refusal has there are no words. Any number may be asked for, so the table goes by numbers.
#[tactic(auto, unfolding(crate::specs::Refusals::refusal_words))]
pub fn words_of(number: u8) -> Line
    ensures says { result ≡ refusal_words number }
    ensures fits { length (refusal_words number) ≤ line_room }
{
    match number {
        1 => said(b"the port is not 40 to 43"),
        2 => said(b"the channel is not 0, 1 or 2"),
        3 => said(b"the divisor is 0"),
        4 => said(b"fewer ticks are given than were already caught up"),
        5 => said(b"the ticks to divide are more than 4294967295"),
        7 => said(b"the event place is past the end of the event bytes"),
        8 => said(b"an event is due and fewer than 2 event bytes are left"),
        9 => said(b"a field, an operation or a board is not wholly there"),
        10 => said(b"the settings count is not 2"),
        11 => said(b"there are more than 4096 operations"),
        12 => said(b"the operation code is not 1 to 9"),
        13 => said(b"bytes follow the last section"),
        15 => said(b"more than 65536 ticks are asked for"),
        16 => said(b"ticks are still owed"),
        17 => said(b"the checkpoint count is not one for each 256 operations"),
        18 => said(b"the checkpoint is missing, unreadable or not the board there"),
        19 => said(b"the target is not 0 where it must be"),
        20 => said(b"the number is not 0 where it must be"),
        21 => said(b"the number or the model is too large"),
        _ => Line::new(),
    }
}

pub fn refusal_words(refusal: Refusal) -> Line
    ensures says { result ≡ refusal_words (refusal_number refusal) }
    ensures fits { length (refusal_words (refusal_number refusal)) ≤ line_room }
{
    words_of(refusal.number())
}

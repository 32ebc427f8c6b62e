// What a turn does to a board, where the board stands.
ghost use Rattle.std.specs.Prelude.{◌<◌, ◌||◌, [], ◌≡◌};
ghost use Rattle.board.specs.Answer.{outcome};
ghost use Rattle.board.specs.Making.{restored};
ghost use Rattle.clock.specs.Clock.{elapse};
ghost use Rattle.owed.specs.Worked.{work_off};
ghost use Rattle.ports.specs.ReadBacks.{read_back_write};
ghost use Rattle.turn.specs.Turn.{work_on, done_on};

use crate::finding::{Turn, Work};
use crate::working::work_on;
use board::{Answer, Board};
use clock::Clock;
use control::ReadBackWord;
use ports::reading_back;
use refusal::Refusal;
use time::SystemTicks;

#[inline(always)]
fn on_channel(
    b: &mut Board,
    n: u8,
    work: Work,
    events: &mut [u8],
    place: usize,
) -> Result<Answer, Refusal>
    requires { n < 3 }
    ensures { outcome (record { answer = result; board = b.new }) events.new ≡ work_on b.old n work events.old place }
{
    let c = &mut b.channels[usize::from(n)];
    work_on(c, n, work, b.model, b.defer, events, place)
}

fn elapse(
    b: &mut Board,
    given: SystemTicks,
    next: SystemTicks,
    defers: bool,
) -> Result<Answer, Refusal>
    ensures { outcome (record { answer = result; board = b.new }) [] ≡ elapse b.old given.0 next.0 (defers || b.old.defer) }
{
    let mut clock = Clock {
        divisor: b.divisor,
        remainder: b.remainder,
        warp: b.warp,
        defer: b.defer,
        owed: b.owed,
    };
    let answer = clock.elapse(given, next, defers);
    b.divisor = clock.divisor;
    b.remainder = clock.remainder;
    b.warp = clock.warp;
    b.defer = clock.defer;
    b.owed = clock.owed;
    answer
}

// No tick is owed, or the reset would have been refused.
#[tactic(auto, unfolding(board::specs::Making::restored))]
fn restore(b: &mut Board)
    ensures { b.new ≡ restored b.old }
{
    let [c0, c1, c2] = b.channels;
    b.channels = [c0.reset(), c1.reset(), c2.reset()];
}

// At most the stated number of owed ticks, each with all of its events or not at all. Refusals 7 and 15.
fn work_off(b: &mut Board, stated: u32, events: &mut [u8], place: usize) -> Result<Answer, Refusal>
    ensures { outcome (record { answer = result; board = b.new }) events.new ≡ work_off b.old stated events.old place }
{
    owed::work_channels(&mut b.channels, b.model, &mut b.owed, stated, events, place)
}

// Up to three channels at once. Refusal 7.
fn read_back(
    b: &mut Board,
    word: ReadBackWord,
    events: &mut [u8],
    place: usize,
) -> Result<Answer, Refusal>
    ensures { outcome (record { answer = result; board = b.new }) events.new ≡ read_back_write b.old word events.old place }
{
    reading_back::read_back_three(word, &mut b.channels, events, place)
}

// A turn done to the board. No finder finds a channel above 2; one is refused all the same, so that every turn has its answer.
// Inlined, as the work on a channel is: a loop over operations takes twice as long where the turn and the answer are handed on in memory.
#[inline(always)]
pub fn on_board(
    b: &mut Board,
    turn: Turn,
    events: &mut [u8],
    place: usize,
) -> Result<Answer, Refusal>
    ensures { outcome (record { answer = result; board = b.new }) events.new ≡ done_on b.old turn events.old place }
{
    match turn {
        Turn::OnChannel(n, work) => {
            if 2 < n {
                return Err(Refusal::ChannelAbove2);
            }
            on_channel(b, n, work, events, place)
        }
        Turn::Elapse(given, next, defers) => elapse(b, given, next, defers),
        Turn::Reset => {
            restore(b);
            Ok(Answer::Done)
        }
        Turn::WorkOff(stated) => work_off(b, stated, events, place),
        Turn::ReadBack(word) => read_back(b, word, events, place),
        Turn::Untouched => ports::untouched(events, place),
        Turn::Say(answer) => Ok(answer),
    }
}

// The board's record, a fresh one, and what a host can ask of it. The calls that change it are the crate calls'.
#![tactic(auto)]

pub mod making;
pub mod queries;

ghost use Rattle.std.specs.Prelude.{◌≡◌};
ghost use Rattle.board.specs.Answer.{refused_by};

use channel::queries::ChannelCount;
use channel::{Channel, PitType};
use latch::Label;
use refusal::Refusal;
use time::{SystemTicks, TimerTicks};

#[derive(Clone, Copy, Debug, PartialEq, Eq)]
pub struct Board {
    // A channel's place here is its number.
    pub channels: [Channel; 3],
    pub model: PitType,
    // System ticks to a timer tick.
    pub divisor: u32,
    // System ticks that have not made up a timer tick yet.
    pub remainder: SystemTicks,
    // The ticks that the last catch-up was given, which the next run must not take again; 0 after a run.
    pub warp: SystemTicks,
    // Set by a catch-up and never cleared: a complete load that enters the waiting state waits one load cycle longer.
    pub defer: bool,
    // Timer ticks that a run or catch-up has yielded and that have not been made yet.
    pub owed: TimerTicks,
}

// What a port read says: the byte, and of the byte which half it is and whether it was held.
#[derive(Clone, Copy, Debug, PartialEq, Eq)]
pub struct PortRead {
    pub byte: u8,
    pub label: Label,
}

// What working ticks off comes to: how many were made, and the new place in the event bytes.
#[derive(Clone, Copy, Debug, PartialEq, Eq)]
pub struct Worked {
    pub made: TimerTicks,
    pub place: usize,
}

// What is asked by `is_dirty`.
#[derive(Clone, Copy, Debug, PartialEq, Eq)]
pub struct DirtyMarks {
    pub dirty: bool,
    pub counting: bool,
    pub ticked: bool,
}

// What an accepted call answers: each call has its one case.
#[derive(Clone, Copy, Debug, PartialEq, Eq)]
pub enum Answer {
    // Counts, load cycle, reset, making a board.
    Done,
    // Port write and gate: the new place in the event bytes.
    Place(usize),
    Byte(PortRead),
    Ticks(TimerTicks),
    OutputState(bool),
    Count(ChannelCount),
    Retriggers(bool),
    Dirty(DirtyMarks),
    Worked(Worked),
}

// An answer, or why the call is refused, with the board beside it.
#[derive(Clone, Copy, Debug, PartialEq, Eq)]
pub struct Answered {
    pub answer: Result<Answer, Refusal>,
    pub board: Board,
}

impl Board {
    // A refused call hands the same board back.
    pub fn refuse(self, refusal: Refusal) -> Answered
        ensures { result ≡ refused_by refusal self }
    {
        Answered {
            answer: Err(refusal),
            board: self,
        }
    }
}

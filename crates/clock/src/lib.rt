// The board's time: system ticks come in, timer ticks come out. They are owed until they are worked off. No board goes in or out: an owner of one puts the fields back where
// they stood.
#![tactic(auto)]

ghost use Rattle.std.specs.Prelude.{◌||◌, ◌≡◌};
ghost use Rattle.board.specs.declared.Board.{Board};
ghost use Rattle.clock.specs.Clock.{elapse};
ghost use Rattle.clock.specs.Elapsed.{clock_of, elapsed_on};

use board::Answer;
use refusal::Refusal;
use time::{SystemTicks, TimerTicks};

// A board's fields of time.
#[derive(Clone, Copy, Debug, PartialEq, Eq)]
pub struct Clock {
    pub divisor: u32,
    pub remainder: SystemTicks,
    pub warp: SystemTicks,
    pub defer: bool,
    pub owed: TimerTicks,
}

impl Clock {
    // The ticks given, the warp after them and whether the defer flag is set. Where they are refused, all fields are as they were.
    //
    // A catch-up stands in the middle of an instruction: the chip is brought up to the processor, and the ticks given are the warp until the run. A run stands at its end: what a
    // catch-up has already taken of it is not taken twice, and the warp ends. Refusal 16 comes between 3 and the rest: a tick that is owed is made before more time passes.
    pub fn elapse(
        &mut self,
        given: SystemTicks,
        next: SystemTicks,
        defers: bool,
    ) -> Result<Answer, Refusal>
        ensures { (b : Board) → clock_of b ≡ self.old → elapsed_on b result self.new ≡ elapse b given.0 next.0 (defers || b.defer) }
    {
        if self.divisor == 0 {
            return Err(Refusal::DivisorZero);
        }
        if self.owed.0 != 0 {
            return Err(Refusal::TicksOwed);
        }
        let made = time::ticks_from_time(given, self.warp, self.remainder, self.divisor)?;
        self.remainder = made.remainder;
        self.warp = next;
        self.defer = defers || self.defer;
        self.owed = made.ticks;
        Ok(Answer::Ticks(made.ticks))
    }
}

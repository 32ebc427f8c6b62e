// The fresh board.
ghost use Rattle.std.specs.Prelude.{◌≡◌, []};
ghost use Rattle.board.specs.Answer.{outcome};
ghost use Rattle.board.specs.Making.{fresh, new};

use crate::{Answer, Answered, Board};
use channel::{Channel, PitType};
use refusal::Refusal;
use time::{SystemTicks, TimerTicks};

impl Board {
    #[tactic(auto, unfolding(crate::specs::Making::fresh))]
    fn fresh(model: PitType, divisor: u32) -> Board
        ensures { result ≡ fresh model divisor }
    {
        Board {
            channels: [Channel::fresh(); 3],
            model,
            divisor,
            remainder: SystemTicks(0),
            warp: SystemTicks(0),
            defer: false,
            owed: TimerTicks(0),
        }
    }

    // Refusal 3. The board beside it is the fresh one with divisor 0, whose time calls refuse with 3 too.
    #[tactic(auto, unfolding(crate::specs::Making::new))]
    pub fn new(model: PitType, divisor: u32) -> Answered
        ensures { outcome result [] ≡ new model divisor }
    {
        let board = Board::fresh(model, divisor);
        if divisor == 0 {
            return board.refuse(Refusal::DivisorZero);
        }
        Answered {
            answer: Ok(Answer::Done),
            board,
        }
    }
}

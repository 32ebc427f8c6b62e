// An operation of a trace made on a board, where the board stands.
ghost use Rattle.std.specs.Prelude.{◌≡◌, Ok};
ghost use Rattle.turn.specs.Inner.{OnBoard};
ghost use Rattle.recorded.specs.Asked.{padded};
ghost use Rattle.recorded.specs.Made.{make, made_on};
ghost use Rattle.recorded.specs.Inner.{lends_six, turned_in_six};

use crate::turn_of;
use board::{Answer, Board};
use refusal::Refusal;
use trace::operation::Operation;
use turn::finding::Turn;

// What an operation of a trace answers, and the lent bytes after it in six places.
#[derive(Clone, Copy)]
pub struct Made {
    pub answer: Result<Answer, Refusal>,
    pub events: [u8; 6],
}

// Two lent bytes in six places.
fn padded(events: [u8; 2]) -> [u8; 6]
    ensures { result ≡ padded events }
{
    [events[0], events[1], 0, 0, 0, 0]
}

// Two bytes are lent but for ticks worked off.
fn lends_six(turn: Turn) -> bool
    ensures { result ≡ lends_six turn }
{
    matches!(turn, Turn::WorkOff(_))
}

#[tactic(auto, using(turn::proofs::There::done_there))]
fn done(b: &mut Board, turn: Turn) -> Made
    requires { OnBoard turn }
    ensures { made_on b.new result ≡ turned_in_six b.old (Ok turn) }
{
    if lends_six(turn) {
        let mut six = [0; 6];
        let answer = turn::on_board(b, turn, &mut six, 0);
        return Made {
            answer,
            events: six,
        };
    }
    let mut two = [0; 2];
    let answer = turn::on_board(b, turn, &mut two, 0);
    Made {
        answer,
        events: padded(two),
    }
}

// A refused operation leaves the board as it is, and the bytes that were lent.
pub fn make(b: &mut Board, operation: Operation) -> Made
    ensures { made_on b.new result ≡ make b.old operation }
{
    match turn_of(operation, b.owed.0 != 0, b.model) {
        Ok(turn) => done(b, turn),
        Err(refusal) => Made {
            answer: Err(refusal),
            events: [0; 6],
        },
    }
}

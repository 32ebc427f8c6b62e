// Every call of the board by value: a board in, a board and an answer out.
//
// A call finds its turn (calling.rt) and has it done to the board where it stands (`turn::on_board`), so that by value and in a trace it is one body. A board in a host's bytes has the same parts (`in_bytes`).
#![tactic(auto)]

mod calling;

ghost use Rattle.std.specs.Prelude.{[], ◌≡◌, Result};
ghost use Rattle.refusal.specs.declared.Refusal.{Refusal};
ghost use Rattle.board.specs.Answer.{outcome};
ghost use Rattle.board.specs.Outcome.{Outcome};
ghost use Rattle.turn.specs.Inner.{Reaches, Bare};
ghost use Rattle.turn.specs.Turn.{taken};

use board::{Answered, Board};
pub use calling::{
    catch_up, counts, load_cycle, read_port, reset, run, set_channel_gate, work_off, write_port,
};
use refusal::Refusal;
use turn::finding::Turn;

// A turn that is found, or why it is refused.
#[tactic(auto, using(turn::proofs::There::done_there))]
fn take(b: Board, turn: Result<Turn, Refusal>, events: &mut [u8], place: usize) -> Answered
    requires { Reaches turn }
    ensures { outcome result events.new ≡ taken b turn events.old place }
{
    match turn {
        Ok(turn) => {
            let mut board = b;
            let answer = turn::on_board(&mut board, turn, events, place);
            Answered { answer, board }
        }
        Err(refusal) => b.refuse(refusal),
    }
}

// A call that lends no event bytes.
fn bare(b: Board, turn: Result<Turn, Refusal>) -> Answered
    requires { Reaches turn }
    ensures { (o : Outcome) (t : Result Turn Refusal) → turn ≡ t → Bare b o t → outcome result [] ≡ o }
{
    let mut none = [0u8; 1];
    take(b, turn, &mut none, 0)
}

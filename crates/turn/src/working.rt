// The work on one channel: its record changed where it stands, and the event of its output.
ghost use Rattle.std.specs.Prelude.{◌≡◌};
ghost use Rattle.board.specs.declared.Board.{Board};
ghost use Rattle.ports.specs.Settled.{settled_on};
ghost use Rattle.turn.specs.Turn.{HasChannel, work_on};

use crate::finding::Work;
use board::{Answer, PortRead};
use channel::{Channel, PitType};
use ports::settle;
use refusal::Refusal;

// On channel n of a board with this model and defer flag. The event bytes and the place in them are for a write, a latch, a mode set and a gate.
#[inline(always)]
pub fn work_on(
    c: &mut Channel,
    n: u8,
    work: Work,
    model: PitType,
    defer: bool,
    events: &mut [u8],
    place: usize,
) -> Result<Answer, Refusal>
    ensures { (b : Board) → HasChannel b n c.old model defer → settled_on b n result c.new events.new ≡ work_on b n work events.old place }
{
    match work {
        Work::Write(byte) => settle(n, c, load::write_byte(*c, byte, defer), events, place),
        Work::Latch => settle(n, c, latch::latch_count(*c), events, place),
        Work::SetMode(word) => settle(n, c, mode::set_mode(*c, word, model), events, place),
        Work::SetGate(level) => settle(n, c, gate::set_gate(*c, level), events, place),
        Work::Read => {
            let label = latch::label_of(*c);
            let got = latch::read_byte(*c);
            *c = got.channel;
            Ok(Answer::Byte(PortRead {
                byte: got.byte,
                label,
            }))
        }
        Work::Counts(number) => {
            *c = count::counts(*c, number);
            Ok(Answer::Done)
        }
        Work::LoadCycle => {
            *c = load::load_cycle(*c);
            Ok(Answer::Done)
        }
    }
}

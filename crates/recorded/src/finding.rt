// The turn of a recorded operation.
ghost use Rattle.turn.specs.Inner.{Finds};
ghost use Rattle.recorded.specs.Finding.{turn_of};

use channel::PitType;
use refusal::Refusal;
use trace::operation::Operation;
use turn::finding;
use turn::finding::Turn;

// For a board of a model that owes ticks, or owes none. Reads, counts and load cycles are the same on all.
#[tactic(auto, unfolding(crate::specs::Finding::turn_of))]
pub fn turn_of(operation: Operation, owing: bool, model: PitType) -> Result<Turn, Refusal>
    ensures { Finds (turn_of owing model operation) result }
{
    match operation {
        Operation::WritePort(port, byte) => finding::write_turn(
            u16::from(port),
            byte,
            owing,
            model,
        ),
        Operation::ReadPort(port) => finding::read_turn(u16::from(port)),
        Operation::SetChannelGate(channel, level) => {
            finding::gate_turn(usize::from(channel), level, owing)
        }
        Operation::Counts(channel, number) => finding::counts_turn(usize::from(channel), number),
        Operation::LoadCycle(channel) => finding::load_cycle_turn(usize::from(channel)),
        Operation::CatchUp(ticks) => Ok(finding::catch_up_turn(ticks)),
        Operation::Run(ticks) => Ok(finding::run_turn(ticks)),
        Operation::Reset => finding::reset_turn(owing),
        Operation::WorkOff(stated) => Ok(Turn::WorkOff(stated)),
    }
}

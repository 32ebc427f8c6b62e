// An operation of a host with the part of the board found that it is about. What a trace has too is found by `turn`.
ghost use Rattle.turn.specs.Inner.{Reaches};
ghost use Rattle.in_bytes.specs.Inner.{ask_part, turned_part, part_of, FindsPart};

use board_operation::Operation;
use channel::PitType;
use refusal::Refusal;
use turn::finding;
use turn::finding::Turn;

// What can be asked of a channel.
#[derive(Clone, Copy)]
pub enum Query {
    OutputState,
    ChannelCount,
    Retriggers,
    IsDirty,
}

#[derive(Clone, Copy)]
pub enum Part {
    Turned(Turn),
    // A channel of the board, and what is asked of it.
    Ask(u8, Query),
    TimerAccum,
}

// Refusal 2.
fn ask_part(channel: u16, query: Query) -> Result<Part, Refusal>
    ensures { FindsPart (ask_part channel query) result }
{
    if 2 < channel {
        return Err(Refusal::ChannelAbove2);
    }
    Ok(Part::Ask(channel as u8, query))
}

// A turn that is found is a part.
fn turned(turn: Result<Turn, Refusal>) -> Result<Part, Refusal>
    requires { Reaches turn }
    ensures { FindsPart (turned_part turn) result }
{
    Ok(Part::Turned(turn?))
}

// For a board of a model that owes ticks, or owes none.
#[tactic(auto, unfolding(crate::specs::Inner::part_of))]
pub fn part_of(operation: Operation, owing: bool, model: PitType) -> Result<Part, Refusal>
    ensures { FindsPart (part_of owing model operation) result }
{
    match operation {
        Operation::WritePort(port, byte) => turned(finding::write_turn(port, byte, owing, model)),
        Operation::ReadPort(port) => turned(finding::read_turn(port)),
        Operation::SetChannelGate(channel, level) => {
            turned(finding::gate_turn(usize::from(channel), level, owing))
        }
        Operation::Counts(channel, number) => {
            turned(finding::counts_turn(usize::from(channel), number))
        }
        Operation::LoadCycle(channel) => turned(finding::load_cycle_turn(usize::from(channel))),
        Operation::CatchUp(ticks) => turned(Ok(finding::catch_up_turn(ticks))),
        Operation::Run(ticks) => turned(Ok(finding::run_turn(ticks))),
        Operation::Reset => turned(finding::reset_turn(owing)),
        Operation::GetOutputState(channel) => ask_part(channel, Query::OutputState),
        Operation::GetChannelCount(channel) => ask_part(channel, Query::ChannelCount),
        Operation::DoesChannelRetrigger(channel) => ask_part(channel, Query::Retriggers),
        Operation::IsDirty(channel) => ask_part(channel, Query::IsDirty),
        Operation::GetTimerAccum => Ok(Part::TimerAccum),
        Operation::WorkOff(stated) => Ok(Part::Turned(Turn::WorkOff(stated))),
    }
}

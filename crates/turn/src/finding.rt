// An operation with its port or channel found. What is refused without a look at the channels is refused here, and what is refused while ticks are owed: of the board
// only that is asked, and its model. Every call, of whatever form, is found by these functions.
ghost use Rattle.control.specs.Control.{command_of};
ghost use Rattle.ports.specs.Port.{port_of};
ghost use Rattle.turn.specs.Finding.{command_turn, write_turn, read_turn, gate_turn, counts_turn, load_cycle_turn, catch_up_turn, run_turn, reset_turn};
ghost use Rattle.turn.specs.Inner.{Finds, FindsTurn};

use board::{Answer, PortRead};
use channel::{ControlWord, PitType};
use control::{Command, ReadBackWord};
use ports::port::{Port, port_of};
use refusal::Refusal;
use time::SystemTicks;

// What is done to one channel.
#[derive(Clone, Copy, Debug, PartialEq, Eq)]
pub enum Work {
    Write(u8),
    Latch,
    SetMode(ControlWord),
    SetGate(bool),
    Read,
    Counts(u32),
    LoadCycle,
}

#[derive(Clone, Copy, Debug, PartialEq, Eq)]
pub enum Turn {
    // A channel of the board, and the work on it.
    OnChannel(u8, Work),
    // The ticks given, the warp after them, and whether the defer flag is set.
    Elapse(SystemTicks, SystemTicks, bool),
    Reset,
    // How many owed ticks to work off at most.
    WorkOff(u32),
    // Counts and status of the channels named.
    ReadBack(ReadBackWord),
    // A command that does nothing; only the place in the event bytes is looked at.
    Untouched,
    // The board stays as it is.
    Say(Answer),
}

// The command is opened as document 01 names it: a mode set carries its fields, a latch its channel, a read-back what it asks for, nothing returns early.
fn command_turn(byte: u8, model: PitType) -> Turn
    ensures { FindsTurn (command_turn (command_of model byte)) result }
{
    let command = control::command_of(byte, model);
    let Command::SetMode(n, word) = command else {
        let Command::LatchCount(n) = command else {
            let Command::ReadBack(named) = command else {
                return Turn::Untouched;
            };
            return Turn::ReadBack(named);
        };
        return Turn::OnChannel(n, Work::Latch);
    };
    Turn::OnChannel(n, Work::SetMode(word))
}

// Refusals 1 and 16.
pub fn write_turn(port: u16, byte: u8, owing: bool, model: PitType) -> Result<Turn, Refusal>
    ensures { Finds (write_turn owing model (port_of port) byte) result }
{
    let Some(known) = port_of(port) else {
        return Err(Refusal::PortUnknown);
    };
    if owing {
        return Err(Refusal::TicksOwed);
    }
    match known {
        Port::Data(n) => Ok(Turn::OnChannel(n as u8, Work::Write(byte))),
        Port::Command => Ok(command_turn(byte, model)),
    }
}

// Refusal 1.
pub fn read_turn(port: u16) -> Result<Turn, Refusal>
    ensures { Finds (read_turn (port_of port)) result }
{
    let Some(known) = port_of(port) else {
        return Err(Refusal::PortUnknown);
    };
    match known {
        Port::Data(n) => Ok(Turn::OnChannel(n as u8, Work::Read)),
        Port::Command => Ok(Turn::Say(Answer::Byte(PortRead {
            byte: 0,
            label: latch::command_label(),
        }))),
    }
}

// Refusals 2 and 16.
pub fn gate_turn(channel: usize, level: bool, owing: bool) -> Result<Turn, Refusal>
    ensures { Finds (gate_turn owing channel level) result }
{
    if 2 < channel {
        return Err(Refusal::ChannelAbove2);
    }
    if owing {
        return Err(Refusal::TicksOwed);
    }
    Ok(Turn::OnChannel(channel as u8, Work::SetGate(level)))
}

// Refusal 2, whatever the number.
pub fn counts_turn(channel: usize, number: u32) -> Result<Turn, Refusal>
    ensures { Finds (counts_turn channel number) result }
{
    if 2 < channel {
        return Err(Refusal::ChannelAbove2);
    }
    Ok(Turn::OnChannel(channel as u8, Work::Counts(number)))
}

// Refusal 2.
pub fn load_cycle_turn(channel: usize) -> Result<Turn, Refusal>
    ensures { Finds (load_cycle_turn channel) result }
{
    if 2 < channel {
        return Err(Refusal::ChannelAbove2);
    }
    Ok(Turn::OnChannel(channel as u8, Work::LoadCycle))
}

pub fn catch_up_turn(ticks: SystemTicks) -> Turn
    ensures { FindsTurn (catch_up_turn ticks) result }
{
    Turn::Elapse(ticks, ticks, true)
}

pub fn run_turn(ticks: SystemTicks) -> Turn
    ensures { FindsTurn (run_turn ticks) result }
{
    Turn::Elapse(ticks, SystemTicks(0), false)
}

// Refusal 16.
pub fn reset_turn(owing: bool) -> Result<Turn, Refusal>
    ensures { Finds (reset_turn owing) result }
{
    if owing {
        return Err(Refusal::TicksOwed);
    }
    Ok(Turn::Reset)
}

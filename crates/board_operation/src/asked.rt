// The operation that a code, a target and a number ask for: none where there is no such code, or it does not allow the target or the number.
ghost use Rattle.std.specs.Prelude.{◌≡◌};
ghost use Rattle.board_operation.specs.Asked.{zero_or, write_asked, gate_asked, query_asked, bare_asked, operation_of};

use crate::Operation;
use time::SystemTicks;

// Where a number says nothing it must be 0.
fn zero_or(number: u32, asked: Option<Operation>) -> Option<Operation>
    ensures { result ≡ zero_or number asked }
{
    if number == 0 { asked } else { None }
}

#[tactic(auto, unfolding(crate::specs::Asked::write_asked))]
fn write_asked(port: u16, number: u32) -> Option<Operation>
    ensures { result ≡ write_asked port number }
{
    if number <= 255 {
        Some(Operation::WritePort(port, number as u8))
    } else {
        None
    }
}

#[tactic(auto, unfolding(crate::specs::Asked::gate_asked))]
fn gate_asked(channel: u16, number: u32) -> Option<Operation>
    ensures { result ≡ gate_asked channel number }
{
    match number {
        0 | 1 => Some(Operation::SetChannelGate(channel, number == 1)),
        _ => None,
    }
}

#[tactic(auto, unfolding(crate::specs::Asked::query_asked))]
fn query_asked(code: u8, target: u16) -> Option<Operation>
    ensures { result ≡ query_asked code target }
{
    match code {
        17 => Some(Operation::GetOutputState(target)),
        18 => Some(Operation::GetChannelCount(target)),
        19 => Some(Operation::DoesChannelRetrigger(target)),
        20 => Some(Operation::IsDirty(target)),
        21 => zero_or(u32::from(target), Some(Operation::GetTimerAccum)),
        _ => None,
    }
}

// The codes whose number says nothing.
#[tactic(auto, unfolding(crate::specs::Asked::bare_asked))]
fn bare_asked(code: u8, target: u16) -> Option<Operation>
    ensures { result ≡ bare_asked code target }
{
    match code {
        2 => Some(Operation::ReadPort(target)),
        5 => Some(Operation::LoadCycle(target)),
        8 => zero_or(u32::from(target), Some(Operation::Reset)),
        _ => query_asked(code, target),
    }
}

#[tactic(auto, unfolding(crate::specs::Asked::operation_of))]
pub fn operation_of(code: u8, target: u16, number: u32) -> Option<Operation>
    ensures { result ≡ operation_of code target number }
{
    match code {
        1 => write_asked(target, number),
        3 => gate_asked(target, number),
        4 => Some(Operation::Counts(target, number)),
        6 => zero_or(
            u32::from(target),
            Some(Operation::CatchUp(SystemTicks(number))),
        ),
        7 => zero_or(u32::from(target), Some(Operation::Run(SystemTicks(number)))),
        9 => zero_or(u32::from(target), Some(Operation::WorkOff(number))),
        _ => zero_or(number, bare_asked(code, target)),
    }
}

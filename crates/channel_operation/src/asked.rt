// The operation that a code, a number and a setting ask for: none where there is no such code, or it does not allow the number or the setting.
ghost use Rattle.std.specs.Prelude.{◌≡◌};
ghost use Rattle.channel_operation.specs.Asked.{write_asked, gate_asked, control_asked, code_asked, bare_asked, operation_of};

use crate::Operation;
use channel::PitType;

#[tactic(auto, unfolding(crate::specs::Asked::write_asked))]
fn write_asked(number: u8, setting: u8) -> Option<Operation>
    ensures { result ≡ write_asked number setting }
{
    match setting {
        0 | 1 => Some(Operation::WriteByte(number, setting == 1)),
        _ => None,
    }
}

#[tactic(auto, unfolding(crate::specs::Asked::gate_asked))]
fn gate_asked(number: u8, setting: u8) -> Option<Operation>
    ensures { result ≡ gate_asked number setting }
{
    match (number, setting) {
        (0 | 1, 0) => Some(Operation::SetGate(number == 1)),
        _ => None,
    }
}

#[tactic(auto, unfolding(crate::specs::Asked::control_asked))]
fn control_asked(number: u8, setting: u8) -> Option<Operation>
    ensures { result ≡ control_asked number setting }
{
    match setting {
        0 => Some(Operation::ControlByte(number, PitType::Model8253)),
        1 => Some(Operation::ControlByte(number, PitType::Model8254)),
        _ => None,
    }
}

#[tactic(auto, unfolding(crate::specs::Asked::code_asked))]
fn code_asked(code: u8) -> Option<Operation>
    ensures { result ≡ code_asked code }
{
    match code {
        2 => Some(Operation::ReadByte),
        4 => Some(Operation::Count),
        5 => Some(Operation::LoadCycle),
        8 => Some(Operation::Reset),
        17 => Some(Operation::GetOutputState),
        18 => Some(Operation::GetChannelCount),
        19 => Some(Operation::DoesChannelRetrigger),
        20 => Some(Operation::IsDirty),
        _ => None,
    }
}

#[tactic(auto, unfolding(crate::specs::Asked::bare_asked))]
fn bare_asked(code: u8, number: u8, setting: u8) -> Option<Operation>
    ensures { result ≡ bare_asked code number setting }
{
    match (number, setting) {
        (0, 0) => code_asked(code),
        _ => None,
    }
}

#[tactic(auto, unfolding(crate::specs::Asked::operation_of))]
pub fn operation_of(code: u8, number: u8, setting: u8) -> Option<Operation>
    ensures { result ≡ operation_of code number setting }
{
    match code {
        1 => write_asked(number, setting),
        3 => gate_asked(number, setting),
        16 => control_asked(number, setting),
        _ => bare_asked(code, number, setting),
    }
}

// One operation on one channel, asked for by three numbers and answered by three: docs/ENCODING.md.
#![tactic(auto)]

pub mod asked;
pub mod making;

pub use asked::operation_of;
use channel::PitType;
pub use making::operate;

// A byte and the board's defer flag; a level; a control byte and the board's model.
#[derive(Clone, Copy, Debug, PartialEq, Eq)]
pub enum Operation {
    WriteByte(u8, bool),
    ReadByte,
    SetGate(bool),
    Count,
    LoadCycle,
    Reset,
    ControlByte(u8, PitType),
    GetOutputState,
    GetChannelCount,
    DoesChannelRetrigger,
    IsDirty,
}

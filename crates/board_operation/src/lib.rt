// One operation on a board, asked for by three numbers and answered by three: docs/ENCODING.md.
#![tactic(auto)]

pub mod answering;
pub mod asked;

pub use answering::{numbers_of, saying};
pub use asked::operation_of;
use time::SystemTicks;

// A port and a byte; a channel with a level or a number; ticks; a channel; how many ticks to work off.
#[derive(Clone, Copy, Debug, PartialEq, Eq)]
pub enum Operation {
    WritePort(u16, u8),
    ReadPort(u16),
    SetChannelGate(u16, bool),
    Counts(u16, u32),
    LoadCycle(u16),
    CatchUp(SystemTicks),
    Run(SystemTicks),
    Reset,
    GetOutputState(u16),
    GetChannelCount(u16),
    DoesChannelRetrigger(u16),
    IsDirty(u16),
    GetTimerAccum,
    WorkOff(u32),
}

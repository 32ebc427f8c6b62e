// One channel of the timer: its record, and the rules that several parts of it share.
//
// The groups follow the chip's block diagram: control word register, count register, counting element, output latch, the two
// pins, status. `Reloading` has what a mode leaves behind for its loads, and `dirty` stands alone. No record holds its channel's number; its place
// on the board is its number.
#![tactic(auto)]

pub mod fresh;
pub mod number;
pub mod queries;
pub mod shared;
pub mod states;

// Which of Intel's two chips the board carries.
#[derive(Clone, Copy, Debug, PartialEq, Eq)]
pub enum PitType {
    Model8253,
    Model8254,
}

// Modes 0 to 5, in this order.
#[derive(Clone, Copy, Debug, PartialEq, Eq)]
pub enum ChannelMode {
    InterruptOnTerminalCount,
    HardwareRetriggerableOneShot,
    RateGenerator,
    SquareWaveGenerator,
    SoftwareTriggeredStrobe,
    HardwareTriggeredStrobe,
}

// The access: low byte, high byte, or low then high.
#[derive(Clone, Copy, Debug, PartialEq, Eq)]
pub enum RwMode {
    Lsb,
    Msb,
    LsbMsb,
}

#[derive(Clone, Copy, Debug, PartialEq, Eq)]
pub enum ReloadFlag {
    Normal,
    ReloadNextCycle,
}

#[derive(Clone, Copy, Debug, PartialEq, Eq)]
pub enum ChannelState {
    WaitingForReload,
    WaitingForGate,
    DeferLoadCycle,
    WaitingForLoadCycle,
    WaitingForLoadTrigger,
    Counting(ReloadFlag),
}

#[derive(Clone, Copy, Debug, PartialEq, Eq)]
pub enum LoadState {
    WaitingForLsb,
    WaitingForMsb,
}

// Whether the next complete load is the first since the mode set.
#[derive(Clone, Copy, Debug, PartialEq, Eq)]
pub enum LoadType {
    InitialLoad,
    SubsequentLoad,
}

#[derive(Clone, Copy, Debug, PartialEq, Eq)]
pub enum ReadState {
    NoRead,
    ReadLsb,
}

// The control word register: what a mode set carries.
#[derive(Clone, Copy, Debug, PartialEq, Eq)]
pub struct ControlWord {
    pub mode: ChannelMode,
    pub rw_mode: RwMode,
    pub bcd_mode: bool,
}

// What a mode leaves behind for its loads.
#[derive(Clone, Copy, Debug, PartialEq, Eq)]
pub struct Reloading {
    pub output_on_reload: bool,
    pub reload_on_trigger: bool,
    pub load_mask: u16,
}

// The count register, the reload value, and how far a load has come.
#[derive(Clone, Copy, Debug, PartialEq, Eq)]
pub struct Load {
    pub count_register: u16,
    pub reload_value: u16,
    pub load_state: LoadState,
    pub load_type: LoadType,
    pub armed: bool,
}

// The counting element and the state it counts in.
#[derive(Clone, Copy, Debug, PartialEq, Eq)]
pub struct Counter {
    pub channel_state: ChannelState,
    pub cycles_in_state: u32,
    pub counting_element: u16,
    pub ticked: bool,
}

// The output latch, which every read comes from.
#[derive(Clone, Copy, Debug, PartialEq, Eq)]
pub struct Latch {
    pub output_latch: u16,
    pub count_is_latched: bool,
    pub read_state: ReadState,
}

#[derive(Clone, Copy, Debug, PartialEq, Eq)]
pub struct Pins {
    pub gate: bool,
    pub output: bool,
}

// What a status byte needs beside the other groups, and the status latch. Both models have them; only the 8254's read-back shows them.
#[derive(Clone, Copy, Debug, PartialEq, Eq)]
pub struct Status {
    // The status byte that is held, or 0 for none: its access is never 0, so no status byte is.
    pub status_latch: u8,
    // Since the last mode set, or since a count was written, nothing has been loaded into the counting element.
    pub null_count: bool,
}

#[derive(Clone, Copy, Debug, PartialEq, Eq)]
pub struct Channel {
    pub control: ControlWord,
    // It stands behind the control word so that what lies between is copied in whole words: docs/PERFORMANCE.md.
    pub dirty: bool,
    // It stands beside `dirty`, since a complete load sets marks in both.
    pub status: Status,
    pub reloading: Reloading,
    pub load: Load,
    pub counter: Counter,
    pub latch: Latch,
    pub pins: Pins,
}

// The byte of each value that is no number, and the value of each byte.
ghost use Rattle.std.specs.Prelude.{◌≡◌, ℕ};
ghost use Rattle.numbers.specs.Flags.{flag_number};
ghost use Rattle.encoding.specs.Codes.{flag_coded, access_byte, access_coded, load_state_byte, load_state_coded, load_type_byte, load_type_coded, read_state_byte, read_state_coded, state_byte, state_coded};
ghost use Rattle.encoding.specs.Codes.{flag_back, access_back, load_state_back, load_type_back, read_state_back, state_back};

use channel::{ChannelState, LoadState, LoadType, ReadState, ReloadFlag, RwMode};

// A value that has one byte of a record. A byte above its limit has a value too, so that both directions always answer.
pub(crate) trait Coded {
    ghost byte_of: { Self → ℕ };

    ghost value_of: { ℕ → Self };

    fn byte(self) -> u8
        ensures { result ≡ byte_of self };

    fn coded(byte: u8) -> Self
        ensures { result ≡ value_of byte };

    // What was stored comes back.
    ghost back: { (x : Self) → value_of (byte_of x) ≡ x };
}

impl Coded for bool {
    ghost byte_of = { flag_number };

    ghost value_of = { flag_coded };

    ghost back = { flag_back };

    fn byte(self) -> u8 {
        u8::from(self)
    }

    fn coded(byte: u8) -> bool {
        byte == 1
    }
}

impl Coded for RwMode {
    ghost byte_of = { access_byte };

    ghost value_of = { access_coded };

    ghost back = { access_back };

    fn byte(self) -> u8 {
        match self {
            RwMode::Lsb => 0,
            RwMode::Msb => 1,
            RwMode::LsbMsb => 2,
        }
    }

    fn coded(byte: u8) -> RwMode {
        match byte {
            0 => RwMode::Lsb,
            1 => RwMode::Msb,
            _ => RwMode::LsbMsb,
        }
    }
}

impl Coded for LoadState {
    ghost byte_of = { load_state_byte };

    ghost value_of = { load_state_coded };

    ghost back = { load_state_back };

    fn byte(self) -> u8 {
        match self {
            LoadState::WaitingForLsb => 0,
            LoadState::WaitingForMsb => 1,
        }
    }

    fn coded(byte: u8) -> LoadState {
        match byte {
            0 => LoadState::WaitingForLsb,
            _ => LoadState::WaitingForMsb,
        }
    }
}

impl Coded for LoadType {
    ghost byte_of = { load_type_byte };

    ghost value_of = { load_type_coded };

    ghost back = { load_type_back };

    fn byte(self) -> u8 {
        match self {
            LoadType::InitialLoad => 0,
            LoadType::SubsequentLoad => 1,
        }
    }

    fn coded(byte: u8) -> LoadType {
        match byte {
            0 => LoadType::InitialLoad,
            _ => LoadType::SubsequentLoad,
        }
    }
}

impl Coded for ReadState {
    ghost byte_of = { read_state_byte };

    ghost value_of = { read_state_coded };

    ghost back = { read_state_back };

    fn byte(self) -> u8 {
        match self {
            ReadState::NoRead => 0,
            ReadState::ReadLsb => 1,
        }
    }

    fn coded(byte: u8) -> ReadState {
        match byte {
            0 => ReadState::NoRead,
            _ => ReadState::ReadLsb,
        }
    }
}

impl Coded for ChannelState {
    ghost byte_of = { state_byte };

    ghost value_of = { state_coded };

    ghost back = { state_back };

    fn byte(self) -> u8 {
        match self {
            ChannelState::WaitingForReload => 0,
            ChannelState::WaitingForGate => 1,
            ChannelState::DeferLoadCycle => 2,
            ChannelState::WaitingForLoadCycle => 3,
            ChannelState::WaitingForLoadTrigger => 4,
            ChannelState::Counting(ReloadFlag::Normal) => 5,
            ChannelState::Counting(ReloadFlag::ReloadNextCycle) => 6,
        }
    }

    fn coded(byte: u8) -> ChannelState {
        match byte {
            0 => ChannelState::WaitingForReload,
            1 => ChannelState::WaitingForGate,
            2 => ChannelState::DeferLoadCycle,
            3 => ChannelState::WaitingForLoadCycle,
            4 => ChannelState::WaitingForLoadTrigger,
            5 => ChannelState::Counting(ReloadFlag::Normal),
            _ => ChannelState::Counting(ReloadFlag::ReloadNextCycle),
        }
    }
}

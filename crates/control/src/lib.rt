// The control byte, taken apart into one of four commands.
#![tactic(auto)]

ghost use Rattle.std.specs.Prelude.{◌≡◌, ◌<◌};
ghost use Rattle.control.specs.Control.{mode_of, access_of, read_back_of, names, names_any, channel_three, command_of};

use channel::{ChannelMode, ControlWord, PitType, RwMode};

// What a read-back asks for: counts, status, or both, of the channels that it names.
#[derive(Clone, Copy, Debug, PartialEq, Eq)]
pub struct ReadBackWord {
    pub counts: bool,
    pub status: bool,
    pub names_0: bool,
    pub names_1: bool,
    pub names_2: bool,
}

#[derive(Clone, Copy, Debug, PartialEq, Eq)]
pub enum Command {
    // Channel 3, but for the 8254's read-back.
    Nothing,
    // Latch the count of a channel.
    LatchCount(u8),
    // Set a channel's mode, access and radix.
    SetMode(u8, ControlWord),
    // Latch counts and status of several channels at once, on the 8254.
    ReadBack(ReadBackWord),
}

impl ReadBackWord {
    pub fn names(self, n: u8) -> bool
        ensures { result ≡ names self n }
    {
        match n {
            0 => self.names_0,
            1 => self.names_1,
            2 => self.names_2,
            _ => false,
        }
    }

    pub fn names_any(self) -> bool
        ensures { result ≡ names_any self }
    {
        self.names_0 || self.names_1 || self.names_2
    }
}

fn mode_of(n: u8) -> ChannelMode
    requires { n < 8 }
    ensures { result ≡ mode_of n }
{
    match n {
        6 | 7 => ChannelMode::numbered(n - 4),
        _ => ChannelMode::numbered(n),
    }
}

fn access_of(n: u8) -> RwMode
    ensures { result ≡ access_of n }
{
    match n {
        1 => RwMode::Lsb,
        2 => RwMode::Msb,
        _ => RwMode::LsbMsb,
    }
}

// Bits 5 and 4 ask where they are clear.
fn read_back_of(byte: u8) -> ReadBackWord
    ensures { result ≡ read_back_of byte }
{
    ReadBackWord {
        counts: byte / 32 % 2 == 0,
        status: byte / 16 % 2 == 0,
        names_0: byte / 2 % 2 == 1,
        names_1: byte / 4 % 2 == 1,
        names_2: byte / 8 % 2 == 1,
    }
}

fn channel_three(byte: u8, model: PitType) -> Command
    ensures { result ≡ channel_three model byte }
{
    match model {
        PitType::Model8254 if byte % 2 == 0 => Command::ReadBack(read_back_of(byte)),
        _ => Command::Nothing,
    }
}

#[tactic(auto, unfolding(crate::specs::Control::command_of))]
pub fn command_of(byte: u8, model: PitType) -> Command
    ensures { result ≡ command_of model byte }
{
    let channel = byte / 64;
    let access = byte / 16 % 4;
    match (channel, access) {
        (3, _) => channel_three(byte, model),
        (_, 0) => Command::LatchCount(channel),
        _ => Command::SetMode(
            channel,
            ControlWord {
                mode: mode_of(byte / 2 % 8),
                rw_mode: access_of(access),
                bcd_mode: byte % 2 == 1,
            },
        ),
    }
}

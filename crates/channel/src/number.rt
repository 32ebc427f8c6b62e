// A mode and its number, a model and its number.
ghost use Rattle.std.specs.Prelude.{◌≡◌};
ghost use Rattle.channel.specs.Modes.{mode_number, mode_numbered};
ghost use Rattle.channel.specs.Models.{model_number, model_numbered};

use crate::{ChannelMode, PitType};

impl ChannelMode {
    pub fn number(self) -> u8
        ensures { result ≡ mode_number self }
    {
        match self {
            ChannelMode::InterruptOnTerminalCount => 0,
            ChannelMode::HardwareRetriggerableOneShot => 1,
            ChannelMode::RateGenerator => 2,
            ChannelMode::SquareWaveGenerator => 3,
            ChannelMode::SoftwareTriggeredStrobe => 4,
            ChannelMode::HardwareTriggeredStrobe => 5,
        }
    }

    // Above 5 it is mode 5.
    pub fn numbered(n: u8) -> ChannelMode
        ensures { result ≡ mode_numbered n }
    {
        match n {
            0 => ChannelMode::InterruptOnTerminalCount,
            1 => ChannelMode::HardwareRetriggerableOneShot,
            2 => ChannelMode::RateGenerator,
            3 => ChannelMode::SquareWaveGenerator,
            4 => ChannelMode::SoftwareTriggeredStrobe,
            _ => ChannelMode::HardwareTriggeredStrobe,
        }
    }
}

impl PitType {
    pub fn number(self) -> u8
        ensures { result ≡ model_number self }
    {
        match self {
            PitType::Model8253 => 0,
            PitType::Model8254 => 1,
        }
    }

    // Above 1 it is the 8254.
    pub fn numbered(n: u32) -> PitType
        ensures { result ≡ model_numbered n }
    {
        match n {
            0 => PitType::Model8253,
            _ => PitType::Model8254,
        }
    }
}

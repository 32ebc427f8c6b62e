// How many counts a tick takes and where the output goes, mode by mode: docs/TICK.md, tables C and D.
ghost use Rattle.std.specs.Prelude.{◌≡◌};
ghost use Rattle.tick.specs.Taken.{square_takes, takes};
ghost use Rattle.tick.specs.Level.{pulses, rest_level, load_level, reload_level, strobes, count_level};

use channel::{Channel, ChannelMode};

// On the 8254 every element that mode 3 loads is even.
fn square_takes(output: bool, element: u16) -> u32
    ensures { result ≡ square_takes output element }
{
    if element % 2 == 0 {
        2
    } else if output {
        1
    } else {
        3
    }
}

pub fn takes(c: Channel) -> u32
    ensures { result ≡ takes c }
{
    match c.control.mode {
        ChannelMode::SquareWaveGenerator => square_takes(c.pins.output, c.counter.counting_element),
        _ => 1,
    }
}

// The output is low for one tick only.
pub fn pulses(mode: ChannelMode) -> bool
    ensures { result ≡ pulses mode }
{
    matches!(
        mode,
        ChannelMode::RateGenerator
            | ChannelMode::SoftwareTriggeredStrobe
            | ChannelMode::HardwareTriggeredStrobe
    )
}

pub fn rest_level(mode: ChannelMode, level: bool) -> bool
    ensures { result ≡ rest_level mode level }
{
    pulses(mode) || level
}

pub fn load_level(mode: ChannelMode) -> bool
    ensures { result ≡ load_level mode }
{
    !matches!(
        mode,
        ChannelMode::InterruptOnTerminalCount | ChannelMode::HardwareRetriggerableOneShot
    )
}

// As a load leaves it, but for mode 3: the other level.
pub fn reload_level(mode: ChannelMode, level: bool) -> bool
    ensures { result ≡ reload_level mode level }
{
    match mode {
        ChannelMode::SquareWaveGenerator => !level,
        _ => load_level(mode),
    }
}

// The strobe of modes 4 and 5, once for each load.
pub fn strobes(mode: ChannelMode, armed: bool, element: u16) -> bool
    ensures { result ≡ strobes mode armed element }
{
    match mode {
        ChannelMode::SoftwareTriggeredStrobe | ChannelMode::HardwareTriggeredStrobe => {
            armed && element == 0
        }
        _ => false,
    }
}

pub fn count_level(mode: ChannelMode, level: bool, armed: bool, element: u16) -> bool
    ensures { result ≡ count_level mode level armed element }
{
    match mode {
        ChannelMode::InterruptOnTerminalCount | ChannelMode::HardwareRetriggerableOneShot => {
            level || element == 0
        }
        ChannelMode::RateGenerator => element != 1,
        ChannelMode::SquareWaveGenerator => level,
        ChannelMode::SoftwareTriggeredStrobe | ChannelMode::HardwareTriggeredStrobe => {
            !strobes(mode, armed, element)
        }
    }
}

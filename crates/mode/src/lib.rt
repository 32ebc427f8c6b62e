// The mode set.
#![tactic(auto)]

ghost use Rattle.std.specs.Prelude.{◌≡◌};
ghost use Rattle.mode.specs.Mode.{output_after, output_on_reload, reload_on_trigger, square_mask, load_mask, reloading_of, set_mode};

use channel::{
    Channel, ChannelMode, ChannelState, ControlWord, Counter, Latch, Load, LoadState, LoadType,
    Pins, PitType, ReadState, Reloading, Status,
};

fn output_after(mode: ChannelMode) -> bool
    ensures { result ≡ output_after mode }
{
    mode != ChannelMode::InterruptOnTerminalCount
}

fn output_on_reload(mode: ChannelMode, level: bool) -> bool
    ensures { result ≡ output_on_reload level mode }
{
    match mode {
        ChannelMode::InterruptOnTerminalCount | ChannelMode::HardwareRetriggerableOneShot => false,
        ChannelMode::RateGenerator | ChannelMode::SquareWaveGenerator => true,
        ChannelMode::SoftwareTriggeredStrobe | ChannelMode::HardwareTriggeredStrobe => level,
    }
}

fn reload_on_trigger(mode: ChannelMode, waits: bool) -> bool
    ensures { result ≡ reload_on_trigger waits mode }
{
    match mode {
        ChannelMode::HardwareRetriggerableOneShot => true, // its first count waits for a trigger
        ChannelMode::SoftwareTriggeredStrobe | ChannelMode::HardwareTriggeredStrobe => waits,
        _ => false,
    }
}

fn square_mask(model: PitType) -> u16
    ensures { result ≡ square_mask model }
{
    match model {
        PitType::Model8253 => 0xFFFF,
        PitType::Model8254 => 0xFFFE,
    }
}

fn load_mask(mode: ChannelMode, model: PitType, mask: u16) -> u16
    ensures { result ≡ load_mask model mask mode }
{
    match mode {
        ChannelMode::SquareWaveGenerator => square_mask(model),
        _ => mask,
    }
}

fn reloading_of(was: Reloading, mode: ChannelMode, model: PitType) -> Reloading
    ensures { result ≡ reloading_of was mode model }
{
    Reloading {
        output_on_reload: output_on_reload(mode, was.output_on_reload),
        reload_on_trigger: reload_on_trigger(mode, was.reload_on_trigger),
        load_mask: load_mask(mode, model, was.load_mask),
    }
}

#[tactic(auto, unfolding(crate::specs::Mode::set_mode))]
pub fn set_mode(c: Channel, control: ControlWord, model: PitType) -> Channel
    ensures { result ≡ set_mode c control model }
{
    Channel {
        control,
        reloading: reloading_of(c.reloading, control.mode, model),
        load: Load {
            load_state: LoadState::WaitingForLsb,
            load_type: LoadType::InitialLoad,
            armed: false,
            ..c.load
        },
        counter: Counter {
            channel_state: ChannelState::WaitingForReload,
            cycles_in_state: 0,
            counting_element: 0,
            ..c.counter
        },
        latch: Latch {
            count_is_latched: false,
            read_state: ReadState::NoRead,
            ..c.latch
        },
        pins: Pins {
            output: output_after(control.mode),
            ..c.pins
        },
        status: Status {
            status_latch: 0,
            null_count: true,
        },
        dirty: true,
    }
}

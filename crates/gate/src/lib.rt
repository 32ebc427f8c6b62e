// The gate pin: what its edges do.
#![tactic(auto)]

ghost use Rattle.std.specs.Prelude.{◌≡◌};
ghost use Rattle.gate.specs.Gate.{loads_on_rise, stops_on_fall, high_on_fall, set_gate};
ghost use Rattle.gate.specs.Inner.{enters, entered_at, raises};

use channel::{Channel, ChannelMode, ChannelState, Counter, Pins};

fn loads_on_rise(mode: ChannelMode) -> bool
    ensures { result ≡ loads_on_rise mode }
{
    matches!(
        mode,
        ChannelMode::HardwareRetriggerableOneShot
            | ChannelMode::RateGenerator
            | ChannelMode::SquareWaveGenerator
            | ChannelMode::HardwareTriggeredStrobe
    )
}

fn stops_on_fall(mode: ChannelMode) -> bool
    ensures { result ≡ stops_on_fall mode }
{
    matches!(
        mode,
        ChannelMode::RateGenerator
            | ChannelMode::SquareWaveGenerator
            | ChannelMode::SoftwareTriggeredStrobe
    )
}

fn high_on_fall(mode: ChannelMode) -> bool
    ensures { result ≡ high_on_fall mode }
{
    matches!(
        mode,
        ChannelMode::RateGenerator | ChannelMode::SquareWaveGenerator
    )
}

// Whether the edge from the gate's level to the new one enters a state.
fn enters(mode: ChannelMode, was: bool, level: bool) -> bool
    ensures { result ≡ enters mode was level }
{
    match (was, level) {
        (false, true) => loads_on_rise(mode),
        (true, false) => stops_on_fall(mode),
        _ => false,
    }
}

// The state that a rise or a fall enters, where it enters one.
fn entered_at(level: bool) -> ChannelState
    ensures { result ≡ entered_at level }
{
    if level {
        ChannelState::WaitingForLoadCycle
    } else {
        ChannelState::WaitingForGate
    }
}

// Whether it makes the output high.
fn raises(mode: ChannelMode, was: bool, level: bool) -> bool
    ensures { result ≡ raises mode was level }
{
    was && !level && high_on_fall(mode)
}

// What an edge can change is found first, and the record is put together once: docs/PERFORMANCE.md.
#[tactic(auto, using(crate::proofs::Parts::gate_by_parts, crate::proofs::Parts::edge_counter, crate::proofs::Parts::edge_output))]
pub fn set_gate(c: Channel, level: bool) -> Channel
    ensures { result ≡ set_gate c level }
{
    let mode = c.control.mode;
    let acts = !c.counter.channel_state.waits_for_reload();
    let counter = if acts && enters(mode, c.pins.gate, level) {
        Counter {
            channel_state: entered_at(level),
            cycles_in_state: 0,
            ..c.counter
        }
    } else {
        c.counter
    };
    let rises = acts && raises(mode, c.pins.gate, level);
    Channel {
        counter,
        pins: Pins {
            gate: level,
            output: rises || c.pins.output,
        },
        ..c
    }
}

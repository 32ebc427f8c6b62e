// The load cycle by hand: what a tick that loads does to the counting element and the state, without the tick.
ghost use Rattle.std.specs.Prelude.{◌≡◌};
ghost use Rattle.load.specs.Cycle.{masked_in, load_value, load_cycle};
ghost use Rattle.load.specs.Inner.{counter_after};

use channel::{Channel, ChannelMode, ChannelState, Counter, ReloadFlag, Status};

// A value as a mode loads it. The mask that a mode 3 left stays in the record, so the other modes must not look at it.
fn masked_in(mode: ChannelMode, value: u16, mask: u16) -> u16
    ensures { result ≡ masked_in mode value mask }
{
    match mode {
        ChannelMode::SquareWaveGenerator => value & mask,
        _ => value,
    }
}

// The value that a load moves to the counting element.
#[tactic(auto, unfolding(crate::specs::Cycle::load_value))]
pub fn load_value(c: Channel) -> u16
    ensures { result ≡ load_value c }
{
    masked_in(c.control.mode, c.load.reload_value, c.reloading.load_mask)
}

// What the cycle leaves of the counter's group, where a load would move this value.
fn counter_after(k: Counter, value: u16) -> Counter
    ensures { result ≡ counter_after k.channel_state k value }
{
    match k.channel_state {
        ChannelState::DeferLoadCycle => Counter {
            channel_state: ChannelState::WaitingForLoadCycle,
            cycles_in_state: 0,
            ..k
        },
        ChannelState::WaitingForLoadCycle => Counter {
            channel_state: ChannelState::Counting(ReloadFlag::Normal),
            cycles_in_state: 0,
            counting_element: value,
            ..k
        },
        _ => k,
    }
}

// What the cycle can change is found first, and the record is put together once: docs/PERFORMANCE.md.
#[tactic(auto, using(crate::proofs::Parts::cycle_by_parts))]
pub fn load_cycle(c: Channel) -> Channel
    ensures { result ≡ load_cycle c }
{
    let value = load_value(c);
    let loaded = c.counter.channel_state.waits_for_cycle();
    let counter = counter_after(c.counter, value);
    let latch = if loaded {
        c.latch.follow(value)
    } else {
        c.latch
    };
    Channel {
        counter,
        latch,
        // The null-count mark goes where the value moves.
        status: Status {
            null_count: !loaded && c.status.null_count,
            ..c.status
        },
        dirty: loaded || c.dirty,
        ..c
    }
}

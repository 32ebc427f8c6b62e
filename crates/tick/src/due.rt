// What a tick does: docs/TICK.md, table A.
ghost use Rattle.std.specs.Prelude.{◌≡◌};
ghost use Rattle.tick.specs.Due.{triggered, runs, reloads_from, counting_due, flag_due, due};

use channel::{Channel, ChannelMode, ChannelState, ReloadFlag};

#[derive(Clone, Copy, Debug, PartialEq, Eq)]
pub enum Kind {
    // Nothing but the passing of time.
    Idle,
    // A load put off becomes one that is due.
    Deferred,
    Load,
    Reload,
    Count,
}

// The modes that a trigger starts: the gate's level is nothing to them. Mode 4 is none: its gate holds the count.
fn triggered(mode: ChannelMode) -> bool
    ensures { result ≡ triggered mode }
{
    matches!(
        mode,
        ChannelMode::HardwareRetriggerableOneShot | ChannelMode::HardwareTriggeredStrobe
    )
}

fn runs(c: Channel) -> bool
    ensures { result ≡ runs c }
{
    triggered(c.control.mode) || c.pins.gate
}

fn reloads_from(mode: ChannelMode, element: u16) -> bool
    ensures { result ≡ reloads_from mode element }
{
    mode == ChannelMode::RateGenerator && element == 1
}

fn counting_due(c: Channel) -> Kind
    ensures { result ≡ counting_due c }
{
    if !runs(c) {
        Kind::Idle
    } else if reloads_from(c.control.mode, c.counter.counting_element) {
        Kind::Reload
    } else {
        Kind::Count
    }
}

fn flag_due(c: Channel, flag: ReloadFlag) -> Kind
    ensures { result ≡ flag_due flag c }
{
    match flag {
        ReloadFlag::Normal => counting_due(c),
        ReloadFlag::ReloadNextCycle if runs(c) => Kind::Reload,
        ReloadFlag::ReloadNextCycle => Kind::Idle,
    }
}

#[tactic(auto, unfolding(crate::specs::Due::due))]
pub fn due(c: Channel) -> Kind
    ensures { result ≡ due c }
{
    match c.counter.channel_state {
        ChannelState::WaitingForReload => Kind::Idle,
        ChannelState::WaitingForGate => counting_due(c),
        ChannelState::DeferLoadCycle => Kind::Deferred,
        ChannelState::WaitingForLoadCycle => Kind::Load,
        ChannelState::WaitingForLoadTrigger if triggered(c.control.mode) => Kind::Idle,
        ChannelState::WaitingForLoadTrigger => Kind::Load,
        ChannelState::Counting(flag) => flag_due(c, flag),
    }
}

// Ticks that load, or that make a load due: docs/TICK.md, table B.
ghost use Rattle.std.specs.Prelude.{◌≡◌};
ghost use Rattle.tick.specs.Tick.{rested, deferred, never_loaded, sent_back, with_armed, loaded, load_at};

use crate::level::rest_level;
use channel::{Channel, ChannelState, ReloadFlag};

// The output where a tick that neither loads nor counts leaves it.
pub fn rested(c: Channel) -> Channel
    ensures { result ≡ rested c }
{
    c.change_output_state(rest_level(c.control.mode, c.pins.output))
}

#[tactic(auto, unfolding(crate::specs::Tick::deferred))]
pub fn deferred(c: Channel) -> Channel
    ensures { result ≡ deferred c }
{
    rested(c.change_channel_state(ChannelState::WaitingForLoadCycle))
}

// A count of 1 in mode 2 or 3, as it was written.
pub fn never_loaded(c: Channel) -> bool
    ensures { result ≡ never_loaded c }
{
    c.does_channel_retrigger() && c.load.reload_value == 1
}

#[tactic(auto, unfolding(crate::specs::Tick::sent_back))]
fn sent_back(c: Channel) -> Channel
    ensures { result ≡ sent_back c }
{
    c.change_channel_state(ChannelState::WaitingForLoadCycle)
        .change_output_state(true)
}

// Whether the next zero strobes.
#[tactic(auto, unfolding(crate::specs::Tick::with_armed))]
pub fn with_armed(c: Channel, armed: bool) -> Channel
    ensures { result ≡ with_armed c armed }
{
    let mut next = c;
    next.load.armed = armed;
    next
}

#[tactic(auto, unfolding(crate::specs::Tick::loaded))]
fn loaded(c: Channel, level: bool) -> Channel
    ensures { result ≡ loaded level c }
{
    let out = c
        .put_element(load::load_value(c))
        .change_channel_state(ChannelState::Counting(ReloadFlag::Normal))
        .mark_null_count(false)
        .change_output_state(level);
    with_armed(out, true)
}

// A load that leaves the output at a level, unless the count may not be loaded.
#[tactic(auto, unfolding(crate::specs::Tick::load_at))]
pub fn load_at(c: Channel, level: bool) -> Channel
    ensures { result ≡ load_at level c }
{
    if never_loaded(c) {
        return sent_back(c);
    }
    loaded(c, level)
}

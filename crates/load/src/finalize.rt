// A complete load: what was written becomes the reload value, and the channel enters the state that the load asks for, if any.
ghost use Rattle.std.specs.Prelude.{◌≡◌};
ghost use Rattle.load.specs.Finalize.{waiting_state, first_state, loads_again, completed, complete_load, finalize_load};

use channel::{Channel, ChannelMode, ChannelState, Load, LoadType};

// The state in which a complete load waits for its load cycle.
fn waiting_state(defer_reload: bool) -> ChannelState
    ensures { result ≡ waiting_state defer_reload }
{
    if defer_reload {
        ChannelState::DeferLoadCycle
    } else {
        ChannelState::WaitingForLoadCycle
    }
}

fn first_state(reload_on_trigger: bool, defer_reload: bool) -> ChannelState
    ensures { result ≡ first_state reload_on_trigger defer_reload }
{
    if reload_on_trigger {
        ChannelState::WaitingForLoadTrigger
    } else {
        waiting_state(defer_reload)
    }
}

// The modes in which a load that is not the first enters the waiting state.
fn loads_again(mode: ChannelMode) -> bool
    ensures { result ≡ loads_again mode }
{
    matches!(
        mode,
        ChannelMode::InterruptOnTerminalCount | ChannelMode::SoftwareTriggeredStrobe
    )
}

// The load group after a complete load. A first one arms the channel, and the next is not the first.
fn complete(l: Load) -> Load
    ensures { result ≡ completed l }
{
    Load {
        reload_value: l.count_register,
        load_type: LoadType::SubsequentLoad,
        armed: l.load_type == LoadType::InitialLoad || l.armed,
        ..l
    }
}

#[tactic(auto, unfolding(crate::specs::Finalize::complete_load))]
fn complete_load(mut c: Channel) -> Channel
    ensures { result ≡ complete_load c }
{
    c.load = complete(c.load);
    c.status.null_count = true;
    c.dirty = true;
    c
}

#[tactic(auto, unfolding(crate::specs::Finalize::finalize_load))]
pub fn finalize_load(c: Channel, defer_reload: bool) -> Channel
    ensures { result ≡ finalize_load c defer_reload }
{
    let loaded = complete_load(c);
    match c.load.load_type {
        LoadType::InitialLoad => {
            let state = first_state(loaded.reloading.reload_on_trigger, defer_reload);
            loaded.change_channel_state(state)
        }
        LoadType::SubsequentLoad if loads_again(loaded.control.mode) => {
            loaded.change_channel_state(waiting_state(defer_reload))
        }
        LoadType::SubsequentLoad => loaded,
    }
}

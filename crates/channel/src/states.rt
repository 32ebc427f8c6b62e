// What is asked of a channel's state.
ghost use Rattle.std.specs.Prelude.{◌≡◌};
ghost use Rattle.channel.specs.Shared.{is_counting, waits_for_reload, waits_for_cycle};

use crate::ChannelState;

impl ChannelState {
    pub fn is_counting(self) -> bool
        ensures { result ≡ is_counting self }
    {
        matches!(self, ChannelState::Counting(_))
    }

    pub fn waits_for_reload(self) -> bool
        ensures { result ≡ waits_for_reload self }
    {
        matches!(self, ChannelState::WaitingForReload)
    }

    pub fn waits_for_cycle(self) -> bool
        ensures { result ≡ waits_for_cycle self }
    {
        matches!(self, ChannelState::WaitingForLoadCycle)
    }
}

// Entry into a state, a change of the output, a new value of the counting element, and the null-count mark.
ghost use Rattle.std.specs.Prelude.{◌≡◌};
ghost use Rattle.channel.specs.Shared.{change_channel_state, change_output_state, followed, put_element, with_null_count};

use crate::{Channel, ChannelState, Counter, Latch};

impl Latch {
    // A new value of the counting element, as the output latch takes it.
    pub fn follow(self, element: u16) -> Latch
        ensures { result ≡ followed self element }
    {
        if self.count_is_latched {
            self
        } else {
            Latch {
                output_latch: element,
                ..self
            }
        }
    }
}

impl Channel {
    #[tactic(auto, unfolding(crate::specs::Shared::change_channel_state))]
    pub fn change_channel_state(self, new_state: ChannelState) -> Channel
        ensures { result ≡ change_channel_state self new_state }
    {
        let starts = !self.counter.channel_state.is_counting() && new_state.is_counting();
        Channel {
            counter: Counter {
                channel_state: new_state,
                cycles_in_state: 0,
                ..self.counter
            },
            dirty: starts || self.dirty,
            ..self
        }
    }

    // The output at a level. The board writes the event where the level differs from before.
    #[tactic(auto, unfolding(crate::specs::Shared::change_output_state))]
    pub fn change_output_state(mut self, level: bool) -> Channel
        ensures { result ≡ change_output_state self level }
    {
        self.pins.output = level;
        self
    }

    // The counting element takes a value, and the output latch follows unless it is latched.
    #[tactic(auto, unfolding(crate::specs::Shared::put_element))]
    pub fn put_element(mut self, element: u16) -> Channel
        ensures { result ≡ put_element self element }
    {
        self.counter.counting_element = element;
        self.latch = self.latch.follow(element);
        self
    }

    // What was written last is not loaded yet, or it is.
    pub fn mark_null_count(mut self, null_count: bool) -> Channel
        ensures { result ≡ with_null_count self null_count }
    {
        self.status.null_count = null_count;
        self
    }
}

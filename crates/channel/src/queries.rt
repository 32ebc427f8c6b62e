// What a host can ask of a channel.
ghost use Rattle.std.specs.Prelude.{◌≡◌};
ghost use Rattle.channel.specs.Queries.{get_output_state, get_channel_count, does_retrigger, does_channel_retrigger, is_dirty};

use crate::{Channel, ChannelMode};

// The count register, the counting element, and whether the channel is counting.
#[derive(Clone, Copy, Debug, PartialEq, Eq)]
pub struct ChannelCount {
    pub count_register: u16,
    pub counting_element: u16,
    pub counting: bool,
}

// The three things that is_dirty answers, and the channel with its mark cleared.
#[derive(Clone, Copy, Debug, PartialEq, Eq)]
pub struct DirtyAnswer {
    pub dirty: bool,
    pub counting: bool,
    pub ticked: bool,
    pub channel: Channel,
}

impl ChannelMode {
    fn retriggers(self) -> bool
        ensures { result ≡ does_retrigger self }
    {
        matches!(
            self,
            ChannelMode::RateGenerator | ChannelMode::SquareWaveGenerator
        )
    }
}

impl Channel {
    pub fn get_output_state(self) -> bool
        ensures { result ≡ get_output_state self }
    {
        self.pins.output
    }

    pub fn get_channel_count(self) -> ChannelCount
        ensures { result ≡ get_channel_count self }
    {
        ChannelCount {
            count_register: self.load.count_register,
            counting_element: self.counter.counting_element,
            counting: self.counter.channel_state.is_counting(),
        }
    }

    pub fn does_channel_retrigger(self) -> bool
        ensures { result ≡ does_channel_retrigger self }
    {
        self.control.mode.retriggers()
    }

    pub fn is_dirty(self) -> DirtyAnswer
        ensures { result ≡ is_dirty self }
    {
        DirtyAnswer {
            dirty: self.dirty,
            counting: self.counter.channel_state.is_counting(),
            ticked: self.counter.ticked,
            channel: Channel {
                dirty: false,
                ..self
            },
        }
    }
}

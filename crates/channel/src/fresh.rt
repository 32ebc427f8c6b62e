// The fresh channel, and the one that a reset leaves.
ghost use Rattle.std.specs.Prelude.{◌≡◌};
ghost use Rattle.channel.specs.Fresh.{fresh_load, fresh_at, fresh, reset};

use crate::{
    Channel, ChannelMode, ChannelState, ControlWord, Counter, Latch, Load, LoadState, LoadType,
    Pins, ReadState, Reloading, RwMode, Status,
};

impl Load {
    fn fresh() -> Load
        ensures { result ≡ fresh_load }
    {
        Load {
            count_register: 0,
            reload_value: 0,
            load_state: LoadState::WaitingForLsb,
            load_type: LoadType::InitialLoad,
            armed: false,
        }
    }
}

impl Channel {
    pub fn fresh() -> Channel
        ensures { result ≡ fresh }
    {
        Channel::fresh_at(true)
    }

    // A fresh channel whose gate is at a level.
    #[tactic(auto, unfolding(crate::specs::Fresh::fresh_at))]
    pub fn fresh_at(gate: bool) -> Channel
        ensures { result ≡ fresh_at gate }
    {
        Channel {
            control: ControlWord {
                mode: ChannelMode::InterruptOnTerminalCount,
                rw_mode: RwMode::LsbMsb,
                bcd_mode: false,
            },
            reloading: Reloading {
                output_on_reload: false,
                reload_on_trigger: false,
                load_mask: 0xFFFF,
            },
            load: Load::fresh(),
            counter: Counter {
                channel_state: ChannelState::WaitingForReload,
                cycles_in_state: 0,
                counting_element: 0,
                ticked: false,
            },
            latch: Latch {
                output_latch: 0,
                count_is_latched: false,
                read_state: ReadState::NoRead,
            },
            pins: Pins {
                gate,
                output: false,
            },
            status: Status {
                status_latch: 0,
                null_count: false,
            },
            dirty: false,
        }
    }

    // Fresh, but for the gate: the chip does not drive that pin.
    pub fn reset(self) -> Channel
        ensures { result ≡ reset self }
    {
        Channel::fresh_at(self.pins.gate)
    }
}

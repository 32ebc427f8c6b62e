// The bytes of a record, and the channel that they spell, readable or not.
ghost use Rattle.std.specs.Prelude.{◌≡◌, ◌≤◌, ◌<◌, length, MatchOption};
ghost use Rattle.encoding.specs.Stored.{channel_size};
ghost use Rattle.encoding.specs.Loaded.{readable, control_spelled, reloading_spelled, load_spelled, counter_spelled, latch_spelled, pins_spelled, status_spelled, channel_spelled};

use crate::CHANNEL_SIZE;
use crate::codes::Coded;
use channel::{
    Channel, ChannelMode, ChannelState, ControlWord, Counter, Latch, Load, LoadState, LoadType,
    Pins, ReadState, Reloading, RwMode, Status,
};

// The greatest byte that is readable at each place.
static LIMITS: [u8; CHANNEL_SIZE] = [
    5, 2, 1, 1, 1, 255, 255, 255, 255, 255, 255, 1, 1, 1, 6, 255, 255, 255, 255, 255, 255, 1, 255,
    255, 1, 1, 1, 1, 1, 255, 1,
];

// As many bytes as a record has, at least.
#[derive(Clone, Copy)]
pub(crate) struct Record<'a> {
    bytes: &'a [u8],
    ghost whole: { channel_size ≤ length bytes.now },
}

impl<'a> Record<'a> {
    // None of fewer bytes.
    pub(crate) fn of(bytes: &'a [u8]) -> Option<Record<'a>>
        ensures { MatchOption result (length bytes.now < channel_size) (λ r. r.bytes.now ≡ bytes.now) }
    {
        if bytes.len() < CHANNEL_SIZE {
            return None;
        }
        Some(Record { bytes })
    }

    // Whether no byte is above its limit.
    pub(crate) fn is_readable(self) -> bool
        ensures { result ≡ readable self.entry.bytes.now }
    {
        let bytes = self.bytes;
        for i in 0..CHANNEL_SIZE {
            if LIMITS[i] < bytes[i] {
                return false;
            }
        }
        true
    }

    fn control(self) -> ControlWord
        ensures { result ≡ control_spelled self.entry.bytes.now }
    {
        ControlWord {
            mode: ChannelMode::numbered(self.bytes[0]),
            rw_mode: RwMode::coded(self.bytes[1]),
            bcd_mode: bool::coded(self.bytes[2]),
        }
    }

    fn reloading(self) -> Reloading
        ensures { result ≡ reloading_spelled self.entry.bytes.now }
    {
        Reloading {
            output_on_reload: bool::coded(self.bytes[3]),
            reload_on_trigger: bool::coded(self.bytes[4]),
            load_mask: numbers::word(self.bytes[5], self.bytes[6]),
        }
    }

    fn load(self) -> Load
        ensures { result ≡ load_spelled self.entry.bytes.now }
    {
        Load {
            count_register: numbers::word(self.bytes[7], self.bytes[8]),
            reload_value: numbers::word(self.bytes[9], self.bytes[10]),
            load_state: LoadState::coded(self.bytes[11]),
            load_type: LoadType::coded(self.bytes[12]),
            armed: bool::coded(self.bytes[13]),
        }
    }

    #[tactic(auto, unfolding(numbers::specs::Number::number_at))]
    fn counter(self) -> Counter
        ensures { result ≡ counter_spelled self.entry.bytes.now }
    {
        // Put together here, where the bytes are known to be there: a call of `number_at` looks for each of them again.
        let low = numbers::word(self.bytes[15], self.bytes[16]);
        let high = numbers::word(self.bytes[17], self.bytes[18]);
        Counter {
            channel_state: ChannelState::coded(self.bytes[14]),
            cycles_in_state: numbers::long(low, high),
            counting_element: numbers::word(self.bytes[19], self.bytes[20]),
            ticked: bool::coded(self.bytes[21]),
        }
    }

    fn latch(self) -> Latch
        ensures { result ≡ latch_spelled self.entry.bytes.now }
    {
        Latch {
            output_latch: numbers::word(self.bytes[22], self.bytes[23]),
            count_is_latched: bool::coded(self.bytes[24]),
            read_state: ReadState::coded(self.bytes[25]),
        }
    }

    fn pins(self) -> Pins
        ensures { result ≡ pins_spelled self.entry.bytes.now }
    {
        Pins {
            gate: bool::coded(self.bytes[26]),
            output: bool::coded(self.bytes[27]),
        }
    }

    fn status(self) -> Status
        ensures { result ≡ status_spelled self.entry.bytes.now }
    {
        Status {
            status_latch: self.bytes[29],
            null_count: bool::coded(self.bytes[30]),
        }
    }

    #[tactic(auto, unfolding(crate::specs::Loaded::channel_spelled))]
    pub(crate) fn channel(self) -> Channel
        ensures { result ≡ channel_spelled self.entry.bytes.now }
    {
        Channel {
            control: self.control(),
            dirty: bool::coded(self.bytes[28]),
            status: self.status(),
            reloading: self.reloading(),
            load: self.load(),
            counter: self.counter(),
            latch: self.latch(),
            pins: self.pins(),
        }
    }
}

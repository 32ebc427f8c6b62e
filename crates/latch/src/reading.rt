// Reads of a channel's data port.
ghost use Rattle.std.specs.Prelude.{◌≡◌};
ghost use Rattle.latch.specs.Reading.{half_at, byte_at, starts_word, after_read, next_half, read_byte};

use channel::{Channel, Latch, ReadState, RwMode};

// Which half of the output latch a read gives.
#[derive(Clone, Copy, Debug, PartialEq, Eq)]
pub enum Half {
    Low,
    High,
}

#[derive(Clone, Copy, Debug, PartialEq, Eq)]
pub struct ByteRead {
    pub byte: u8,
    pub channel: Channel,
}

fn half_at(read_state: ReadState, rw_mode: RwMode) -> Half
    ensures { result ≡ half_at read_state rw_mode }
{
    match (read_state, rw_mode) {
        (ReadState::ReadLsb, _) | (ReadState::NoRead, RwMode::Msb) => Half::High,
        _ => Half::Low,
    }
}

// Whether a read gives the first byte of a word. All others end the latch.
pub fn starts_word(read_state: ReadState, rw_mode: RwMode) -> bool
    ensures { result ≡ starts_word read_state rw_mode }
{
    matches!((read_state, rw_mode), (ReadState::NoRead, RwMode::LsbMsb))
}

fn byte_at(half: Half, value: u16) -> u8
    ensures { result ≡ byte_at half value }
{
    match half {
        Half::Low => (value % 256) as u8,
        Half::High => (value / 256) as u8,
    }
}

// The half that the next read of the channel gives.
pub fn next_half(c: Channel) -> Half
    ensures { result ≡ next_half c }
{
    half_at(c.latch.read_state, c.control.rw_mode)
}

fn after_read(l: Latch, rw_mode: RwMode) -> Latch
    ensures { result ≡ after_read l rw_mode }
{
    if starts_word(l.read_state, rw_mode) {
        return Latch {
            read_state: ReadState::ReadLsb,
            ..l
        };
    }
    Latch {
        count_is_latched: false,
        read_state: ReadState::NoRead,
        ..l
    }
}

// A held status stands before the count, and its read leaves the latch alone. No status is held after a read. The record is put together once: docs/PERFORMANCE.md.
#[tactic(auto, unfolding(crate::specs::Reading::read_byte))]
pub fn read_byte(c: Channel) -> ByteRead
    ensures { result ≡ read_byte c }
{
    let (byte, latch) = if c.status.status_latch == 0 {
        (
            byte_at(next_half(c), c.latch.output_latch),
            after_read(c.latch, c.control.rw_mode),
        )
    } else {
        (c.status.status_latch, c.latch)
    };
    let mut channel = c;
    channel.latch = latch;
    channel.status.status_latch = 0;
    ByteRead { byte, channel }
}

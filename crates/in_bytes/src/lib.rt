// A board that stands in lent bytes. Only the part that an operation is about is read and written: a channel's record, the board's time, or, for a reset, a read-back and ticks
// worked off, the three channels and the owed ticks.
//
// The parts stand here, taken out of the bytes and put back. finding.rt finds the part that an operation is about, working.rt does the operation. The rules themselves are those of
// `turn`, `clock`, `ports` and `owed`, which know nothing of bytes. loading.rt takes the whole board out, for a replay from a checkpoint.
//
// That the bytes hold a board is a premise of each function, and not an invariant of a struct that has the lent bytes: then each function that writes would have to say besides
// that the bytes are the ones that were lent, and to prove that what it leaves in them can be read again.
#![tactic(auto)]

pub mod finding;
pub mod loading;
pub mod working;

ghost use Rattle.std.specs.Prelude.{◌&&◌, [], ◌∷◌, ◌≡◌, ◌≤◌, ◌<◌, length};
ghost use Rattle.board.specs.Board.{channel_at, with_channel, with_time, owing};
ghost use Rattle.clock.specs.Elapsed.{clock_of};
ghost use Rattle.board_encoding.specs.Places.{board_size};
ghost use Rattle.board_encoding.specs.Loaded.{own_readable, board_readable, board_in, HoldsBoard};
ghost use Rattle.in_bytes.specs.Called.{stored};

use board_encoding::{
    DEFER_PLACE, DIVISOR_PLACE, MODEL_PLACE, OWED_PLACE, REMAINDER_PLACE, SECOND_PLACE,
    THIRD_PLACE, WARP_PLACE,
};
use channel::{Channel, PitType};
use clock::Clock;
use encoding::CHANNEL_SIZE;
use encoding::loading::{is_record, record_in};
use time::{SystemTicks, TimerTicks};
pub use working::call;

// Of the answer of a call on a board: a number of eight bytes, then two of four.
pub const BOARD_ANSWER_SIZE: usize = 8 + 4 + 4;

// The bytes of the board's model and defer flag.
fn own_readable(bytes: &[u8]) -> bool
    requires { board_size ≤ length bytes.now }
    ensures { result ≡ own_readable bytes.now }
{
    bytes[MODEL_PLACE] <= 1 && bytes[DEFER_PLACE] <= 1
}

// All bytes of the board are looked at, whatever part of them a call is about.
fn board_readable(bytes: &[u8]) -> bool
    requires { board_size ≤ length bytes.now }
    ensures { result ≡ board_readable bytes.now }
{
    let first = is_record(&bytes[0..SECOND_PLACE]);
    let second = is_record(&bytes[SECOND_PLACE..THIRD_PLACE]);
    let third = is_record(&bytes[THIRD_PLACE..MODEL_PLACE]);
    first && second && third && own_readable(bytes)
}

fn channel_in(bytes: &[u8], n: usize) -> Channel
    requires n_bound { n < 3 }
    requires holds_board { HoldsBoard bytes.now }
    ensures { result ≡ channel_at (board_in bytes.now) n }
{
    let from = CHANNEL_SIZE * n;
    record_in(&bytes[from..from + CHANNEL_SIZE])
}

fn channels_in(bytes: &[u8]) -> [Channel; 3]
    requires { HoldsBoard bytes.now }
    ensures { result ≡ (board_in bytes.now).channels }
{
    [
        channel_in(bytes, 0),
        channel_in(bytes, 1),
        channel_in(bytes, 2),
    ]
}

#[tactic(auto, unfolding(board_encoding::specs::Loaded::board_in))]
fn model_in(bytes: &[u8]) -> PitType
    requires { HoldsBoard bytes.now }
    ensures { result ≡ (board_in bytes.now).model }
{
    PitType::numbered(u32::from(bytes[MODEL_PLACE]))
}

#[tactic(auto, unfolding(board_encoding::specs::Loaded::board_in))]
fn divisor_in(bytes: &[u8]) -> u32
    requires { HoldsBoard bytes.now }
    ensures { result ≡ (board_in bytes.now).divisor }
{
    numbers::number_at(bytes, DIVISOR_PLACE)
}

#[tactic(auto, unfolding(board_encoding::specs::Loaded::board_in))]
fn remainder_in(bytes: &[u8]) -> SystemTicks
    requires { HoldsBoard bytes.now }
    ensures { result ≡ (board_in bytes.now).remainder }
{
    SystemTicks(numbers::number_at(bytes, REMAINDER_PLACE))
}

#[tactic(auto, unfolding(board_encoding::specs::Loaded::board_in))]
fn warp_in(bytes: &[u8]) -> SystemTicks
    requires { HoldsBoard bytes.now }
    ensures { result ≡ (board_in bytes.now).warp }
{
    SystemTicks(numbers::number_at(bytes, WARP_PLACE))
}

#[tactic(auto, unfolding(board_encoding::specs::Loaded::board_in))]
fn defer_in(bytes: &[u8]) -> bool
    requires { HoldsBoard bytes.now }
    ensures { result ≡ (board_in bytes.now).defer }
{
    bytes[DEFER_PLACE] == 1
}

#[tactic(auto, unfolding(board_encoding::specs::Loaded::board_in))]
fn owed_in(bytes: &[u8]) -> TimerTicks
    requires { HoldsBoard bytes.now }
    ensures { result ≡ (board_in bytes.now).owed }
{
    TimerTicks(numbers::number_at(bytes, OWED_PLACE))
}

fn clock_in(bytes: &[u8]) -> Clock
    requires { HoldsBoard bytes.now }
    ensures { result ≡ clock_of (board_in bytes.now) }
{
    Clock {
        divisor: divisor_in(bytes),
        remainder: remainder_in(bytes),
        warp: warp_in(bytes),
        defer: defer_in(bytes),
        owed: owed_in(bytes),
    }
}

// Inlined, so that only what the call has changed of a record is put together again, and not the whole of it in memory.
#[inline(always)]
fn put_channel(bytes: &mut [u8], n: usize, c: Channel)
    requires n_bound { n < 3 }
    requires holds_board { HoldsBoard bytes.old }
    ensures { bytes.new ≡ stored (with_channel (board_in bytes.old) n c) bytes.old }
{
    let part = encoding::channel_bytes(c);
    text::put(bytes, CHANNEL_SIZE * n, &part);
}

// The three records and the owed ticks: what a reset and ticks worked off change; a read-back puts the ticks back as they were.
fn put_channels(bytes: &mut [u8], channels: [Channel; 3], owed: TimerTicks)
    requires { HoldsBoard bytes.old }
    ensures { bytes.new ≡ stored (owing (board_in bytes.old) owed.0 channels) bytes.old }
{
    let [c0, c1, c2] = channels;
    let first = encoding::channel_bytes(c0);
    let second = encoding::channel_bytes(c1);
    let third = encoding::channel_bytes(c2);
    let last = numbers::four_bytes(owed.0);
    let mut place = text::put(bytes, 0, &first);
    place = text::put(bytes, place, &second);
    text::put(bytes, place, &third);
    text::put(bytes, OWED_PLACE, &last);
}

// The divisor stays: no call changes it.
fn put_clock(bytes: &mut [u8], clock: Clock)
    requires { HoldsBoard bytes.old }
    ensures { bytes.new ≡ stored (with_time (board_in bytes.old) clock.remainder.0 clock.warp.0 clock.defer clock.owed.0) bytes.old }
{
    let part = board_encoding::time_bytes(clock.remainder, clock.warp, clock.defer, clock.owed);
    text::put(bytes, REMAINDER_PLACE, &part);
}

// A board as its bytes.
ghost use Rattle.std.specs.Prelude.{◌≡◌};
ghost use Rattle.board_encoding.specs.Stored.{settings_bytes, time_bytes, board_bytes};

use crate::{BOARD_SIZE, TIME_SIZE};
use board::Board;
use time::{SystemTicks, TimerTicks};

fn settings_bytes(b: Board) -> [u8; 5]
    ensures { result ≡ settings_bytes b }
{
    let d = numbers::four_bytes(b.divisor);
    [b.model.number(), d[0], d[1], d[2], d[3]]
}

pub fn time_bytes(
    remainder: SystemTicks,
    warp: SystemTicks,
    defer: bool,
    owed: TimerTicks,
) -> [u8; TIME_SIZE]
    ensures { result ≡ time_bytes remainder.0 warp.0 defer owed.0 }
{
    let r = numbers::four_bytes(remainder.0);
    let w = numbers::four_bytes(warp.0);
    let o = numbers::four_bytes(owed.0);
    [
        r[0],
        r[1],
        r[2],
        r[3],
        w[0],
        w[1],
        w[2],
        w[3],
        u8::from(defer),
        o[0],
        o[1],
        o[2],
        o[3],
    ]
}

// Inlined, so that of a board just made the bytes are known when the program is built.
#[inline(always)]
pub fn board_bytes(b: Board) -> [u8; BOARD_SIZE]
    ensures { result ≡ board_bytes b }
{
    let c0 = encoding::channel_bytes(b.channels[0]);
    let c1 = encoding::channel_bytes(b.channels[1]);
    let c2 = encoding::channel_bytes(b.channels[2]);
    let settings = settings_bytes(b);
    let time = time_bytes(b.remainder, b.warp, b.defer, b.owed);
    let mut bytes = [0; BOARD_SIZE];
    let mut place = text::put(&mut bytes, 0, &c0);
    place = text::put(&mut bytes, place, &c1);
    place = text::put(&mut bytes, place, &c2);
    place = text::put(&mut bytes, place, &settings);
    text::put(&mut bytes, place, &time);
    bytes
}

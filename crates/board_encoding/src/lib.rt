// The byte form of a board: docs/ENCODING.md. A board that stands in lent bytes is the crate in_bytes'.
#![tactic(auto)]

mod storing;

use encoding::CHANNEL_SIZE;
pub use storing::{board_bytes, time_bytes};

// Where each part of a board begins, behind the one before: channels 1 and 2, then what the board itself holds.
pub const SECOND_PLACE: usize = CHANNEL_SIZE;

pub const THIRD_PLACE: usize = SECOND_PLACE + CHANNEL_SIZE;

pub const MODEL_PLACE: usize = THIRD_PLACE + CHANNEL_SIZE;

pub const DIVISOR_PLACE: usize = MODEL_PLACE + 1;

pub const REMAINDER_PLACE: usize = DIVISOR_PLACE + 4;

pub const WARP_PLACE: usize = REMAINDER_PLACE + 4;

pub const DEFER_PLACE: usize = WARP_PLACE + 4;

pub const OWED_PLACE: usize = DEFER_PLACE + 1;

pub const BOARD_SIZE: usize = OWED_PLACE + 4;

// Remainder, warp, defer flag and owed ticks.
pub const TIME_SIZE: usize = BOARD_SIZE - REMAINDER_PLACE;

// A whole board out of bytes, by value.
ghost use Rattle.std.specs.Prelude.{◌≡◌};
ghost use Rattle.board_encoding.specs.Loaded.{board_in, HoldsBoard};
ghost use Rattle.in_bytes.specs.Inner.{is_board, board_found};

use crate::{
    board_readable, channels_in, defer_in, divisor_in, model_in, owed_in, remainder_in, warp_in,
};
use board::Board;
use board_encoding::BOARD_SIZE;
use channel::PitType;

// Whether the bytes are a board: as many as it has at least, and those readable.
pub fn is_board(bytes: &[u8]) -> bool
    ensures { result ≡ is_board bytes.now }
{
    BOARD_SIZE <= bytes.len() && board_readable(bytes)
}

fn board_in(bytes: &[u8]) -> Board
    requires { HoldsBoard bytes.now }
    ensures { result ≡ board_in bytes.now }
{
    Board {
        channels: channels_in(bytes),
        model: model_in(bytes),
        divisor: divisor_in(bytes),
        remainder: remainder_in(bytes),
        warp: warp_in(bytes),
        defer: defer_in(bytes),
        owed: owed_in(bytes),
    }
}

// The board that readable bytes spell. For other bytes it is a fresh one.
pub fn load_board(bytes: &[u8]) -> Board
    ensures { result ≡ board_found bytes.now }
{
    if is_board(bytes) {
        board_in(bytes)
    } else {
        Board::new(PitType::Model8253, 0).board
    }
}

// Recorded traces: which bytes are one, and the operations that stand in it.
//
// The form is checked from the front in three parts: the head (head.rt), each operation (operation.rt, by the rules of rule.rt) and the checkpoints behind the
// last one, if there are any (section.rt). judging.rt puts them together.
#![tactic(auto)]

ghost use Rattle.std.specs.Prelude.{◌≡◌, None, Some};

pub mod head;
mod judging;
pub mod operation;
pub mod rule;
pub mod section;

use board_encoding::BOARD_SIZE;
pub use head::read_head;
pub use judging::judge;
pub use operation::{operation_at, operation_in};
use refusal::Refusal;

// The settings and the operation count, four numbers.
pub const HEAD_SIZE: usize = 4 * 4;

// Code, target and number.
pub const OPERATION_SIZE: usize = 1 + 1 + 4;

pub const MOST_OPERATIONS: u32 = 4096;

// After so many operations the board is kept.
pub const CHECKPOINT_EVERY: u32 = 256;

// How many checkpoints there are, a number.
pub const COUNT_SIZE: usize = 4;

// Where the last of as many operations as there can be ends.
pub const OPERATIONS_END: usize = HEAD_SIZE + OPERATION_SIZE * (MOST_OPERATIONS as usize);

pub const LONGEST_TRACE: usize = OPERATIONS_END
    + COUNT_SIZE
    + BOARD_SIZE * ((MOST_OPERATIONS / CHECKPOINT_EVERY) as usize);

// Why a trace is refused, and where: at the place of the field that breaks its rule, at the whole length where bytes are missing, at the first byte
// too many. Where it stands inside an operation, all of whose bytes are there, that operation's index, counted from 0.
#[derive(Clone, Copy, Debug, PartialEq, Eq)]
pub struct Fault {
    pub refusal: Refusal,
    pub place: usize,
    pub operation: Option<u32>,
}

impl Fault {
    pub fn outside(refusal: Refusal, place: usize) -> Fault
        ensures { result ≡ record { refusal = refusal; place = place; operation = None } }
    {
        Fault {
            refusal,
            place,
            operation: None,
        }
    }

    pub fn inside(index: u32, refusal: Refusal, place: usize) -> Fault
        ensures { result ≡ record { refusal = refusal; place = place; operation = Some index } }
    {
        Fault {
            refusal,
            place,
            operation: Some(index),
        }
    }
}

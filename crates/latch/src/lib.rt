// Latching a count, latching counts and status by a read-back, reading byte by byte, and what a read says of its byte.
#![tactic(auto)]

mod holding;
mod label;
mod latching;
mod reading;
mod status;

pub use holding::read_back;
pub use label::{Label, command_label, label_of};
pub use latching::latch_count;
pub use reading::{ByteRead, Half, next_half, read_byte, starts_word};
pub use status::status_byte;

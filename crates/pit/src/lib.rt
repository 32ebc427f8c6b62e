// What a host calls: a channel's record or a board in bytes, one operation at a time, and whole traces. docs/ENCODING.md has the byte forms and the
// numbers returned. The crate `pit_c` exports these functions to hosts that are not written in Rattle.
#![tactic(auto)]

mod answering;
pub mod board_calls;
pub mod channel_calls;
pub mod status;
pub mod trace_calls;

pub use board_calls::{pit_board_new, pit_board_operation};
pub use board_encoding::BOARD_SIZE;
pub use channel_calls::{CHANNEL_ANSWER_SIZE, pit_channel_fresh, pit_channel_operation};
pub use encoding::CHANNEL_SIZE;
pub use in_bytes::BOARD_ANSWER_SIZE;
pub use runner::TEXT_ROOM;
pub use trace_calls::{pit_answers, pit_check, pit_mark, pit_replay, pit_replay_from};

// The byte form of a channel's record: docs/ENCODING.md.
#![tactic(auto)]

mod codes;
pub mod loading;
mod record;
mod storing;

pub use loading::load_channel;
pub use storing::{channel_bytes, put_front};

// How many bytes a channel's record has.
pub const CHANNEL_SIZE: usize = 31;

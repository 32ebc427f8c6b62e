// A channel out of the bytes of its record.
ghost use Rattle.std.specs.Prelude.{◌≡◌};
ghost use Rattle.encoding.specs.Loaded.{load_channel};
ghost use Rattle.encoding.specs.Inner.{is_record, record_in};

use crate::record::Record;
use channel::Channel;

// Why no channel is loaded.
#[derive(Clone, Copy, Debug, PartialEq, Eq)]
pub enum LoadError {
    // Fewer bytes than a record has.
    Short,
    // A byte above its limit.
    Unreadable,
}

// Whether the bytes are a record: as many as it has at least, and those within their limits.
pub fn is_record(bytes: &[u8]) -> bool
    ensures { result ≡ is_record bytes.now }
{
    match Record::of(bytes) {
        Some(record) => record.is_readable(),
        None => false,
    }
}

// The channel that the bytes spell, readable or not. For fewer bytes than a record has it is the fresh one.
pub fn record_in(bytes: &[u8]) -> Channel
    ensures { result ≡ record_in bytes.now }
{
    match Record::of(bytes) {
        Some(record) => record.channel(),
        None => Channel::fresh(),
    }
}

#[tactic(auto, unfolding(crate::specs::Loaded::load_channel))]
pub fn load_channel(bytes: &[u8]) -> Result<Channel, LoadError>
    ensures { result ≡ load_channel bytes.now }
{
    let record = Record::of(bytes).ok_or(LoadError::Short)?;
    if !record.is_readable() {
        return Err(LoadError::Unreadable);
    }
    Ok(record.channel())
}

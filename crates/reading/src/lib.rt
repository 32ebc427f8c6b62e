// The count of a channel in one call, for a host that wants the count and not the bytes. What is promised of reads that a host makes itself, with other calls
// between them, stands in specs/Promise.antt.
#![tactic(auto)]

ghost use Rattle.std.specs.Prelude.{◌≡◌};
ghost use Rattle.refusal.specs.Reply.{number_in};
ghost use Rattle.reading.specs.Beginning.{may_begin};
ghost use Rattle.reading.specs.Word.{read_word};
ghost use Rattle.reading.specs.ReadCount.{error_number, count_reply, count_outcome, read_count};

use board::Board;
use channel::Channel;
use refusal::Refusal;

// Why a count is not given; nothing was done.
#[derive(Clone, Copy, Debug, PartialEq, Eq)]
pub enum CountError {
    Refused(Refusal),
    // The channel is not read low byte then high, is latched, holds a status, or has a word half read.
    NotReadable,
}

// The counting element, in BCD its four digits as they stand, 0x1234 for 1,234; and the board.
#[derive(Clone, Copy)]
pub struct CountAnswered {
    pub answer: Result<u16, CountError>,
    pub board: Board,
}

impl CountError {
    // The refusal's number: document 01's, or 201.
    pub fn number(self) -> u8
        ensures { result ≡ error_number self }
    {
        match self {
            CountError::Refused(refusal) => refusal.number(),
            CountError::NotReadable => 201,
        }
    }
}

impl CountAnswered {
    // The refusal's number, 0 beside a count.
    pub fn number(self) -> u8
        ensures { result ≡ number_in (count_reply self.answer) }
    {
        match self.answer {
            Ok(_) => 0,
            Err(error) => error.number(),
        }
    }
}

// A record latched and read twice: the two bytes as a number.
#[tactic(auto, unfolding(crate::specs::Word::read_word))]
fn read_word(c: &mut Channel) -> u16
    ensures { record { word = result; channel = c.new } ≡ read_word c.old }
{
    let low = latch::read_byte(latch::latch_count(*c));
    let high = latch::read_byte(low.channel);
    *c = high.channel;
    u16::from_le_bytes([low.byte, high.byte])
}

// A held count or status is left to whoever latched it.
fn may_begin(c: Channel) -> bool
    ensures { result ≡ may_begin c }
{
    c.status.status_latch == 0
        && !c.latch.count_is_latched
        && latch::starts_word(c.latch.read_state, c.control.rw_mode)
}

// A count from before ticks that are owed would be a stale one.
fn take_count(b: &mut Board, channel: usize) -> Result<u16, CountError>
    ensures { record { reply = count_reply result; board = b.new } ≡ read_count b.old channel }
{
    if 2 < channel {
        return Err(CountError::Refused(Refusal::ChannelAbove2));
    }
    if b.owed.0 != 0 {
        return Err(CountError::Refused(Refusal::TicksOwed));
    }
    if !may_begin(b.channels[channel]) {
        return Err(CountError::NotReadable);
    }
    Ok(read_word(&mut b.channels[channel]))
}

// Refusals 2, 16 and 201.
pub fn read_count(b: Board, channel: usize) -> CountAnswered
    ensures { count_outcome result ≡ read_count b channel }
{
    let mut board = b;
    let answer = take_count(&mut board, channel);
    CountAnswered { answer, board }
}

// Ports by their numbers, and what the calls that may raise an event share: a channel's new record, and the event of its output where there is one; and the read-back of up to three channels. No board goes in or out: its
// owner lends the records.
#![tactic(auto)]

pub mod port;
pub mod reading_back;

ghost use Rattle.std.specs.Prelude.{◌≡◌};
ghost use Rattle.board.specs.declared.Board.{Board};
ghost use Rattle.board.specs.Board.{channel_at};
ghost use Rattle.board.specs.Answer.{reply_of};
ghost use Rattle.ports.specs.Settle.{settle, untouched};
ghost use Rattle.ports.specs.Settled.{settled_on};

use board::Answer;
use channel::Channel;
use refusal::Refusal;

// A call that leaves the channel at place n this new record; where the event is refused, the record stays. Refusals 7 and 8.
pub fn settle(
    n: u8,
    c: &mut Channel,
    new: Channel,
    events: &mut [u8],
    place: usize,
) -> Result<Answer, Refusal>
    ensures { (b : Board) → channel_at b n ≡ c.old → settled_on b n result c.new events.new ≡ settle b n new events.old place }
{
    let event = event::level_event(n, *c, new);
    let at = event::place_event(events, place, event)?;
    *c = new;
    Ok(Answer::Place(at))
}

// A call that changes no channel. Refusal 7 is given all the same.
pub fn untouched(events: &mut [u8], place: usize) -> Result<Answer, Refusal>
    ensures { (b : Board) → record { reply = reply_of result; board = b; events = events.new } ≡ untouched b events.old place }
{
    let place = event::place_event(events, place, None)?;
    Ok(Answer::Place(place))
}

// Output events: two bytes for a change of output level, in the rest of the bytes that a call lends. No board is needed here.
#![tactic(auto)]

ghost use Rattle.std.specs.Prelude.{◌≡◌, ◌≤◌, ◌++◌, length, drop};
ghost use Rattle.event.specs.Event.{level_event, event_bytes, placing, place_event};

use channel::Channel;
use refusal::Refusal;

// A change of output level: the channel's place on the board, as the caller gives it, and its new level. Where the output stays there is none.
#[derive(Clone, Copy, Debug, PartialEq, Eq)]
pub struct Event {
    pub channel: u8,
    pub level: bool,
}

// The event of a channel, at this place on the board, whose record becomes another.
pub fn level_event(n: u8, old: Channel, new: Channel) -> Option<Event>
    ensures { result ≡ level_event n old new }
{
    let level = new.pins.output;
    (level != old.pins.output).then_some(Event { channel: n, level })
}

// The event writer: it is lent the rest of the event bytes, from the place on.
fn write_event(rest: &mut [u8], event: Event)
    requires { 2 ≤ length rest.old }
    ensures { rest.new ≡ event_bytes (Some event) ++ drop 2 rest.old }
{
    rest[0] = event.channel;
    rest[1] = u8::from(event.level);
}

// The new place in the event bytes. Refusals 7 and 8 are given here, before any byte is written.
#[tactic(auto, unfolding(crate::specs::Event::place_event))]
pub fn place_event(events: &mut [u8], place: usize, event: Option<Event>) -> Result<usize, Refusal>
    ensures { placing result events.new ≡ place_event event events.old place }
{
    if events.len() < place {
        return Err(Refusal::PlacePastEnd);
    }
    let Some(event) = event else {
        return Ok(place);
    };
    if events.len() - place < 2 {
        return Err(Refusal::NoRoom);
    }
    write_event(&mut events[place..], event);
    Ok(place + 2)
}

// Owed ticks: a run or catch-up leaves them on the board, and they are worked off here, each with the events of its outputs.
#![tactic(auto)]

ghost use Rattle.std.specs.Prelude.{◌≡◌, ◌≤◌, ◌+◌, length};
ghost use Rattle.board.specs.declared.Board.{Board};
ghost use Rattle.owed.specs.Worked.{size, put, work_up_to, begun, report, work_off};
ghost use Rattle.owed.specs.Ticked.{Has, ticked_on};
ghost use Rattle.owed.specs.Inner.{Alike, QuietRun};

use board::{Answer, Worked};
use channel::{Channel, PitType};
use event::Event;
use refusal::Refusal;
use time::TimerTicks;

// How many of the next ticks are quiet on all three channels, of those that are left and owed; it may be none. The laws of quiet ticks ask for an element
// of 16 bits; of an argument that is known, so they are drawn on here.
fn alike(left: u32, owed: u32, c0: Channel, c1: Channel, c2: Channel) -> u32
    ensures { Alike left owed c0 c1 c2 result }
{
    let last = quiet::quiet(c1).min(quiet::quiet(c2));
    let all = quiet::quiet(c0).min(last);
    let due = owed.min(all);
    left.min(due)
}

// How many bytes an event takes.
fn size(event: Option<Event>) -> usize
    ensures { result ≡ size event }
{
    match event {
        Some(_) => 2,
        None => 0,
    }
}

// An event written where there is room for it: the new place.
fn put_event(events: &mut [u8], place: usize, event: Option<Event>) -> usize
    requires { place + size event ≤ length events.old }
    ensures { record { bytes = events.new; place = result } ≡ put event (record { bytes = events.old; place = place }) }
{
    event::place_event(events, place, event).unwrap_or(place)
}

// The events of a tick, in channel order, written where there is room for all of them: the new place.
fn put_events(
    events: &mut [u8],
    place: usize,
    e0: Option<Event>,
    e1: Option<Event>,
    e2: Option<Event>,
) -> usize
    requires { place + (size e0 + size e1 + size e2) ≤ length events.old }
    ensures { record { bytes = events.new; place = result } ≡ put e2 (put e1 (put e0 (record { bytes = events.old; place = place }))) }
{
    let first = put_event(events, place, e0);
    let second = put_event(events, first, e1);
    put_event(events, second, e2)
}

// One loop changes the channels where they stand. A turn makes a run of quiet ticks in one step, or a single tick with its events; the
// contract knows single ticks only, so it is itself the promise that the runs come to the same. Since a turn makes one tick or many, it is no `for`.
fn work_up_to(
    channels: &mut [Channel; 3],
    model: PitType,
    owed: &mut TimerTicks,
    stated: u32,
    events: &mut [u8],
    place: usize,
) -> Worked
    requires { place ≤ length events.old }
    ensures { (b : Board) → Has b channels.old model owed.old.0 → ticked_on b (Ok (Answer.Worked result)) channels.new owed.new events.new ≡ report (work_up_to stated (begun b events.old place)) }
{
    let mut made: u32 = 0;
    let mut at = place;
    while made < stated {
        if owed.0 == 0 {
            break;
        }
        let [d0, d1, d2] = *channels;
        let run = alike(stated - made, owed.0, d0, d1, d2);
        if run == 0 {
            let t0 = tick::tick(d0, model);
            let t1 = tick::tick(d1, model);
            let t2 = tick::tick(d2, model);
            let e0 = event::level_event(0, d0, t0);
            let e1 = event::level_event(1, d1, t1);
            let e2 = event::level_event(2, d2, t2);
            if events.len() - at < size(e0) + size(e1) + size(e2) {
                break;
            }
            at = put_events(events, at, e0, e1, e2);
            *channels = [t0, t1, t2];
            owed.0 -= 1;
            made += 1;
        } else {
            quiet::skip(&mut channels[0], run);
            quiet::skip(&mut channels[1], run);
            quiet::skip(&mut channels[2], run);
            owed.0 -= run;
            made += run;
        }
    }
    Worked {
        made: TimerTicks(made),
        place: at,
    }
}

// The channels of a board that owes so many ticks: at most the stated number of these, each with all of its events or not at all. Refusals 7 and 15.
pub fn work_channels(
    channels: &mut [Channel; 3],
    model: PitType,
    owed: &mut TimerTicks,
    stated: u32,
    events: &mut [u8],
    place: usize,
) -> Result<Answer, Refusal>
    ensures { (b : Board) → Has b channels.old model owed.old.0 → ticked_on b result channels.new owed.new events.new ≡ work_off b stated events.old place }
{
    if events.len() < place {
        return Err(Refusal::PlacePastEnd);
    }
    if 65536 < stated {
        return Err(Refusal::TooManyTicks);
    }
    let worked = work_up_to(channels, model, owed, stated, events, place);
    Ok(Answer::Worked(worked))
}

// How many ticks the call makes where they are all quiet, else 0.
pub fn quiet_run(c0: Channel, c1: Channel, c2: Channel, owed: TimerTicks, stated: u32) -> u32
    ensures { QuietRun c0 c1 c2 owed.0 stated result }
{
    if 65536 < stated {
        return 0;
    }
    let run = alike(stated, owed.0, c0, c1, c2);
    if run < stated.min(owed.0) {
        return 0;
    }
    run
}

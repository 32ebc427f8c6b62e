// Runs the calls of a board at their limits and prints what each answers and leaves: counts, ticks at the warp and event room, of which
// document 01 says "Run only", and beside them places at the end of the event bytes and the largest remainder.
#![tactic(auto)]

use board::{Answer, Board};
use channel::{Channel, PitType};
use refusal::Refusal;
use std::{fmt, io};
use time::SystemTicks;

// Stands in the event bytes before a call, to be seen where nothing is written.
const OLD_BYTE: u8 = 165;

const DIVISOR: u32 = 12;

// Mode 2, low then high, channel 0: the output of a fresh channel goes high.
const MODE_2: u8 = 0x34;

// Latch channel 0: no event is due.
const LATCH: u8 = 0;

// Read-backs that name all three channels: of counts and status, and of neither.
const ALL_THREE: u8 = 0xCE;

const ASKS_NOTHING: u8 = 0xFE;

// An answer in words.
#[derive(Clone, Copy)]
struct Said(Result<Answer, Refusal>);

impl fmt::Display for Said {
    fn fmt<W: fmt::Write>(&self, f: &mut fmt::Formatter<W>) -> fmt::Result {
        match self.0 {
            Err(refusal) => write!(f, "refused {}", refusal.number()),
            Ok(Answer::Done) => write!(f, "done"),
            Ok(Answer::Place(place)) => write!(f, "place {place}"),
            Ok(Answer::Ticks(yielded)) => write!(f, "ticks {}", yielded.0),
            Ok(Answer::Byte(_)) => write!(f, "byte"),
            Ok(Answer::OutputState(_)) => write!(f, "output"),
            Ok(Answer::Count(_)) => write!(f, "count"),
            Ok(Answer::Retriggers(_)) => write!(f, "retriggers"),
            Ok(Answer::Dirty(_)) => write!(f, "dirty"),
            Ok(Answer::Worked(worked)) => write!(
                f,
                "made {}, place {}",
                worked.made.0, worked.place
            ),
        }
    }
}

fn fresh() -> Board {
    Board::new(PitType::Model8253, DIVISOR).board
}

// In BCD, where 65,536 counts do not come back to their start: from 0 to 4464, which is 17508 as a binary number. One more come to 4463, and the
// most that a call can be asked for to 2705.
fn counts(rt: &impl Print, number: u32) -> io::Result<()> {
    let mut start = fresh();
    start.channels[0].control.bcd_mode = true;
    let r = calls::counts(start, 0, number);
    let element = r.board.channels[0].counter.counting_element;
    println!(rt; "counts {number}: {}, element {element}", Said(r.answer))
}

// A catch-up of 100 first: the warp is then 100, and 4 ticks are left beyond 8 times 12. The 8 are worked off, or a run would be refused for them.
fn warped() -> Board {
    let r = calls::catch_up(fresh(), SystemTicks(100));
    calls::work_off(r.board, 8, &mut [OLD_BYTE; 6], 0).board
}

fn run(rt: &impl Print, b: Board, ticks: u32) -> io::Result<()> {
    let r = calls::run(b, SystemTicks(ticks));
    let (left, warp) = (r.board.remainder.0, r.board.warp.0);
    println!(rt; "run {ticks}: {}, left {left}, warp {warp}", Said(r.answer))
}

// A board that has 4,294,967,295 - 100 ticks left over, and no warp.
fn nearly_full() -> Board {
    let mut b = fresh();
    b.remainder = SystemTicks(4294967195);
    b
}

// Three event bytes and an output.
fn say_bytes(rt: &impl Print, events: [u8; 3], output: bool) -> io::Result<()> {
    let [b0, b1, b2] = events;
    println!(rt; ", bytes {b0} {b1} {b2}, output {}", u8::from(output))
}

// A control byte with three event bytes lent.
fn control(rt: &impl Print, name: &str, byte: u8, place: usize) -> io::Result<()> {
    let mut events = [OLD_BYTE; 3];
    let r = calls::write_port(fresh(), 0x43, byte, &mut events, place);
    print!(rt; "{name} at place {place} of 3: {}", Said(r.answer))?;
    say_bytes(rt, events, r.board.channels[0].pins.output)
}

// A port write where a tick is owed, with three event bytes lent: 16 comes after 1 and before 7.
fn write_owing(rt: &impl Print, port: u16, place: usize) -> io::Result<()> {
    let owing = calls::run(fresh(), SystemTicks(12));
    let r = calls::write_port(owing.board, port, MODE_2, &mut [OLD_BYTE; 3], place);
    println!(rt;
        "write to port {port} at place {place} of 3, a tick owed: {}",
        Said(r.answer)
    )
}

fn say_held(rt: &impl Print, c: Channel) -> io::Result<()> {
    let held = if c.latch.count_is_latched {
        "latched"
    } else {
        "free"
    };
    print!(rt; ", {held} status {}", c.status.status_latch)
}

// A read-back on an 8254, after so many system ticks, with three event bytes lent: 16, then 7, and never 8. What it leaves of the three channels.
fn read_back(rt: &impl Print, byte: u8, ticks: u32, place: usize) -> io::Result<()> {
    let made = Board::new(PitType::Model8254, DIVISOR);
    let start = calls::run(made.board, SystemTicks(ticks));
    let r = calls::write_port(start.board, 0x43, byte, &mut [OLD_BYTE; 3], place);
    print!(rt;
        "read-back {byte} after {ticks} at place {place} of 3: {}",
        Said(r.answer)
    )?;
    for c in r.board.channels {
        say_held(rt, c)?;
    }
    println!(rt; "")
}

// Channel 0 in mode 2 with a count of 2, whose output changes with every tick after the first; and so many ticks owed.
fn pulsing(owed: u32) -> Board {
    let mut events = [OLD_BYTE; 2];
    let set = calls::write_port(fresh(), 0x43, MODE_2, &mut events, 0);
    let low = calls::write_port(set.board, 0x40, 2, &mut events, 0);
    let high = calls::write_port(low.board, 0x40, 0, &mut events, 0);
    calls::run(high.board, SystemTicks(12 * (owed % 100000))).board
}

// Ticks worked off with three event bytes lent.
fn work(rt: &impl Print, b: Board, stated: u32, place: usize) -> io::Result<()> {
    let mut events = [OLD_BYTE; 3];
    let r = calls::work_off(b, stated, &mut events, place);
    print!(rt;
        "work {stated} at place {place} of 3: {}, owed {}",
        Said(r.answer),
        r.board.owed.0
    )?;
    say_bytes(rt, events, r.board.channels[0].pins.output)
}

fn idling() -> Board {
    calls::run(fresh(), SystemTicks(786444)).board
}

fn working_off(rt: &impl Print) -> io::Result<()> {
    for (stated, place) in [(65536, 3), (65537, 3), (65537, 4)] {
        work(rt, idling(), stated, place)?;
    }
    for (owed, stated, place) in [
        (5, 0, 0),
        (0, 5, 0),
        (5, 5, 0),
        (5, 5, 1),
        (5, 5, 2),
        (1, 5, 2),
    ] {
        work(rt, pulsing(owed), stated, place)?;
    }
    Ok(())
}

fn counts_and_runs(rt: &impl Print) -> io::Result<()> {
    for number in [65536, 65537, 4294967295] {
        counts(rt, number)?;
    }
    run(rt, warped(), 100)?;
    run(rt, warped(), 99)?;
    run(rt, nearly_full(), 100)?;
    run(rt, nearly_full(), 101)
}

fn writes(rt: &impl Print) -> io::Result<()> {
    for place in 1..5 {
        control(rt, "mode set", MODE_2, place)?;
    }
    for place in 3..5 {
        control(rt, "latch", LATCH, place)?;
    }
    for (ticks, place) in [(11, 3), (11, 4), (12, 4)] {
        read_back(rt, ALL_THREE, ticks, place)?;
    }
    for ticks in [11, 12] {
        read_back(rt, ASKS_NOTHING, ticks, 0)?;
    }
    for (port, place) in [(0x44, 4), (0x43, 4), (0x42, 0)] {
        write_owing(rt, port, place)?;
    }
    Ok(())
}

fn main(rt: HostRuntime) -> io::Result<()> {
    counts_and_runs(&rt)?;
    writes(&rt)?;
    working_off(&rt)
}

// Lent bytes: one fewer than is asked for are short, and stay as they were; so do the bytes behind what is written.
use crate::lines::first;
use crate::readers::{Outcome, Reader, ask, written};
use line::LINE_ROOM;
use std::io;

// What stands in the lent bytes before. No text has it.
const FILL: u8 = 170;

// No more are lent: what a replay of 600 operations asks for.
const MOST: usize = LINE_ROOM * 602;

fn filled() -> [u8; MOST] {
    [FILL; MOST]
}

fn stays_from(lent: &[u8; MOST], n: usize) -> bool {
    lent.iter().skip(n).all(|byte| *byte == FILL)
}

// The first bytes of what is lent go to the reader.
fn lend(rt: &impl Print, reader: Reader, trace: &[u8], room: usize) -> io::Result<()> {
    if MOST < room {
        return Ok(());
    }
    let mut lent = filled();
    let replayed = ask(reader, trace, &mut lent[..room]);
    let rest = if stays_from(&lent, written(replayed)) {
        "stays"
    } else {
        "CHANGED"
    };
    println!(rt; "  room {room}: {}, the rest {rest}", Outcome(replayed))
}

// A byte less than is asked for, and as many.
fn pair(rt: &impl Print, name: &str, reader: Reader, trace: &[u8], asked: usize) -> io::Result<()> {
    println!(rt; "{name}{reader}")?;
    if 0 < asked {
        lend(rt, reader, trace, asked - 1)?;
    }
    lend(rt, reader, trace, asked)
}

pub(crate) fn show_all(rt: &impl Print, marked: &[u8]) -> io::Result<()> {
    pair(rt, "", Reader::Replay, marked, MOST)?;
    pair(rt, "", Reader::Check, marked, LINE_ROOM)?;
    pair(rt, "", Reader::From(0), marked, LINE_ROOM * 345)?;
    pair(rt, "", Reader::From(1), marked, LINE_ROOM * 89)?;
    pair(rt, "", Reader::From(2), marked, LINE_ROOM)?;
    pair(rt, "", Reader::Mark, marked, 3842)?;
    // A byte of the count, and no more.
    let refused = first(marked, 3617);
    let name = "a refused trace: ";
    pair(rt, name, Reader::Replay, refused, LINE_ROOM)?;
    pair(rt, name, Reader::Check, refused, LINE_ROOM)?;
    pair(rt, name, Reader::From(0), refused, LINE_ROOM)?;
    pair(rt, name, Reader::Mark, refused, 0)
}

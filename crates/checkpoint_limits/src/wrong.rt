// Refusal 18: a checkpoint that is wrong, missing or not readable, and what comes before it.
use crate::lines::first;
use crate::making::{blank, put_byte, put_marked, put_number};
use crate::readers::{Reader, show, show_by_all};
use crate::sizes::show_tails;
use std::io;

// The marked trace: where its last operation stands, where its operations end, where its checkpoints stand and end.
const LAST: usize = 16 + 6 * 599;

const END: usize = 16 + 6 * 600;

const FIRST: usize = END + 4;

const SECOND: usize = FIRST + 111;

const LENGTH: usize = SECOND + 111;

// Places in a checkpoint, by docs/ENCODING.md.
const MODE: usize = 0;

const MODEL: usize = 93;

const REMAINDER: usize = 98;

const DEFER: usize = 106;

// The marked trace with one byte of a checkpoint changed.
fn case(rt: &impl Print, name: &str, marked: &[u8], place: usize, byte: u8) -> io::Result<()> {
    let mut trace = [0u8; LENGTH];
    text::put(&mut trace, 0, marked);
    put_byte(&mut trace, place, byte);
    let changed: &[u8] = &trace;
    show_by_all(rt, name, changed, LENGTH)?;
    show(rt, Reader::From(1), changed)?;
    show_tails(rt, changed, 1, 2)
}

pub(crate) fn show_changed(rt: &impl Print, marked: &[u8]) -> io::Result<()> {
    for (name, place, byte) in [
        ("checkpoint 0, mode 6: not readable", FIRST + MODE, 6),
        ("checkpoint 1, mode 6: not readable", SECOND + MODE, 6),
        ("checkpoint 1, model 2: not readable", SECOND + MODEL, 2),
        ("checkpoint 1, defer 2: not readable", SECOND + DEFER, 2),
        ("checkpoint 1, the other model", SECOND + MODEL, 0),
        ("checkpoint 0, another remainder", FIRST + REMAINDER, 5),
        ("checkpoint 1, another remainder", SECOND + REMAINDER, 5),
    ] {
        case(rt, name, marked, place, byte)?;
    }
    Ok(())
}

pub(crate) fn show_missing(rt: &impl Print, marked: &[u8]) -> io::Result<()> {
    println!(rt; "missing")?;
    show(rt, Reader::From(2), marked)?;
    show(rt, Reader::From(4294967295), marked)?;
    println!(rt; "no section")?;
    let plain = first(marked, END);
    show(rt, Reader::From(0), plain)?;
    show(rt, Reader::From(4294967295), plain)?;
    println!(rt; "the last of 4096 operations, and one more")?;
    let mut bytes = blank();
    let length = put_marked(marked, 4096, &mut bytes);
    let trace = first(&bytes, length);
    show(rt, Reader::From(15), trace)?;
    show(rt, Reader::From(16), trace)
}

// Faults of form come before a checkpoint that is wrong, and of two wrong ones the first is told.
pub(crate) fn show_order(rt: &impl Print, marked: &[u8]) -> io::Result<()> {
    let mut trace = [0u8; LENGTH + 1];
    text::put(&mut trace, 0, marked);
    put_byte(&mut trace, FIRST + REMAINDER, 5);
    put_byte(&mut trace, SECOND + REMAINDER, 5);
    let both: &[u8] = &trace;
    show_by_all(rt, "both checkpoints wrong", both, LENGTH)?;
    show_by_all(rt, "and a byte behind them", both, LENGTH + 1)?;
    show_by_all(rt, "and a byte less", both, LENGTH - 1)?;
    put_number(&mut trace, END, 3);
    show_by_all(rt, "and count 3", &trace, LENGTH)?;
    put_byte(&mut trace, LAST, 10);
    show_by_all(rt, "and code 10 in the last operation", &trace, LENGTH)
}

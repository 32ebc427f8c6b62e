// A marked trace spoilt at each place, one at a time: every prefix of it by every reader, which is to be refused with 9 at its length, and every byte of a checkpoint
// changed, of which the full check is to say 18 at the checkpoint's first byte. How many are refused so, and what is said of the other prefixes.
ghost use Rattle.std.specs.Prelude.{◌<◌};

use crate::lines::first;
use crate::making::{byte_at, put_byte, put_marked};
use crate::readers::{Reader, ask, refused_as, show, written};
use line::LINE_ROOM;
use refusal::Refusal;
use std::io;
use trace::Fault;

// Where the first checkpoint of 256 operations begins, and the second of 600.
const FIRST_OF_256: usize = 16 + 6 * 256 + 4;

const SECOND_OF_600: usize = 16 + 6 * 600 + 4 + 111;

// Whether a text is the one line of a fault outside the operations.
fn is_fault(text: &[u8], refusal: Refusal, place: usize) -> bool {
    let line = line::fault_line(Fault::outside(refusal, place));
    text == line.as_bytes()
}

// A line is lent and no more, so of a sound trace a replay says nothing. The reader that marks tells no place.
fn ends_early(reader: Reader, prefix: &[u8]) -> bool {
    let mut out = [0u8; LINE_ROOM];
    let replayed = ask(reader, prefix, &mut out);
    let said = first(&out, written(replayed));
    refused_as(replayed) == 9 || is_fault(said, Refusal::TraceEnds, prefix.len())
}

fn show_each(rt: &impl Print, reader: Reader, trace: &[u8]) -> io::Result<()> {
    let mut number: usize = 0;
    for n in 0..=trace.len() {
        let prefix = &trace[..n];
        if ends_early(reader, prefix) {
            number += 1;
        } else {
            print!(rt; "{n} bytes")?;
            show(rt, reader, prefix)?;
        }
    }
    println!(rt; "{number} prefixes refused 9 at their length")
}

pub(crate) fn show_prefixes(rt: &impl Print, marked: &[u8]) -> io::Result<()> {
    for reader in [
        Reader::Replay,
        Reader::Check,
        Reader::From(0),
        Reader::From(1),
        Reader::Mark,
    ] {
        show_each(rt, reader, marked)?;
    }
    Ok(())
}

// Whether the check sees so much added to one byte of a checkpoint.
fn is_seen(marked: &[u8], checkpoint: usize, place: usize, more: u8) -> bool {
    let mut trace = [0u8; 3842];
    let length = text::put(&mut trace, 0, marked);
    put_byte(&mut trace, place, byte_at(marked, place).wrapping_add(more));
    let mut out = [0u8; LINE_ROOM];
    let checked = checkpoint::check_into(first(&trace, length), &mut out);
    is_fault(
        first(&out, written(checked)),
        Refusal::CheckpointWrong,
        checkpoint,
    )
}

// Each byte of a checkpoint is changed to so many other values.
fn every_byte(rt: &impl Print, marked: &[u8], checkpoint: usize, values: u8) -> io::Result<()>
    requires { checkpoint < 26373 }
{
    let mut seen: usize = 0;
    for more in 1..=values {
        for place in checkpoint..checkpoint + 111 {
            if is_seen(marked, checkpoint, place, more) {
                seen += 1;
            }
        }
    }
    println!(rt; "checkpoint at {checkpoint}: {seen} changes seen")
}

// Of the checkpoint of 256 operations every byte is changed to every other value, of checkpoint 1 of the trace itself to one.
pub(crate) fn show_changes(rt: &impl Print, marked: &[u8]) -> io::Result<()> {
    let mut trace = [0u8; 1667];
    let length = put_marked(marked, 256, &mut trace);
    every_byte(rt, first(&trace, length), FIRST_OF_256, 255)?;
    every_byte(rt, marked, SECOND_OF_600, 1)
}

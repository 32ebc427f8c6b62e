// Traces of several lengths: marked, checked, marked again, replayed with checkpoints and without, and replayed from each checkpoint.
use crate::lines::first;
use crate::making::{blank, put_marked, put_plain};
use crate::readers::{Reader, compare, show};
use std::io;

// Whether the replay from each of some checkpoints says what the whole replay says of the operations behind it, and its end. Before that stand the line of the head and one
// for each operation.
pub(crate) fn show_tails(rt: &impl Print, marked: &[u8], from: u32, to: u32) -> io::Result<()> {
    for k in from..to {
        print!(rt; "  the tail from {k}")?;
        let lines = 1 + 256 * (k as usize + 1);
        compare(rt, Reader::From(k), marked, Reader::Replay, marked, lines)?;
    }
    Ok(())
}

fn show_size(rt: &impl Print, source: &[u8], operations: u32) -> io::Result<()> {
    println!(rt; "{operations} operations")?;
    let mut bytes = blank();
    let n = put_plain(source, operations, &mut bytes);
    let plain = first(&bytes, n);
    let mut more = blank();
    let m = put_marked(source, operations, &mut more);
    let marked = first(&more, m);
    show(rt, Reader::Mark, plain)?;
    show(rt, Reader::Check, marked)?;
    print!(rt; "  marked again")?;
    compare(rt, Reader::Mark, marked, Reader::Mark, plain, 0)?;
    print!(rt; "  replayed with checkpoints")?;
    compare(rt, Reader::Replay, marked, Reader::Replay, plain, 0)?;
    show_tails(rt, marked, 0, operations / 256)
}

pub(crate) fn show_all(rt: &impl Print, source: &[u8]) -> io::Result<()> {
    for operations in [0, 1, 255, 256, 257, 512, 4096] {
        show_size(rt, source, operations)?;
    }
    Ok(())
}

// The limits of the form of a trace's head and operations: each refusal number at its first and at its last possible place, the order of the tests, and the
// values that are just sound. What is printed under a name is the replay of that trace; of the one with 4,096 operations only the end. Then every prefix of the
// trace on standard input, which is case R. Of section three only its first byte is tried: the rest is in checkpoint_limits.
#![tactic(auto)]

mod making;
mod prefixes;

use making::{Head, Operation, begin, push, sound};
use std::io;
use std::io::Read;

// Where 4,096 operations end.
const LONGEST: usize = trace::OPERATIONS_END;

// Where one operation ends.
const WHOLE: usize = 22;

// More than case R has.
const MOST_BYTES: u64 = 4096;

// The room that a replay is lent: no replay prints more.
pub(crate) const TEXT: usize = runner::TEXT_ROOM;

// Of a long replay so many of its last bytes are printed.
const END: usize = 54;

// The last bytes of a replay, at most as many as are asked for. Not inlined: its room stands once on the stack, whoever calls it.
#[inline(never)]
fn show_end(rt: &impl Print, name: &str, trace: &[u8], most: usize) -> io::Result<()> {
    let mut output = [0u8; TEXT];
    let printed = runner::replay(trace, &mut output);
    print!(rt; "{name}: ")?;
    if printed <= most {
        return rt.write_all(&output[..printed]);
    }
    print!(rt; "{printed} bytes, the last of them ")?;
    rt.write_all(&output[printed - most..printed])
}

fn show(rt: &impl Print, name: &str, trace: &[u8]) -> io::Result<()> {
    show_end(rt, name, trace, TEXT)
}

// No operation, and as many bytes as the case has.
fn head<R: Print + AllocGlobal>(rt: &R, name: &str, head: Head, length: usize) -> io::Result<()> {
    let mut trace = begin(rt.alloc(), head)?;
    trace.resize(length, 0)?;
    show(rt, name, trace.as_slice())
}

// One operation, and as many bytes as the case has.
fn one<R: Print + AllocGlobal>(
    rt: &R,
    name: &str,
    operation: Operation,
    length: usize,
) -> io::Result<()> {
    let mut trace = begin(rt.alloc(), sound(1))?;
    push(&mut trace, operation)?;
    trace.resize(length, 0)?;
    show(rt, name, trace.as_slice())
}

// 4,096 operations, the last of them the case's. The others read the command port.
fn last<R: Print + AllocGlobal>(
    rt: &R,
    name: &str,
    operation: Operation,
    length: usize,
) -> io::Result<()> {
    let mut trace = begin(rt.alloc(), sound(4096))?;
    for _ in 0..4095 {
        push(&mut trace, Operation(2, 0x43, 0))?;
    }
    push(&mut trace, operation)?;
    trace.resize(length, 0)?;
    show_end(rt, name, trace.as_slice(), END)
}

fn heads<R: Print + AllocGlobal>(rt: &R) -> io::Result<()> {
    for (name, of, length) in [
        ("empty", sound(0), 0),
        ("three bytes", sound(0), 3),
        ("settings count 1", Head(1, 12, 0, 0), 16),
        ("settings count 3, no more bytes", Head(3, 12, 0, 0), 4),
        ("no divisor", sound(0), 4),
        ("divisor 0", Head(2, 0, 2, 4097), 16),
        ("no model", sound(0), 8),
        ("model 2", Head(2, 1, 2, 4097), 16),
        ("no operation count", sound(0), 15),
        ("4,097 operations", sound(4097), 16),
        ("4,096 operations, none there", sound(4096), 16),
        ("no operation", sound(0), 16),
        (
            "no operation, 8254, largest divisor",
            Head(2, 4294967295, 1, 0),
            16,
        ),
        ("no operation, a byte more", sound(0), 17),
    ] {
        head(rt, name, of, length)?;
    }
    Ok(())
}

fn rules<R: Print + AllocGlobal>(rt: &R) -> io::Result<()> {
    for (name, operation) in [
        ("code 0", Operation(0, 0x43, 0)),
        (
            "code 10, target and number wrong for 8",
            Operation(10, 1, 1),
        ),
        ("write, number 256", Operation(1, 0x43, 256)),
        ("read, number 1", Operation(2, 0x43, 1)),
        ("gate, number 2", Operation(3, 0, 2)),
        ("load cycle, number 1", Operation(5, 0, 1)),
        ("catch-up, target 1", Operation(6, 1, 0)),
        ("run, target 255", Operation(7, 255, 0)),
        ("reset, target 1 and number 1", Operation(8, 1, 1)),
        ("reset, number 16777216", Operation(8, 0, 16777216)),
        (
            "work off, target 1 and number 65537",
            Operation(9, 1, 65537),
        ),
    ] {
        one(rt, name, operation, WHOLE)?;
    }
    one(rt, "code 10, a byte missing", Operation(10, 0, 0), 21)?;
    one(rt, "one operation, a byte more", Operation(8, 0, 0), 23)
}

// Just sound, so that only the board refuses.
fn when_run<R: Print + AllocGlobal>(rt: &R) -> io::Result<()> {
    for (name, operation) in [
        ("write, number 255", Operation(1, 0x43, 255)),
        ("write, port 255", Operation(1, 255, 0)),
        ("read, port 0", Operation(2, 0, 0)),
        ("gate, number 1", Operation(3, 0, 1)),
        ("gate, channel 255", Operation(3, 255, 1)),
        ("counts, number 65537", Operation(4, 0, 65537)),
        ("counts, number 4294967295", Operation(4, 2, 4294967295)),
        (
            "counts, channel 3, number 4294967295",
            Operation(4, 3, 4294967295),
        ),
        ("load cycle, channel 3", Operation(5, 3, 0)),
        ("catch-up, number 4294967295", Operation(6, 0, 4294967295)),
        ("run, number 0", Operation(7, 0, 0)),
        ("reset", Operation(8, 0, 0)),
        ("work off, number 65536", Operation(9, 0, 65536)),
        ("work off, number 65537", Operation(9, 0, 65537)),
        ("work off, number 4294967295", Operation(9, 0, 4294967295)),
    ] {
        one(rt, name, operation, WHOLE)?;
    }
    Ok(())
}

fn last_places<R: Print + AllocGlobal>(rt: &R) -> io::Result<()> {
    for (name, operation) in [
        ("4,096 operations", Operation(2, 0x40, 0)),
        ("last code 0", Operation(0, 0, 0)),
        (
            "last code 10, target and number wrong for 8",
            Operation(10, 1, 1),
        ),
        ("last is a write, number 256", Operation(1, 0x43, 256)),
        ("last is a read, number 1", Operation(2, 0x43, 1)),
        ("last is a gate, number 2", Operation(3, 0, 2)),
        ("last is a load cycle, number 1", Operation(5, 0, 1)),
        ("last is a catch-up, target 1", Operation(6, 1, 0)),
        ("last is a run, target 255", Operation(7, 255, 0)),
        ("last is a reset, target 1 and number 1", Operation(8, 1, 1)),
        (
            "last is a reset, number 16777216",
            Operation(8, 0, 16777216),
        ),
        (
            "last is a work off, target 1 and number 65537",
            Operation(9, 1, 65537),
        ),
    ] {
        last(rt, name, operation, LONGEST)?;
    }
    last(rt, "last byte missing", Operation(2, 0x40, 0), LONGEST - 1)?;
    last(
        rt,
        "last operation, a byte more",
        Operation(2, 0x40, 0),
        LONGEST + 1,
    )
}

fn main(rt: HostRuntime) -> io::Result<()> {
    heads(&rt)?;
    rules(&rt)?;
    when_run(&rt)?;
    last_places(&rt)?;
    let mut trace = Vec::new(rt.alloc());
    rt.reader().take(MOST_BYTES).read_to_end(&mut trace)?;
    prefixes::show_all(&rt, trace.as_slice())
}

// Faults of form in section three: 9, 17 and 13 at their first and at their last places, and their order.
use crate::making::{blank, end_of, put_marked, put_number};
use crate::readers::show_by_all;
use std::io;

// A trace of so many operations with its checkpoints, the count of them and its length as the case has them.
fn case(
    rt: &impl Print,
    name: &str,
    source: &[u8],
    operations: u32,
    count: u32,
    length: usize,
) -> io::Result<()> {
    let mut trace = blank();
    put_marked(source, operations, &mut trace);
    put_number(&mut trace, end_of(operations), count);
    show_by_all(rt, name, &trace, length)
}

pub(crate) fn show_below_256(rt: &impl Print, source: &[u8]) -> io::Result<()> {
    for (name, operations, count, length) in [
        ("0 operations, a byte more", 0, 0, 17),
        ("0 operations, three bytes more", 0, 0, 19),
        ("0 operations, an empty section", 0, 0, 20),
        ("0 operations, a byte behind it", 0, 0, 21),
        ("0 operations, count 1", 0, 1, 20),
        (
            "0 operations, count 4294967295, a byte behind it",
            0,
            4294967295,
            21,
        ),
        ("255 operations, an empty section", 255, 0, 1550),
        ("255 operations, count 1, a board", 255, 1, 1661),
    ] {
        case(rt, name, source, operations, count, length)?;
    }
    Ok(())
}

pub(crate) fn show_from_256(rt: &impl Print, source: &[u8]) -> io::Result<()> {
    for (name, operations, count, length) in [
        ("256 operations, count 0", 256, 0, 1556),
        ("256 operations, no board", 256, 1, 1556),
        ("256 operations, a byte less", 256, 1, 1666),
        ("600 operations, count 1, a board", 600, 1, 3731),
        ("600 operations, count 1", 600, 1, 3842),
        ("600 operations, count 3", 600, 3, 3842),
        ("600 operations, count 3, no board", 600, 3, 3620),
        ("600 operations, no board", 600, 2, 3620),
        ("4096 operations, a byte more", 4096, 16, 24593),
        ("4096 operations, count 15", 4096, 15, 26372),
        ("4096 operations, count 17", 4096, 17, 26372),
        (
            "4096 operations, count 16 turned round",
            4096,
            268435456,
            26372,
        ),
        ("4096 operations, the last byte missing", 4096, 16, 26371),
        ("4096 operations, a byte behind all", 4096, 16, 26373),
    ] {
        case(rt, name, source, operations, count, length)?;
    }
    Ok(())
}

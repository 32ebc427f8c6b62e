// Counts down in BCD from chosen starts, for docs/DIGITS.md. A row has the number, each digit that the count changed, the ones first, and the
// number that it left. Rows are read off the timer's own counts: nothing is recomputed here.
#![tactic(auto)]

use channel::Channel;
use std::io;

fn counted(element: u16) -> u16 {
    let mut c = Channel::fresh();
    c.control.bcd_mode = true;
    c.counter.counting_element = element;
    count::count(c).counter.counting_element
}

// One digit, if it changed.
fn change(rt: &impl Print, name: &str, before: u16, after: u16) -> io::Result<()> {
    if before == after {
        return Ok(());
    }
    print!(rt; " {name} {before:x} to {after:x},")
}

// The row of one count, and what it left.
fn row(rt: &impl Print, before: u16) -> io::Result<u16> {
    let after = counted(before);
    print!(rt; "{before:04x}:")?;
    change(rt, "ones", before % 16, after % 16)?;
    change(rt, "tens", before / 16 % 16, after / 16 % 16)?;
    change(rt, "hundreds", before / 256 % 16, after / 256 % 16)?;
    change(rt, "thousands", before / 4096, after / 4096)?;
    println!(rt; " leaves {after:04x}")?;
    Ok(after)
}

fn main(rt: HostRuntime) -> io::Result<()> {
    for (over, start) in [
        ("1000", 0x1001),
        ("0010", 0x0011),
        ("0000", 0x0001),
        ("00a0", 0x00A1),
    ] {
        println!(rt; "over {over}")?;
        let mut element = start;
        for _ in 0..3 {
            element = row(&rt, element)?;
        }
    }
    println!(rt; "other digits above 9")?;
    for start in [0x00FF, 0x0F00, 0xA000] {
        row(&rt, start)?;
    }
    Ok(())
}

// Runs counts from each of the 65,536 starts, in both radixes, latched and not, and prints how many of them differ. One count goes against
// document 01's own way, which takes 1, 0x7, 0x67 or 0x667 from the number; a few in one call against as many single ones; and many in one call
// against what `left_after` makes of them. The crate `count` goes digit by digit and by its table, and no code is shared.
#![tactic(auto)]

ghost use Rattle.std.specs.Prelude.{◌<◌};

use channel::Channel;
use std::io;

// Stands in the output latch before the count, to be seen where the latch must not follow.
const OLD_LATCH: u16 = 0x5AA5;

fn taken(element: u16) -> u16 {
    if element % 16 != 0 {
        0x1
    } else if element / 16 % 16 != 0 {
        0x7
    } else if element / 16 / 16 % 16 != 0 {
        0x67
    } else {
        0x667
    }
}

// What is taken is never above the number: nothing wraps but 0.
fn below(element: u16, bcd: bool) -> u16 {
    if !bcd {
        element.wrapping_sub(1)
    } else if element == 0 {
        0x9999
    } else {
        element.wrapping_sub(taken(element))
    }
}

// What many counts leave, in a way of its own. A start with a digit above 9 goes down by document 01's rule, the ones in one leap, until its
// digits are good or the counts are made; from good digits it is a decimal difference, and its digits one after the other.
#[derive(Clone, Copy)]
struct Left {
    element: u16,
    number: u32,
}

fn good(element: u16) -> bool {
    element / 4096 < 10 && element / 256 % 16 < 10 && element / 16 % 16 < 10 && element % 16 < 10
}

// The ones at once, as far as there are counts; where they are 0, one count.
fn leapt(l: Left) -> Left
    requires { 0 < l.number }
    ensures { result.number < l.number }
{
    let ones = l.element % 16;
    if ones == 0 {
        return Left {
            element: below(l.element, true),
            number: l.number - 1,
        };
    }
    let counts = l.number.min(u32::from(ones));
    Left {
        element: l.element - counts as u16,
        number: l.number - counts,
    }
}

// No index is counted here: each leap makes as many counts as it can.
fn made_good(start: Left) -> Left {
    let mut l = start;
    while l.number > 0 && !good(l.element) {
        l = leapt(l);
    }
    l
}

// The last four decimal digits of a number, packed.
fn digits(value: u32) -> u16 {
    let packed = value % 10
        + 16 * (value / 10 % 10)
        + 256 * (value / 100 % 10)
        + 4096 * (value / 1000 % 10);
    packed as u16
}

fn decimal(element: u16) -> u32 {
    let e = u32::from(element);
    e / 4096 * 1000 + e / 256 % 16 * 100 + e / 16 % 16 * 10 + e % 16
}

fn left_after(element: u16, bcd: bool, number: u32) -> u16 {
    if !bcd {
        return ((u32::from(element) + 65536 - number % 65536) % 65536) as u16;
    }
    let l = made_good(Left { element, number });
    if l.number == 0 {
        return l.element;
    }
    digits(decimal(l.element) % 10000 + 10000 - l.number % 10000)
}

// Every second start has counted before, to be seen where no count must leave it so.
fn starting(element: u16, bcd: bool, latched: bool) -> Channel {
    let mut c = Channel::fresh();
    c.control.bcd_mode = bcd;
    c.counter.counting_element = element;
    c.counter.ticked = element % 2 == 1;
    c.latch.output_latch = OLD_LATCH;
    c.latch.count_is_latched = latched;
    c
}

// Whether a record that has counted is not as it should be: element, output latch, whether it is latched, or `ticked`.
fn differs(c: Channel, element: u16, latch: u16, latched: bool, ticked: bool) -> bool {
    c.counter.counting_element != element
        || c.latch.output_latch != latch
        || c.latch.count_is_latched != latched
        || c.counter.ticked != ticked
}

// The latch follows the element, but for one that is held.
fn differs_from(c: Channel, element: u16, latched: bool) -> bool {
    let latch = if latched { OLD_LATCH } else { element };
    differs(c, element, latch, latched, true)
}

fn one_differs(start: u16, bcd: bool, latched: bool) -> bool {
    let c = count::count(starting(start, bcd, latched));
    differs_from(c, below(start, bcd), latched)
}

// A few in one call, none among them, and as many single counts.
fn few_differ(start: u16, bcd: bool, latched: bool, number: u32) -> bool {
    let c = count::counts(starting(start, bcd, latched), number);
    let mut single = starting(start, bcd, latched);
    for _ in 0..number {
        single = count::count(single);
    }
    differs(
        c,
        single.counter.counting_element,
        single.latch.output_latch,
        single.latch.count_is_latched,
        single.counter.ticked,
    )
}

fn many_differ(start: u16, bcd: bool, latched: bool, number: u32) -> bool {
    let c = count::counts(starting(start, bcd, latched), number);
    differs_from(c, left_after(start, bcd, number), latched)
}

// How many starts differ, by what is asked of each: a start, whether it counts in BCD, and whether it is latched.
fn report<F: Fn(u16, bool, bool) -> bool>(rt: &impl Print, differs: F) -> io::Result<()>
    requires { F.IsAlwaysCallable differs }
{
    for bcd in [false, true] {
        for latched in [false, true] {
            let radix = if bcd { "decimal" } else { "binary" };
            let held = if latched { ", latched" } else { "" };
            let wrong = (0..=u16::MAX)
                .filter(|start| differs(*start, bcd, latched))
                .count();
            println!(rt; "{radix}{held}: 65536 starts, differing {wrong}")?;
        }
    }
    Ok(())
}

fn main(rt: HostRuntime) -> io::Result<()> {
    println!(rt; "one count")?;
    report(&rt, one_differs)?;
    for number in [0, 1, 2, 3, 4, 11] {
        println!(rt; "as single counts, {number}")?;
        report(&rt, |start, bcd, latched| {
            few_differ(start, bcd, latched, number)
        })?;
    }
    for number in [
        9, 10, 24, 25, 50, 999, 6665, 9999, 10000, 10001, 65535, 65536, 65537, 4294967295,
    ] {
        println!(rt; "in leaps, {number}")?;
        report(&rt, |start, bcd, latched| {
            many_differ(start, bcd, latched, number)
        })?;
    }
    Ok(())
}

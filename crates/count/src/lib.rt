// Counts: the counting element goes down by one in its radix, once or a number of times.
#![tactic(auto)]

mod at_once;
mod digits;
mod lending;
mod table;

ghost use Rattle.std.specs.Prelude.{◌≡◌};
ghost use Rattle.count.specs.Step.{step_in};
ghost use Rattle.numbers.specs.Times.{times};
ghost use Rattle.count.specs.Count.{count};
ghost use Rattle.count.specs.Inner.{followed_by, ticked_by};

use at_once::decimal_steps;
use channel::{Channel, Latch};
pub use digits::decimal_step;

pub fn step_in(bcd: bool, element: u16) -> u16
    ensures { result ≡ step_in bcd element }
{
    if bcd {
        decimal_step(element)
    } else {
        element.wrapping_sub(1)
    }
}

#[tactic(auto, unfolding(crate::specs::Count::count))]
pub fn count(c: Channel) -> Channel
    ensures { result ≡ count c }
{
    let element = step_in(c.control.bcd_mode, c.counter.counting_element);
    let mut next = c.put_element(element);
    next.counter.ticked = true;
    next
}

// In binary that many steps are one subtraction that goes round.
pub fn steps_in(bcd: bool, element: u16, number: u32) -> u16
    ensures { result ≡ times number (step_in bcd) element }
{
    if bcd {
        decimal_steps(element, number)
    } else {
        element.wrapping_sub((number % 65536) as u16)
    }
}

// Most calls make one count: one step, without a look at many.
fn counted_element(bcd: bool, element: u16, number: u32) -> u16
    ensures { result ≡ times number (step_in bcd) element }
{
    if number == 1 {
        step_in(bcd, element)
    } else {
        steps_in(bcd, element, number)
    }
}

pub fn followed_by(number: u32, l: Latch, element: u16) -> Latch
    ensures { result ≡ followed_by number l element }
{
    if number == 0 { l } else { l.follow(element) }
}

pub fn ticked_by(number: u32, ticked: bool) -> bool
    ensures { result ≡ ticked_by number ticked }
{
    ticked || number > 0
}

// That many single counts. The record is put together once, not stepped count by count: docs/PERFORMANCE.md.
pub fn counts(c: Channel, number: u32) -> Channel
    ensures { result ≡ times number count c }
{
    let element = counted_element(c.control.bcd_mode, c.counter.counting_element, number);
    let mut next = c;
    next.counter.counting_element = element;
    next.counter.ticked = ticked_by(number, c.counter.ticked);
    next.latch = followed_by(number, c.latch, element);
    next
}

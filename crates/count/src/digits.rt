// The decimal count as the school teaches it: four digits, and a borrow that walks up from the ones. docs/DIGITS.md is the page for it.
ghost use Rattle.std.specs.Prelude.{◌≡◌};
ghost use Rattle.numbers.specs.Times.{times};
ghost use Rattle.count.specs.Step.{decimal_step};
ghost use Rattle.count.specs.Borrow.{digits_of, element_of, after_lending, one_less};
ghost use Rattle.count.specs.Inner.{FourBits};

use crate::lending::many_less;

#[derive(Clone, Copy, Debug, PartialEq, Eq)]
pub(crate) struct Digits {
    pub thousands: u8,
    pub hundreds: u8,
    pub tens: u8,
    pub ones: u8,
}

// Each byte holds two digits.
fn digits_of(element: u16) -> Digits
    ensures { result ≡ digits_of element }
{
    let [low, high] = element.to_le_bytes();
    Digits {
        thousands: high / 16,
        hundreds: high % 16,
        tens: low / 16,
        ones: low % 16,
    }
}

fn element_of(d: Digits) -> u16
    requires { FourBits d }
    ensures { result ≡ element_of d }
{
    let high = 16 * d.thousands + d.hundreds;
    let low = 16 * d.tens + d.ones;
    numbers::word(low, high)
}

// A digit that has lent one: above 0 it is one less; a 0 has borrowed from the next digit and is 9.
fn after_lending(digit: u8) -> u8
    ensures { result ≡ after_lending digit }
{
    match digit {
        0 => 9,
        _ => digit - 1,
    }
}

// The ones lend first. At a digit above 0 the borrow ends; a 0 borrows from the next. The digits above stay as they are.
#[tactic(auto, unfolding(crate::specs::Borrow::one_less))]
fn one_less(d: Digits) -> Digits
    ensures { result ≡ one_less d }
{
    let mut next = d;
    next.ones = after_lending(d.ones);
    if d.ones > 0 {
        return next;
    }
    next.tens = after_lending(d.tens);
    if d.tens > 0 {
        return next;
    }
    next.hundreds = after_lending(d.hundreds);
    if d.hundreds > 0 {
        return next;
    }
    next.thousands = after_lending(d.thousands);
    next
}

// Nine counts in ten end at the ones. Both ways say the same; told apart, the first is compiled to next to nothing.
pub fn decimal_step(element: u16) -> u16
    ensures { result ≡ decimal_step element }
{
    let d = digits_of(element);
    if d.ones > 0 {
        return element_of(one_less(d));
    }
    element_of(one_less(d))
}

// That many steps at once, from any start: the digits are taken apart and put together once.
pub(crate) fn by_digits(element: u16, number: u32) -> u16
    ensures { result ≡ times number decimal_step element }
{
    let d = digits_of(element);
    element_of(many_less(d, number))
}

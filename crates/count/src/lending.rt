// Many decimal counts at once, from any start: each digit lends as often as the one below it borrows. docs/DIGITS.md is the page for it.
ghost use Rattle.std.specs.Prelude.{◌≡◌};
ghost use Rattle.count.specs.Lending.{lends, many_less};

use crate::digits::Digits;

// What is left of a digit that lent, and how often it borrowed from the next digit up.
#[derive(Clone, Copy, Debug, PartialEq, Eq)]
struct Lent {
    left: u8,
    borrows: u32,
}

fn lends(digit: u8, number: u32) -> Lent
    ensures { result ≡ lends digit number }
{
    let has = u32::from(digit);
    if number <= has {
        return Lent {
            left: (has - number) as u8,
            borrows: 0,
        };
    }
    let beyond = number - has - 1;
    Lent {
        left: 9 - (beyond % 10) as u8,
        borrows: 1 + beyond / 10,
    }
}

#[tactic(auto, unfolding(crate::specs::Lending::many_less))]
pub(crate) fn many_less(d: Digits, number: u32) -> Digits
    ensures { result ≡ many_less number d }
{
    let ones = lends(d.ones, number);
    let tens = lends(d.tens, ones.borrows);
    let hundreds = lends(d.hundreds, tens.borrows);
    let thousands = lends(d.thousands, hundreds.borrows);
    Digits {
        thousands: thousands.left,
        hundreds: hundreds.left,
        tens: tens.left,
        ones: ones.left,
    }
}

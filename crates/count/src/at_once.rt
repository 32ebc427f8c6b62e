// That many decimal counts without a step. From four good digits by way of the stored table, from other starts, and where they are few, digit by
// digit.
ghost use Rattle.std.specs.Prelude.{◌≡◌, ◌<◌};
ghost use Rattle.numbers.specs.Digits.{GoodDigits, packed};
ghost use Rattle.numbers.specs.Times.{times};
ghost use Rattle.count.specs.Step.{decimal_step};

use crate::digits::by_digits;
use crate::table::three_digits;

// Fewer counts than these are made sooner one by one than by way of the table, and sooner still digit by digit: docs/PERFORMANCE.md.
const FEW: u32 = 25;

// The table has three digits; the thousands stand beside it.
fn four_digits(value: u16) -> u16
    requires { value < 10000 }
    ensures { result ≡ packed value }
{
    let thousands = value / 1000;
    4096 * thousands + three_digits(value)
}

// The turn is 10,000: whole turns leave nothing.
fn by_table(element: u16, number: u32) -> u16
    requires { GoodDigits element }
    ensures { result ≡ times number decimal_step element }
{
    let value = numbers::weight(element);
    let taken = (number % 10000) as u16;
    four_digits((value + 10000 - taken) % 10000)
}

pub(crate) fn decimal_steps(element: u16, number: u32) -> u16
    ensures { result ≡ times number decimal_step element }
{
    if number >= FEW && numbers::good_digits(element) {
        by_table(element, number)
    } else {
        by_digits(element, number)
    }
}

// How many counts a radix has; whether four packed digits are decimal ones, and the decimal number that they stand for.
ghost use Rattle.std.specs.Prelude.{◌≡◌};
ghost use Rattle.numbers.specs.Digits.{good_digits, weight};
ghost use Rattle.numbers.specs.Radix.{radix_counts};

pub fn radix_counts(bcd: bool) -> u32
    ensures { result ≡ radix_counts bcd }
{
    if bcd { 10000 } else { 65536 }
}

pub fn good_digits(element: u16) -> bool
    ensures { result ≡ good_digits element }
{
    element % 16 < 10
        && element / 16 % 16 < 10
        && element / 16 / 16 % 16 < 10
        && element / 16 / 16 / 16 % 16 < 10
}

// Digits above 9 have their weight too.
#[tactic(auto, unfolding(crate::specs::Digits::weight))]
pub fn weight(element: u16) -> u16
    ensures { result ≡ weight element }
{
    let thousands = element / 16 / 16 / 16 % 16;
    let hundreds = element / 16 / 16 % 16;
    let tens = element / 16 % 16;
    let ones = element % 16;
    1000 * thousands + 100 * hundreds + 10 * tens + ones
}

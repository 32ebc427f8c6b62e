// A number in decimal digits.
ghost use Rattle.replay_from.specs.Decimal.{appended, spelled};
ghost use Rattle.std.specs.Prelude.{◌≡◌, ◌≤◌};

// The number with one digit more behind it.
#[tactic(auto, unfolding(crate::specs::Decimal::appended))]
fn appended(number: u32, digit: u8) -> u32
    requires { 48 ≤ digit }
    ensures { result ≡ appended number digit }
{
    number
        .saturating_mul(10)
        .saturating_add(u32::from(digit - b'0'))
}

// The number that the digits spell. What is no number counts as the largest, and so does a number above it: no trace has so many checkpoints.
pub(crate) fn number(digits: &[u8]) -> u32
    ensures { result ≡ spelled digits.now }
{
    if digits.is_empty() {
        return u32::MAX;
    }
    let mut n = 0;
    for digit in digits {
        if !digit.is_ascii_digit() {
            return u32::MAX;
        }
        n = appended(n, *digit);
    }
    n
}

// Words on numbers that several crates share: specs/ has the definitions, proofs/ their laws. The functions are a flag's byte, and numbers
// put together from a low and a high half, as their bytes or found in bytes (field.rt); the counts of a radix, and of four digits whether
// they are decimal and what they weigh (radix.rt).
#![tactic(auto)]

mod field;
mod radix;

ghost use Rattle.std.specs.Prelude.{◌≡◌, ◌+◌, ◌*◌};
ghost use Rattle.numbers.specs.Flags.{flag_number};

pub use field::{four_bytes, number_at, two_bytes};
pub use radix::{good_digits, radix_counts, weight};

pub fn flag_byte(flag: bool) -> u8
    ensures { result ≡ flag_number flag }
{
    u8::from(flag)
}

pub fn word(low: u8, high: u8) -> u16
    ensures { result ≡ low + 256 * high }
{
    u16::from_le_bytes([low, high])
}

pub fn long(low: u16, high: u16) -> u32
    ensures { result ≡ low + 65536 * high }
{
    u32::from(low) + 65536 * u32::from(high)
}

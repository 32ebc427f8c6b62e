// Numbers in bytes, the low byte first: a number as its bytes, and a number that stands in bytes.
ghost use Rattle.std.specs.Prelude.{◌≡◌, get_or};
ghost use Rattle.numbers.specs.Little.{two_bytes, four_bytes};
ghost use Rattle.numbers.specs.Number.{number_at};

pub fn two_bytes(n: u16) -> [u8; 2]
    ensures { result ≡ two_bytes n }
{
    n.to_le_bytes()
}

pub fn four_bytes(n: u32) -> [u8; 4]
    ensures { result ≡ four_bytes n }
{
    n.to_le_bytes()
}

// What is past the end reads as 0.
fn byte_at(bytes: &[u8], place: usize) -> u8
    ensures { result ≡ get_or bytes.now place 0 }
{
    bytes.get(place).copied().unwrap_or(0)
}

// Callers have looked that no byte of it is past the end.
#[tactic(auto, unfolding(crate::specs::Number::number_at))]
pub fn number_at(bytes: &[u8], place: usize) -> u32
    ensures { result ≡ number_at bytes.now place }
{
    if bytes.len() <= place {
        return 0;
    }
    u32::from_le_bytes([
        byte_at(bytes, place),
        byte_at(bytes, place + 1),
        byte_at(bytes, place + 2),
        byte_at(bytes, place + 3),
    ])
}

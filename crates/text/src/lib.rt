// Text in lent bytes: bytes, decimal numbers and hex digits, put at a place. The answer is the place behind what was put. What does not fit is not put.
#![tactic(auto)]

ghost use Rattle.std.specs.Prelude.{◌≡◌, ◌<◌};
ghost use Rattle.text.specs.Number.{digit, decimal, hex};
ghost use Rattle.text.specs.Put.{put, answered};

pub mod room;

pub use room::Text;

#[tactic(auto, unfolding(crate::specs::Put::put))]
pub fn put(out: &mut [u8], place: usize, text: &[u8]) -> usize
    ensures { answered result out.new ≡ put text.now out.old place }
{
    if out.len() < place {
        return place;
    }
    if out.len() - place < text.len() {
        return place;
    }
    let size = text.len();
    out[place..place + size].copy_from_slice(text);
    place + text.len()
}

pub fn put_decimal(out: &mut [u8], place: usize, n: u64) -> usize
    ensures { answered result out.new ≡ put (decimal n) out.old place }
{
    let mut digits = [0u8; 20];
    let k = io::decimal(n, &mut digits);
    put(out, place, &digits[..k])
}

pub(crate) fn digit(d: u8) -> u8
    requires { d < 16 }
    ensures { result ≡ digit d }
{
    if d < 10 { 48 + d } else { 55 + d }
}

pub fn put_hex(out: &mut [u8], place: usize, byte: u8) -> usize
    ensures { answered result out.new ≡ put (hex byte) out.old place }
{
    let digits = [digit(byte / 16), digit(byte % 16)];
    put(out, place, &digits)
}

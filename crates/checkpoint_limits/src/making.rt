// Traces made of the operations of another, and bytes changed in them.
ghost use Rattle.std.specs.Prelude.{◌≡◌, ◌+◌, ◌-◌, ◌*◌, slice_index, slice_set};
ghost use Rattle.numbers.specs.Little.{four_bytes};
ghost use Rattle.text.specs.Put.{put, answered};
ghost use Rattle.checkpoint_limits.specs.Made.{blank, over_and_over, plain_for, marked_for};

use crate::lines::first;
use crate::readers::written;

// The longest trace, and a byte more.
const ROOM: usize = trace::LONGEST_TRACE + 1;

// An array from a call, which tells its length: of one made in place the prover counts the bytes.
#[tactic(auto, unfolding(crate::specs::Made::blank))]
pub(crate) fn blank() -> [u8; ROOM]
    ensures { result ≡ blank }
{
    [0; ROOM]
}

pub(crate) fn byte_at(bytes: &[u8], place: usize) -> u8
    ensures { result ≡ slice_index bytes.now place }
{
    bytes.get(place).copied().unwrap_or(0)
}

pub(crate) fn put_byte(bytes: &mut [u8], place: usize, byte: u8)
    ensures { bytes.new ≡ slice_set bytes.old place byte }
{
    if place < bytes.len() {
        bytes[place] = byte;
    }
}

pub(crate) fn put_number(bytes: &mut [u8], place: usize, number: u32)
    ensures { bytes.new ≡ (put (four_bytes number) bytes.old place).bytes }
{
    let four = numbers::four_bytes(number);
    text::put(bytes, place, &four);
}

// Where the operations end.
pub(crate) fn end_of(operations: u32) -> usize
    ensures { result ≡ 16 + 6 * operations }
{
    16 + 6 * (operations as usize)
}

// The bytes of the source's 600 operations, over and over.
fn put_operations(source: &[u8], end: usize, out: &mut [u8])
    ensures { out.new ≡ over_and_over source.now 16 (end - 16) out.old }
{
    for place in 16..end {
        put_byte(out, place, byte_at(source, 16 + (place - 16) % 3600));
    }
}

// A trace of so many operations, without checkpoints, and where it ends.
pub(crate) fn put_plain(source: &[u8], operations: u32, out: &mut [u8]) -> usize
    ensures { answered result out.new ≡ plain_for source.now operations out.old }
{
    text::put(out, 0, source);
    put_number(out, 12, operations);
    let end = end_of(operations);
    put_operations(source, end, out);
    end
}

// The same with its checkpoints.
pub(crate) fn put_marked(source: &[u8], operations: u32, out: &mut [u8]) -> usize
    ensures { answered result out.new ≡ marked_for source.now operations out.old }
{
    let mut plain = blank();
    let end = put_plain(source, operations, &mut plain);
    written(checkpoint::mark_into(first(&plain, end), out))
}

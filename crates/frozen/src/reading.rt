// The bytes of a file, part by part.
ghost use Rattle.std.specs.Prelude.{◌≤◌, IfOk, length};

use std::io;
use std::io::Read;

// The next bytes of the file, as many as are lent, or as there are; and how many. No index is counted: each read says how many bytes came.
pub(crate) fn read_full<R: Read>(file: &mut R, bytes: &mut [u8]) -> io::Result<usize>
    ensures { IfOk result (λ got. got ≤ length bytes.new) }
{
    let mut got = 0;
    while got < bytes.len() {
        let more = file.read(&mut bytes[got..])?;
        if more == 0 {
            break;
        }
        got += more;
    }
    Ok(got)
}

// The next bytes, as many as the length says; nothing where they are cut off, or more than there is room for.
pub(crate) fn read_part<'a, R: Read>(
    file: &mut R,
    length: usize,
    room: &'a mut [u8],
) -> io::Result<Option<&'a [u8]>> {
    if room.len() < length {
        return Ok(None);
    }
    let got = read_full(file, &mut room[..length])?;
    if got < length {
        return Ok(None);
    }
    Ok(Some(&room[..length]))
}

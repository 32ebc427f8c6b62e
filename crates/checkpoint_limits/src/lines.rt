// Parts of what a reader wrote.
ghost use Rattle.std.specs.Prelude.{◌≡◌, take};

use std::io;

// So many bytes, or all where there are fewer.
pub(crate) fn first(bytes: &[u8], n: usize) -> &[u8]
    ensures { result.now ≡ take n bytes.now }
{
    if bytes.len() < n {
        return bytes;
    }
    &bytes[..n]
}

// What stands behind so many lines, or nothing where there are fewer.
fn behind(text: &[u8], lines: usize) -> &[u8] {
    let mut rest = text;
    for _ in 0..lines {
        match rest.iter().position(|byte| *byte == b'\n') {
            Some(end) => rest = &rest[end + 1..],
            None => return b"",
        }
    }
    rest
}

// The last byte of a text ends its last line.
pub(crate) fn say_last_line(rt: &impl Print, text: &[u8]) -> io::Result<()> {
    let before = first(text, text.len().saturating_sub(1));
    match before.iter().rposition(|byte| *byte == b'\n') {
        Some(end) => rt.write_all(&text[end + 1..]),
        None => rt.write_all(text),
    }
}

// Says whether a text is another but for so many lines at the front, and is not nothing.
pub(crate) fn say_alike(
    rt: &impl Print,
    text: &[u8],
    whole: &[u8],
    lines: usize,
) -> io::Result<()> {
    if !text.is_empty() && text == behind(whole, lines) {
        println!(rt; " ok")
    } else {
        println!(rt; " differs")
    }
}

// A text in a room of its own. It grows at its end, and what does not fit is cut off.
ghost use Rattle.std.specs.Prelude.{◌≡◌, ◌-◌, ◌≤◌, [], ◌++◌, cond, length, take, replicate};
ghost use Rattle.text.specs.Number.{decimal, hex};

use crate::digit;
use std::marker::Model;

// Bytes of the text and then zeros; the text ends at len.
#[derive(Clone, Copy)]
pub struct Text<const ROOM: usize> {
    bytes: [u8; ROOM],
    len: usize,
}

// A contract sees the text. That it is within its room, and the zeros behind it, hold of every value.
impl<const ROOM: usize> Model for Text<ROOM> {
    ghost use Rattle.std.specs.Prelude.{ℕ, ◌-◌, ◌≤◌, ◌≡◌, List, ◌++◌, length, take, drop, replicate};
    ghost use Rattle.text.specs.Room.{whole_again, length_again};

    ghost Value = { List ℕ };

    ghost view = { λ t. take t.len t.bytes };

    ghost invariant = { λ t. (t.len ≤ ROOM) × (length t.bytes ≡ ROOM) × (drop t.len t.bytes ≡ replicate (ROOM - t.len) 0) };

    ghost inverse = { λ s. record { bytes = s ++ replicate (ROOM - length s) 0; len = length s } };

    ghost inverse_ok = { λ t h i. record {
      bytes = whole_again ROOM t.len t.bytes h.0 h.1 h.2 i;
      len = length_again ROOM t.len t.bytes h.0 h.1 i;
    } };
}

impl<const ROOM: usize> Text<ROOM> {
    pub fn new() -> Text<ROOM>
        ensures { result ≡ [] }
    {
        Text {
            bytes: [0; ROOM],
            len: 0,
        }
    }

    pub fn push(&mut self, text: &[u8])
        ensures { self.new ≡ take ROOM (self.old ++ text.now) }
    {
        if text.len() <= ROOM - self.len {
            self.len = crate::put(&mut self.bytes, self.len, text);
        } else {
            self.push_part(text);
        }
    }

    // As much of a text as fits. It stands by itself and is not inlined, so that a text of known length is put as one of that length.
    #[inline(never)]
    fn push_part(&mut self, text: &[u8])
        ensures { self.new ≡ take ROOM (self.old ++ text.now) }
    {
        let size = (ROOM - self.len).min(text.len());
        self.len = crate::put(&mut self.bytes, self.len, &text[..size]);
    }

    pub fn push_if(&mut self, said: bool, text: &[u8])
        ensures { self.new ≡ take ROOM (self.old ++ cond said text.now []) }
    {
        if said {
            self.push(text);
        } else {
            self.push(b"");
        }
    }

    pub fn push_decimal(&mut self, n: u64)
        ensures { self.new ≡ take ROOM (self.old ++ decimal n) }
    {
        let mut digits = [0u8; 20];
        let size = io::decimal(n, &mut digits);
        self.push(&digits[..size]);
    }

    pub fn push_hex(&mut self, byte: u8)
        ensures { self.new ≡ take ROOM (self.old ++ hex byte) }
    {
        self.push(&[digit(byte / 16), digit(byte % 16)]);
    }

    // The text alone.
    pub fn as_bytes(&self) -> &[u8]
        ensures text { result.now ≡ self.now }
        ensures within { length self.now ≤ ROOM }
    {
        &self.bytes[..self.len]
    }

    // The whole room.
    pub fn bytes(&self) -> [u8; ROOM]
        ensures { result ≡ self.now ++ replicate (ROOM - length self.now) 0 }
    {
        self.bytes
    }
}

// What a read says of its byte: which half it is, and whether the channel was latched just before, or that it is a held status. It goes by the record given to the read, not by the one that the read leaves.
ghost use Rattle.std.specs.Prelude.{◌≡◌};
ghost use Rattle.latch.specs.Label.{count_label, label_of, command_label, half_number};

use crate::reading::{Half, next_half};
use channel::Channel;

#[derive(Clone, Copy, Debug, PartialEq, Eq)]
pub struct Label {
    // The half of a count that the byte is, or none: the command port's byte, and a held status.
    pub half: Option<Half>,
    pub held: bool,
}

fn count_label(c: Channel) -> Label
    ensures { result ≡ count_label c }
{
    Label {
        half: Some(next_half(c)),
        held: c.latch.count_is_latched,
    }
}

// The label of the byte that the next read of the channel gives.
#[tactic(auto, unfolding(crate::specs::Label::label_of))]
pub fn label_of(c: Channel) -> Label
    ensures { result ≡ label_of c }
{
    if c.status.status_latch == 0 {
        return count_label(c);
    }
    Label {
        half: None,
        held: true,
    }
}

// The label of the command port's byte, whatever is latched.
pub fn command_label() -> Label
    ensures { result ≡ command_label }
{
    Label {
        half: None,
        held: false,
    }
}

impl Label {
    // The half in the answers of docs/ENCODING.md.
    pub fn half_number(self) -> u8
        ensures { result ≡ half_number self.half }
    {
        match self.half {
            None => 0,
            Some(Half::Low) => 1,
            Some(Half::High) => 2,
        }
    }
}

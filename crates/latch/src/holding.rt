// A read-back, on one channel that it names.
ghost use Rattle.std.specs.Prelude.{◌≡◌};
ghost use Rattle.latch.specs.ReadBack.{count_held, status_held, read_back};

use crate::latching::latch_count;
use crate::status::status_byte;
use channel::Channel;

fn hold_count(c: Channel, asked: bool) -> Channel
    ensures { result ≡ count_held asked c }
{
    if asked && !c.latch.count_is_latched {
        return latch_count(c);
    }
    c
}

fn hold_status(c: Channel, asked: bool) -> Channel
    ensures { result ≡ status_held asked c }
{
    if asked && c.status.status_latch == 0 {
        let mut next = c;
        next.status.status_latch = status_byte(c);
        return next;
    }
    c
}

// What is held already is not latched again.
#[tactic(auto, unfolding(crate::specs::ReadBack::read_back))]
pub fn read_back(c: Channel, counts: bool, status: bool) -> Channel
    ensures { result ≡ read_back counts status c }
{
    hold_status(hold_count(c, counts), status)
}

// The latch command.
ghost use Rattle.std.specs.Prelude.{◌≡◌};
ghost use Rattle.latch.specs.Latching.{latch_count};

use channel::{Channel, Latch};

// Copies the count, also where one is latched already; a half-read word goes on.
#[tactic(auto, unfolding(crate::specs::Latching::latch_count))]
pub fn latch_count(c: Channel) -> Channel
    ensures { result ≡ latch_count c }
{
    Channel {
        latch: Latch {
            output_latch: c.counter.counting_element,
            count_is_latched: true,
            ..c.latch
        },
        dirty: true,
        ..c
    }
}

// One tick of one channel, drawn from the data sheets: docs/TICK.md. Nothing is refused here, and no output is told of.
#![tactic(auto)]

mod counting;
pub mod due;
mod level;
mod loading;

ghost use Rattle.std.specs.Prelude.{◌≡◌};
ghost use Rattle.tick.specs.Tick.{tick};

use channel::{Channel, PitType};
pub use counting::older;
use due::Kind;
pub use level::{pulses, takes};
pub use loading::never_loaded;

#[tactic(auto, unfolding(crate::specs::Tick::tick))]
pub fn tick(c: Channel, model: PitType) -> Channel
    ensures { result ≡ tick model c }
{
    match due::due(c) {
        Kind::Idle => counting::idle(c),
        Kind::Deferred => loading::deferred(c),
        Kind::Load => loading::load_at(c, level::load_level(c.control.mode)),
        Kind::Reload => loading::load_at(c, level::reload_level(c.control.mode, c.pins.output)),
        Kind::Count => counting::counted(c, model),
    }
}

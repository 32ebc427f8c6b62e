// Ticks that count, and those in which only time passes: docs/TICK.md, table B.
ghost use Rattle.std.specs.Prelude.{◌≡◌};
ghost use Rattle.numbers.specs.Times.{times};
ghost use Rattle.count.specs.Count.{count};
ghost use Rattle.tick.specs.Taken.{takes};
ghost use Rattle.tick.specs.Tick.{older, aged_by, idle, ends_half, lingers, half_over, counting_on, marked, after_counts};

use crate::level::{count_level, strobes, takes};
use crate::loading::{load_at, rested, with_armed};
use channel::{Channel, ChannelMode, ChannelState, PitType, ReloadFlag};

// They stay at the largest number.
pub fn older(ticks: u32, cycles: u32) -> u32
    ensures { result ≡ older ticks cycles }
{
    cycles.saturating_add(ticks)
}

// The cycles in state after that many ticks that enter none.
#[tactic(auto, unfolding(crate::specs::Tick::aged_by))]
fn aged_by(c: Channel, ticks: u32) -> Channel
    ensures { result ≡ aged_by ticks c }
{
    let mut next = c;
    next.counter.cycles_in_state = older(ticks, c.counter.cycles_in_state);
    next
}

#[tactic(auto, unfolding(crate::specs::Tick::idle))]
pub fn idle(c: Channel) -> Channel
    ensures { result ≡ idle c }
{
    rested(aged_by(c, 1))
}

fn ends_half(mode: ChannelMode, element: u16) -> bool
    ensures { result ≡ ends_half mode element }
{
    mode == ChannelMode::SquareWaveGenerator && element == 0
}

// The 8254's extra tick: at zero, with the output high and an odd count.
fn lingers(c: Channel, model: PitType) -> bool
    ensures { result ≡ lingers model c }
{
    model == PitType::Model8254 && c.pins.output && c.load.reload_value % 2 == 1
}

#[tactic(auto, unfolding(crate::specs::Tick::half_over))]
fn half_over(c: Channel, model: PitType) -> Channel
    ensures { result ≡ half_over model c }
{
    if lingers(c, model) {
        return c.change_channel_state(ChannelState::Counting(ReloadFlag::ReloadNextCycle));
    }
    load_at(c, !c.pins.output)
}

// A channel that waited for its gate counts on.
#[tactic(auto, unfolding(crate::specs::Tick::counting_on))]
fn counting_on(c: Channel) -> Channel
    ensures { result ≡ counting_on c }
{
    if c.counter.channel_state.is_counting() {
        return aged_by(c, 1);
    }
    c.change_channel_state(ChannelState::Counting(ReloadFlag::Normal))
}

// The output after the counts; a strobe spends the arming.
#[tactic(auto, unfolding(crate::specs::Tick::marked))]
fn marked(c: Channel) -> Channel
    ensures { result ≡ marked c }
{
    let mode = c.control.mode;
    let armed = c.load.armed;
    let element = c.counter.counting_element;
    let out = c.change_output_state(count_level(mode, c.pins.output, armed, element));
    with_armed(out, armed && !strobes(mode, armed, element))
}

#[tactic(auto, unfolding(crate::specs::Tick::after_counts))]
fn after_counts(c: Channel, model: PitType) -> Channel
    ensures { result ≡ after_counts model c }
{
    if ends_half(c.control.mode, c.counter.counting_element) {
        return half_over(c, model);
    }
    counting_on(marked(c))
}

// A tick that counts.
pub fn counted(c: Channel, model: PitType) -> Channel
    ensures { result ≡ after_counts model (times (takes c) count c) }
{
    after_counts(count::counts(c, takes(c)), model)
}

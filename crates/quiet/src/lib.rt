// How many next ticks are all alike, and what that many come to at once: docs/TICK.md, "Many ticks at once".
#![tactic(auto)]

ghost use Rattle.std.specs.Prelude.{◌*◌, ◌≤◌, ◌≡◌};
ghost use Rattle.numbers.specs.Times.{times};
ghost use Rattle.count.specs.Count.{count};
ghost use Rattle.count.specs.Step.{step_in};
ghost use Rattle.tick.specs.Taken.{takes};
ghost use Rattle.tick.specs.Level.{rests_at};
ghost use Rattle.tick.specs.Tick.{aged_by};
ghost use Rattle.quiet.specs.Inner.{to_zero, met_already, until_high, until_low, until_half, until_strobe, quiet_for, quiet_counting, quiet_if, quiet, skip};

use channel::{Channel, ChannelMode};
use count::{followed_by, steps_in, ticked_by};
use numbers::{radix_counts, weight};
use tick::due::{Kind, due};
use tick::{never_loaded, older, pulses, takes};

// As many ticks as one call may ask for.
const NO_END: u32 = 65536;

#[tactic(auto, unfolding(crate::specs::Inner::to_zero))]
fn to_zero(c: Channel) -> u32
    ensures { result ≡ to_zero c }
{
    let element = c.counter.counting_element;
    if element == 0 {
        radix_counts(c.control.bcd_mode)
    } else if c.control.bcd_mode {
        u32::from(weight(element))
    } else {
        u32::from(element)
    }
}

fn rests_at(mode: ChannelMode, level: bool) -> bool
    ensures { result ≡ rests_at mode level }
{
    !pulses(mode) || level
}

// A count of 1 that was met before: the next tick leaves the record as it is.
fn met_already(c: Channel) -> bool
    ensures { result ≡ met_already c }
{
    never_loaded(c)
        && c.counter.channel_state.waits_for_cycle()
        && c.pins.output
        && c.counter.cycles_in_state == 0
}

fn until_high(level: bool, zero_in: u32) -> u32
    ensures { result ≡ until_high level zero_in }
{
    if level {
        NO_END
    } else {
        zero_in.saturating_sub(1)
    }
}

fn until_strobe(level: bool, armed: bool, zero_in: u32) -> u32
    ensures { result ≡ until_strobe level armed zero_in }
{
    if !level {
        0
    } else if armed {
        zero_in.saturating_sub(1)
    } else {
        NO_END
    }
}

fn until_low(level: bool, zero_in: u32) -> u32
    ensures { result ≡ until_low level zero_in }
{
    if level { zero_in.saturating_sub(2) } else { 0 }
}

// By twos, so from an even element only.
fn until_half(element: u16, zero_in: u32) -> u32
    ensures { result ≡ until_half element zero_in }
{
    if element % 2 == 0 {
        (zero_in / 2).saturating_sub(1)
    } else {
        0
    }
}

fn quiet_for(mode: ChannelMode, level: bool, armed: bool, element: u16, zero_in: u32) -> u32
    ensures { result ≡ quiet_for mode level armed element zero_in }
{
    match mode {
        ChannelMode::InterruptOnTerminalCount | ChannelMode::HardwareRetriggerableOneShot => {
            until_high(level, zero_in)
        }
        ChannelMode::RateGenerator => until_low(level, zero_in),
        ChannelMode::SquareWaveGenerator => until_half(element, zero_in),
        ChannelMode::SoftwareTriggeredStrobe | ChannelMode::HardwareTriggeredStrobe => {
            until_strobe(level, armed, zero_in)
        }
    }
}

fn quiet_counting(c: Channel) -> u32
    ensures { result ≡ quiet_counting c }
{
    if !c.counter.channel_state.is_counting() {
        return 0;
    }
    quiet_for(
        c.control.mode,
        c.pins.output,
        c.load.armed,
        c.counter.counting_element,
        to_zero(c),
    )
}

fn quiet_if(alike: bool) -> u32
    ensures { result ≡ quiet_if alike }
{
    if alike { NO_END } else { 0 }
}

#[tactic(auto, unfolding(crate::specs::Inner::quiet))]
pub fn quiet(c: Channel) -> u32
    ensures { result ≡ quiet c }
{
    match due(c) {
        Kind::Idle => quiet_if(rests_at(c.control.mode, c.pins.output)),
        Kind::Load => quiet_if(met_already(c)),
        Kind::Count => quiet_counting(c),
        Kind::Deferred | Kind::Reload => 0,
    }
}

// So many counts for each tick. They are made in equal parts: a product of the two numbers might not fit.
fn steps_each(bcd: bool, element: u16, ticks: u32, each: u32) -> u16
    requires le_each { 1 ≤ each }
    requires each_bound { each ≤ 3 }
    ensures { result ≡ times (ticks * each) (step_in bcd) element }
{
    let once = steps_in(bcd, element, ticks);
    if each == 1 {
        return once;
    }
    let twice = steps_in(bcd, once, ticks);
    if each == 2 {
        return twice;
    }
    steps_in(bcd, twice, ticks)
}

#[tactic(auto, unfolding(tick::specs::Tick::aged_by))]
fn age(c: &mut Channel, ticks: u32)
    ensures { c.new ≡ aged_by ticks c.old }
{
    c.counter.cycles_in_state = older(ticks, c.counter.cycles_in_state);
}

// A tick takes at least one count, so none are made only where there are no ticks.
fn count_on(c: &mut Channel, ticks: u32)
    ensures { c.new ≡ aged_by ticks (times (ticks * takes c.old) count c.old) }
{
    let element = steps_each(
        c.control.bcd_mode,
        c.counter.counting_element,
        ticks,
        takes(*c),
    );
    c.latch.output_latch = followed_by(ticks, c.latch, element).output_latch;
    c.counter.counting_element = element;
    c.counter.ticked = ticked_by(ticks, c.counter.ticked);
    age(c, ticks);
}

// What that many ticks come to, where they are all alike. They can move four fields, which are written where they stand.
#[tactic(auto, unfolding(crate::specs::Inner::skip))]
pub fn skip(c: &mut Channel, ticks: u32)
    ensures { c.new ≡ skip ticks c.old }
{
    match due(*c) {
        Kind::Idle => age(c, ticks),
        Kind::Count => count_on(c, ticks),
        Kind::Deferred | Kind::Load | Kind::Reload => {}
    }
}

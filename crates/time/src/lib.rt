// Processor ticks and chip ticks, and the one way from the first to the second: the divisor.
#![tactic(auto)]

ghost use Rattle.std.specs.Prelude.{◌≡◌, ◌<◌};
ghost use Rattle.time.specs.Time.{converted, conversion, passed_reply, ticks_from_time};

use refusal::Refusal;

// The processor's count: ticks given, the remainder and the warp.
#[derive(Clone, Copy, Debug, PartialEq, Eq)]
pub struct SystemTicks(pub u32);

// The chip's count: ticks yielded, owed and made.
#[derive(Clone, Copy, Debug, PartialEq, Eq)]
pub struct TimerTicks(pub u32);

// Timer ticks yielded, and the system ticks that did not make up another one.
#[derive(Clone, Copy, Debug, PartialEq, Eq)]
pub struct Conversion {
    pub ticks: TimerTicks,
    pub remainder: SystemTicks,
}

fn yielding(ticks: u32, remainder: u32) -> Conversion
    ensures { conversion result ≡ record { ticks = ticks; remainder = remainder } }
{
    Conversion {
        ticks: TimerTicks(ticks),
        remainder: SystemTicks(remainder),
    }
}

// The only place where one kind of ticks becomes the other. An instruction mostly makes no timer tick or one, and the processor's division takes longer than
// all else of a call.
fn convert(sum: SystemTicks, divisor: u32) -> Conversion
    requires { 0 < divisor }
    ensures { conversion result ≡ converted sum.0 divisor }
{
    if sum.0 < divisor {
        return yielding(0, sum.0);
    }
    let rest = sum.0 - divisor;
    if rest < divisor {
        return yielding(1, rest);
    }
    yielding(sum.0 / divisor, sum.0 % divisor)
}

// System ticks since the warp, added to the remainder and divided. Refusals 3, 4 and 5.
#[tactic(auto, unfolding(crate::specs::Time::ticks_from_time))]
pub fn ticks_from_time(
    ticks: SystemTicks,
    warp: SystemTicks,
    remainder: SystemTicks,
    divisor: u32,
) -> Result<Conversion, Refusal>
    ensures { passed_reply result ≡ ticks_from_time ticks.0 warp.0 remainder.0 divisor }
{
    if divisor == 0 {
        return Err(Refusal::DivisorZero);
    }
    let since = ticks.0.checked_sub(warp.0).ok_or(Refusal::TicksBelowWarp)?;
    let sum = remainder
        .0
        .checked_add(since)
        .ok_or(Refusal::RemainderTooLarge)?;
    Ok(convert(SystemTicks(sum), divisor))
}

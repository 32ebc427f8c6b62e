// The readers of a trace, and what each says of one.
ghost use Rattle.std.specs.Prelude.{◌≡◌};
ghost use Rattle.runner.specs.Lent.{reply_in, replayed};
ghost use Rattle.checkpoint_limits.specs.Asked.{writes, end_written, refused_as};

use crate::lines::{first, say_alike, say_last_line};
use runner::lending::ReplayError;
use std::{fmt, io};

// Room for all that any of them writes.
const TEXT: usize = runner::TEXT_ROOM;

// One enum, and not a closure for each: a reader has a name and a function, and of one that marks the bytes are told otherwise.
#[derive(Clone, Copy, Debug, PartialEq, Eq)]
pub(crate) enum Reader {
    Replay,
    Check,
    // Checkpoint.
    From(u32),
    Mark,
}

#[tactic(auto, unfolding(crate::specs::Asked::writes))]
pub(crate) fn ask(reader: Reader, trace: &[u8], out: &mut [u8]) -> Result<usize, ReplayError>
    ensures { replayed result out.new ≡ writes reader trace.now out.old }
{
    match reader {
        Reader::Replay => runner::replay_into(trace, out),
        Reader::Check => checkpoint::check_into(trace, out),
        Reader::From(k) => checkpoint::replay_from_into(trace, k, out),
        Reader::Mark => checkpoint::mark_into(trace, out),
    }
}

// Where what is written ends: 0 where nothing is.
pub(crate) fn written(replayed: Result<usize, ReplayError>) -> usize
    ensures { result ≡ end_written (reply_in replayed) }
{
    match replayed {
        Ok(n) => n,
        Err(_) => 0,
    }
}

// The number of the trace's refusal: 0 where there is none.
pub(crate) fn refused_as(replayed: Result<usize, ReplayError>) -> u8
    ensures { result ≡ refused_as replayed }
{
    match replayed {
        Err(ReplayError::Refused(refusal, _)) => refusal.number(),
        Ok(_) | Err(ReplayError::Short) => 0,
    }
}

impl fmt::Display for Reader {
    fn fmt<W: fmt::Write>(&self, f: &mut fmt::Formatter<W>) -> fmt::Result {
        match *self {
            Reader::Replay => write!(f, "replay"),
            Reader::Check => write!(f, "check"),
            Reader::From(k) => write!(f, "from {k}"),
            Reader::Mark => write!(f, "mark"),
        }
    }
}

// How many bytes were written, or why none.
#[derive(Clone, Copy)]
pub(crate) struct Outcome(pub(crate) Result<usize, ReplayError>);

impl fmt::Display for Outcome {
    fn fmt<W: fmt::Write>(&self, f: &mut fmt::Formatter<W>) -> fmt::Result {
        match self.0 {
            Ok(n) => write!(f, "{n} bytes"),
            Err(ReplayError::Refused(refusal, _)) => write!(f, "refused {}", refusal.number()),
            Err(ReplayError::Short) => write!(f, "short"),
        }
    }
}

// The array comes from a call, which tells its length: of one made in place the prover counts the bytes, for seconds.
fn room() -> [u8; TEXT] {
    [0; TEXT]
}

// Of a text its last line, of a marked trace its length.
pub(crate) fn show(rt: &impl Print, reader: Reader, trace: &[u8]) -> io::Result<()> {
    print!(rt; "  {reader}: ")?;
    let mut out = room();
    let replayed = ask(reader, trace, &mut out);
    if reader == Reader::Mark {
        return println!(rt; "{}", Outcome(replayed));
    }
    say_last_line(rt, first(&out, written(replayed)))
}

// So many bytes by all of them, under a name.
pub(crate) fn show_by_all(
    rt: &impl Print,
    name: &str,
    bytes: &[u8],
    length: usize,
) -> io::Result<()> {
    println!(rt; "{name}")?;
    let trace = first(bytes, length);
    show(rt, Reader::Replay, trace)?;
    show(rt, Reader::Check, trace)?;
    show(rt, Reader::From(0), trace)?;
    show(rt, Reader::Mark, trace)
}

// What a reader writes of a trace beside what another writes of another, but for so many lines at the front of that.
pub(crate) fn compare(
    rt: &impl Print,
    a: Reader,
    trace: &[u8],
    b: Reader,
    other: &[u8],
    lines: usize,
) -> io::Result<()> {
    let mut text = room();
    let n = written(ask(a, trace, &mut text));
    let mut whole = room();
    let m = written(ask(b, other, &mut whole));
    say_alike(rt, first(&text, n), first(&whole, m), lines)
}

// What the programs of a recorded trace share: a trace from standard input, a text to standard output, a sentence to standard error, and the status to end with.
#![tactic(auto)]

ghost use Rattle.std.specs.Prelude.{◌≡◌, ◌≤◌, ◌<◌, length, take, OnOk, IfOk, IfErr, IfSome};
ghost use Rattle.std.specs.Io.KnownBytes.{Appends};
ghost use Rattle.std.specs.Process.{exit_status};
ghost use Rattle.trace.specs.Answer.{fault_of};
ghost use Rattle.words.specs.Faults.{fault_sentence};
ghost use Rattle.console.specs.Status.{status_of, IsReading, IsWriting};

use std::alloc::{AllocError, Global};
use std::io;
use std::io::{ErrorKind, Read, Write};
use std::process::ExitCode;
use trace::Fault;

/// More than the longest trace has: no byte past that counts, and an input without end is answered too.
pub const MOST_BYTES: u64 = 65536;

/// What a program found.
#[derive(Clone, Copy, Debug, PartialEq, Eq)]
pub enum Verdict {
    Sound,
    Refused,
}

/// What kept it from finding that out, or from printing it.
#[derive(Clone, Copy, Debug)]
pub enum Failure {
    CannotRead(io::Error),
    CannotWrite(io::Error),
}

/// The first bytes of the input, all of them where there are no more.
pub fn read_trace<R: Read + Drop>(alloc: Global, input: R) -> Result<Vec<u8>, Failure>
    ensures ok { IfOk result (λ trace. IfSome (R.remaining input) (λ bytes. trace.items ≡ take MOST_BYTES bytes)) }
    ensures err { IfErr result IsReading }
{
    let mut trace = Vec::new(alloc);
    match input.take(MOST_BYTES).read_to_end(&mut trace) {
        Ok(_) => Ok(trace),
        Err(e) => Err(Failure::CannotRead(e)),
    }
}

pub fn print<W: Write>(output: &mut W, text: &[u8]) -> Result<(), Failure>
    ensures ok { OnOk result (Appends (W.contents output.old) (W.contents output.new) text.now) }
    ensures err { IfErr result IsWriting }
{
    output.write_all(text).map_err(Failure::CannotWrite)
}

/// The first bytes of a text, nothing where it has fewer.
pub fn print_first<W: Write>(output: &mut W, text: &[u8], number: usize) -> Result<(), Failure>
    ensures ok { number ≤ length text.now → OnOk result (Appends (W.contents output.old) (W.contents output.new) (take number text.now)) }
    ensures fewer { length text.now < number → output.new ≡ output.old }
    ensures err { IfErr result IsWriting }
{
    if text.len() < number {
        return Ok(());
    }
    print(output, &text[..number])
}

/// The fault of a refused trace as a sentence.
pub fn print_fault<W: Write>(output: &mut W, trace: &[u8], fault: Fault) -> Result<(), Failure>
    ensures ok { OnOk result (Appends (W.contents output.old) (W.contents output.new) (fault_sentence trace.now (fault_of fault))) }
    ensures err { IfErr result IsWriting }
{
    print(output, words::fault_sentence(trace, fault).as_bytes())
}

// A closed pipe is no failure to speak of: who reads the output wants no more of it.
fn status_of(verdict: Result<Verdict, Failure>) -> u8
    ensures { result ≡ status_of verdict }
{
    match verdict {
        Ok(_) => 0,
        Err(Failure::CannotWrite(e)) if e.kind() == ErrorKind::BrokenPipe => 141,
        Err(_) => 2,
    }
}

// The system's words of an error, without its number.
fn reason(alloc: Global, error: io::Error) -> Result<String, AllocError> {
    let text = format!(in alloc; "{error}")?;
    match text.split_once(" (os error ") {
        Some((words, _)) => String::from_str(alloc, words),
        None => Ok(text),
    }
}

fn say_why<R: Eprint + AllocGlobal>(rt: &R, what: &str, error: io::Error) {
    let _ = match reason(rt.alloc(), error) {
        Ok(words) => eprintln!(rt; "cannot {what}: {words}"),
        Err(_) => eprintln!(rt; "cannot {what}: {error}"),
    };
}

/// The status to end with. A failure is told in one sentence on standard error, but for a closed pipe.
pub fn end<R: Eprint + AllocGlobal>(rt: &R, verdict: Result<Verdict, Failure>) -> ExitCode
    ensures { exit_status result ≡ status_of verdict }
{
    let status = status_of(verdict);
    match verdict {
        Err(Failure::CannotRead(e)) => say_why(rt, "read", e),
        Err(Failure::CannotWrite(e)) if e.kind() != ErrorKind::BrokenPipe => say_why(
            rt, "write", e,
        ),
        _ => {}
    }
    ExitCode::from(status)
}

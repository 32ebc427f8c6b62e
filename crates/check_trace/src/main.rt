// Reads one trace from standard input and prints what the full check of its checkpoints comes to: `checked N`, or the fault, which goes to standard error too, in words.
// What is printed is proved in the crate checkpoint, and the words in the crate words; here bytes are only read, lent and written.
#![tactic(auto)]

use console::{Failure, Verdict};
use std::io::Write;
use std::process::ExitCode;

fn print_check<W: Write>(output: &mut W, trace: &[u8]) -> Result<(), Failure> {
    let mut line = [0u8; line::LINE_ROOM];
    match checkpoint::check_into(trace, &mut line) {
        Ok(n) => console::print_first(output, &line, n),
        Err(_) => Ok(()),
    }
}

// Behind the line one sentence of a trace that does not pass, and nothing of one that does. That the sentence could not be written is let go.
fn answer<W: Write, E: Write>(
    output: &mut W,
    error: &mut E,
    trace: &[u8],
) -> Result<Verdict, Failure> {
    print_check(output, trace)?;
    match checkpoint::checking::check(trace) {
        Ok(_) => Ok(Verdict::Sound),
        Err(fault) => {
            let _ = console::print_fault(error, trace, fault);
            Ok(Verdict::Refused)
        }
    }
}

fn main(rt: HostRuntime) -> ExitCode {
    let verdict = console::read_trace(rt.alloc(), rt.reader()).and_then(|trace| answer(
        &mut rt.stdout(),
        &mut rt.stderr(),
        trace.as_slice(),
    ));
    console::end(&rt, verdict)
}

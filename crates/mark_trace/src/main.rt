// Reads one trace from standard input and writes it with its checkpoints, made anew. Of a refused trace it writes nothing, and to standard error the line of the fault and
// then the fault in words. What is written is proved in the crate checkpoint, and the words in the crate words; here bytes are only read, lent and written.
#![tactic(auto)]

use console::{Failure, Verdict};
use line::sentence::Sentence;
use std::io::Write;
use std::process::ExitCode;
use trace::Fault;

// The line that the replay prints, and the sentence. That they could not be written is let go.
fn print_both<E: Write>(error: &mut E, trace: &[u8], fault: Fault) {
    let line = line::line_of(Sentence::Fault(fault));
    let _ = console::print(error, line.as_bytes());
    let _ = console::print_fault(error, trace, fault);
}

fn write_marked<W: Write>(output: &mut W, trace: &[u8]) -> Result<(), Failure> {
    let mut marked = [0u8; trace::LONGEST_TRACE];
    match checkpoint::mark_into(trace, &mut marked) {
        Ok(n) => console::print_first(output, &marked, n),
        Err(_) => Ok(()),
    }
}

fn mark<W: Write, E: Write>(
    output: &mut W,
    error: &mut E,
    trace: &[u8],
) -> Result<Verdict, Failure> {
    match trace::judge(trace) {
        Err(fault) => {
            print_both(error, trace, fault);
            Ok(Verdict::Refused)
        }
        Ok(_) => {
            write_marked(output, trace)?;
            Ok(Verdict::Sound)
        }
    }
}

fn main(rt: HostRuntime) -> ExitCode {
    let verdict = console::read_trace(rt.alloc(), rt.reader()).and_then(|trace| mark(
        &mut rt.stdout(),
        &mut rt.stderr(),
        trace.as_slice(),
    ));
    console::end(&rt, verdict)
}

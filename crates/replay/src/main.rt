// Reads one trace from standard input and prints its replay: document 01, "Recorded traces". Of a refused trace the fault goes to standard error too, in words. What
// is printed is proved in the crate runner, and the words in the crate words; here bytes are only read, lent and written.
#![tactic(auto)]

use console::{Failure, Verdict};
use std::io::Write;
use std::process::ExitCode;

fn print_replay<W: Write>(output: &mut W, trace: &[u8]) -> Result<(), Failure> {
    let mut text = [0u8; runner::TEXT_ROOM];
    let length = runner::replay(trace, &mut text);
    console::print(output, &text[..length])
}

// Behind the replay one sentence of a refused trace, and nothing of a sound one. That the sentence could not be written is let go.
fn answer<W: Write, E: Write>(
    output: &mut W,
    error: &mut E,
    trace: &[u8],
) -> Result<Verdict, Failure> {
    print_replay(output, trace)?;
    match trace::judge(trace) {
        Ok(_) => Ok(Verdict::Sound),
        Err(fault) => {
            let _ = console::print_fault(error, trace, fault);
            Ok(Verdict::Refused)
        }
    }
}

fn main(rt: HostRuntime) -> ExitCode {
    let verdict = console::read_trace(rt.alloc(), rt.reader()).and_then(|trace| answer(
        &mut rt.stdout(),
        &mut rt.stderr(),
        trace.as_slice(),
    ));
    console::end(&rt, verdict)
}

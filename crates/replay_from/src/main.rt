// Reads one trace from standard input and prints its replay from a checkpoint, whose number is the first argument. Of a refused trace the fault goes to standard error
// too, in words. What is printed is proved in the crate checkpoint, and the words in the crate words; here bytes are only read, lent and written.
#![tactic(auto)]

mod decimal;

use console::{Failure, Verdict};
use std::env::Env;
use std::io::Write;
use std::process::ExitCode;

// More than any argument that spells a number has.
const WORD_ROOM: usize = 4096;

fn checkpoint_asked(rt: &impl Env) -> u32 {
    let mut word = [0u8; WORD_ROOM];
    match rt.arg(1, &mut word) {
        Ok(length) => decimal::number(&word[..length]),
        Err(_) => decimal::number(b""),
    }
}

fn print_from<W: Write>(output: &mut W, trace: &[u8], k: u32) -> Result<(), Failure> {
    let mut text = [0u8; runner::TEXT_ROOM];
    match checkpoint::replay_from_into(trace, k, &mut text) {
        Ok(n) => console::print_first(output, &text, n),
        Err(_) => Ok(()),
    }
}

// Behind the replay one sentence where none begins, and nothing where one does. That the sentence could not be written is let go.
fn answer<W: Write, E: Write>(
    output: &mut W,
    error: &mut E,
    trace: &[u8],
    k: u32,
) -> Result<Verdict, Failure> {
    print_from(output, trace, k)?;
    match checkpoint::starting::start_of(trace, k) {
        Ok(()) => Ok(Verdict::Sound),
        Err(fault) => {
            let _ = console::print_fault(error, trace, fault);
            Ok(Verdict::Refused)
        }
    }
}

fn main(rt: HostRuntime) -> ExitCode {
    let k = checkpoint_asked(&rt);
    let verdict = console::read_trace(rt.alloc(), rt.reader()).and_then(|trace| answer(
        &mut rt.stdout(),
        &mut rt.stderr(),
        trace.as_slice(),
        k,
    ));
    console::end(&rt, verdict)
}

// Every prefix of a trace, and the trace itself: how many bytes its replay prints, their sum, and the sum of their sums. A prefix of n bytes prints
// `trace refused 9 at n`.
use crate::TEXT;
use std::io;

// Both as remainders by 2 ^ 32.
#[derive(Clone, Copy)]
struct Sums {
    bytes: u32,
    // The sums after the first byte, after the second and so on, added up: another order of the bytes gives another number.
    sums: u32,
}

fn sums_of(text: &[u8]) -> Sums {
    let mut bytes: u32 = 0;
    let mut sums: u32 = 0;
    for byte in text {
        bytes = bytes.wrapping_add(u32::from(*byte));
        sums = sums.wrapping_add(bytes);
    }
    Sums { bytes, sums }
}

fn show(rt: &impl Print, prefix: &[u8]) -> io::Result<()> {
    let mut output = [0u8; TEXT];
    let printed = runner::replay(prefix, &mut output);
    let Sums { bytes, sums } = sums_of(&output[..printed]);
    let length = prefix.len();
    println!(rt; "{length} bytes print {printed}, sum {bytes}, sum of sums {sums}")
}

pub(crate) fn show_all(rt: &impl Print, trace: &[u8]) -> io::Result<()> {
    for n in 0..=trace.len() {
        show(rt, &trace[..n])?;
    }
    Ok(())
}

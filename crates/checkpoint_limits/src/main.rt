// Checkpoints at their limits, for every reader of a trace: the plain replay, the full check, the replay from a checkpoint and the one that marks. The trace on
// standard input is `marked` of traces/: 600 operations and two checkpoints. Longer and shorter ones are made of its operations.
#![tactic(auto)]

mod each_place;
mod form;
mod lines;
mod making;
mod older;
mod readers;
mod rooms;
mod sizes;
mod wrong;

use std::io;
use std::io::Read;

// More than the trace has.
const MOST_BYTES: u64 = 4096;

fn main(rt: HostRuntime) -> io::Result<()> {
    let mut input = Vec::new(rt.alloc());
    rt.reader().take(MOST_BYTES).read_to_end(&mut input)?;
    let marked = input.as_slice();
    each_place::show_prefixes(&rt, marked)?;
    each_place::show_changes(&rt, marked)?;
    sizes::show_all(&rt, marked)?;
    form::show_below_256(&rt, marked)?;
    form::show_from_256(&rt, marked)?;
    wrong::show_changed(&rt, marked)?;
    wrong::show_missing(&rt, marked)?;
    wrong::show_order(&rt, marked)?;
    older::show_all(&rt, marked)?;
    rooms::show_all(&rt, marked)
}

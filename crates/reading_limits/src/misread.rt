// For each exclusion, and for each condition but "not latched", which no list needs today, a short list of calls on which the two bytes read are not v - n, beside the same
// list without the fault, on which they are.
use crate::host::{
    BOTH_BYTES, BOTH_BYTES_BCD, COMMAND, LATCH, LOW_BYTE, READ_STATUS, fresh, fresh_8254,
};
use std::io;

// The last argument is v - n, of both lists of the case.
fn case(rt: &impl Print, name: &str, with: [u8; 2], without: [u8; 2], left: u16) -> io::Result<()> {
    let [first, second] = with;
    let [low, high] = left.to_le_bytes();
    print!(rt; "{name}: read {first:02x} {second:02x}, v - n is {low:02x} {high:02x}")?;
    let [first, second] = without;
    println!(rt; ", without the fault {first:02x} {second:02x}")
}

pub(crate) fn exclusions(rt: &impl Print) -> io::Result<()> {
    let one = fresh().counts(1);
    let counted = one.latch().two_bytes();
    let set = one.write(COMMAND, BOTH_BYTES).latch().two_bytes();
    case(rt, "mode set", set, counted, 0xFFFF)?;
    let held = fresh().latch().counts(1);
    case(
        rt,
        "second latch",
        held.latch().two_bytes(),
        held.two_bytes(),
        0,
    )?;
    let unloaded = fresh().write_word(5, 0);
    let null = unloaded.latch().two_bytes();
    case(
        rt,
        "load cycle",
        unloaded.load_cycle().latch().two_bytes(),
        null,
        0,
    )?;
    case(
        rt,
        "tick that loads",
        unloaded.tick().latch().two_bytes(),
        null,
        0,
    )?;
    let two = fresh().counts(2).latch();
    case(
        rt,
        "extra read",
        two.after_read().two_bytes(),
        two.two_bytes(),
        0xFFFE,
    )?;
    case(
        rt,
        "reset",
        one.reset().latch().two_bytes(),
        counted,
        0xFFFF,
    )
}

// The status comes before the count: read back after the latch, or held before the reading begins.
pub(crate) fn read_backs(rt: &impl Print) -> io::Result<()> {
    let held = fresh_8254().counts(1).latch();
    let read_back = held.write(COMMAND, READ_STATUS).two_bytes();
    case(rt, "read-back", read_back, held.two_bytes(), 0xFFFF)?;
    let status = fresh_8254().write(COMMAND, READ_STATUS).counts(1).latch();
    case(
        rt,
        "status held",
        status.two_bytes(),
        held.two_bytes(),
        0xFFFF,
    )
}

// No latch of the reading's own: the output latch still has the count that was latched last, or the one from before a mode set.
pub(crate) fn unlatched(rt: &impl Print) -> io::Result<()> {
    let after = fresh().latch().counts(1).after_read().after_read();
    case(
        rt,
        "stale after a reading",
        after.two_bytes(),
        after.latch().two_bytes(),
        0xFFFF,
    )?;
    let set = fresh().counts(1).write(COMMAND, BOTH_BYTES);
    case(
        rt,
        "stale after a mode set",
        set.two_bytes(),
        set.latch().two_bytes(),
        0,
    )
}

// 0x00A0 weighs 100, as 0x0100 does.
pub(crate) fn conditions(rt: &impl Print) -> io::Result<()> {
    let both = fresh()
        .write(COMMAND, BOTH_BYTES)
        .counts(2)
        .latch()
        .two_bytes();
    let low = fresh().write(COMMAND, LOW_BYTE).counts(2).latch();
    case(rt, "low byte only", low.two_bytes(), both, 0xFFFE)?;
    let half = fresh().after_read().counts(2).latch();
    case(rt, "half-read word", half.two_bytes(), both, 0xFFFE)?;
    let bcd = fresh().write(COMMAND, BOTH_BYTES_BCD);
    let bad = bcd.write_word(0xA0, 0x00).load_cycle().latch();
    let good = bcd.write_word(0x00, 0x01).load_cycle().latch();
    case(
        rt,
        "digit above 9",
        bad.two_bytes(),
        good.two_bytes(),
        0x0100,
    )
}

// A run while a tick is owed is refused, and its own tick is never made.
pub(crate) fn refusals(rt: &impl Print) -> io::Result<()> {
    let start = fresh().write_word(5, 0).load_cycle();
    let one = start.owing().tick().latch();
    let two = start.tick().tick().latch();
    case(rt, "refused run", one.two_bytes(), two.two_bytes(), 3)?;
    let moving = fresh().write_at(COMMAND, LATCH, 3).counts(1);
    let held = fresh().latch().counts(1);
    case(rt, "refused latch", moving.two_bytes(), held.two_bytes(), 0)
}

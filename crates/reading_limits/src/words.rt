// What the words of a read tell of its byte, and what they do not.
use crate::host::{BOTH_BYTES, COMMAND, DATA, Host, READ_BOTH, READ_STATUS, fresh, fresh_8254};
use board::Answer;
use latch::Half;
use std::io;

fn half_word(half: Option<Half>) -> &'static str {
    match half {
        Some(Half::Low) => "low",
        Some(Half::High) => "high",
        None => "none",
    }
}

// A byte read and its two words, and the board after it.
fn say_read(rt: &impl Print, host: Host, port: u16) -> io::Result<Host> {
    let r = host.read(port);
    if let Ok(Answer::Byte(read)) = r.answer {
        let half = half_word(read.label.half);
        let held = if read.label.held { "held" } else { "live" };
        print!(rt; " {:02x} {half} {held}", read.byte)?;
    }
    Ok(Host(r.board))
}

fn say_two(rt: &impl Print, host: Host) -> io::Result<Host> {
    let half = say_read(rt, host, DATA)?;
    say_read(rt, half, DATA)
}

fn say_element(rt: &impl Print, host: Host) -> io::Result<()> {
    let element = host.0.channels[0].counter.counting_element;
    println!(rt; ", the count is {element:04x}")
}

// A count of 0x0100, whose high byte changes with the next count.
pub(crate) fn torn(rt: &impl Print) -> io::Result<()> {
    let start = fresh().write_word(0x00, 0x01).load_cycle();
    print!(rt; "held word, a count between its bytes:")?;
    let low = say_read(rt, start.latch(), DATA)?;
    say_read(rt, low.counts(1), DATA)?;
    print!(rt; "\ntorn word, a count between its bytes:")?;
    let low = say_read(rt, start, DATA)?;
    say_read(rt, low.counts(1), DATA)?;
    print!(rt; "\ntorn word, a count and a latch between its bytes:")?;
    let low = say_read(rt, start, DATA)?;
    say_read(rt, low.counts(1).latch(), DATA)?;
    print!(rt; "\nword of two latches, a count between them:")?;
    let low = say_read(rt, start.latch(), DATA)?;
    say_read(rt, low.counts(1).latch(), DATA)?;
    println!(rt; "")
}

// Not latched, and yet not the count of the moment.
pub(crate) fn live(rt: &impl Print) -> io::Result<()> {
    let start = fresh().write_word(5, 0).load_cycle();
    print!(rt; "after a latch is read out:")?;
    let held = say_two(rt, start.latch().counts(1))?;
    let live = say_two(rt, held)?;
    say_element(rt, live)?;
    print!(rt; "after a mode set:")?;
    let live = say_two(rt, start.write(COMMAND, BOTH_BYTES))?;
    say_element(rt, live)?;
    print!(rt; "command port, channel 0 latched:")?;
    say_read(rt, start.latch(), COMMAND)?;
    println!(rt; "")
}

// A count of 5 read back with its status: the null count is set before the load and clear after it. The same bytes on an 8253 read nothing back.
pub(crate) fn status(rt: &impl Print) -> io::Result<()> {
    let written = fresh_8254().write_word(5, 0);
    print!(rt; "status and count, before the load:")?;
    let status = say_read(rt, written.write(COMMAND, READ_BOTH), DATA)?;
    let before = say_two(rt, status)?;
    print!(rt; "\nstatus and count, after the load:")?;
    let loaded = before.load_cycle();
    let status = say_read(rt, loaded.write(COMMAND, READ_BOTH), DATA)?;
    say_two(rt, status)?;
    print!(rt; "\nstatus in the middle of a held word:")?;
    let held = fresh_8254().write_word(0x00, 0x01).load_cycle().latch();
    let half = say_read(rt, held, DATA)?;
    say_two(rt, half.write(COMMAND, READ_STATUS))?;
    print!(rt; "\nthe same bytes on an 8253:")?;
    let loaded = fresh().write_word(5, 0).load_cycle();
    say_two(rt, loaded.write(COMMAND, READ_BOTH))?;
    println!(rt; "")
}

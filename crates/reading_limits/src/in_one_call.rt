// What `read_count` answers where a reading may begin, and where not.
use crate::host::{BOTH_BYTES_BCD, COMMAND, Host, LOW_BYTE, READ_STATUS, fresh, fresh_8254};
use std::io;

fn say_count(rt: &impl Print, name: &str, host: Host, channel: usize) -> io::Result<()> {
    match reading::read_count(host.0, channel).answer {
        Ok(left) => println!(rt; "read_count, {name}: {left:04x}"),
        Err(error) => println!(rt; "read_count, {name}: refused {}", error.number()),
    }
}

pub(crate) fn show_all(rt: &impl Print) -> io::Result<()> {
    say_count(rt, "fresh", fresh(), 0)?;
    say_count(rt, "after 3 counts", fresh().counts(3), 0)?;
    let bcd = fresh().write(COMMAND, BOTH_BYTES_BCD);
    say_count(rt, "in BCD after 1 count", bcd.counts(1), 0)?;
    let loaded = fresh().write_word(5, 0).tick();
    say_count(
        rt,
        "after a tick that loads 5 and two more",
        loaded.tick().tick(),
        0,
    )?;
    say_count(rt, "channel 3", fresh(), 3)?;
    say_count(rt, "a tick owed", fresh().owing(), 0)?;
    say_count(rt, "low byte only", fresh().write(COMMAND, LOW_BYTE), 0)?;
    say_count(rt, "latched", fresh().latch(), 0)?;
    say_count(rt, "half-read word", fresh().after_read(), 0)?;
    let status = fresh_8254().write(COMMAND, READ_STATUS);
    say_count(rt, "status held", status, 0)
}

// The new form before the program as it was released before there were checkpoints. That program is not run here: `older` is a model of its rule for what follows
// the operations. Any byte there was refused with 13, at the first of them; head and operations were read as they are today.
use crate::making::{end_of, put_marked};
use std::io;

// A trace of so many operations, and of so many bytes in all.
fn older(rt: &impl Print, name: &str, operations: u32, length: usize) -> io::Result<()> {
    let end = end_of(operations);
    if length <= end {
        println!(rt; "  {name}: sound")
    } else {
        println!(rt; "  {name}: trace refused 13 at {end}")
    }
}

pub(crate) fn show_all(rt: &impl Print, marked: &[u8]) -> io::Result<()> {
    println!(rt; "an older program, by a model of its rule")?;
    older(rt, "marked", 600, marked.len())?;
    older(rt, "without section three", 600, end_of(600))?;
    let mut trace = [0u8; 20];
    let length = put_marked(marked, 0, &mut trace);
    older(rt, "0 operations, an empty section", 0, length)
}

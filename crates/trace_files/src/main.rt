// Replays each of the traces that its arguments name, and prints them one after another, each under its name.
#![tactic(auto)]

use std::env::FillError;
use std::fs::File;
use std::io::{self, Read};
use std::rt::{Env, Files};

// More than the longest trace has, as in the program replay.
const MOST_BYTES: u64 = 65536;

// An argument that is longer names no file.
const NAME_ROOM: usize = 4096;

fn print_replay(rt: &impl Print, trace: &[u8]) -> io::Result<()> {
    let mut output = [0u8; runner::TEXT_ROOM];
    let printed = runner::replay(trace, &mut output);
    rt.write_all(&output[..printed])
}

// A name that is not UTF-8 opens no file.
fn open<R: Files>(rt: &R, name: &[u8]) -> Option<R::File> {
    let path = str::from_utf8(name).ok()?;
    File::open(rt, path).ok()
}

fn replay_file<R: Files + Print + AllocGlobal>(rt: &R, name: &[u8]) -> io::Result<()> {
    rt.write_all(name)?;
    println!(rt; "")?;
    let Some(file) = open(rt, name) else {
        return println!(rt; "cannot be read");
    };
    let mut trace = Vec::new(rt.alloc());
    file.take(MOST_BYTES).read_to_end(&mut trace)?;
    print_replay(rt, trace.as_slice())
}

fn main(rt: HostRuntime) -> io::Result<()> {
    let mut room = [0u8; NAME_ROOM];
    for i in 1..usize::MAX {
        match rt.arg(i, &mut room) {
            Ok(length) => replay_file(&rt, &room[..length])?,
            Err(FillError::TooLong) => replay_file(&rt, b"")?,
            Err(FillError::NotPresent) => break,
        }
    }
    Ok(())
}

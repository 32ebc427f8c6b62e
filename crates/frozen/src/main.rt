// Replays the frozen samples of the original's answers through the functions that a host calls, and prints how many cases of each differ. The arguments
// name the files: of channels, of boards and of traces, in this order. README.md says what they hold and how they were made.
#![tactic(auto)]

mod cases;
mod reading;

use std::fs::File;
use std::io;
use std::io::Read;
use std::rt::{Env, Files};

// More than any sample has: the loop ends even if the input does not.
const MOST: u64 = 1000000;

// No name of a file is longer.
const NAME_ROOM: usize = 4096;

#[derive(Clone, Copy)]
struct Tally {
    cases: u64,
    differing: u64,
}

// A case says whether it agrees, and nothing at the end of the file.
fn replay<R: Read, F: Fn(&mut R) -> io::Result<Option<bool>>>(
    file: &mut R,
    next_case: F,
) -> io::Result<Tally>
    requires { F.IsAlwaysCallable next_case }
{
    let mut differing: u64 = 0;
    for cases in 0..MOST {
        match next_case(file)? {
            None => return Ok(Tally { cases, differing }),
            Some(agrees) => differing += u64::from(!agrees),
        }
    }
    Ok(Tally {
        cases: MOST,
        differing,
    })
}

// A name that is not UTF-8 opens no file.
fn open<R: Files>(rt: &R, name: &[u8]) -> Option<R::File> {
    let path = str::from_utf8(name).ok()?;
    File::open(rt, path).ok()
}

// A file that cannot be opened has no cases.
fn replay_argument<R: Env + Files + Print, F: Fn(&mut R::File) -> io::Result<Option<bool>>>(
    rt: &R,
    argument: usize,
    next_case: F,
) -> io::Result<()>
    requires { F.IsAlwaysCallable next_case }
{
    let mut room = [0u8; NAME_ROOM];
    let name = match rt.arg(argument, &mut room) {
        Ok(length) => &room[..length],
        Err(_) => b"",
    };
    let tally = match open(rt, name) {
        Some(mut file) => replay(&mut file, next_case)?,
        None => Tally {
            cases: 0,
            differing: 0,
        },
    };
    rt.write_all(name)?;
    println!(rt; ": {} cases, {} differ", tally.cases, tally.differing)
}

fn main(rt: HostRuntime) -> io::Result<()> {
    replay_argument(&rt, 1, |file| cases::channel_case(file))?;
    replay_argument(&rt, 2, |file| cases::board_case(file))?;
    replay_argument(&rt, 3, |file| cases::trace_case(file))
}

// What demand 3 does not promise (docs/READING.md): lists of calls on which the two bytes read are not v - n, beside the same list without the fault. Then what `read_count`
// answers where a reading may begin, and where not; and what the words of a read tell of its byte, and what they do not.
#![tactic(auto)]

mod host;
mod in_one_call;
mod misread;
mod words;

use std::io;

fn main(rt: HostRuntime) -> io::Result<()> {
    misread::exclusions(&rt)?;
    misread::read_backs(&rt)?;
    misread::unlatched(&rt)?;
    misread::conditions(&rt)?;
    misread::refusals(&rt)?;
    in_one_call::show_all(&rt)?;
    words::torn(&rt)?;
    words::live(&rt)?;
    words::status(&rt)
}

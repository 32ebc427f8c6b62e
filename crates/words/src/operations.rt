// An operation of a trace in words, and what a byte written to the command port asks for.
ghost use Rattle.std.specs.Prelude.{◌≡◌, ◌≤◌, ◌++◌, length, take};
ghost use Rattle.line.specs.Line.{line_room};
ghost use Rattle.words.specs.Commands.{latch_words, access_words, radix_words, mode_set_words, latched_words, named_words, read_back_words, command_words};
ghost use Rattle.words.specs.Inner.{named_room, asked_room};
ghost use Rattle.words.specs.Operations.{data_port_words, written_words, write_words, read_words, level_words, gate_words, counts_words, load_words, operation_words};

use crate::{said, said_number};
use channel::{ControlWord, PitType, RwMode};
use control::{Command, ReadBackWord, command_of};
use line::Line;
use trace::operation::Operation;

fn push_latch(line: &mut Line, channel: u8)
    ensures says { line.new ≡ take line_room (line.old ++ latch_words channel) }
    ensures fits { length (latch_words channel) ≤ asked_room }
{
    line.push(b" ; channel ");
    line.push_decimal(u64::from(channel));
    line.push(b", latch the count");
}

fn push_access(line: &mut Line, access: RwMode)
    ensures says { line.new ≡ take line_room (line.old ++ access_words access) }
    ensures fits { length (access_words access) ≤ 15 }
{
    match access {
        RwMode::Lsb => line.push(b", low only"),
        RwMode::Msb => line.push(b", high only"),
        RwMode::LsbMsb => line.push(b", low then high"),
    }
}

fn push_radix(line: &mut Line, bcd: bool)
    ensures says { line.new ≡ take line_room (line.old ++ radix_words bcd) }
    ensures fits { length (radix_words bcd) ≤ 8 }
{
    if bcd {
        line.push(b", BCD");
    } else {
        line.push(b", binary");
    }
}

fn push_mode_set(line: &mut Line, channel: u8, word: ControlWord)
    ensures says { line.new ≡ take line_room (line.old ++ mode_set_words channel word) }
    ensures fits { length (mode_set_words channel word) ≤ asked_room }
{
    line.push(b" ; channel ");
    line.push_decimal(u64::from(channel));
    line.push(b", mode ");
    line.push_decimal(u64::from(word.mode.number()));
    push_access(line, word.rw_mode);
    push_radix(line, word.bcd_mode);
}

fn push_latched(line: &mut Line, counts: bool, status: bool)
    ensures says { line.new ≡ take line_room (line.old ++ latched_words counts status) }
    ensures fits { length (latched_words counts status) ≤ 17 }
{
    match (counts, status) {
        (true, true) => line.push(b" count and status"),
        (true, false) => line.push(b" count"),
        (false, true) => line.push(b" status"),
        (false, false) => line.push(b" nothing"),
    }
}

fn push_named(line: &mut Line, word: ReadBackWord)
    ensures says { line.new ≡ take line_room (line.old ++ named_words word) }
    ensures fits { length (named_words word) ≤ named_room }
{
    if word.names_any() {
        line.push(b" of channels");
        line.push_if(word.names_0, b" 0");
        line.push_if(word.names_1, b" 1");
        line.push_if(word.names_2, b" 2");
    } else {
        line.push(b" of no channel");
    }
}

fn push_read_back(line: &mut Line, word: ReadBackWord)
    ensures says { line.new ≡ take line_room (line.old ++ read_back_words word) }
    ensures fits { length (read_back_words word) ≤ asked_room }
{
    line.push(b" ; read back");
    push_latched(line, word.counts, word.status);
    push_named(line, word);
}

fn push_command(line: &mut Line, command: Command)
    ensures says { line.new ≡ take line_room (line.old ++ command_words command) }
    ensures fits { length (command_words command) ≤ asked_room }
{
    match command {
        Command::Nothing => line.push(b" ; no command"),
        Command::LatchCount(channel) => push_latch(line, channel),
        Command::SetMode(channel, word) => push_mode_set(line, channel, word),
        Command::ReadBack(word) => push_read_back(line, word),
    }
}

fn push_data_port(line: &mut Line, port: u8, behind: &[u8])
    requires { length behind.now ≤ 8 }
    ensures says { line.new ≡ take line_room (line.old ++ data_port_words port behind.now) }
    ensures fits { length (data_port_words port behind.now) ≤ asked_room }
{
    match port {
        0x40..=0x42 => {
            line.push(b" ; channel ");
            line.push_decimal(u64::from(port - 0x40));
            line.push(behind);
        }
        _ => line.push(b""),
    }
}

fn push_written(line: &mut Line, model: PitType, port: u8, byte: u8)
    ensures says { line.new ≡ take line_room (line.old ++ written_words model port byte) }
    ensures fits { length (written_words model port byte) ≤ asked_room }
{
    if port == 0x43 {
        push_command(line, command_of(byte, model));
    } else {
        push_data_port(line, port, b", data");
    }
}

fn write_words(model: PitType, port: u8, byte: u8) -> Line
    ensures says { result ≡ write_words model port byte }
    ensures fits { length (write_words model port byte) ≤ line_room }
{
    let mut line = Line::new();
    line.push(b"write ");
    line.push_hex(port);
    line.push(b" ");
    line.push_hex(byte);
    push_written(&mut line, model, port, byte);
    line
}

fn read_words(port: u8) -> Line
    ensures says { result ≡ read_words port }
    ensures fits { length (read_words port) ≤ line_room }
{
    let mut line = Line::new();
    line.push(b"read ");
    line.push_hex(port);
    push_data_port(&mut line, port, b"");
    line
}

fn push_level(line: &mut Line, level: bool)
    ensures says { line.new ≡ take line_room (line.old ++ level_words level) }
    ensures fits { length (level_words level) ≤ 5 }
{
    if level {
        line.push(b" high");
    } else {
        line.push(b" low");
    }
}

fn gate_words(channel: u8, level: bool) -> Line
    ensures says { result ≡ gate_words channel level }
    ensures fits { length (gate_words channel level) ≤ line_room }
{
    let mut line = Line::new();
    line.push(b"set gate of channel ");
    line.push_decimal(u64::from(channel));
    push_level(&mut line, level);
    line
}

fn counts_words(channel: u8, number: u32) -> Line
    ensures says { result ≡ counts_words channel number }
    ensures fits { length (counts_words channel number) ≤ line_room }
{
    let mut line = Line::new();
    line.push(b"count channel ");
    line.push_decimal(u64::from(channel));
    line.push(b", ");
    line.push_decimal(u64::from(number));
    line.push(b" times");
    line
}

fn load_words(channel: u8) -> Line
    ensures says { result ≡ load_words channel }
    ensures fits { length (load_words channel) ≤ line_room }
{
    let mut line = Line::new();
    line.push(b"load cycle of channel ");
    line.push_decimal(u64::from(channel));
    line
}

// The model decides what a byte written to the command port asks for.
#[tactic(auto, unfolding(crate::specs::Operations::operation_words))]
pub fn operation_words(model: PitType, operation: Operation) -> Line
    ensures says { result ≡ operation_words model operation }
    ensures fits { length (operation_words model operation) ≤ line_room }
{
    match operation {
        Operation::WritePort(port, byte) => write_words(model, port, byte),
        Operation::ReadPort(port) => read_words(port),
        Operation::SetChannelGate(channel, level) => gate_words(channel, level),
        Operation::Counts(channel, number) => counts_words(channel, number),
        Operation::LoadCycle(channel) => load_words(channel),
        Operation::CatchUp(ticks) => said_number(b"catch up ", ticks.0, b" system ticks"),
        Operation::Run(ticks) => said_number(b"run ", ticks.0, b" system ticks"),
        Operation::Reset => said(b"reset"),
        Operation::WorkOff(most) => said_number(b"work off at most ", most, b" owed ticks"),
    }
}

// The calls, each by the turn that it finds.
ghost use Rattle.std.specs.Prelude.{[], ◌≡◌};
ghost use Rattle.board.specs.Answer.{outcome};
ghost use Rattle.board.specs.Counting.{counts, load_cycle};
ghost use Rattle.board.specs.Making.{reset};
ghost use Rattle.clock.specs.Clock.{catch_up, run};
ghost use Rattle.owed.specs.Worked.{work_off};
ghost use Rattle.ports.specs.Gates.{set_channel_gate};
ghost use Rattle.ports.specs.Reads.{read_port};
ghost use Rattle.ports.specs.Writes.{write_port};

use crate::{bare, take};
use board::{Answered, Board};
use time::SystemTicks;
use turn::finding;
use turn::finding::Turn;

// A byte written to a port. It takes no time. Refusals 1, 16, 7 and 8.
pub fn write_port(b: Board, port: u16, byte: u8, events: &mut [u8], place: usize) -> Answered
    ensures { outcome result events.new ≡ write_port b port byte events.old place }
{
    let turn = finding::write_turn(port, byte, b.owed.0 != 0, b.model);
    take(b, turn, events, place)
}

// A byte read from a port. Refusal 1.
pub fn read_port(b: Board, port: u16) -> Answered
    ensures { outcome result [] ≡ read_port b port }
{
    bare(b, finding::read_turn(port))
}

// A level at a channel's gate. Refusals 2, 16, 7 and 8.
pub fn set_channel_gate(
    b: Board,
    channel: usize,
    level: bool,
    events: &mut [u8],
    place: usize,
) -> Answered
    ensures { outcome result events.new ≡ set_channel_gate b channel level events.old place }
{
    let turn = finding::gate_turn(channel, level, b.owed.0 != 0);
    take(b, turn, events, place)
}

// Refusal 2, whatever the number.
pub fn counts(b: Board, channel: usize, number: u32) -> Answered
    ensures { outcome result [] ≡ counts b channel number }
{
    bare(b, finding::counts_turn(channel, number))
}

// Refusal 2.
pub fn load_cycle(b: Board, channel: usize) -> Answered
    ensures { outcome result [] ≡ load_cycle b channel }
{
    bare(b, finding::load_cycle_turn(channel))
}

// In the middle of an instruction. Refusals 3, 16, 4 and 5.
pub fn catch_up(b: Board, ticks: SystemTicks) -> Answered
    ensures { outcome result [] ≡ catch_up b ticks.0 }
{
    bare(b, Ok(finding::catch_up_turn(ticks)))
}

// At the end of an instruction. The same refusals.
pub fn run(b: Board, ticks: SystemTicks) -> Answered
    ensures { outcome result [] ≡ run b ticks.0 }
{
    bare(b, Ok(finding::run_turn(ticks)))
}

// Three fresh channels with their gates. Nothing is lent for events: a reset raises none, even where an output changes. Refusal 16.
pub fn reset(b: Board) -> Answered
    ensures { outcome result [] ≡ reset b }
{
    bare(b, finding::reset_turn(b.owed.0 != 0))
}

// At most the stated number of owed ticks, each with all of its events or not at all. Refusals 7 and 15.
pub fn work_off(b: Board, stated: u32, events: &mut [u8], place: usize) -> Answered
    ensures { outcome result events.new ≡ work_off b stated events.old place }
{
    take(b, Ok(Turn::WorkOff(stated)), events, place)
}

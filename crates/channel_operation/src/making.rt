// An operation made on a channel: the channel that it leaves, and its answer.
ghost use Rattle.std.specs.Prelude.{◌≡◌};
ghost use Rattle.numbers.specs.Flags.{flag_number};
ghost use Rattle.channel_operation.specs.Made.{answered, silent, read_back_made, commanded, operate};

use crate::Operation;
use channel::{Channel, PitType};
use control::{Command, ReadBackWord};

// The three numbers are 0 where the operation does not answer.
#[derive(Clone, Copy)]
pub struct Made {
    pub channel: Channel,
    pub first: u16,
    pub second: u16,
    pub third: u16,
}

fn answered(channel: Channel, first: u16, second: u16, third: u16) -> Made
    ensures { result ≡ answered channel first second third }
{
    Made {
        channel,
        first,
        second,
        third,
    }
}

fn silent(channel: Channel) -> Made
    ensures { result ≡ silent channel }
{
    answered(channel, 0, 0, 0)
}

#[tactic(auto, unfolding(crate::specs::Made::operate))]
fn read(c: Channel) -> Made
    ensures { result ≡ operate c Operation.ReadByte }
{
    let got = latch::read_byte(c);
    let label = latch::label_of(c);
    answered(
        got.channel,
        u16::from(got.byte),
        u16::from(label.half_number()),
        u16::from(label.held),
    )
}

#[tactic(auto, unfolding(crate::specs::Made::operate))]
fn channel_count(c: Channel) -> Made
    ensures { result ≡ operate c Operation.GetChannelCount }
{
    let got = c.get_channel_count();
    answered(
        c,
        got.count_register,
        got.counting_element,
        u16::from(got.counting),
    )
}

#[tactic(auto, unfolding(crate::specs::Made::operate))]
fn dirty(c: Channel) -> Made
    ensures { result ≡ operate c Operation.IsDirty }
{
    let got = c.is_dirty();
    answered(
        got.channel,
        u16::from(got.dirty),
        u16::from(got.counting),
        u16::from(got.ticked),
    )
}

// A record has no number: it stands for a channel that the read-back names, if it names one.
fn read_back(c: Channel, word: ReadBackWord) -> Made
    ensures { result ≡ read_back_made c word }
{
    let channel = if word.names_any() {
        latch::read_back(c, word.counts, word.status)
    } else {
        c
    };
    answered(channel, 4, 0, 0)
}

// The command is opened as document 01 names it: a mode set carries its fields, a latch its channel, a read-back what it asks for, nothing returns early.
fn commanded(c: Channel, command: Command, model: PitType) -> Made
    ensures { result ≡ commanded c command model }
{
    let Command::SetMode(n, word) = command else {
        let Command::LatchCount(latched) = command else {
            let Command::ReadBack(named) = command else {
                return answered(c, 3, 0, 0);
            };
            return read_back(c, named);
        };
        return answered(latch::latch_count(c), u16::from(latched), 0, 0);
    };
    answered(mode::set_mode(c, word, model), u16::from(n), 0, 0)
}

#[tactic(auto, unfolding(crate::specs::Made::operate))]
pub fn operate(c: Channel, operation: Operation) -> Made
    ensures { result ≡ operate c operation }
{
    match operation {
        Operation::WriteByte(byte, defer) => silent(load::write_byte(c, byte, defer)),
        Operation::ReadByte => read(c),
        Operation::SetGate(level) => silent(gate::set_gate(c, level)),
        Operation::Count => silent(count::count(c)),
        Operation::LoadCycle => silent(load::load_cycle(c)),
        Operation::Reset => silent(c.reset()),
        Operation::ControlByte(byte, model) => commanded(
            c,
            control::command_of(byte, model),
            model,
        ),
        Operation::GetOutputState => answered(c, u16::from(c.get_output_state()), 0, 0),
        Operation::GetChannelCount => channel_count(c),
        Operation::DoesChannelRetrigger => {
            answered(c, u16::from(c.does_channel_retrigger()), 0, 0)
        }
        Operation::IsDirty => dirty(c),
    }
}

// One operation: six bytes, its rule, and what it asks for.
ghost use Rattle.std.specs.Prelude.{◌≡◌};
ghost use Rattle.trace.specs.Operation.{operation_of, fitted, place_of, operation_at, operation_in};
ghost use Rattle.trace.specs.Answer.{judged};

use crate::rule::{Rule, broken_rule};
use crate::{Fault, HEAD_SIZE, OPERATION_SIZE};
use numbers::number_at;
use refusal::Refusal;
use time::SystemTicks;

// Ports and channels are as the trace has them: a bad one is refused when it is run.
#[derive(Clone, Copy, Debug, PartialEq, Eq)]
pub enum Operation {
    // Port and byte.
    WritePort(u8, u8),
    // Port.
    ReadPort(u8),
    // Channel and level.
    SetChannelGate(u8, bool),
    // Channel and number.
    Counts(u8, u32),
    // Channel.
    LoadCycle(u8),
    CatchUp(SystemTicks),
    Run(SystemTicks),
    Reset,
    // How many owed ticks to work off at most.
    WorkOff(u32),
}

// By the rules a code is 1 to 9; any other works ticks off too.
fn operation_of(code: u8, target: u8, number: u32) -> Operation
    ensures { result ≡ operation_of code target (fitted code number) }
{
    match code {
        1 => Operation::WritePort(target, (number % 256) as u8),
        2 => Operation::ReadPort(target),
        3 => Operation::SetChannelGate(target, number == 1),
        4 => Operation::Counts(target, number),
        5 => Operation::LoadCycle(target),
        6 => Operation::CatchUp(SystemTicks(number)),
        7 => Operation::Run(SystemTicks(number)),
        8 => Operation::Reset,
        _ => Operation::WorkOff(number),
    }
}

// The operations stand one after another behind the head.
pub fn place_of(index: u32) -> usize
    ensures { result ≡ place_of index }
{
    HEAD_SIZE + OPERATION_SIZE * (index as usize)
}

// The operation of an index, whatever the trace says of its number of operations. Refusals 9, 12, 19, 20 and 21. One that is not wholly there has no index to name: its
// refusal is the trace's end.
#[tactic(auto, unfolding(crate::specs::Operation::operation_at))]
pub fn operation_at(bytes: &[u8], index: u32) -> Result<Operation, Fault>
    ensures { judged result ≡ operation_at bytes.now index }
{
    let place = place_of(index);
    if bytes.len() < place + OPERATION_SIZE {
        return Err(Fault::outside(Refusal::TraceEnds, bytes.len()));
    }
    let code = bytes[place];
    let target = bytes[place + 1];
    let number = number_at(bytes, place + 2);
    match broken_rule(code, target, number) {
        None => Ok(operation_of(code, target, number)),
        Some(Rule::Code) => Err(Fault::inside(index, Refusal::UnknownCode, place)),
        Some(Rule::Target) => Err(Fault::inside(index, Refusal::TargetNotZero, place + 1)),
        Some(Rule::NumberNotZero) => Err(Fault::inside(index, Refusal::NumberNotZero, place + 2)),
        Some(Rule::NumberTooLarge) => Err(Fault::inside(index, Refusal::TooLarge, place + 2)),
    }
}

// The operation of an index of a sound trace. It is no judgement: the runner asks after the whole trace was judged, and a judgement around each operation would
// be put together and taken apart for nothing. Where bytes are missing, a reset stands for it.
#[tactic(auto, unfolding(crate::specs::Operation::operation_in))]
pub fn operation_in(bytes: &[u8], index: u32) -> Operation
    ensures { result ≡ operation_in bytes.now index }
{
    let place = place_of(index);
    if bytes.len() < place + OPERATION_SIZE {
        return Operation::Reset;
    }
    operation_of(bytes[place], bytes[place + 1], number_at(bytes, place + 2))
}

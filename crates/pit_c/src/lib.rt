// The functions of `pit` under their names, for a host that is not written in Rattle: the static library. docs/ENCODING.md has their C form.
#![tactic(auto)]

ghost use Rattle.std.specs.Prelude.{◌≡◌, length};
ghost use Rattle.runner.specs.Lent.{replay_into, answers_into};
ghost use Rattle.checkpoint.specs.Check.{check_into};
ghost use Rattle.checkpoint.specs.From.{replay_from_into};
ghost use Rattle.checkpoint.specs.Mark.{mark_into};
ghost use Rattle.pit.specs.Board.{new_status, new_after, board_called, board_operation};
ghost use Rattle.pit.specs.Channel.{outcome_of, Settles, fresh_status, fresh_after};
ghost use Rattle.pit.specs.Trace.{replay_called, replay_call};

#[unsafe(no_mangle)]
pub extern "C" fn pit_channel_fresh(bytes: &mut [u8]) -> u32
    ensures { (result ≡ fresh_status bytes.old) × (bytes.new ≡ fresh_after bytes.old) }
{
    pit::pit_channel_fresh(bytes)
}

#[unsafe(no_mangle)]
pub extern "C" fn pit_channel_operation(
    bytes: &mut [u8],
    answer: &mut [u8],
    code: u8,
    number: u8,
    setting: u8,
) -> u32
    ensures { Settles (outcome_of bytes.old (length answer.old) code number setting) bytes.old answer.old result bytes.new answer.new }
{
    pit::pit_channel_operation(bytes, answer, code, number, setting)
}

#[unsafe(no_mangle)]
pub extern "C" fn pit_board_new(bytes: &mut [u8], model: u8, divisor: u32) -> u32
    ensures { (result ≡ new_status model divisor bytes.old) × (bytes.new ≡ new_after model divisor bytes.old) }
{
    pit::pit_board_new(bytes, model, divisor)
}

#[unsafe(no_mangle)]
pub extern "C" fn pit_board_operation(
    bytes: &mut [u8],
    events: &mut [u8],
    answer: &mut [u8],
    place: usize,
    code: u8,
    target: u16,
    number: u32,
) -> u32
    ensures { board_called result bytes.new events.new answer.new ≡ board_operation code target number place bytes.old events.old answer.old }
{
    pit::pit_board_operation(bytes, events, answer, place, code, target, number)
}

#[unsafe(no_mangle)]
pub extern "C" fn pit_replay(trace: &[u8], out: &mut [u8], answer: &mut [u8]) -> u32
    ensures { replay_called result out.new answer.new ≡ replay_call (replay_into trace.now out.old) out.old answer.old }
{
    pit::pit_replay(trace, out, answer)
}

#[unsafe(no_mangle)]
pub extern "C" fn pit_answers(trace: &[u8], out: &mut [u8], answer: &mut [u8]) -> u32
    ensures { replay_called result out.new answer.new ≡ replay_call (answers_into trace.now out.old) out.old answer.old }
{
    pit::pit_answers(trace, out, answer)
}

#[unsafe(no_mangle)]
pub extern "C" fn pit_replay_from(
    trace: &[u8],
    out: &mut [u8],
    answer: &mut [u8],
    checkpoint: u32,
) -> u32
    ensures { replay_called result out.new answer.new ≡ replay_call (replay_from_into trace.now checkpoint out.old) out.old answer.old }
{
    pit::pit_replay_from(trace, out, answer, checkpoint)
}

#[unsafe(no_mangle)]
pub extern "C" fn pit_check(trace: &[u8], out: &mut [u8], answer: &mut [u8]) -> u32
    ensures { replay_called result out.new answer.new ≡ replay_call (check_into trace.now out.old) out.old answer.old }
{
    pit::pit_check(trace, out, answer)
}

#[unsafe(no_mangle)]
pub extern "C" fn pit_mark(trace: &[u8], out: &mut [u8], answer: &mut [u8]) -> u32
    ensures { replay_called result out.new answer.new ≡ replay_call (mark_into trace.now out.old) out.old answer.old }
{
    pit::pit_mark(trace, out, answer)
}

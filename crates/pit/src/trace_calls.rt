// Whole traces: what a replay prints, from the start or from a checkpoint, the answers in bytes, and checkpoints compared and made.
ghost use Rattle.std.specs.Prelude.{◌<◌, ◌≡◌};
ghost use Rattle.refusal.specs.Reply.{number_in};
ghost use Rattle.refusal.specs.Refusal.{refusal_number};
ghost use Rattle.runner.specs.Lent.{fault_status, reply_in, replay_into, answers_into};
ghost use Rattle.checkpoint.specs.Check.{check_into};
ghost use Rattle.checkpoint.specs.From.{replay_from_into};
ghost use Rattle.checkpoint.specs.Mark.{mark_into};
ghost use Rattle.pit.specs.Trace.{reply_after, replay_called, replay_call};

use crate::answering;
use crate::status::Status;
use in_bytes::BOARD_ANSWER_SIZE;
use refusal::Refusal;
use runner::lending::ReplayError;

// The refusal's number; inside an operation, 256 times the index more, counted from 1.
fn fault_status(refusal: Refusal, operation: Option<u32>) -> u32
    requires { fault_status (refusal_number refusal) operation < 4294967296 }
    ensures { result ≡ fault_status (refusal_number refusal) operation }
{
    let number = u32::from(refusal.number());
    match operation {
        Some(index) => number + 256 * (index + 1),
        None => number,
    }
}

// The status of a replay, and its length in the answer.
fn settle(replayed: Result<usize, ReplayError>, answer: &mut [u8]) -> u32
    requires { number_in (reply_in replayed) < 4294967296 }
    ensures { (result ≡ number_in (reply_in replayed)) × (answer.new ≡ reply_after (reply_in replayed) answer.old) }
{
    match replayed {
        Ok(n) => {
            encoding::put_front(answer, &answering::board_answer_bytes(n as u64, 0, 0));
            0
        }
        Err(ReplayError::Refused(refusal, operation)) => fault_status(refusal, operation),
        Err(ReplayError::Short) => u32::from(Status::ShortOut),
    }
}

// C knows each of the five calls by its name. What they share is `settle`; one function that took the rest as a closure would be no shorter.
pub fn pit_replay(trace: &[u8], out: &mut [u8], answer: &mut [u8]) -> u32
    ensures { replay_called result out.new answer.new ≡ replay_call (replay_into trace.now out.old) out.old answer.old }
{
    if answer.len() < BOARD_ANSWER_SIZE {
        return u32::from(Status::ShortAnswer);
    }
    let replayed = runner::replay_into(trace, out);
    settle(replayed, answer)
}

pub fn pit_answers(trace: &[u8], out: &mut [u8], answer: &mut [u8]) -> u32
    ensures { replay_called result out.new answer.new ≡ replay_call (answers_into trace.now out.old) out.old answer.old }
{
    if answer.len() < BOARD_ANSWER_SIZE {
        return u32::from(Status::ShortAnswer);
    }
    let answered = runner::answers_into(trace, out);
    settle(answered, answer)
}

pub fn pit_replay_from(trace: &[u8], out: &mut [u8], answer: &mut [u8], checkpoint: u32) -> u32
    ensures { replay_called result out.new answer.new ≡ replay_call (replay_from_into trace.now checkpoint out.old) out.old answer.old }
{
    if answer.len() < BOARD_ANSWER_SIZE {
        return u32::from(Status::ShortAnswer);
    }
    let replayed = checkpoint::replay_from_into(trace, checkpoint, out);
    settle(replayed, answer)
}

pub fn pit_check(trace: &[u8], out: &mut [u8], answer: &mut [u8]) -> u32
    ensures { replay_called result out.new answer.new ≡ replay_call (check_into trace.now out.old) out.old answer.old }
{
    if answer.len() < BOARD_ANSWER_SIZE {
        return u32::from(Status::ShortAnswer);
    }
    let checked = checkpoint::check_into(trace, out);
    settle(checked, answer)
}

pub fn pit_mark(trace: &[u8], out: &mut [u8], answer: &mut [u8]) -> u32
    ensures { replay_called result out.new answer.new ≡ replay_call (mark_into trace.now out.old) out.old answer.old }
{
    if answer.len() < BOARD_ANSWER_SIZE {
        return u32::from(Status::ShortAnswer);
    }
    let marked = checkpoint::mark_into(trace, out);
    settle(marked, answer)
}

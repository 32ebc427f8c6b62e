// A replay into lent bytes of any length.
ghost use Rattle.std.specs.Prelude.{◌≡◌};
ghost use Rattle.runner.specs.Lent.{replayed, replay_into, answers_into};

use crate::answering::TRACE_ANSWER_SIZE;
use crate::{Form, put_sentence, replay_sound, tell};
use board::Board;
use line::LINE_ROOM;
use line::sentence::Sentence;
use refusal::Refusal;

// Why no byte is written into lent bytes. A replay into them otherwise answers how many bytes were written to their front.
#[derive(Clone, Copy, Debug, PartialEq, Eq)]
pub enum ReplayError {
    // The trace's refusal, and the operation that it names.
    Refused(Refusal, Option<u32>),
    // Too few bytes are lent.
    Short,
}

// What is printed, where the lent bytes have room for every line that the trace can have: one for the head, for each operation and for the end, or one
// where the trace is refused.
pub fn replay_into(trace: &[u8], out: &mut [u8]) -> Result<usize, ReplayError>
    ensures { replayed result out.new ≡ replay_into trace.now out.old }
{
    match trace::judge(trace) {
        Err(fault) => {
            if out.len() < LINE_ROOM {
                return Err(ReplayError::Short);
            }
            Ok(put_sentence(out, 0, Sentence::Fault(fault)))
        }
        Ok(head) => {
            if out.len() < LINE_ROOM * (head.operations as usize + 2) {
                return Err(ReplayError::Short);
            }
            Ok(replay_sound(trace, head, out))
        }
    }
}

// The answers of the operations, where the lent bytes have room for them.
pub fn answers_into(trace: &[u8], out: &mut [u8]) -> Result<usize, ReplayError>
    ensures { replayed result out.new ≡ answers_into trace.now out.old }
{
    match trace::judge(trace) {
        Err(fault) => Err(ReplayError::Refused(fault.refusal, fault.operation)),
        Ok(head) => {
            if out.len() < TRACE_ANSWER_SIZE * (head.operations as usize) {
                return Err(ReplayError::Short);
            }
            let board = Board::new(head.model, head.divisor).board;
            let told = tell(Form::Answers, trace, board, 0, head.operations, out, 0);
            Ok(told.place)
        }
    }
}

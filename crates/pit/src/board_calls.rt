// A board in bytes, made, and one operation at a time on it.
ghost use Rattle.std.specs.Prelude.{◌≡◌};
ghost use Rattle.encoding.specs.Front.{put_front};
ghost use Rattle.pit.specs.Board.{numbers_answer, new_status, new_after, board_called, board_operation};

use crate::answering;
use crate::status::Status;
use board::Board;
use board_encoding::BOARD_SIZE;
use board_operation::answering::Numbers;
use channel::PitType;

// The numbers of an operation that was made.
fn answered(numbers: Numbers, answer: &mut [u8])
    ensures { answer.new ≡ put_front (numbers_answer numbers) answer.old }
{
    encoding::put_front(
        answer,
        &answering::board_answer_bytes(numbers.first, numbers.second, numbers.third),
    );
}

pub fn pit_board_operation(
    bytes: &mut [u8],
    events: &mut [u8],
    answer: &mut [u8],
    place: usize,
    code: u8,
    target: u16,
    number: u32,
) -> u32
    ensures { board_called result bytes.new events.new answer.new ≡ board_operation code target number place bytes.old events.old answer.old }
{
    let asked = board_operation::operation_of(code, target, number);
    let room = answer.len();
    match in_bytes::call(asked, room, bytes, events, place) {
        Ok(numbers) => {
            answered(numbers, answer);
            0
        }
        Err(error) => u32::from(Status::from(error)),
    }
}

pub fn pit_board_new(bytes: &mut [u8], model: u8, divisor: u32) -> u32
    ensures { (result ≡ new_status model divisor bytes.old) × (bytes.new ≡ new_after model divisor bytes.old) }
{
    if bytes.len() < BOARD_SIZE {
        return u32::from(Status::ShortRecord);
    }
    if 1 < model {
        return u32::from(Status::UnknownOperation);
    }
    let made = Board::new(PitType::numbered(u32::from(model)), divisor);
    match made.answer {
        Ok(_) => {
            encoding::put_front(bytes, &board_encoding::board_bytes(made.board));
            0
        }
        Err(refusal) => u32::from(refusal.number()),
    }
}

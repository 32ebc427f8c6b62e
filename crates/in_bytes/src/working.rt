// One operation on a board in lent bytes: what it does to the part that it is about, taken out of the bytes, changed, and put back.
ghost use Rattle.std.specs.Prelude.{List, ◌≡◌, ℕ, ◌<◌};
ghost use Rattle.board.specs.Making.{restored};
ghost use Rattle.turn.specs.Turn.{turned};
ghost use Rattle.turn.specs.Inner.{OnBoard};
ghost use Rattle.board_operation.specs.Made.{operate};
ghost use Rattle.board_encoding.specs.Loaded.{board_in, HoldsBoard};
ghost use Rattle.in_bytes.specs.Called.{calling, call, stored};
ghost use Rattle.in_bytes.specs.Inner.{query_answered, OnPart, parted, said, told, written, operated};

use crate::finding::{Part, Query, part_of};
use crate::{
    BOARD_ANSWER_SIZE, board_readable, channel_in, channels_in, clock_in, defer_in, model_in,
    owed_in, put_channel, put_channels, put_clock, remainder_in,
};
use board::{Answer, DirtyMarks};
use board_encoding::BOARD_SIZE;
use board_operation::answering::Numbers;
use board_operation::{Operation, numbers_of, saying};
use control::ReadBackWord;
use ports::reading_back;
use refusal::Refusal;
use time::SystemTicks;
use turn::finding::{Turn, Work};

// Why a call does nothing: no lent byte changes.
#[derive(Clone, Copy, Debug, PartialEq, Eq)]
pub enum CallError {
    // Fewer bytes than a board has.
    Short,
    // A byte above its limit.
    Unreadable,
    // No operation of the table.
    Unknown,
    // Fewer bytes lent than the answer has.
    NoRoom,
    // By the board: the refusal's number.
    Refused(u8),
}

fn on_channel(
    bytes: &mut [u8],
    n: u8,
    work: Work,
    events: &mut [u8],
    place: usize,
) -> Result<Answer, Refusal>
    requires n_bound { n < 3 }
    requires holds_board { HoldsBoard bytes.old }
    ensures { said result bytes.new events.new ≡ written (turned (board_in bytes.old) (Turn.OnChannel n work) events.old place) bytes.old }
{
    let i = usize::from(n);
    let mut c = channel_in(bytes, i);
    let model = model_in(bytes);
    let defer = defer_in(bytes);
    let answer = turn::work_on(&mut c, n, work, model, defer, events, place);
    put_channel(bytes, i, c);
    answer
}

fn elapse(
    bytes: &mut [u8],
    given: SystemTicks,
    next: SystemTicks,
    defers: bool,
) -> Result<Answer, Refusal>
    requires { HoldsBoard bytes.old }
    ensures { (events : List ℕ) (place : ℕ) → said result bytes.new events ≡ written (turned (board_in bytes.old) (Turn.Elapse given next defers) events place) bytes.old }
{
    let mut clock = clock_in(bytes);
    let answer = clock.elapse(given, next, defers);
    put_clock(bytes, clock);
    answer
}

// No tick is owed, or the reset would have been refused.
fn reset(bytes: &mut [u8])
    requires { HoldsBoard bytes.old }
    ensures { bytes.new ≡ stored (restored (board_in bytes.old)) bytes.old }
{
    let c0 = channel_in(bytes, 0);
    let c1 = channel_in(bytes, 1);
    let c2 = channel_in(bytes, 2);
    let owed = owed_in(bytes);
    put_channels(bytes, [c0.reset(), c1.reset(), c2.reset()], owed);
}

fn work_off(
    bytes: &mut [u8],
    stated: u32,
    events: &mut [u8],
    place: usize,
) -> Result<Answer, Refusal>
    requires { HoldsBoard bytes.old }
    ensures { said result bytes.new events.new ≡ written (turned (board_in bytes.old) (Turn.WorkOff stated) events.old place) bytes.old }
{
    let mut channels = channels_in(bytes);
    let mut owed = owed_in(bytes);
    let model = model_in(bytes);
    let answer = owed::work_channels(&mut channels, model, &mut owed, stated, events, place);
    put_channels(bytes, channels, owed);
    answer
}

fn read_back(
    bytes: &mut [u8],
    word: ReadBackWord,
    events: &mut [u8],
    place: usize,
) -> Result<Answer, Refusal>
    requires { HoldsBoard bytes.old }
    ensures { said result bytes.new events.new ≡ written (turned (board_in bytes.old) (Turn.ReadBack word) events.old place) bytes.old }
{
    let mut channels = channels_in(bytes);
    let owed = owed_in(bytes);
    let answer = reading_back::read_back_three(word, &mut channels, events, place);
    put_channels(bytes, channels, owed);
    answer
}

// A turn's channel is one of the board's.
fn turn_in(bytes: &mut [u8], turn: Turn, events: &mut [u8], place: usize) -> Result<Answer, Refusal>
    requires on_board { OnBoard turn }
    requires holds_board { HoldsBoard bytes.old }
    ensures { said result bytes.new events.new ≡ written (turned (board_in bytes.old) turn events.old place) bytes.old }
{
    match turn {
        Turn::OnChannel(n, work) => on_channel(bytes, n, work, events, place),
        Turn::Elapse(given, next, defers) => elapse(bytes, given, next, defers),
        Turn::Reset => {
            reset(bytes);
            Ok(Answer::Done)
        }
        Turn::WorkOff(stated) => work_off(bytes, stated, events, place),
        Turn::ReadBack(word) => read_back(bytes, word, events, place),
        Turn::Untouched => ports::untouched(events, place),
        Turn::Say(answer) => Ok(answer),
    }
}

fn ask(bytes: &mut [u8], n: u8, query: Query) -> Answer
    requires n_bound { n < 3 }
    requires holds_board { HoldsBoard bytes.old }
    ensures { (events : List ℕ) → said (Ok result) bytes.new events ≡ written (query_answered (board_in bytes.old) n query events) bytes.old }
{
    let i = usize::from(n);
    let c = channel_in(bytes, i);
    match query {
        Query::OutputState => Answer::OutputState(c.get_output_state()),
        Query::ChannelCount => Answer::Count(c.get_channel_count()),
        Query::Retriggers => Answer::Retriggers(c.does_channel_retrigger()),
        Query::IsDirty => {
            let got = c.is_dirty();
            put_channel(bytes, i, got.channel);
            Answer::Dirty(DirtyMarks {
                dirty: got.dirty,
                counting: got.counting,
                ticked: got.ticked,
            })
        }
    }
}

// A part's channel is one of the board's.
fn part_in(bytes: &mut [u8], part: Part, events: &mut [u8], place: usize) -> Numbers
    requires on_part { OnPart part }
    requires holds_board { HoldsBoard bytes.old }
    ensures { told result bytes.new events.new ≡ written (parted (board_in bytes.old) part events.old place) bytes.old }
{
    match part {
        Part::Turned(turn) => numbers_of(turn_in(bytes, turn, events, place)),
        Part::Ask(n, query) => numbers_of(Ok(ask(bytes, n, query))),
        Part::TimerAccum => saying(u64::from(remainder_in(bytes).0), 0, 0),
    }
}

fn make(operation: Operation, bytes: &mut [u8], events: &mut [u8], place: usize) -> Numbers
    requires { HoldsBoard bytes.old }
    ensures { told result bytes.new events.new ≡ operated (operate (board_in bytes.old) operation events.old place) bytes.old }
{
    let owed = owed_in(bytes);
    match part_of(operation, owed.0 != 0, model_in(bytes)) {
        Ok(part) => part_in(bytes, part, events, place),
        Err(refusal) => numbers_of(Err(refusal)),
    }
}

// Room is the number of bytes lent for the answer. All bytes of the board are looked at first, whatever part of them the operation is about.
pub fn call(
    asked: Option<Operation>,
    room: usize,
    bytes: &mut [u8],
    events: &mut [u8],
    place: usize,
) -> Result<Numbers, CallError>
    ensures { calling result bytes.new events.new ≡ call asked room place bytes.old events.old }
{
    if bytes.len() < BOARD_SIZE {
        return Err(CallError::Short);
    }
    if !board_readable(bytes) {
        return Err(CallError::Unreadable);
    }
    let Some(operation) = asked else {
        return Err(CallError::Unknown);
    };
    if room < BOARD_ANSWER_SIZE {
        return Err(CallError::NoRoom);
    }
    let numbers = make(operation, bytes, events, place);
    if numbers.refusal != 0 {
        return Err(CallError::Refused(numbers.refusal));
    }
    Ok(numbers)
}

// A case of each sample: whether what is answered today is what the file has. One that the end of the file cuts off does not agree.
use crate::reading::{read_full, read_part};
use pit::{BOARD_ANSWER_SIZE, BOARD_SIZE, CHANNEL_ANSWER_SIZE, CHANNEL_SIZE, TEXT_ROOM};
use std::io;
use std::io::Read;

// Stands in an answer before the operation, to be seen where nothing is written.
const OLD_ANSWER: u8 = 0xA5;

// No status of a call: more event bytes are to be lent than there are.
const NOT_LENT: u32 = 255;

// More bytes than any trace of the sample has.
const TRACE_ROOM: usize = 65536;

// The record before the operation; its code, number and setting; the record after it; the answer.
pub(crate) fn channel_case<R: Read>(file: &mut R) -> io::Result<Option<bool>> {
    let mut record = [0u8; CHANNEL_SIZE];
    let mut operation = [0u8; 3];
    let mut after = [0u8; CHANNEL_SIZE];
    let mut told = [0u8; CHANNEL_ANSWER_SIZE];
    if read_full(file, &mut record)? == 0 {
        return Ok(None);
    }
    read_full(file, &mut operation)?;
    read_full(file, &mut after)?;
    if read_full(file, &mut told)? < CHANNEL_ANSWER_SIZE {
        return Ok(Some(false));
    }
    let [code, number, setting] = operation;
    let mut answer = [OLD_ANSWER; CHANNEL_ANSWER_SIZE];
    let status = pit::pit_channel_operation(&mut record, &mut answer, code, number, setting);
    Ok(Some(status == 0 && record == after && answer == told))
}

// An operation on a board: its place in the event bytes, its code, target and number, and the status that it has.
#[derive(Clone, Copy)]
struct Operation {
    place: usize,
    code: u8,
    target: u16,
    number: u32,
    status: u32,
}

fn read_operation<R: Read>(file: &mut R) -> io::Result<Operation> {
    let mut bytes = [0u8; 16];
    read_full(file, &mut bytes)?;
    let [
        p0,
        p1,
        p2,
        p3,
        p4,
        p5,
        p6,
        p7,
        code,
        t0,
        t1,
        n0,
        n1,
        n2,
        n3,
        status,
    ] = bytes;
    Ok(Operation {
        place: usize::from_le_bytes([p0, p1, p2, p3, p4, p5, p6, p7]),
        code,
        target: u16::from_le_bytes([t0, t1]),
        number: u32::from_le_bytes([n0, n1, n2, n3]),
        status: u32::from(status),
    })
}

// The status of the operation, with the first event bytes lent and the rest kept back.
fn operate(
    board: &mut [u8],
    lent: u8,
    events: &mut [u8],
    operation: Operation,
    answer: &mut [u8],
) -> u32 {
    let room = usize::from(lent);
    if events.len() < room {
        return NOT_LENT;
    }
    pit::pit_board_operation(
        board,
        &mut events[..room],
        answer,
        operation.place,
        operation.code,
        operation.target,
        operation.number,
    )
}

// The board before the operation; how many event bytes are lent, and the eight of which they are the first; the operation; the board, the event bytes and
// the answer after it.
pub(crate) fn board_case<R: Read>(file: &mut R) -> io::Result<Option<bool>> {
    let mut board = [0u8; BOARD_SIZE];
    let mut lent = [0u8; 1];
    let mut events = [0u8; 8];
    let mut after = [0u8; BOARD_SIZE];
    let mut events_after = [0u8; 8];
    let mut told = [0u8; BOARD_ANSWER_SIZE];
    if read_full(file, &mut board)? == 0 {
        return Ok(None);
    }
    read_full(file, &mut lent)?;
    read_full(file, &mut events)?;
    let operation = read_operation(file)?;
    read_full(file, &mut after)?;
    read_full(file, &mut events_after)?;
    if read_full(file, &mut told)? < BOARD_ANSWER_SIZE {
        return Ok(Some(false));
    }
    let mut answer = [OLD_ANSWER; BOARD_ANSWER_SIZE];
    let status = operate(&mut board, lent[0], &mut events, operation, &mut answer);
    Ok(Some(
        status == operation.status && board == after && events == events_after && answer == told,
    ))
}

// Whether a replay of the trace answers 0 and the text's length, and writes the text.
fn replays(trace: &[u8], text: &[u8]) -> bool {
    let mut out = [0u8; TEXT_ROOM];
    let mut answer = [0u8; BOARD_ANSWER_SIZE];
    if pit::pit_replay(trace, &mut out, &mut answer) != 0 {
        return false;
    }
    let length = numbers::number_at(&answer, 0) as usize;
    numbers::number_at(&answer, 4) == 0 && out.get(..length) == Some(text)
}

// Whether the text that comes next in the file is what the trace's replay prints.
fn text_case<R: Read>(file: &mut R, trace: &[u8]) -> io::Result<bool> {
    let mut room = [0u8; TEXT_ROOM];
    let mut length = [0u8; 4];
    if read_full(file, &mut length)? < 4 {
        return Ok(false);
    }
    match read_part(file, u32::from_le_bytes(length) as usize, &mut room)? {
        Some(text) => Ok(replays(trace, text)),
        None => Ok(false),
    }
}

// The trace, and the text that its replay prints: of each its length in four bytes, and its bytes. The room comes first, here and above: a
// function clears its locals at its start, and what stands behind a read is cleared again.
pub(crate) fn trace_case<R: Read>(file: &mut R) -> io::Result<Option<bool>> {
    let mut room = [0u8; TRACE_ROOM];
    let mut length = [0u8; 4];
    match read_full(file, &mut length)? {
        0 => return Ok(None),
        4 => {}
        _ => return Ok(Some(false)),
    }
    match read_part(file, u32::from_le_bytes(length) as usize, &mut room)? {
        Some(trace) => Ok(Some(text_case(file, trace)?)),
        None => Ok(Some(false)),
    }
}

// Reads one trace from standard input and prints it in words: its head line; for each operation its index, its place, what it is and, behind ->, what the replay says
// of it, a refusal in words too; and its end line. Of a refused trace it prints the operations before the fault and the fault's line, and says the fault in words on
// standard error. What is said is proved in the crates words, line and runner; here bytes are only read, lent, put one behind the other and written.
#![tactic(auto)]

use board::Board;
use console::{Failure, Verdict};
use line::LINE_ROOM;
use line::sentence::Sentence;
use runner::Form;
use std::io::Write;
use std::process::ExitCode;
use trace::head::Head;
use trace::operation::{Operation, place_of};

// An index, a place, three lines, and what stands between them.
const ROOM: usize = 4 * LINE_ROOM;

// An answer in bytes begins with the refusal's number, 0 where there is none.
const ANSWER_SIZE: usize = 16;

fn print<W: Write>(output: &mut W, sentence: Sentence) -> Result<(), Failure> {
    console::print(output, line::line_of(sentence).as_bytes())
}

// What the replay says of an operation: its line, without the index, whose digits end at a place, and without the line's end.
fn without_index(line: &[u8], digits: usize) -> &[u8] {
    let last = line.len().saturating_sub(1);
    line.get(digits.saturating_add(1)..last).unwrap_or(b"")
}

// The words of a refusal, where there is one.
fn put_refusal(out: &mut [u8], place: usize, number: u8) -> usize {
    if number == 0 {
        return place;
    }
    let mut at = text::put(out, place, b" (");
    at = text::put(out, at, words::words_of(number).as_bytes());
    text::put(out, at, b")")
}

// The operation of an index, from a board on; next is the index behind it. What is answered is the board after it.
fn explain_one<W: Write>(
    output: &mut W,
    trace: &[u8],
    start: Board,
    index: u32,
    next: u32,
    operation: Operation,
) -> Result<Board, Failure> {
    let model = start.model;
    let mut said = [0u8; LINE_ROOM];
    let told = runner::tell(Form::Lines, trace, start, index, next, &mut said, 0);
    let line = said.get(..told.place).unwrap_or(b"");
    let mut answer = [0u8; ANSWER_SIZE];
    runner::tell(Form::Answers, trace, start, index, next, &mut answer, 0);
    let mut out = [0u8; ROOM];
    let digits = text::put_decimal(&mut out, 0, u64::from(index));
    let mut place = text::put(&mut out, digits, b" @");
    place = text::put_decimal(&mut out, place, place_of(index) as u64);
    place = text::put(&mut out, place, b" ");
    place = text::put(
        &mut out,
        place,
        words::operation_words(model, operation).as_bytes(),
    );
    place = text::put(&mut out, place, b" -> ");
    place = text::put(&mut out, place, without_index(line, digits));
    place = put_refusal(&mut out, place, answer[0]);
    place = text::put(&mut out, place, b"\n");
    console::print_first(output, &out, place)?;
    Ok(told.board)
}

// The operations up to the first that is refused.
fn explain_operations<W: Write>(output: &mut W, trace: &[u8], head: Head) -> Result<(), Failure> {
    let mut board = Board::new(head.model, head.divisor).board;
    for index in 0..head.operations {
        match trace::operation_at(trace, index) {
            Err(_) => return Ok(()),
            Ok(operation) => {
                board = explain_one(output, trace, board, index, index + 1, operation)?;
            }
        }
    }
    Ok(())
}

// The head and the operations, where the head is sound.
fn explain_front<W: Write>(output: &mut W, trace: &[u8]) -> Result<(), Failure> {
    match trace::read_head(trace) {
        Err(_) => Ok(()),
        Ok(head) => {
            print(output, Sentence::Head(head.model, head.divisor))?;
            explain_operations(output, trace, head)
        }
    }
}

// The head and the operations, and then the end or the fault. That the sentence for standard error could not be written is let go.
fn explain<W: Write, E: Write>(
    output: &mut W,
    error: &mut E,
    trace: &[u8],
) -> Result<Verdict, Failure> {
    explain_front(output, trace)?;
    match trace::judge(trace) {
        Ok(head) => {
            print(output, Sentence::End(head.operations))?;
            Ok(Verdict::Sound)
        }
        Err(fault) => {
            print(output, Sentence::Fault(fault))?;
            let _ = console::print_fault(error, trace, fault);
            Ok(Verdict::Refused)
        }
    }
}

fn main(rt: HostRuntime) -> ExitCode {
    let verdict = console::read_trace(rt.alloc(), rt.reader()).and_then(|trace| explain(
        &mut rt.stdout(),
        &mut rt.stderr(),
        trace.as_slice(),
    ));
    console::end(&rt, verdict)
}

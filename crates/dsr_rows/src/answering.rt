//! Answers rows, one line after the other.

use crate::groups::{OPENINGS, Opened, Opening, PLAIN, call_at, call_plain, open};
use dsr_base::split_once;
use dsr_names::{Refusal, Sink, Source, read_input, write_output};
use dsr_row_calls::{Answered, Desk, Failure, Said, Words, find, names};
use std::alloc::Global;
use std::fmt::Write;

/// Reads rows, and writes each of their lines, and after each call its answer. `BadText` names the last line if it has no line feed;
/// the lines before it are answered.
pub(crate) fn answer_rows<I: Source, O: Sink>(
    alloc: Global,
    input: &mut I,
    output: &mut O,
) -> Result<(), Refusal> {
    let text = read_input(alloc, input)?;
    let desk = Desk::open(alloc)?;
    answer_text(&desk, text.as_slice(), output)
}

/// Answers the rows of the text.
fn answer_text<O: Sink>(desk: &Desk, text: &[u8], output: &mut O) -> Result<(), Refusal> {
    let mut opened = Opened::Nothing;
    answer_lines(desk, &mut opened, text, output)
}

/// Answers the lines of the text, in their order.
fn answer_lines<O: Sink>(
    desk: &Desk,
    opened: &mut Opened,
    text: &[u8],
    output: &mut O,
) -> Result<(), Refusal> {
    let mut rest = text;
    for number in 0..text.len() {
        if rest.is_empty() {
            break;
        }
        let Some((line, after)) = split_once(rest, b'\n') else {
            let line = (number as u64).saturating_add(1);
            return Err(Refusal::BadText { line });
        };
        rest = after;
        answer_line(desk, opened, line, output)?;
    }
    Ok(())
}

/// Writes the line, and the answer of its call.
fn answer_line<O: Sink>(
    desk: &Desk,
    opened: &mut Opened,
    line: &[u8],
    output: &mut O,
) -> Result<(), Refusal> {
    write_output(output, line)?;
    write_output(output, b"\n")?;
    let mut words = Words::of(line);
    let kind = words.next();
    if kind == b"row".as_slice() {
        *opened = Opened::Nothing;
    } else if kind == b">".as_slice() {
        let answer = text_of_answer(desk.alloc(), &answer(desk, opened, &words))?;
        write_output(output, answer.as_bytes())?;
    }
    Ok(())
}

/// Returns the line of an answer.
fn text_of_answer(alloc: Global, answered: &Answered) -> Result<String, Refusal> {
    let mut line = String::new(alloc);
    match answered {
        Ok(said) => writeln!(line, "< {said}")?,
        Err(failure) => writeln!(line, "< {failure}")?,
    }
    Ok(line)
}

/// Makes the call and returns its answer. If memory runs out, makes the call a second time.
fn answer(desk: &Desk, opened: &mut Opened, words: &Words) -> Answered {
    let mut first = *words;
    let mut second = *words;
    match call(desk, opened, &mut first) {
        Err(Failure::Refused(Refusal::NoMemory)) => call(desk, opened, &mut second),
        answered => answered,
    }
}

/// Makes the call.
fn call(desk: &Desk, opened: &mut Opened, words: &mut Words) -> Answered {
    let verb = words.next();
    if let Ok(opening) = find(&OPENINGS, verb) {
        return open_value(desk, opened, opening, words);
    }
    if let Ok(call) = find(&names::CALLS, verb) {
        return names::answer(desk.alloc(), call, words);
    }
    if let Ok(call) = find(&PLAIN, verb) {
        return call_plain(desk, call, words);
    }
    call_at(desk, opened, verb, words)
}

/// Opens a value in place of the one before. If that fails, no value is open.
fn open_value(desk: &Desk, opened: &mut Opened, opening: Opening, words: &mut Words) -> Answered {
    match open(desk.alloc(), opening, words) {
        Ok(value) => {
            *opened = value;
            Ok(Said::Done)
        }
        Err(failure) => {
            *opened = Opened::Nothing;
            Err(failure)
        }
    }
}

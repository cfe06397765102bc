//! Rows, the calls that they make, and how answers are laid out.

use crate::answer::{Answer, End};
use crate::{buffers, built, captures, frames};
use std::alloc::{AllocError, Global};

/// A line of more columns is broken.
const COLUMNS: usize = 120;

/// Writes what the row's call answers. **The row ends before its answer**: what the table wants
/// isn't seen here, nor in any function that is called from here, so no answer can be taken from
/// it. The other bytes, of which the second way is asked where two have to agree, are those after a
/// slash, or the same.
fn write_row(row: &str, out: &mut Answer) {
    let (call, words) = row.split_once(" ").unwrap_or((row, ""));
    match call {
        "build" => built::write_built(words, out),
        "buffer" => buffers::write_filled(words, out),
        "line" => captures::write_line(words, out),
        "stamp" => captures::write_stamp(words, out),
        _ => {
            let (words, others) = words.split_once(" / ").unwrap_or((words, words));
            let (bytes, other) = (out.bytes_of(words), out.bytes_of(others));
            frames::write_answer(call, &bytes, &other, out)
        }
    }
}

/// Writes a fact in a line of its own, and in further lines where it is long.
fn write_fact(fact: &str, out: &mut Answer) {
    out.say("\n ");
    let mut column = 1usize;
    for word in fact.split(" ") {
        column = column.saturating_add(word.len()).saturating_add(1);
        if column > COLUMNS {
            out.say("\n   ");
            column = word.len().saturating_add(4);
        }
        write!(out, " {word}");
    }
}

/// Writes a row and its answer: after it, where the answer is one fact and the line is short; else
/// below it, each fact by itself.
fn write_laid_out(row: &str, answer: &str, out: &mut Answer) {
    let columns = row.len().saturating_add(answer.len()).saturating_add(3);
    if columns <= COLUMNS && !answer.contains("; ") {
        return write!(out, "{row} = {answer}\n");
    }
    write!(out, "{row}");
    for fact in answer.split("; ") {
        if !fact.is_empty() {
            write_fact(fact, out);
        }
    }
    out.say("\n")
}

/// Writes what the table has in place of a line: a comment and a blank line as they are, a row with
/// its answer, and nothing of an answer. If memory ran out for an answer, it says that after what
/// was written before. A library's error that says so is an answer, `OutOfMemory`, and not this.
fn write_line(line: &str, out: &mut Answer) {
    if line.starts_with(' ') {
        return;
    }
    if line.is_empty() || line.starts_with('#') {
        return write!(out, "{line}\n");
    }
    let (row, _) = line.split_once(" = ").unwrap_or((line, ""));
    let mut answer = out.another();
    write_row(row, &mut answer);
    out.or_out_of_memory(answer.text.push_str(answer.end.words()));
    write_laid_out(row, &answer.text, out)
}

/// Returns the table with the answer of each row.
pub fn answered(alloc: Global, table: &str) -> Result<String, AllocError> {
    let mut out = Answer::new(alloc);
    for line in table.lines() {
        write_line(line, &mut out);
    }
    if out.end == End::No {
        Ok(out.text)
    } else {
        Err(AllocError)
    }
}

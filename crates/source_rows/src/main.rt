//! Looks whether the program answers each row of a table as it should. Standard input has the rows: a line
//! `=== WORDS: NAME`, the input, and after `==> ` at the head of a line the status and the output that are wanted.
//! Rows that are answered in another way are written with their answers, and then how many rows there are.
//!
//! The table has plays with crashes in all phases of a recovery, points durable by an eviction alone, and words that two mutexes
//! share; drawn programs and scripts; texts that each rule refuses, places worked out by hand; indexes at both sides of their bound;
//! schedules; values of 189 expressions as a C compiler has them, each with its kind, and of 21 that C leaves open; nodes and
//! boundaries of short sources; fences, of lives and recoveries too; objects, listings and images, all bytes; images with faults,
//! one before another; an accepted input at every limit; and a dozen longer programs with the variables and ended sections that a C compiler's build of the same text
//! leaves (locks that do nothing, thread after thread; signed sums wrap, `char` is unsigned). Of the commands that run harts on threads
//! it has only what is the same in whatever order they come.
//!
//! Of arrays of mutexes and of references it has, before the last rows of `list`, texts that each rule refuses and texts that just don't break it, runs with
//! values and steps as another program finds them, losses of power inside and between their sections, and images with right and with wrong references.
//!
//! Of `list` it has 2,276 rows at its end: an object of one thread and two words; all its beginnings; it with one byte more, and with
//! one field replaced; an object of two threads; an object of one word for each word that GNU as and objdump 2.40 were asked for at
//! address 00010000, and then for near misses of every such word and for words of other extensions; and another object of two
//! threads with one field replaced. Those tools' texts are what is wanted of the words that are instructions, in the spelling of the
//! listing: targets of eight digits, and immediates in signed decimal. Of the words 1,262 are instructions, and 951 are none.
//!
//! A row `=== WORDS, k from 3 to 58: NAME` stands for one row for each of these numbers, which stands wherever input and
//! answer have `` `k` ``. In a row `=== WORDS|WORDS: NAME` the second command's input is what the first one has written,
//! where the first one's status is 0.
//!
//! In inputs and answers `` `N:TEXT` `` stands for N times the text, in which `#` is the number of the round, from 0,
//! and `@` the next number; `` `xN:05 ff` `` for N times the bytes with these hexadecimal digits. An answer that ends
//! with `` `.` `` has no line feed at its end.
#![tactic(auto)]

use ido_base::memory::OutOfMemory;
use ido_cli::ido;
use ido_outside::{OpenGate, Reading, SureSink, SureSource, Writing, read_all, write_all};
use std::alloc::Global;
use std::process::ExitCode;
use std::sync::Wait;
use std::thread::Threads;

/// Bytes of the whole table.
const MOST_BYTES: u64 = 1_000_000;

/// Bytes of an answer.
const MOST_OUTPUT: u64 = 100_000;

/// What stands at the head of a row.
const ROW: &[u8] = b"=== ";

/// What stands before an answer.
const ANSWER: &[u8] = b"==> ";

/// What stands at the end of an answer that no line feed ends.
const OPEN_END: &[u8] = b"`.`";

/// What stands before the numbers for which a row stands.
const NUMBERS: &[u8] = b" k from ";

/// What stands between backquotes in place of the number for which a row is asked.
const NUMBER: &[u8] = b"k";

/// A row of the table, which stands for one row for each number from the first to the last.
#[derive(Clone, Copy)]
struct Row<'a> {
    words: &'a [u8],
    first: u32,
    last: u32,
    name: &'a [u8],
    input: &'a [u8],
    answer: &'a [u8],
}

/// What stands up to the first such byte, and after it.
fn split(text: &[u8], mark: u8) -> (&[u8], &[u8]) {
    for (i, byte) in text.iter().enumerate() {
        if *byte == mark {
            return (&text[..i], &text[i + 1..]);
        }
    }
    (text, &[])
}

/// What stands up to the line feed before the first line with this head, and that line with all after it.
fn before_line<'a>(text: &'a [u8], head: &[u8]) -> (&'a [u8], &'a [u8]) {
    for (i, byte) in text.iter().enumerate() {
        if *byte == b'\n' && text[i + 1..].starts_with(head) {
            return (&text[..i], &text[i + 1..]);
        }
    }
    (text, &[])
}

/// The number that digits spell, and 0 where they spell none.
fn number(digits: &[u8]) -> u32 {
    let number = str::from_utf8(digits)
        .ok()
        .and_then(|digits| digits.parse::<u32>().ok());
    number.unwrap_or(0)
}

/// The first and the last of the numbers for which a row stands, and 0 twice where it has none.
fn ends(numbers: &[u8]) -> (u32, u32) {
    let (first, last) = split(numbers.strip_prefix(NUMBERS).unwrap_or(b""), b' ');
    let last = last.strip_prefix(b"to ").unwrap_or(b"");
    (number(first), number(last))
}

/// The first row, and what follows it.
fn first_row(table: &[u8]) -> Option<(Row<'_>, &[u8])> {
    let (row, next) = before_line(table, ROW);
    let (title, body) = split(row.strip_prefix(ROW)?, b'\n');
    let (words, name) = split(title, b':');
    let (words, numbers) = split(words, b',');
    let (first, last) = ends(numbers);
    let name = name.strip_prefix(b" ").unwrap_or(name);
    let (input, answer) = before_line(body, ANSWER);
    let answer = answer.strip_prefix(ANSWER)?;
    let answer = answer.strip_suffix(b"\n").unwrap_or(answer);
    let row = Row {
        words,
        first,
        last,
        name,
        input,
        answer,
    };
    Some((row, next))
}

/// The value of a hexadecimal digit.
fn digit(byte: u8) -> Option<u8> {
    match byte {
        b'0'..=b'9' => Some(byte - b'0'),
        b'a'..=b'f' => Some(byte - b'a' + 10),
        _ => None,
    }
}

/// Adds the bytes that pairs of hexadecimal digits spell. What isn't one is passed over.
fn put_bytes(digits: &[u8], text: &mut Vec<u8>) -> Result<(), OutOfMemory> {
    let mut first = None;
    for byte in digits {
        let Some(low) = digit(*byte) else {
            continue;
        };
        match first {
            None => first = Some(low << 4),
            Some(high) => {
                text.push(high | low)?;
                first = None;
            }
        }
    }
    Ok(())
}

/// Adds the rounds of `xN:05 ff`, but for the `x`.
fn put_byte_rounds(repeated: &[u8], text: &mut Vec<u8>) -> Result<(), OutOfMemory> {
    let (count, digits) = split(repeated, b':');
    for _ in 0..number(count) {
        put_bytes(digits, text)?;
    }
    Ok(())
}

/// Adds a number in decimal digits.
fn put_number(alloc: Global, number: u64, text: &mut Vec<u8>) -> Result<(), OutOfMemory> {
    text.extend_from_slice(format!(in alloc; "{number}")?.as_bytes())?;
    Ok(())
}

/// Adds the rounds of `N:TEXT`.
fn put_rounds(alloc: Global, repeated: &[u8], text: &mut Vec<u8>) -> Result<(), OutOfMemory> {
    let (count, part) = split(repeated, b':');
    for round in 0..number(count) {
        for byte in part {
            match *byte {
                b'#' => put_number(alloc, u64::from(round), text)?,
                b'@' => put_number(alloc, u64::from(round) + 1, text)?,
                other => text.push(other)?,
            }
        }
    }
    Ok(())
}

/// Adds what stands for a text between backquotes.
fn put_marked(alloc: Global, marked: &[u8], k: u32, text: &mut Vec<u8>) -> Result<(), OutOfMemory> {
    if marked == NUMBER {
        return put_number(alloc, u64::from(k), text);
    }
    match marked.strip_prefix(b"x") {
        Some(bytes) => put_byte_rounds(bytes, text),
        None => put_rounds(alloc, marked, text),
    }
}

/// A text with all its rounds, of the row for a number.
fn written_out(alloc: Global, short: &[u8], k: u32) -> Result<Vec<u8>, OutOfMemory> {
    let mut text = Vec::new(alloc);
    let mut rest = short;
    // There are no more marks than bytes.
    for _ in short {
        if rest.is_empty() {
            break;
        }
        let (plain, marked) = split(rest, b'`');
        let (repeated, next) = split(marked, b'`');
        text.extend_from_slice(plain)?;
        put_marked(alloc, repeated, k, &mut text)?;
        rest = next;
    }
    Ok(text)
}

/// The words of the command line.
fn words_of(alloc: Global, words: &[u8]) -> Result<Vec<String>, OutOfMemory> {
    let mut all = Vec::new(alloc);
    all.push(String::from_str(alloc, "ido")?)?;
    for word in str::from_utf8(words).unwrap_or("").split(' ') {
        all.push(String::from_str(alloc, word)?)?;
    }
    Ok(all)
}

/// The status of a command, and its output.
fn call<R: Threads + Wait + Sync>(
    rt: &R,
    alloc: Global,
    words: &[u8],
    input: Vec<u8>,
) -> Result<(u8, Vec<u8>), OutOfMemory> {
    let words = words_of(alloc, words)?;
    let mut source = SureSource::new(input, 65_536);
    let mut sink = SureSink::new(alloc, MOST_OUTPUT, 4096)?;
    let status = ido(rt, alloc, &words, &mut source, &mut sink, &OpenGate);
    let output = sink.written().unwrap_or(b"too long").to_vec(alloc)?;
    Ok((status, output))
}

/// The status and the output of a row's commands, for a number.
fn outcome<R: Threads + Wait + Sync>(
    rt: &R,
    alloc: Global,
    row: &Row<'_>,
    k: u32,
) -> Result<(u8, Vec<u8>), OutOfMemory> {
    let (words, then) = split(row.words, b'|');
    let input = written_out(alloc, row.input, k)?;
    let (status, output) = call(rt, alloc, words, input)?;
    if status != 0 || then.is_empty() {
        return Ok((status, output));
    }
    call(rt, alloc, then, output)
}

/// The answer that a row gets for a number, as it is written.
fn answer_to<R: Threads + Wait + Sync>(
    rt: &R,
    alloc: Global,
    row: &Row<'_>,
    k: u32,
) -> Result<Vec<u8>, OutOfMemory> {
    let (status, output) = outcome(rt, alloc, row, k)?;
    let mut answer = Vec::new(alloc);
    put_number(alloc, u64::from(status), &mut answer)?;
    answer.push(b' ')?;
    answer.extend_from_slice(&output)?;
    Ok(answer)
}

/// The answer that a row is to get for a number.
fn wanted_of(alloc: Global, row: &Row<'_>, k: u32) -> Result<Vec<u8>, OutOfMemory> {
    let mut wanted = written_out(alloc, row.answer, k)?;
    if !row.answer.ends_with(OPEN_END) {
        wanted.push(b'\n')?;
    }
    Ok(wanted)
}

/// Adds a row's name, the number and the answer that it gets.
fn put_answer(
    alloc: Global,
    row: &Row<'_>,
    k: u32,
    answer: &[u8],
    said: &mut Vec<u8>,
) -> Result<(), OutOfMemory> {
    said.extend_from_slice(row.name)?;
    if row.first < row.last {
        said.extend_from_slice(b", ")?;
        put_number(alloc, u64::from(k), said)?;
    }
    said.extend_from_slice(b": ")?;
    said.extend_from_slice(answer)?;
    Ok(())
}

/// Adds what is said of a row for a number.
fn put_finding<R: Threads + Wait + Sync>(
    rt: &R,
    alloc: Global,
    row: &Row<'_>,
    k: u32,
    said: &mut Vec<u8>,
) -> Result<(), OutOfMemory> {
    let wanted = wanted_of(alloc, row, k)?;
    let answer = answer_to(rt, alloc, row, k)?;
    if answer != wanted {
        put_answer(alloc, row, k, &answer, said)?;
    }
    Ok(())
}

/// Adds what is said of a row, and tells for how many numbers it stands.
fn put_findings<R: Threads + Wait + Sync>(
    rt: &R,
    alloc: Global,
    row: &Row<'_>,
    said: &mut Vec<u8>,
) -> Result<u64, OutOfMemory> {
    let mut rows = 0u64;
    for k in row.first..row.last.saturating_add(1) {
        put_finding(rt, alloc, row, k, said)?;
        rows = rows.saturating_add(1);
    }
    Ok(rows)
}

/// What is said of the rows of a table.
fn findings<R: Threads + Wait + Sync>(
    rt: &R,
    alloc: Global,
    table: &[u8],
) -> Result<Vec<u8>, OutOfMemory> {
    let mut said = Vec::new(alloc);
    let mut rest = table;
    let mut rows = 0u64;
    // There are no more rows than bytes.
    for _ in table {
        let Some((row, next)) = first_row(rest) else {
            break;
        };
        rows = rows.saturating_add(put_findings(rt, alloc, &row, &mut said)?);
        rest = next;
    }
    put_number(alloc, rows, &mut said)?;
    said.extend_from_slice(b" rows\n")?;
    Ok(said)
}

fn main(rt: HostRuntime) -> ExitCode {
    let alloc = rt.alloc();
    let mut input = Reading::new(rt.stdin());
    let mut output = Writing::new(rt.stdout());
    let Ok(table) = read_all(alloc, &mut input, MOST_BYTES) else {
        return ExitCode::from(1);
    };
    let Ok(said) = findings(&rt, alloc, &table) else {
        return ExitCode::from(2);
    };
    match write_all(&mut output, &said) {
        Ok(()) => ExitCode::SUCCESS,
        Err(_) => ExitCode::from(3),
    }
}

// A run of the program over files in memory, what it left, and how that is compared.

use doom_run::{Status, run};
use outside::{MemorySink, PutFault, Shelf};
use std::alloc::{AllocError, Global};
use std::process::Abort;
use std::test::Fail;

// More bytes than any output of a test has, and than any line.
const OUT_ROOM: usize = 6_000_000;

const LINE_ROOM: usize = 100;

/// Pixels of a row, and bytes of a pixel's record in a trace.
pub(crate) const WIDTH: usize = 320;

pub(crate) const RECORD_BYTES: usize = 8;

// How the lines of the statuses 1 to 7 begin, behind the name of the program.
const LINES: [&str; 7] = [
    "usage",
    "refused ",
    "read fault",
    "write fault",
    "limit view ",
    "zone full wanted ",
    "out of memory",
];

/// How a run ended, with what it wrote and the line that it noted.
#[derive(Drop)]
pub(crate) struct Ended {
    pub(crate) status: Status,
    pub(crate) out: MemorySink,
    pub(crate) notes: MemorySink,
}

/// Words, how many bytes they write, and some of these, each from an offset on.
pub(crate) type Written = (&'static str, usize, &'static [(usize, &'static [u8])]);

/// Runs the words over a shelf. These puts of the output fail.
pub(crate) fn run_words<S: Shelf>(
    alloc: Global,
    words: &str,
    shelf: &mut S,
    put_faults: Vec<PutFault>,
) -> Result<Ended, AllocError> {
    let mut out = MemorySink::new(alloc, OUT_ROOM, put_faults)?;
    let mut notes = MemorySink::new(alloc, LINE_ROOM, Vec::new(alloc))?;
    let words = words_of(alloc, words)?;
    let status = run(alloc, &words, shelf, &mut out, &mut notes);
    Ok(Ended { status, out, notes })
}

fn words_of(alloc: Global, text: &str) -> Result<Vec<String>, AllocError> {
    let mut words = Vec::new(alloc);
    for word in text.split_whitespace() {
        words.push(word.to_string(alloc)?)?;
    }
    Ok(words)
}

/// The words of a row, and what follows behind its arrow.
pub(crate) fn parts_of<'a>(row: &'a str) -> Result<(&'a str, &'a str), Fail> {
    Ok(row.split_once(" => ").ok_or("an arrow")?)
}

/// Asserts what a run told, up to the end of the line: its line, behind the name of the program, with
/// the status that goes with it and nothing written; or, where it is none, the text that it wrote.
pub(crate) fn compare_text(rt: &impl Abort, ended: &Ended, words: &str, told: &str) {
    let out = ended.out.bytes();
    let notes = ended.notes.bytes();
    let code = code_of(told);
    let (text, other) = match code {
        0 => (Some(out), notes),
        _ => (notes.strip_prefix(b"doomview: "), out),
    };
    let line = text.and_then(|text| text.strip_suffix(b"\n"));
    let is_told = line == Some(told.as_bytes());
    let found = (ended.status.code() as usize, is_told, other.len());
    assert_eq!(rt; found, (code, true, 0), "{words} => {told}");
}

fn code_of(told: &str) -> usize {
    let start = LINES.iter().position(|start| told.starts_with(*start));
    start.map_or(0, |index| index.wrapping_add(1))
}

/// Asserts that a run is done, and what it wrote.
pub(crate) fn compare_bytes(rt: &impl Abort, ended: &Ended, row: &Written) {
    let (words, length, seen) = row;
    let out = ended.out.bytes();
    let are_seen = seen.iter().all(|(offset, bytes)| {
        out.get(*offset..)
            .is_some_and(|rest| rest.starts_with(bytes))
    });
    let found = (ended.status, out.len(), are_seen);
    assert_eq!(rt; found, (Status::Done, *length, true), "{words}");
}

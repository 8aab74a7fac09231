// The frames of the made files of 1 over shelves and outputs that fail.

use crate::tests::files::{MADE, level_words, shelf_of, written};
use crate::tests::runs::{Ended, compare_text, run_words};
use doom_run::Status;
use outside::PutFault;
use std::alloc::Global;
use std::process::Abort;
use std::test::Fail;

// A run in a roomy zone finds four files and reads more than twenty lumps.
const LEAST_CALLS: u64 = 24;

const RENDER: &str = "render MAP01 made.wad";

const IN_ENOUGH: &str = "render MAP01 made.wad --zone 30064";

const IN_ROOMY: &str = "render MAP01 made.wad --zone 46904";

const PPMS: &str = "render MAP01 made.wad --format ppm";

const COUNTS: &str = "limits MAP01 made.wad";

// What fails in a run: a call of the shelf, or a put, which then passes so many bytes.
#[derive(Clone, Copy)]
enum Failing {
    Call,
    Put(usize),
}

impl Failing {
    // How a run ends in which it fails.
    fn status(self) -> Status {
        match self {
            Failing::Call => Status::ReadFault,
            Failing::Put(_) => Status::WriteFault,
        }
    }
}

// A run where the call or the put of that number fails.
fn run_failing(alloc: Global, words: &str, failing: Failing, number: u64) -> Result<Ended, Fail> {
    let mut calls = Vec::new(alloc);
    let mut puts = Vec::new(alloc);
    match failing {
        Failing::Call => calls.push(number)?,
        Failing::Put(passed) => puts.push(PutFault {
            call: number,
            passed,
        })?,
    }
    let mut shelf = shelf_of(alloc, &MADE, calls)?;
    let words = level_words(alloc, words)?;
    Ok(run_words(alloc, &words, &mut shelf, puts)?)
}

#[test]
fn a_call_that_fails_has_its_line(rt: HostRuntime) -> Result<(), Fail> {
    let ended = run_failing(rt.alloc(), RENDER, Failing::Call, 3)?;
    compare_text(&rt, &ended, RENDER, "read fault");
    Ok(())
}

#[test]
fn a_put_that_fails_leaves_what_it_passed(rt: HostRuntime) -> Result<(), Fail> {
    let frames = written(rt.alloc(), &MADE, RENDER)?;
    let ended = run_failing(rt.alloc(), RENDER, Failing::Put(100), 2)?;
    assert_eq!(rt; Some(ended.out.bytes()), frames.get(..64_100));
    assert_eq!(rt; ended.notes.bytes(), b"doomview: write fault\n".as_slice());
    Ok(())
}

// Lets the first call or put fail, then the second, and so on up to a number. Each run in which one
// fails is ended by it, and has written a part of the whole. The first that is not made any more.
fn first_not_made(
    rt: &(impl Abort + AllocGlobal),
    words: &str,
    failing: Failing,
    most: u64,
    whole: &[u8],
) -> Result<Option<u64>, Fail> {
    for number in 1..=most {
        let ended = run_failing(rt.alloc(), words, failing, number)?;
        if ended.status == Status::Done {
            assert_eq!(rt; ended.out.bytes(), whole);
            return Ok(Some(number));
        }
        let is_part = whole.starts_with(ended.out.bytes());
        let found = (ended.status, is_part);
        assert_eq!(rt; found, (failing.status(), true), "{number}");
    }
    Ok(None)
}

// In the smaller zone lumps are read again, so there the run makes more calls.
#[test]
fn a_call_that_fails_leaves_a_part_of_the_frames(rt: HostRuntime) -> Result<(), Fail> {
    let whole = written(rt.alloc(), &MADE, RENDER)?;
    let last = first_not_made(&rt, IN_ROOMY, Failing::Call, 200, &whole)?;
    assert!(rt; last.ok_or("a run that is done")? > LEAST_CALLS);
    first_not_made(&rt, IN_ENOUGH, Failing::Call, 64, &whole)?;
    Ok(())
}

// Each of three frames goes out in one put, as a PPM in six, and the line of its counts in one.
#[test]
fn a_put_that_fails_leaves_a_part_of_the_output(rt: HostRuntime) -> Result<(), Fail> {
    for (words, puts) in [(RENDER, 3), (PPMS, 18), (COUNTS, 3)] {
        let whole = written(rt.alloc(), &MADE, words)?;
        for passed in [0, 1000] {
            let last = first_not_made(&rt, words, Failing::Put(passed), 200, &whole)?;
            assert_eq!(rt; last, Some(puts + 1), "{passed}");
        }
    }
    Ok(())
}

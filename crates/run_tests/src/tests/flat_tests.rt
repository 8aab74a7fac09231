// Runs that need no level: a flat that is tiled, the made files, and words that are no command.

use crate::tests::runs::{Written, compare_bytes, compare_text, parts_of, run_words};
use doom_run::Status;
use outside::MemoryShelf;
use std::alloc::{AllocError, Global};
use std::process::Abort;
use std::test::Fail;
use test_files::{file_of, wad_of};

// The size of the whole WAD.
const WHOLE: usize = 854;

// The calls for a flat: its file is found and measured, and its header, its directory, a palette and
// the flat are read.
const CALLS: u64 = 6;

// The first two pixels, and those of the columns 10 and 64.
const FLAT: &[(usize, &[u8])] = &[
    (0, b"P6\n320 200\n255\n\x01\xfe\x07\x02\xfd\x0e"),
    (15 + 3 * 10, b"\x00\xff\x00"),
    (15 + 3 * 64, b"\x01\xfe\x07"),
];

static WRITTEN: [Written; 5] = [
    ("flat TILE tiny.wad", 192_015, FLAT),
    ("make wad 1", 82_706, &[(0, b"IWAD")]),
    ("make wad 0000000001", 82_706, &[(0, b"IWAD")]),
    ("make wad 10", 200_066, &[(0, b"IWAD")]),
    ("make tables", 65_540, &[(0, b"\x19\0\0\0")]),
];

// Made texts; no word of a command, jobs without their files, a number past its range and one of
// eleven digits, options past their ranges.
static TOLD: [&str; 11] = [
    "make path 1 => x,y,z,angle\n2621440,2621440,4718592,0\n5046272,6094848,4718592,286331153\n7471104,9568256,4718592,572662306",
    "make things => type,sprite,frame,bright,hang,shadow\n2035,TREE,A,0,0,0",
    "exercise 10 => sectors 400 views 30 frames 30 bytes 1920000 sum 110342962",
    "paint MAP01 a.wad => usage",
    "render MAP01 => usage",
    "flat TILE => usage",
    "make wad 33 => usage",
    "make wad 00000000001 => usage",
    "render MAP01 tiny.wad --tables t --things h --path p --zone 4098 => usage",
    "render MAP01 tiny.wad --tables t --things h --path p --size 2 => usage",
    "render MAP01 tiny.wad --tables t --things h --path p --planes 127 => usage",
];

// What a run tells over so many bytes of the WAD, with that first letter.
static REFUSED: [(usize, u8, &str); 4] = [
    (853, b'I', "flat TILE tiny.wad => refused 402 0"),
    (WHOLE, b'X', "flat TILE tiny.wad => refused 401 0"),
    (WHOLE, b'I', "flat NONE tiny.wad => refused 906"),
    (WHOLE, b'I', "flat TILE absent.wad => read fault"),
];

// PLAYPAL, whose colour i is i, 255 - i, 7i, and the flat TILE of the bytes 1 to 10.
fn tiny_wad(alloc: Global) -> Result<Vec<u8>, AllocError> {
    let mut palette = Vec::new(alloc);
    for i in 0..=255u8 {
        palette.extend_from_slice(&[i, 255 - i, i.wrapping_mul(7)])?;
    }
    let lumps = [
        ("PLAYPAL", palette.as_slice()),
        ("F_START", b"".as_slice()),
        ("TILE", [1, 2, 3, 4, 5, 6, 7, 8, 9, 10].as_slice()),
        ("F_END", b"".as_slice()),
    ];
    wad_of(alloc, &lumps)
}

// A shelf of so many bytes of the WAD, with that first letter.
fn shelf_of(alloc: Global, length: usize, letter: u8) -> Result<MemoryShelf, AllocError> {
    let mut wad = tiny_wad(alloc)?;
    wad.truncate(length);
    if let Some(first) = wad.first_mut() {
        *first = letter;
    }
    shelf_with(alloc, wad, Vec::new(alloc))
}

// A shelf of that WAD, whose calls of these numbers fail.
fn shelf_with(alloc: Global, wad: Vec<u8>, failing: Vec<u64>) -> Result<MemoryShelf, AllocError> {
    let mut files = Vec::with_capacity(alloc, 1)?;
    files.push(file_of(alloc, "tiny.wad", wad)?)?;
    Ok(MemoryShelf::new(files, failing))
}

// A shelf of the whole WAD, whose call of that number fails.
fn failing_shelf(alloc: Global, number: u64) -> Result<MemoryShelf, AllocError> {
    let mut failing = Vec::new(alloc);
    failing.push(number)?;
    shelf_with(alloc, tiny_wad(alloc)?, failing)
}

fn check_row(
    rt: &(impl Abort + AllocGlobal),
    shelf: &mut MemoryShelf,
    row: &str,
) -> Result<(), Fail> {
    let (words, told) = parts_of(row)?;
    let ended = run_words(rt.alloc(), words, shelf, Vec::new(rt.alloc()))?;
    compare_text(rt, &ended, words, told);
    Ok(())
}

#[test]
fn a_flat_and_the_made_files_are_written(rt: HostRuntime) -> Result<(), Fail> {
    let mut shelf = shelf_of(rt.alloc(), WHOLE, b'I')?;
    for row in &WRITTEN {
        let ended = run_words(rt.alloc(), row.0, &mut shelf, Vec::new(rt.alloc()))?;
        compare_bytes(&rt, &ended, row);
    }
    Ok(())
}

// A call that is tried again is one more, and one that is not heeded leaves another end.
#[test]
fn each_call_for_a_flat_that_fails_ends_the_run(rt: HostRuntime) -> Result<(), Fail> {
    for number in 1..=CALLS {
        let mut shelf = failing_shelf(rt.alloc(), number)?;
        check_row(&rt, &mut shelf, "flat TILE tiny.wad => read fault")?;
    }
    let mut shelf = failing_shelf(rt.alloc(), CALLS + 1)?;
    let ended = run_words(rt.alloc(), WRITTEN[0].0, &mut shelf, Vec::new(rt.alloc()))?;
    assert_eq!(rt; ended.status, Status::Done);
    Ok(())
}

#[test]
fn made_texts_are_written_and_wrong_words_have_their_line(rt: HostRuntime) -> Result<(), Fail> {
    let mut shelf = shelf_of(rt.alloc(), WHOLE, b'I')?;
    for row in TOLD {
        check_row(&rt, &mut shelf, row)?;
    }
    Ok(())
}

#[test]
fn a_wad_that_is_cut_and_an_absent_flat_have_their_lines(rt: HostRuntime) -> Result<(), Fail> {
    for (length, letter, row) in REFUSED {
        let mut shelf = shelf_of(rt.alloc(), length, letter)?;
        check_row(&rt, &mut shelf, row)?;
    }
    Ok(())
}

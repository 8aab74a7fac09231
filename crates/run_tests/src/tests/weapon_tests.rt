// Weapons over the first view: which pixels they cover, and what a trace tells of them.

use crate::tests::files::{MADE, check_written, written};
use crate::tests::runs::{RECORD_BYTES, WIDTH, Written};
use std::alloc::Global;
use std::test::Fail;

// Where a trace has a pixel's colour.
const COLOUR: usize = 6;

// The painter of a weapon.
const WEAPON: u8 = 6;

// The rows of a tree whose foot is on row 100.
const FIRST_ROW: usize = 36;

const LAST_ROW: usize = 99;

const TRACE: &str = "trace MAP01 made.wad";

const ARMED_TRACE: &str = "trace MAP01 made.wad --weapon middle";

const ARMED: &str = "render MAP01 made.wad --weapon middle";

const LEFT: &str = "render MAP01 made.wad --weapon left";

// The first and the last pixel that the tree covers.
const FIRST: usize = WIDTH * FIRST_ROW + 144;

const LAST: usize = WIDTH * LAST_ROW + 175;

static COLOURS: [Written; 3] = [
    (ARMED, 192_000, &[(FIRST, &[120]), (LAST, &[16])]),
    (LEFT, 192_000, &[(WIDTH * FIRST_ROW, &[168])]),
    (
        ARMED_TRACE,
        1_536_000,
        &[(RECORD_BYTES * FIRST, b"\x06\x01\x01\0\x0f\0\x78\0")],
    ),
];

#[test]
fn a_weapon_has_its_colours(rt: HostRuntime) -> Result<(), Fail> {
    check_written(&rt, &MADE, &COLOURS)
}

// Whether a pixel, by its number, lies in these columns of the first view's rows.
fn is_covered(pixel: usize, first: usize, last: usize) -> bool {
    let row = pixel / WIDTH;
    let column = pixel % WIDTH;
    FIRST_ROW <= row && row <= LAST_ROW && first <= column && column <= last
}

// Whether the weapon painted these columns alone, and all else is as it is without it.
fn covers(alloc: Global, words: &str, first: usize, last: usize) -> Result<bool, Fail> {
    let bare = written(alloc, &MADE, TRACE)?;
    let armed = written(alloc, &MADE, words)?;
    let are_alike = armed
        .chunks_exact(RECORD_BYTES)
        .zip(bare.chunks_exact(RECORD_BYTES))
        .enumerate()
        .all(|(pixel, (new, old))| {
            if is_covered(pixel, first, last) {
                new.first() == Some(&WEAPON)
            } else {
                new == old
            }
        });
    Ok(are_alike)
}

#[test]
fn a_weapon_covers_its_columns_of_one_view_alone(rt: HostRuntime) -> Result<(), Fail> {
    let middle = covers(rt.alloc(), ARMED_TRACE, 144, 175)?;
    let left = covers(rt.alloc(), "trace MAP01 made.wad --weapon left", 0, 15)?;
    assert_eq!(rt; (middle, left), (true, true));
    Ok(())
}

// Whether the colours of a trace are those of the frames, and how many there are of each.
fn is_traced(alloc: Global, trace: &str, render: &str) -> Result<(bool, usize, usize), Fail> {
    let trace = written(alloc, &MADE, trace)?;
    let frames = written(alloc, &MADE, render)?;
    let are_same = trace
        .chunks_exact(RECORD_BYTES)
        .zip(&frames)
        .all(|(record, colour)| record.get(COLOUR) == Some(colour));
    Ok((are_same, trace.len() / RECORD_BYTES, frames.len()))
}

#[test]
fn a_trace_has_the_colours_of_the_frames(rt: HostRuntime) -> Result<(), Fail> {
    let bare = is_traced(rt.alloc(), TRACE, "render MAP01 made.wad")?;
    let armed = is_traced(rt.alloc(), ARMED_TRACE, ARMED)?;
    let whole = (true, 192_000, 192_000);
    assert_eq!(rt; (bare, armed), (whole, whole));
    Ok(())
}

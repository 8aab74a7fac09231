// Small levels: a room of one leaf, seen from its middle to the east, row by row; and views of as
// many planes as there is room for, and of one more.

use crate::tests::files::{beside, check_told, check_written, written};
use crate::tests::runs::{RECORD_BYTES, WIDTH, Written};
use std::alloc::{AllocError, Global};
use std::test::Fail;
use test_files::{chain_wad, hall_wad, room_wad};

// What in a record tells by what its pixel was painted.
const PAINTER_BYTES: usize = 6;

// Runs over the room.
const RENDER: &str = "render MAP02 made.wad more.wad --path east";

const SMALL: &str = "render MAP02 made.wad more.wad --path east --size 10";

const LIT: &str = "render MAP02 made.wad more.wad --path lit";

const MAPPED: &str = "render MAP02 made.wad more.wad --path mapped";

const TRACE: &str = "trace MAP02 made.wad more.wad --path east";

const SMALL_TRACE: &str = "trace MAP02 made.wad more.wad --path east --size 10";

// The first and the last pixel of the wall in the column before the eye, also in a smaller view.
const TOP: usize = WIDTH * 46 + 160;

const FOOT: usize = WIDTH * 125 + 160;

const SMALL_TOP: usize = WIDTH * 30 + 160;

const SMALL_FOOT: usize = WIDTH * 109 + 160;

static ROOM: [Written; 4] = [
    (RENDER, 64_000, &[(TOP, &[128]), (FOOT, &[45])]),
    (SMALL, 64_000, &[(SMALL_TOP, &[128]), (SMALL_FOOT, &[45])]),
    (LIT, 64_000, &[(TOP, &[153])]),
    (MAPPED, 64_000, &[(TOP, &[172])]),
];

// Of the wall's first pixel, and of one of the ceiling.
static RECORDS: [(usize, &[u8]); 2] = [
    (RECORD_BYTES * TOP, b"\x01\x01\0\0\x04\0\x80\0"),
    (RECORD_BYTES * (WIDTH * 10 + 160), b"\x02\x01\x01\0\x0a\0"),
];

static ZONES: [&str; 2] = [
    "render MAP02 made.wad more.wad --path east --zone 64 => zone full wanted 8216 widest 64",
    "render MAP02 made.wad more.wad --path east --zone 8216 => zone full wanted 792 widest 0",
];

// Rows of a column, from the first to the last, and by what they are painted.
type Band = (usize, usize, [u8; PAINTER_BYTES]);

// Plane 1 with FLAT1, fragment 0 with the patch of WALL1, plane 0 with FLAT0.
const CEILING: [u8; PAINTER_BYTES] = [2, 1, 1, 0, 10, 0];

const WALL: [u8; PAINTER_BYTES] = [1, 1, 0, 0, 4, 0];

const FLOOR: [u8; PAINTER_BYTES] = [2, 1, 0, 0, 9, 0];

static BANDS: [Band; 3] = [(0, 45, CEILING), (46, 125, WALL), (126, 199, FLOOR)];

// The one plane of a room whose floor and ceiling are sky, with the patch of SKY1: it has the floor's
// rows, and those of the ceiling are not painted.
const SKY: [u8; PAINTER_BYTES] = [3, 1, 0, 0, 7, 0];

static SKY_BANDS: [Band; 3] = [
    (0, 45, [0; PAINTER_BYTES]),
    (46, 125, WALL),
    (126, 199, SKY),
];

static SMALL_BANDS: [Band; 4] = [
    (0, 29, CEILING),
    (30, 109, WALL),
    (110, 167, FLOOR),
    (168, 199, [0; PAINTER_BYTES]),
];

const FLATS: &[u8; 16] = b"FLAT0\0\0\0FLAT1\0\0\0";

const SKIES: &[u8; 16] = b"F_SKY1\0\0F_SKY1\0\0";

fn made_room(alloc: Global) -> Result<Vec<u8>, AllocError> {
    room_wad(alloc, FLATS)
}

#[test]
fn a_room_has_its_colours(rt: HostRuntime) -> Result<(), Fail> {
    let more = made_room(rt.alloc())?;
    check_written(&rt, &beside(&more), &ROOM)?;
    check_written(&rt, &beside(&more), &[(TRACE, 512_000, &RECORDS)])
}

#[test]
fn a_zone_that_is_too_small_for_a_room_has_its_line(rt: HostRuntime) -> Result<(), Fail> {
    let more = made_room(rt.alloc())?;
    check_told(&rt, &beside(&more), &ZONES)
}

// By what a pixel of the first view was painted.
fn painter_at(trace: &[u8], row: usize, column: usize) -> Option<&[u8]> {
    let place = row.wrapping_mul(WIDTH).wrapping_add(column);
    let start = place.wrapping_mul(RECORD_BYTES);
    trace.get(start..)?.get(..PAINTER_BYTES)
}

fn has_band(trace: &[u8], column: usize, band: &Band) -> bool {
    let (first, last, painter) = band;
    (*first..=*last).all(|row| painter_at(trace, row, column) == Some(painter.as_slice()))
}

// How many columns from 1 on of a room with these flats are not painted by these bands.
fn other_columns(
    alloc: Global,
    flats: &[u8; 16],
    words: &str,
    bands: &[Band],
) -> Result<usize, Fail> {
    let more = room_wad(alloc, flats)?;
    let trace = written(alloc, &beside(&more), words)?;
    let is_other = |column: &usize| !bands.iter().all(|band| has_band(&trace, *column, band));
    Ok((1..WIDTH).filter(is_other).count())
}

#[test]
fn each_column_of_a_room_has_ceiling_wall_and_floor(rt: HostRuntime) -> Result<(), Fail> {
    let others = other_columns(rt.alloc(), FLATS, TRACE, &BANDS)?;
    let small_others = other_columns(rt.alloc(), FLATS, SMALL_TRACE, &SMALL_BANDS)?;
    assert_eq!(rt; (others, small_others), (0, 0));
    Ok(())
}

#[test]
fn sky_above_and_below_is_one_plane(rt: HostRuntime) -> Result<(), Fail> {
    let others = other_columns(rt.alloc(), SKIES, TRACE, &SKY_BANDS)?;
    assert_eq!(rt; others, 0);
    Ok(())
}

const RAISED: &str = "render MAP02 made.wad more.wad --path east --planes 129";

const LIMIT: &str = "render MAP02 made.wad more.wad --path east => limit view 0 planes 129";

const HALL_OF_64: &str =
    "limits MAP02 made.wad more.wad --path east => view 0 planes 128 openings 0 fragments 45 sprites 0";

// Between views against the west wall the counts of one along the hall are left out.
static HALL_OF_65: [&str; 3] = [
    LIMIT,
    "limits MAP02 made.wad more.wad --path east => view 0 over planes 129",
    "limits MAP02 made.wad more.wad --path west-east-west => view 0 planes 2 openings 0 fragments 1 sprites 0\nview 1 over planes 129\nview 2 planes 2 openings 0 fragments 1 sprites 0",
];

#[test]
fn a_view_with_all_planes_is_drawn(rt: HostRuntime) -> Result<(), Fail> {
    let more = hall_wad(rt.alloc(), 64)?;
    check_told(&rt, &beside(&more), &[HALL_OF_64])?;
    check_written(&rt, &beside(&more), &[(RENDER, 64_000, &[])])
}

#[test]
fn a_view_of_one_plane_more_needs_a_higher_limit(rt: HostRuntime) -> Result<(), Fail> {
    let more = hall_wad(rt.alloc(), 65)?;
    check_told(&rt, &beside(&more), &HALL_OF_65)?;
    check_written(&rt, &beside(&more), &[(RAISED, 64_000, &[])])
}

// All walls are seen from behind.
#[test]
fn nodes_around_the_eye_leave_a_black_frame(rt: HostRuntime) -> Result<(), Fail> {
    let more = chain_wad(rt.alloc(), 64)?;
    check_written(
        &rt,
        &beside(&more),
        &[(RENDER, 64_000, &[(0, &[0; 64_000])])],
    )?;
    let more = chain_wad(rt.alloc(), 65)?;
    check_told(&rt, &beside(&more), &[LIMIT])
}

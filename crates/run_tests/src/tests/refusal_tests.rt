// Damaged tables and WADs: each refusal's line, and nothing is written.

use crate::tests::files::{Change, MADE, Wads, check_told, check_written};
use level_maker::make_wad;
use std::alloc::Global;
use std::test::Fail;
use test_files::wad_of;

static TABLES: [&str; 9] = [
    "render MAP01 made.wad --tables cut => refused 101 65539",
    "render MAP01 made.wad --things twice => refused 206 2",
    "render MAP01 made.wad --path three-fields => refused 303 1",
    "render MAP01 made.wad --path letter => refused 304 1 2",
    "render MAP01 made.wad --path map-33 => refused 305 1 5",
    "render MAP02 made.wad => refused 601",
    "render MAP01 made.wad --things shadow => refused 904 0",
    "render MAP01 made.wad --weapon bright-2 => refused 1005 1 3",
    "render MAP01 made.wad --weapon frame-b => refused 1011 1",
];

// Bytes that are put over the made WAD, from an offset on, and the refusal of the frames.
static WADS: [(usize, &[u8], &str); 7] = [
    // the place of the entry of WPATA, the size of that of PLAYPAL
    (82_354, b"\x12\x43\x01\0", "refused 403 0 4"),
    (82_294, b"\xbc\x02", "refused 502"),
    // the first side of the first line, the count of the first leaf, a child of the last node
    (81_164, b"\x0f\x27", "refused 604 1 0 5"),
    (82_086, b"\0\0", "refused 605 0"),
    (82_182, b"\x02\0", "refused 606 2"),
    // the count of PNAMES, the first place in TEXTURE1
    (8972, b"\x05", "refused 701"),
    (9012, b"\xf0\xff\xff\xff", "refused 703 0"),
];

// In TEXTURE1 of the made WAD of 2 the records of WALL2 and GRATE are each other's, with the names
// and the numbers of their first patches changed: so GRATE has the second patch of WALL2 too, which
// begins in column 0.
static GRATE: [Change; 5] = [
    (9096, b"GRATE\0\0\0"),
    (9122, b"\x02"),
    (9128, b"\0"),
    (9138, b"WALL2\0\0\0"),
    (9164, b"\0"),
];

#[test]
fn each_refusal_of_a_table_has_its_line(rt: HostRuntime) -> Result<(), Fail> {
    check_told(&rt, &MADE, &TABLES)
}

#[test]
fn each_refusal_of_a_wad_has_its_line(rt: HostRuntime) -> Result<(), Fail> {
    for (offset, bytes, told) in WADS {
        let row = format!(in rt.alloc(); "render MAP01 made.wad => {told}")?;
        let changes = [(offset, bytes)];
        let wads = Wads {
            changes: &changes,
            ..MADE
        };
        check_told(&rt, &wads, &[row.as_str()])?;
    }
    let grate = Wads {
        made: 2,
        changes: &GRATE,
        ..MADE
    };
    check_told(&rt, &grate, &["render MAP01 made.wad => refused 905 11"])
}

// A WAD of lumps of the made one, from one offset up to another, under other names.
fn wad_of_parts(alloc: Global, parts: &[(&str, usize, usize)]) -> Result<Vec<u8>, Fail> {
    let made = make_wad(alloc, 1)?;
    let mut lumps = Vec::new(alloc);
    for (name, start, end) in parts {
        lumps.push((*name, made.get(*start..*end).ok_or("a lump")?))?;
    }
    Ok(wad_of(alloc, &lumps)?)
}

// The tree has the rotations 1, 2 and 8 alone; the made one has another frame.
#[test]
fn a_frame_without_a_rotation_is_refused(rt: HostRuntime) -> Result<(), Fail> {
    let sprites = [
        ("S_START", 0, 0),
        ("TREEA1", 78_770, 81_114),
        ("TREEA2A8", 78_770, 81_114),
        ("S_END", 0, 0),
    ];
    let more = wad_of_parts(rt.alloc(), &sprites)?;
    let wads = Wads {
        changes: &[(82_538, b"TREEB0")],
        more: &more,
        ..MADE
    };
    let row = "render MAP01 made.wad more.wad => refused 802 0 3";
    check_told(&rt, &wads, &[row])
}

// The patch WPATB under the name of a mark: its name in PNAMES, and that of its entry. The last lump
// with the name is the mark itself, which is no patch; behind it a second WAD has the patch.
#[test]
fn a_patch_with_the_name_of_a_mark_is_drawn_and_not_trimmed(rt: HostRuntime) -> Result<(), Fail> {
    let more = wad_of_parts(rt.alloc(), &[("S_END", 17_978, 22_370)])?;
    let wads = Wads {
        changes: &[(8984, b"S_END\0\0\0"), (82_378, b"S_END\0\0\0")],
        more: &more,
        ..MADE
    };
    let rows = [
        "render MAP01 made.wad => refused 704 2",
        "trim MAP01 made.wad more.wad => refused 907 26",
    ];
    check_told(&rt, &wads, &rows)?;
    check_written(
        &rt,
        &wads,
        &[("render MAP01 made.wad more.wad", 192_000, &[])],
    )
}

// Trimmed files of the made levels, which render as the levels do, and trim to themselves.

use crate::tests::files::{MADE, MADE_10, Wads, check_written, written};
use crate::tests::runs::Written;
use std::alloc::Global;
use std::test::Fail;

const TRIM: &str = "trim MAP01 made.wad";

static FILE: [Written; 1] = [(TRIM, 42_658, &[(0, b"IWAD\x18\0\0\0\x22\xa5\0\0")])];

#[test]
fn a_trimmed_file_begins_with_its_head(rt: HostRuntime) -> Result<(), Fail> {
    check_written(&rt, &MADE, &FILE)
}

// What is told of a trimmed file: its length, whether it renders as its level does, and whether it
// trims to itself.
fn trimmed(alloc: Global, level: Wads) -> Result<(usize, bool, bool), Fail> {
    let file = written(alloc, &level, TRIM)?;
    let wads = Wads {
        more: &file,
        ..level
    };
    let frames = written(alloc, &wads, "render MAP01 made.wad")?;
    let is_drawn = written(alloc, &wads, "render MAP01 more.wad")? == frames;
    let is_itself = written(alloc, &wads, "trim MAP01 more.wad")? == file;
    Ok((file.len(), is_drawn, is_itself))
}

#[test]
fn trimmed_files_render_as_their_levels_and_trim_to_themselves(
    rt: HostRuntime,
) -> Result<(), Fail> {
    let of_1 = trimmed(rt.alloc(), MADE)?;
    let of_10 = trimmed(rt.alloc(), MADE_10)?;
    assert_eq!(rt;
        (of_1, of_10),
        ((42_658, true, true), (200_066, true, true))
    );
    Ok(())
}

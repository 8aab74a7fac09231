// Frames of the made levels: as PPMs, of odd paths and patches, and with the art of a second WAD.

use crate::tests::files::{MADE, MADE_10, Wads, beside, check_written, written};
use crate::tests::runs::{RECORD_BYTES, Written};
use level_maker::make_wad;
use std::alloc::{AllocError, Global};
use std::test::Fail;
use test_files::{put_over, wad_of};

const FRAME_BYTES: usize = 64_000;

// A PPM: its head, and three bytes a pixel.
const PPM_BYTES: usize = 192_015;

const PPM_HEAD: usize = 15;

// The sum of the bytes of the 30 frames of the level of 10.
const SUM_OF_10: u64 = 110_342_962;

const RENDER: &str = "render MAP01 made.wad";

static ODD_PATHS: [Written; 2] = [
    ("render MAP01 made.wad --path no-view", 0, &[]),
    ("render MAP01 made.wad --path vertex", FRAME_BYTES, &[]),
];

// In the patch the first column lies past its end.
#[test]
fn odd_paths_and_a_patch_are_drawn(rt: HostRuntime) -> Result<(), Fail> {
    let wads = Wads {
        changes: &[(9210, b"\xff\xff\xff\xff")],
        ..MADE
    };
    check_written(&rt, &MADE, &ODD_PATHS)?;
    check_written(&rt, &wads, &[(RENDER, 192_000, &[])])
}

// Whether the red of each pixel is its colour's number, as in the made palette.
fn has_reds(ppm: &[u8], frame: &[u8]) -> bool {
    let Some(pixels) = ppm.get(PPM_HEAD..) else {
        return false;
    };
    pixels
        .chunks_exact(3)
        .zip(frame)
        .all(|(pixel, colour)| pixel.first() == Some(colour))
}

#[test]
fn frames_and_ppms_are_of_the_same_pictures(rt: HostRuntime) -> Result<(), Fail> {
    let frames = written(rt.alloc(), &MADE_10, RENDER)?;
    let ppms = written(rt.alloc(), &MADE_10, "render MAP01 made.wad --format ppm")?;
    let are_same = ppms
        .chunks_exact(PPM_BYTES)
        .zip(frames.chunks_exact(FRAME_BYTES))
        .all(|(ppm, frame)| has_reds(ppm, frame));
    let add = |sum: u64, byte: &u8| sum.wrapping_add(*byte as u64);
    let found = (ppms.len(), frames.iter().fold(0, add), are_same);
    assert_eq!(rt; found, (5_760_450, SUM_OF_10, true));
    Ok(())
}

fn black_flat(alloc: Global) -> Result<Vec<u8>, AllocError> {
    let flat = [0; 4096];
    let nothing = b"".as_slice();
    let lumps = [
        ("F_START", nothing),
        ("FLAT0", flat.as_slice()),
        ("F_END", nothing),
    ];
    wad_of(alloc, &lumps)
}

// Each of the 64 columns of WPATA is one post of 128 texels, which begin with its fourth byte.
fn black_patch(alloc: Global) -> Result<Vec<u8>, Fail> {
    let made = make_wad(alloc, 1)?;
    let mut patch = made.get(9202..17_978).ok_or("a patch")?.to_vec(alloc)?;
    for column in 0..64 {
        put_over(&mut patch, 264 + 133 * column + 3, &[0; 128]);
    }
    Ok(wad_of(alloc, &[("WPATA", patch.as_slice())])?)
}

// Whether a pixel that one lump painted has the colour 0 of another, and each other pixel is as it
// was, but for the texels of composites.
fn is_blackened(old: &[u8], new: &[u8], lump: u8, black: u8) -> bool {
    match old {
        [kind, 1, low, high, source, 0, _, 0] if *source == lump => {
            new == [*kind, 1, *low, *high, black, 0, 0, 0].as_slice()
        }
        [_, 2, ..] => old.get(..6) == new.get(..6),
        _ => old == new,
    }
}

// How many pixels a lump painted.
fn painted_by(trace: &[u8], lump: u8) -> usize {
    trace
        .chunks_exact(RECORD_BYTES)
        .filter(|record| record.get(1) == Some(&1) && record.get(4) == Some(&lump))
        .count()
}

// How many pixels a black lump of a second WAD paints. None where another is not as it was.
fn blackened(alloc: Global, more: &[u8], lump: u8, black: u8) -> Result<Option<usize>, Fail> {
    let before = written(alloc, &MADE, "trace MAP01 made.wad")?;
    let after = written(alloc, &beside(more), "trace MAP01 made.wad more.wad")?;
    let are_alike = before
        .chunks_exact(RECORD_BYTES)
        .zip(after.chunks_exact(RECORD_BYTES))
        .all(|(old, new)| is_blackened(old, new, lump, black));
    Ok(are_alike.then_some(painted_by(&after, black)))
}

// The flat FLAT0 is lump 9 and then 27, the patch WPATA lump 4 and then 26.
#[test]
fn a_second_wad_brings_its_own_art(rt: HostRuntime) -> Result<(), Fail> {
    let flat = blackened(rt.alloc(), &black_flat(rt.alloc())?, 9, 27)?;
    let patch = blackened(rt.alloc(), &black_patch(rt.alloc())?, 4, 26)?;
    assert_eq!(rt; (flat, patch), (Some(5_444), Some(98_950)));
    Ok(())
}

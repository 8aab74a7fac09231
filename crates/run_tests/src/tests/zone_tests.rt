// Zones: the sizes that an audit tells, the frames in zones that are enough, how a run ends in
// smaller ones, and how much is read in a roomy one.
ghost use Rattle.outside.specs.MemoryShelf.{memory_view};
ghost use Rattle.std.specs.Prelude.{refl};

use crate::tests::files::{
    MADE, MADE_10, Wads, check_told, level_words, run_level, shelf_of, written,
};
use crate::tests::runs::run_words;
use doom_run::Status;
use outside::{Failed, FileNo, MemoryShelf, Shelf};
use std::alloc::Global;
use std::test::Fail;

// In a zone below the least no run is done, in one of `enough` or more each is.
const LEAST: u32 = 17_016;

const ENOUGH: u32 = 30_064;

const ROOMY: u32 = 46_904;

// The sizes of the tables, the things and the path, the head and the directory of the WAD, and each
// lump of the level once.
const MOST_BYTES_READ: u64 = 108_391;

const RENDER: &str = "render MAP01 made.wad";

// The second name of PNAMES is COLORMAP, which is then a patch too.
const PATCHED: Wads<'static> = Wads {
    changes: &[(8984, b"COLORMAP")],
    ..MADE
};

// What the audits of these three tell.
const SIZES: &str = "audit MAP01 made.wad => accepted enough 30064 roomy 46904";

const SIZES_OF_10: &str = "audit MAP01 made.wad => accepted enough 108512 roomy 204328";

const PATCHED_SIZES: &str = "audit MAP01 made.wad => accepted enough 32112 roomy 44536";

const SMALL_ZONE: &str =
    "render MAP01 made.wad --zone 56236 => zone full wanted 48024 widest 48020";

// Levels, zones in which their frames are those of the default zone, and how long they are.
static ENOUGH_ZONES: [(Wads, &str, usize); 4] = [
    (MADE, "render MAP01 made.wad --zone 30064", 192_000),
    (MADE, "render MAP01 made.wad --zone 46904", 192_000),
    (MADE_10, "render MAP01 made.wad --zone 108512", 1_920_000),
    (PATCHED, "render MAP01 made.wad --zone 32112", 192_000),
];

#[test]
fn an_audit_tells_the_sizes_of_a_zone_and_a_smaller_one_has_its_line(
    rt: HostRuntime,
) -> Result<(), Fail> {
    check_told(&rt, &MADE, &[SIZES])?;
    check_told(&rt, &MADE_10, &[SIZES_OF_10, SMALL_ZONE])?;
    check_told(&rt, &PATCHED, &[PATCHED_SIZES])
}

// Whether words write the frames, and how many bytes that is.
fn compared(alloc: Global, wads: &Wads, words: &str) -> Result<(bool, usize), Fail> {
    let frames = written(alloc, wads, RENDER)?;
    let others = written(alloc, wads, words)?;
    Ok((frames == others, frames.len()))
}

#[test]
fn frames_are_the_same_in_each_zone_of_enough(rt: HostRuntime) -> Result<(), Fail> {
    for (wads, words, length) in &ENOUGH_ZONES {
        let found = compared(rt.alloc(), wads, words)?;
        assert_eq!(rt; found, (true, *length), "{words}");
    }
    Ok(())
}

// Whether a run in a zone wrote all of the frames. None where it ended otherwise than full, with a
// widest gap below what was wanted and a part of the frames.
fn is_whole(alloc: Global, size: u32, whole: &[u8]) -> Result<Option<bool>, Fail> {
    let words = format!(in alloc; "{RENDER} --zone {size}")?;
    let mut shelf = shelf_of(alloc, &MADE, Vec::new(alloc))?;
    let ended = run_level(alloc, &mut shelf, &words)?;
    let out = ended.out.bytes();
    Ok(match ended.status {
        Status::Done if out == whole => Some(true),
        Status::ZoneFull { wanted, widest } if widest < wanted && whole.starts_with(out) => {
            Some(false)
        }
        _ => None,
    })
}

// Forty sizes: from 64 on in steps of 1200, among them the one that is enough, and a roomy one.
#[test]
fn a_small_zone_leaves_a_part_of_the_frames(rt: HostRuntime) -> Result<(), Fail> {
    let alloc = rt.alloc();
    let whole = written(alloc, &MADE, RENDER)?;
    for step in 0..40u32 {
        let size = if step < 39 { 64 + 1200 * step } else { ROOMY };
        let ended = is_whole(alloc, size, &whole)?;
        assert_ne!(rt; ended, None, "{size}");
        assert!(rt; size >= LEAST || ended == Some(false), "{size}");
        assert!(rt; size < ENOUGH || ended == Some(true), "{size}");
    }
    Ok(())
}

// A shelf in memory that counts the bytes that are asked of it.
#[derive(Drop)]
struct CountingShelf {
    shelf: MemoryShelf,
    asked: u64,
}

impl Shelf for CountingShelf {
    ghost view = { λ counting. memory_view counting.shelf };

    ghost tells = { λ counting steady. refl };

    fn find(&mut self, name: &str) -> Result<FileNo, Failed> {
        self.shelf.find(name)
    }

    fn size_of(&mut self, file: FileNo) -> Result<u64, Failed> {
        self.shelf.size_of(file)
    }

    fn read_at(&mut self, file: FileNo, place: u64, piece: &mut [u8]) -> Result<(), Failed> {
        self.asked = self.asked.saturating_add(piece.len() as u64);
        self.shelf.read_at(file, place, piece)
    }
}

#[test]
fn a_roomy_zone_reads_no_lump_twice(rt: HostRuntime) -> Result<(), Fail> {
    let alloc = rt.alloc();
    let shelf = shelf_of(alloc, &MADE, Vec::new(alloc))?;
    let mut counting = CountingShelf { shelf, asked: 0 };
    let words = level_words(alloc, "render MAP01 made.wad --zone 46904")?;
    let ended = run_words(alloc, &words, &mut counting, Vec::new(alloc))?;
    let found = (
        ended.status,
        ended.out.bytes().len(),
        counting.asked <= MOST_BYTES_READ,
    );
    assert_eq!(rt; found, (Status::Done, 192_000, true));
    Ok(())
}

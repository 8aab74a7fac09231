// A file with the level of two sectors on both sides of a line, as its format is told, and what is
// read of it.
//
// Each function makes a value or two and lends them to the next, and the level is in a box, which a
// function drops by one call: one that owns many values where it may return takes minutes to prove.
ghost use Rattle.std.specs.Prelude.{◌<◌, ◌^◌, length};

use crate::tests::files::{NO_CALL, load_directory, shelf_of};
use art_rules::{MemoryShelf, Name8};
use level_scene::{Level, read_level};
use lump_cache::{Directory, LumpCache};
use std::alloc::{AllocError, Global};
use std::test::Fail;
use test_files::put_halves;

// Five things: in front of the line, behind it, in front and hanging, for several players, and in
// hard skills alone. Turned by 89 and by -45 degrees, and not.
const THINGS: [u16; 25] = [
    100, 10, 89, 2035, 7, 10, 10, 65491, 2035, 3, 120, 20, 0, 63, 7, 110, 30, 0, 2035, 23, 90, 5,
    0, 2035, 4,
];

const LINE: [u16; 7] = [0, 1, 4, 0, 0, 0, 1];

// The offsets and names of each of two sides, of sectors 0 and 1.
const SIDE: &[u8] = b"\x01\0\xff\xffWALL1\0\0\0wall2\0\0\0-\0\0\0\0\0\0\0";

const VERTEXES: [u16; 4] = [64, 0, 64, 128];

// Two segs, leaves of one each, and a node between them.
const SEGS: [u16; 12] = [0, 1, 16384, 0, 0, 0, 1, 0, 49152, 0, 1, 0];

const LEAVES: [u16; 4] = [1, 0, 1, 1];

const NODE: [u16; 14] = [64, 0, 0, 128, 128, 0, 64, 128, 128, 0, 0, 64, 32768, 32769];

// What follows the floor and the ceiling of each sector.
const SECTOR: &[u8] = b"FLAT1\0\0\0FLAT0\0\0\0p\0\0\0\0\0";

// THINGS at 12, LINEDEFS at 62, SIDEDEFS at 76, VERTEXES at 136, SEGS at 144, SSECTORS at 168, NODES
// at 176, SECTORS at 204, and at 256 this directory.
fn directory() -> &'static [u8; 144] {
    b"\0\0\0\0\0\0\0\0MAP01\0\0\0\
\x0c\0\0\0\x32\0\0\0THINGS\0\0\
\x3e\0\0\0\x0e\0\0\0LINEDEFS\
\x4c\0\0\0\x3c\0\0\0SIDEDEFS\
\x88\0\0\0\x08\0\0\0VERTEXES\
\x90\0\0\0\x18\0\0\0SEGS\0\0\0\0\
\xa8\0\0\0\x08\0\0\0SSECTORS\
\xb0\0\0\0\x1c\0\0\0NODES\0\0\0\
\xcc\0\0\0\x34\0\0\0SECTORS\0"
}

// The file.
fn level_wad(alloc: Global) -> Result<Vec<u8>, AllocError> {
    let mut wad = b"PWAD\x09\0\0\0\0\x01\0\0".to_vec(alloc)?;
    put_halves(&mut wad, &THINGS)?;
    put_halves(&mut wad, &LINE)?;
    for sector in 0..2 {
        wad.extend_from_slice(SIDE)?;
        put_halves(&mut wad, &[sector])?;
    }
    put_halves(&mut wad, &VERTEXES)?;
    put_halves(&mut wad, &SEGS)?;
    put_halves(&mut wad, &LEAVES)?;
    put_halves(&mut wad, &NODE)?;
    for floor in [8, 24] {
        put_halves(&mut wad, &[floor, 160])?;
        wad.extend_from_slice(SECTOR)?;
    }
    wad.extend_from_slice(directory())?;
    Ok(wad)
}

// What is read of it.
pub(crate) fn read_map(alloc: Global) -> Result<Box<Level>, Fail> {
    let mut shelf = shelf_of(alloc, level_wad(alloc)?, NO_CALL)?;
    let dir = load_directory(alloc, &mut shelf)?;
    read_over(alloc, &dir, &mut shelf)
}

// The same, with the lumps of this directory.
fn read_over(alloc: Global, dir: &Directory, shelf: &mut MemoryShelf) -> Result<Box<Level>, Fail>
    requires { length dir.now.lumps < 2 ^ 16 }
{
    let mut cache = LumpCache::new(alloc, dir, 256, 0)?;
    let name = Name8::from_bytes(*b"map01\0\0\0");
    let (_, level) = read_level(alloc, &name, dir, &mut cache, shelf)?;
    Ok(Box::new(alloc, level)?)
}

// Viewpoints, the made tables of angles, and a WAD on a shelf of its own.
ghost use Rattle.std.specs.Prelude.{◌≡◌, ◌≤◌, ◌<◌, ◌^◌, IfOk, length};

use level_maker::make_tables;
use lump_cache::{Directory, LumpCache, MemoryShelf, Shelf};
use picture_rules::{Eye, MAX_SIZE};
use std::alloc::Global;
use std::test::Fail;
use test_files::file_of;
use view_frame::Tables;

const ZONE: u32 = 6_291_456;

const COMPOSITE_SLOTS: u32 = 32767;

/// At the origin, 41 map units up, looking east.
pub(crate) const EYE: Eye = Eye {
    x: 0,
    y: 0,
    z: 41 << 16,
    angle: 0,
    extralight: 0,
    colormap: 0,
};

/// The made path's first row: 40, 40 and 72 map units up, looking east.
pub(crate) const FIRST: Eye = Eye {
    x: 2_621_440,
    y: 2_621_440,
    z: 4_718_592,
    ..EYE
};

/// The made tables of angles for a view of full size, in a box, which a function drops by one call.
pub(crate) fn made_angles(alloc: Global) -> Result<Box<Tables>, Fail> {
    let bytes = make_tables(alloc)?;
    Ok(Box::new(alloc, Tables::from_bytes(alloc, &bytes, MAX_SIZE)?)?)
}

/// A shelf of a WAD.
pub(crate) fn shelf_of(alloc: Global, wad: Vec<u8>) -> Result<Box<MemoryShelf>, Fail> {
    let mut files = Vec::with_capacity(alloc, 1)?;
    files.push(file_of(alloc, "made.wad", wad)?)?;
    Ok(Box::new(alloc, MemoryShelf::new(files, Vec::new(alloc)))?)
}

/// The directory of the shelf's WAD.
pub(crate) fn directory_of(alloc: Global, shelf: &mut MemoryShelf) -> Result<Box<Directory>, Fail>
    ensures { IfOk result (λ dir. length dir.value.lumps < 2 ^ 16) }
{
    let made = shelf.find("made.wad")?;
    Ok(Box::new(alloc, Directory::load(alloc, shelf, &[made])?)?)
}

/// A cache in which nothing is live.
pub(crate) fn empty_cache(alloc: Global, dir: &Directory) -> Result<Box<LumpCache>, Fail>
    requires { length dir.now.lumps ≤ 2 ^ 16 }
    ensures slots { IfOk result (λ cache. length dir.now.lumps ≤ cache.value.lumps) }
    ensures composites { IfOk result (λ cache. cache.value.composites ≡ COMPOSITE_SLOTS) }
{
    Ok(Box::new(alloc, LumpCache::new(alloc, dir, ZONE, COMPOSITE_SLOTS)?)?)
}

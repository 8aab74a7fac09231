// A lump made live in a zone: a block is taken for it, and its bytes are read.
//
// Rules: `specs/Fetches`. The original: `W_CacheLumpNum`, w_wad.c.
ghost use Rattle.std.specs.Prelude.{◌≡◌, ◌<◌, length};
ghost use Rattle.lump_cache.specs.Rules.{IsLive, IsSound, lump_at};
ghost use Rattle.lump_cache.specs.Caches.{lump_owner};
ghost use Rattle.lump_cache.specs.Fetches.{FetchesLump};

use crate::fault::CacheFault;
use crate::read::{lump_slot, read_into};
use crate::tags::retag;
use outside::{Failed, Shelf};
use wad_dir::{Directory, LumpNo};
use zone_heap::{Tag, Zone};

/// Makes a lump live: for one that has no block a block is taken, and its bytes are read into it.
pub fn fetch_lump<S: Shelf>(
    zone: &mut Zone,
    shelf: &mut S,
    dir: &Directory,
    lump: LumpNo,
    tag: Tag,
) -> Result<(), CacheFault>
    requires in_range { lump.0 < zone.old.lumps }
    requires listed { lump.0 < length dir.now.lumps }
    requires sound { IsSound zone.old }
    ensures fetches { FetchesLump dir.now lump.0 tag (S.view shelf.old) (S.view shelf.new)
        zone.old zone.new result }
    ensures hit { IsLive zone.old (lump_owner lump.0) → shelf.new ≡ shelf.old }
    ensures untouched { (lump_at dir.now.lumps lump.0).size ≡ 0 → shelf.new ≡ shelf.old }
    ensures sound { IsSound zone.new }
{
    if let Some(current) = zone.tag(lump_slot(lump)) {
        retag(zone, lump_slot(lump), current, tag);
        return Ok(());
    }
    let size = dir.size(lump);
    zone.malloc(lump_slot(lump), size, tag)?;
    if size == 0 {
        return Ok(());
    }
    match read_into(zone, shelf, lump, dir.file(lump), dir.place(lump)) {
        Ok(()) => Ok(()),
        Err(Failed) => {
            zone.free(lump_slot(lump));
            Err(CacheFault::ReadFault)
        }
    }
}

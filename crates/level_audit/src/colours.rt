// The first palette.
//
// Rules: `scene_rules`, Scenes. The original: `R_InitColormaps`, r_data.c.
ghost use Rattle.level_audit.specs.Rules.{PALETTE_SIZE, itself, lump_at};
ghost use Rattle.std.specs.Prelude.{◌≡◌, ◌<◌, ◌≤◌, length, take, Ok, IfOk, OnOk};
ghost use Rattle.texture_build.specs.Calls.{ReadsLumps};
ghost use Rattle.texture_build.specs.Sizes.{StandsBeside};

use crate::{AuditFault, AuditRefusal};
use art_rules::{OutOfMemory, Shelf};
use scene_rules::{ArtRefusal, PALETTE_SIZE};
use std::alloc::Global;
use texture_build::{Directory, LumpCache, LumpNo, fetch_live, live_lump};

/// The first 768 bytes of a lump, PLAYPAL: red, green and blue of 256 colours.
///
/// The lump is fetched with the tag `Cache`, and is not pinned. Takes memory for the palette.
///
/// Errors: `ReadFault` only where a call of the shelf failed. `ZoneFull` where no gap of the zone
/// held the lump's block. `OutOfMemory`.
///
/// From a cache at rest whose live lumps have the directory's sizes, after Ok, the colormap's block
/// and that of this lump, if it is another one, are together no larger than the zone.
///
/// After Ok the palette has 768 bytes whatever the cache held (`size`).
///
/// The original: `W_CacheLumpName` with PLAYPAL, as in `D_Display`, d_main.c.
pub fn read_palette<S: Shelf>(
    alloc: Global,
    playpal: LumpNo,
    dir: &Directory,
    cache: &mut LumpCache,
    shelf: &mut S,
) -> Result<Vec<u8>, AuditFault>
    requires slots { length dir.now.lumps ≤ cache.old.lumps }
    requires there { playpal.0 < length dir.now.lumps }
    requires long { PALETTE_SIZE ≤ (lump_at dir.now.lumps playpal.0).size }
    ensures tells { ReadsLumps itself (S.view shelf.old) (S.view shelf.new) dir.now cache.old
        cache.new (λ lump. lump ≡ playpal.0) (λ palette. palette.items) (λ bytes.
        Ok (take PALETTE_SIZE (bytes playpal.0))) result }
    ensures fits { OnOk result (StandsBeside dir.now.lumps cache.old playpal.0) }
    ensures size { IfOk result (λ palette. length palette.items ≡ PALETTE_SIZE) }
{
    fetch_live::<S, AuditRefusal>(cache, dir, shelf, playpal)?;
    Ok(first_palette(alloc, live_lump(cache, playpal))?)
}

// The first bytes of PLAYPAL as a palette, filled up with 0 where they are fewer, which they never
// are where the cache is faithful to the files.
fn first_palette(alloc: Global, bytes: &[u8]) -> Result<Vec<u8>, OutOfMemory>
    ensures size { IfOk result (λ palette. length palette.items ≡ PALETTE_SIZE) }
    ensures first { PALETTE_SIZE ≤ length bytes.now →
        IfOk result (λ palette. palette.items ≡ take PALETTE_SIZE bytes.now) }
{
    let count = (PALETTE_SIZE as usize).min(bytes.len());
    let mut palette = bytes[..count].to_vec(alloc)?;
    palette.resize(PALETTE_SIZE as usize, 0)?;
    Ok(palette)
}

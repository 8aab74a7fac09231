// A level from the lumps of its map.
//
// Rules: `level_rules/maps`, Levels; `scene_rules`, Scenes. The original: `P_SetupLevel`, p_setup.c.
ghost use Rattle.level_scene.specs.Rules.{is_map_lump, itself, label_of, level_in, level_of, map_bytes};
ghost use Rattle.std.specs.Prelude.{◌≡◌, ◌<◌, ◌≤◌, ◌+◌, ◌^◌, ℕ, length, true, Ok, Err, IfOk, MatchResult};
ghost use Rattle.lump_cache.specs.Calls.{ReadsLumps};
ghost use Rattle.lump_cache.specs.Sizes.{StandsBeside};
ghost use Rattle.level_scene.specs.Asked.{IsLumpOfMap};

use crate::LevelFault;
use crate::fault::map_fault;
use crate::lumps::{LUMPS, add_lumps};
use art_rules::{Fault, MAP_LUMPS, Name8, Shelf};
use lump_cache::{Directory, LumpCache, LumpNo};
use map_lumps::{Level, MapRefusal};
use std::alloc::Global;

/// The label of the map of that name, and its level.
///
/// The eight lumps behind the label are fetched with the tag `Cache`, one after the other, and the
/// records of each are taken before the next is fetched; none stays pinned. Takes memory for the
/// records and for the level.
///
/// Errors: `Refused` with the first refusal: `NoMap` where the directory has no map of that name,
/// then `Size` of the first lump that has it, then those of `LevelBuilder::finish`. `ReadFault`
/// only where a call of the shelf failed. `ZoneFull` where no gap of the zone held a lump's block.
/// `OutOfMemory`.
///
/// Where each live lump has as many bytes as the directory says, each has so after any answer. From
/// such a cache at rest, after Ok, the colormap's block and that of any other one of the eight
/// lumps are together no larger than the zone.
///
/// The original: `P_SetupLevel`, p_setup.c, with `P_LoadVertexes` and its kin.
pub fn read_level<S: Shelf>(
    alloc: Global,
    name: &Name8,
    dir: &Directory,
    cache: &mut LumpCache,
    shelf: &mut S,
) -> Result<(LumpNo, Level), LevelFault>
    requires slots { length dir.now.lumps ≤ cache.old.lumps }
    ensures tells { ReadsLumps itself (S.view shelf.old) (S.view shelf.new) dir.now cache.old
        cache.new (IsLumpOfMap dir.now.lumps name.now) (λ found. (found.0.0, found.1)) (λ bytes.
        level_in bytes dir.now.lumps name.now) result }
    ensures label { IfOk result (λ found. label_of dir.now.lumps name.now ≡ Ok found.0.0) }
    ensures there { IfOk result (λ found. found.0.0 + length MAP_LUMPS < length dir.now.lumps) }
    ensures fits { IfOk result (λ found. (lump : ℕ) → is_map_lump found.0.0 lump ≡ true →
        StandsBeside dir.now.lumps cache.old lump) }
{
    let label = match label_of(dir, name) {
        Ok(label) => label,
        Err(refusal) => return Err(Fault::Refused(refusal)),
    };
    let level = level_behind(alloc, label, dir, cache, shelf)?;
    Ok((label, level))
}

// The label of a map.
fn label_of(dir: &Directory, name: &Name8) -> Result<LumpNo, MapRefusal>
    ensures label { MatchResult result (λ label.
        label_of dir.now.lumps name.now ≡ Ok label.0) (λ refusal.
        label_of dir.now.lumps name.now ≡ Err refusal) }
    ensures there { IfOk result (λ label. label.0 + length MAP_LUMPS < length dir.now.lumps) }
    ensures number { IfOk result (λ label. label.0 + length MAP_LUMPS < 2 ^ 16) }
{
    dir.map(name).ok_or(MapRefusal::NoMap)
}

// The level of the lumps behind a label.
fn level_behind<S: Shelf>(
    alloc: Global,
    label: LumpNo,
    dir: &Directory,
    cache: &mut LumpCache,
    shelf: &mut S,
) -> Result<Level, LevelFault>
    requires slots { length dir.now.lumps ≤ cache.old.lumps }
    requires there { label.0 + length MAP_LUMPS < length dir.now.lumps }
    requires number { label.0 + length MAP_LUMPS < 2 ^ 16 }
    ensures tells { ReadsLumps itself (S.view shelf.old) (S.view shelf.new) dir.now cache.old
        cache.new (λ lump. is_map_lump label.0 lump ≡ true) (λ level. level) (λ bytes.
        level_of (map_bytes bytes label.0)) result }
    ensures fits { IfOk result (λ level. (lump : ℕ) → is_map_lump label.0 lump ≡ true →
        StandsBeside dir.now.lumps cache.old lump) }
{
    let builder = add_lumps(alloc, &LUMPS, label, dir, cache, shelf)?;
    builder.finish(alloc).map_err(map_fault)
}

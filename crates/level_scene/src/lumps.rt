// The lumps of a map, each fetched and added to a builder before the next.
//
// Rules: `specs/Lumps`; what a call over a cache answers stands in `lump_cache`. The original:
// `P_SetupLevel`, p_setup.c.
ghost use Rattle.level_scene.specs.Rules.{is_map_lump, itself, lump_no};
ghost use Rattle.std.specs.Prelude.{◌≡◌, ◌<◌, ◌≤◌, ◌+◌, ◌^◌, ℕ, length, map, true, false, Ok, IfOk, OnOk, slice_set};
ghost use Rattle.std.specs.List.{range_with_len};
ghost use Rattle.map_lumps.specs.Builders.{all_added, empty_builder, is_added};
ghost use Rattle.lump_cache.specs.Calls.{ReadsLumps};
ghost use Rattle.lump_cache.specs.Sizes.{StandsBeside};
ghost use Rattle.level_scene.specs.Lumps.{lump_added, lumps_from};

use crate::LevelFault;
use crate::fault::map_fault;
use art_rules::{MAP_LUMP_COUNT, MAP_LUMPS, Shelf};
use lump_cache::{Directory, LumpCache, LumpNo, fetch_live, live_lump};
use map_lumps::{LevelBuilder, MapLump, MapRefusal};
use std::alloc::Global;

// The lumps of a map in the order of their numbers, in which they stand behind the label.
pub(crate) const LUMPS: [MapLump; MAP_LUMP_COUNT] = [
    MapLump::Things,
    MapLump::Linedefs,
    MapLump::Sidedefs,
    MapLump::Vertexes,
    MapLump::Segs,
    MapLump::Ssectors,
    MapLump::Nodes,
    MapLump::Sectors,
];

// A builder with the lumps behind a label, added in the order of their numbers.
pub(crate) fn add_lumps<S: Shelf>(
    alloc: Global,
    lumps: &[MapLump],
    label: LumpNo,
    dir: &Directory,
    cache: &mut LumpCache,
    shelf: &mut S,
) -> Result<LevelBuilder, LevelFault>
    requires slots { length dir.now.lumps ≤ cache.old.lumps }
    requires there { label.0 + length MAP_LUMPS < length dir.now.lumps }
    requires number { label.0 + length MAP_LUMPS < 2 ^ 16 }
    requires lumps { map lump_no lumps.now ≡ range_with_len 0 (length MAP_LUMPS) }
    ensures tells { ReadsLumps itself (S.view shelf.old) (S.view shelf.new) dir.now cache.old
        cache.new (λ lump. is_map_lump label.0 lump ≡ true) (λ builder. builder) (λ bytes.
        lumps_from bytes label.0 1 lumps.now empty_builder) result }
    ensures added { IfOk result (λ builder. builder.added ≡ all_added) }
    ensures fits { IfOk result (λ builder. (lump : ℕ) → is_map_lump label.0 lump ≡ true →
        StandsBeside dir.now.lumps cache.old lump) }
{
    let mut builder = LevelBuilder::new();
    for (i, lump) in lumps.iter().enumerate() {
        let number = LumpNo(label.0 + (i as u16 + 1));
        add_lump(alloc, &mut builder, *lump, number, dir, cache, shelf)?;
    }
    Ok(builder)
}

// Fetches a lump and adds it to the builder, which has none of its kind.
fn add_lump<S: Shelf>(
    alloc: Global,
    builder: &mut LevelBuilder,
    lump: MapLump,
    number: LumpNo,
    dir: &Directory,
    cache: &mut LumpCache,
    shelf: &mut S,
) -> Result<(), LevelFault>
    requires slots { length dir.now.lumps ≤ cache.old.lumps }
    requires there { number.0 < length dir.now.lumps }
    requires absent { is_added builder.old lump ≡ false }
    ensures tells { ReadsLumps itself (S.view shelf.old) (S.view shelf.new) dir.now cache.old
        cache.new (λ n. n ≡ number.0) (λ done. builder.new) (λ bytes.
        lump_added builder.old lump (bytes number.0)) result }
    ensures added { OnOk result (builder.new.added ≡ slice_set builder.old.added (lump_no lump)
        true) }
    ensures fits { OnOk result (StandsBeside dir.now.lumps cache.old number.0) }
{
    fetch_live::<S, MapRefusal>(cache, dir, shelf, number)?;
    builder
        .add(alloc, lump, live_lump(cache, number))
        .map_err(map_fault)
}

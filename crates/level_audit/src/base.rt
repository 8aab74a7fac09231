// What a level stands on.
//
// Rules: `scene_rules`, Scenes; `specs/Bases`. The original: `P_SetupLevel`, p_setup.c,
// `R_InitTextures`, r_data.c.
ghost use Rattle.level_audit.specs.Rules.{MAP_LUMPS, MAX_TEXTURES, Map, PALETTE_SIZE, base_in, base_over, colormap_of, from_below, is_map_lump, itself, label_of, level_in, lists_in};
ghost use Rattle.std.specs.Prelude.{◌≡◌, ◌<◌, ◌≤◌, ◌+◌, ℕ, [], length, true, Ok, IfOk, OnOk};
ghost use Rattle.texture_build.specs.Calls.{ReadsLumps};
ghost use Rattle.texture_build.specs.Sizes.{StandsBeside};
ghost use Rattle.level_scene.specs.Asked.{IsLumpOfMap};
ghost use Rattle.texture_lists.specs.Asked.{IsListLump};
ghost use Rattle.scene_rules.specs.declared.refusal.AuditRefusal.TheVariants.{Texture};
ghost use Rattle.level_audit.specs.Asked.{IsOfBase, IsOfMap};
ghost use Rattle.sound_scene.specs.Bases.{base_of};

use crate::colours::read_palette;
use crate::fault::{above_level, above_textures};
use crate::{AuditFault, AuditRefusal};
use art_rules::{Fault, Name8, Shelf};
use job_files::find_playpal;
use level_scene::{Level, read_level};
use sound_scene::ReadBase;
use std::alloc::Global;
use texture_build::{Directory, LumpCache, LumpNo, Textures};

/// What a level stands on, where COLORMAP is found already.
///
/// PLAYPAL is found and read, then the eight lumps of the map, then PNAMES, TEXTURE1 and, where it
/// is there, TEXTURE2: one lump at a time is fetched with the tag `Cache`, read, and left purgeable.
/// Takes memory for what is kept: the palette, the level, and the lists.
///
/// Errors: `Refused` with the first refusal: `Playpal`, then those of the map, then those of the
/// lists. `ReadFault` only where a call of the shelf failed. `ZoneFull` where no gap of the zone held
/// a lump's block. `OutOfMemory`. Whatever comes, what `ReadsLumps` says is kept of the cache.
///
/// From a cache at rest whose live lumps have the directory's sizes, after Ok, the colormap's block
/// and that of any other of these lumps are together no larger than the zone (`fits`).
///
/// After Ok the palette has 768 bytes whatever the cache held (`palette`).
///
/// The original: `R_InitTextures`, r_data.c, `P_SetupLevel`, p_setup.c.
pub fn read_base<S: Shelf>(
    alloc: Global,
    colormap: LumpNo,
    name: &Name8,
    dir: &Directory,
    cache: &mut LumpCache,
    shelf: &mut S,
) -> Result<ReadBase, AuditFault>
    requires slots { length dir.now.lumps ≤ cache.old.lumps }
    requires colormap { colormap_of dir.now.lumps ≡ Ok colormap.0 }
    ensures tells { ReadsLumps itself (S.view shelf.old) (S.view shelf.new) dir.now cache.old
        cache.new (IsOfBase dir.now.lumps name.now) base_of
        (λ bytes. base_in bytes dir.now.lumps name.now) result }
    ensures fits { IfOk result (λ base. (lump : ℕ) → IsOfBase dir.now.lumps name.now lump →
        StandsBeside dir.now.lumps cache.old lump) }
    ensures colormap { IfOk result (λ base. base.colormap ≡ colormap) }
    ensures label { IfOk result (λ base. base.label.0 + length MAP_LUMPS < length dir.now.lumps) }
    ensures few { IfOk result (λ base. length base.textures.lists.textures ≤ MAX_TEXTURES) }
    ensures unprepared { IfOk result (λ base. base.textures.prepared ≡ []) }
    ensures palette { IfOk result (λ base. length base.palette.items ≡ PALETTE_SIZE) }
{
    let playpal = match find_playpal(dir) {
        Ok(playpal) => playpal,
        Err(refusal) => return Err(Fault::Refused(AuditRefusal::Art(refusal))),
    };
    let palette = read_palette(alloc, playpal, dir, cache, shelf)?;
    let colours = Colours {
        colormap,
        playpal,
        palette,
    };
    read_map(alloc, colours, name, dir, cache, shelf)
}

// The lumps of colours, and the first palette.
#[derive(Drop)]
struct Colours {
    colormap: LumpNo,
    playpal: LumpNo,
    palette: Vec<u8>,
}

// The label of the map, its level, and the lists of textures, beside the colours.
fn read_map<S: Shelf>(
    alloc: Global,
    colours: Colours,
    name: &Name8,
    dir: &Directory,
    cache: &mut LumpCache,
    shelf: &mut S,
) -> Result<ReadBase, AuditFault>
    requires slots { length dir.now.lumps ≤ cache.old.lumps }
    ensures tells { ReadsLumps itself (S.view shelf.old) (S.view shelf.new) dir.now cache.old
        cache.new (IsOfMap dir.now.lumps name.now) base_of
        (λ bytes. base_over bytes dir.now.lumps name.now colours.colormap.0 colours.playpal.0
        colours.palette.items) result }
    ensures fits { IfOk result (λ base. (lump : ℕ) → IsOfMap dir.now.lumps name.now lump →
        StandsBeside dir.now.lumps cache.old lump) }
    ensures colormap { IfOk result (λ base. base.colormap ≡ colours.colormap) }
    ensures label { IfOk result (λ base. base.label.0 + length MAP_LUMPS < length dir.now.lumps) }
    ensures few { IfOk result (λ base. length base.textures.lists.textures ≤ MAX_TEXTURES) }
    ensures unprepared { IfOk result (λ base. base.textures.prepared ≡ []) }
    ensures palette { IfOk result (λ base. base.palette ≡ colours.palette) }
{
    let (label, level) = read_labelled(alloc, name, dir, cache, shelf)?;
    let textures = load_lists(alloc, dir, cache, shelf)?;
    let Colours {
        colormap,
        playpal,
        palette,
    } = colours;
    Ok(ReadBase {
        colormap,
        playpal,
        palette,
        label,
        level,
        textures,
    })
}

// The label of the map and its level, with the faults of an audit.
#[tactic(auto, using(art_rules::proofs::Laws::ok_through))]
fn read_labelled<S: Shelf>(
    alloc: Global,
    name: &Name8,
    dir: &Directory,
    cache: &mut LumpCache,
    shelf: &mut S,
) -> Result<(LumpNo, Level), AuditFault>
    requires slots { length dir.now.lumps ≤ cache.old.lumps }
    ensures tells { ReadsLumps itself (S.view shelf.old) (S.view shelf.new) dir.now cache.old
        cache.new (IsLumpOfMap dir.now.lumps name.now) (λ map. (map.0.0, map.1))
        (λ bytes. from_below Map (level_in bytes dir.now.lumps name.now)) result }
    ensures label { IfOk result (λ map. label_of dir.now.lumps name.now ≡ Ok map.0.0) }
    ensures there { IfOk result (λ map. map.0.0 + length MAP_LUMPS < length dir.now.lumps) }
    ensures fits { IfOk result (λ map. (lump : ℕ) → is_map_lump map.0.0 lump ≡ true →
        StandsBeside dir.now.lumps cache.old lump) }
{
    read_level(alloc, name, dir, cache, shelf).map_err(above_level)
}

// The lists of textures, none of which is prepared, with the faults of an audit.
#[tactic(auto, using(art_rules::proofs::Laws::ok_through, art_rules::proofs::Laws::done_through))]
fn load_lists<S: Shelf>(
    alloc: Global,
    dir: &Directory,
    cache: &mut LumpCache,
    shelf: &mut S,
) -> Result<Textures, AuditFault>
    requires slots { length dir.now.lumps ≤ cache.old.lumps }
    ensures tells { ReadsLumps itself (S.view shelf.old) (S.view shelf.new) dir.now cache.old
        cache.new (IsListLump dir.now.lumps) (λ textures. textures.lists)
        (λ bytes. from_below Texture (lists_in bytes dir.now.lumps)) result }
    ensures fits { OnOk result ((lump : ℕ) → IsListLump dir.now.lumps lump →
        StandsBeside dir.now.lumps cache.old lump) }
    ensures few { IfOk result (λ textures. length textures.lists.textures ≤ MAX_TEXTURES) }
    ensures unprepared { IfOk result (λ textures. textures.prepared ≡ []) }
{
    Textures::load(alloc, dir, cache, shelf).map_err(above_textures)
}

// The lumps that a scene needs.
//
// Rules: `scene_rules`, Sizes. The original: `R_PrecacheLevel`, r_data.c.
ghost use Rattle.std.specs.Prelude.{◌≡◌, ◌≤◌, ◌==◌, length, IfOk};
ghost use Rattle.std.specs.List.{list_any};
ghost use Rattle.sound_scene.specs.Rules.{MAX_LUMPS, SKY_FLAT, flat_number, has_flat, is_last, is_list, is_map_lump, is_needed, is_patch_of_any, needed_lumps};
ghost use Rattle.sound_scene.specs.Views.{AddsMarks, lump_numbers};

use crate::marks::Marks;
use art_rules::{MAP_LUMP_COUNT, Name8, OutOfMemory, PNAMES, TEXTURE1, TEXTURE2};
use scene_rules::{Flat, SectorFlats};
use std::alloc::Global;
use std::marker::Model;
use texture_build::{Directory, LumpNo, Textures};

/// What a scene takes from the directory: its lumps of colours, the label of its map, its prepared
/// textures, the flats of its sectors, and the lumps of its pictures. Contracts see their numbers, the
/// prepared textures and the flats.
///
/// The original: the globals that `R_PrecacheLevel`, r_data.c, reads.
#[derive(Drop)]
pub struct NeededArt<'a> {
    pub colormap: LumpNo,
    pub playpal: LumpNo,
    pub label: LumpNo,
    pub textures: &'a Textures,
    pub flats: &'a [SectorFlats],
    pub pictures: &'a [LumpNo],
}

impl<'a> Model for NeededArt<'a> {
    ghost use Rattle.scene_rules.specs.Words.{SceneArt};
    ghost use Rattle.sound_scene.specs.Views.{lump_numbers};

    ghost Value = { SceneArt };

    ghost view = { λ art. record {
      colormap = art.colormap.0;
      playpal = art.playpal.0;
      label = art.label.0;
      prepared = art.textures.now.prepared;
      flats = art.flats.now;
      pictures = lump_numbers art.pictures.now;
    } };
}

/// The lumps that a scene needs, ascending and each once: those of colours, the eight behind the label
/// of its map, the lists of textures, the patches of its prepared textures, the flats of its sectors
/// and its pictures. Of numbers that no lump of the directory has none is there.
///
/// Looks at each patch, sector and picture once, and at each lump of the directory once. Takes memory
/// for the result, and a byte for each lump of the directory while it runs.
///
/// Errors: `OutOfMemory`.
///
/// The original: `R_PrecacheLevel`, r_data.c, which reads them.
///
/// This project's own: lumps of colours, of the map and of the lists are among them.
pub fn needed_lumps(
    alloc: Global,
    dir: &Directory,
    art: &NeededArt<'_>,
) -> Result<Vec<LumpNo>, OutOfMemory>
    ensures { IfOk result (λ lumps. lump_numbers lumps.items ≡ needed_lumps dir.now.lumps art.now) }
{
    let mut marks = Marks::none(alloc, dir.count() as usize)?;
    mark_needed(&mut marks, dir, art);
    marks.lumps(alloc)
}

// Marks all lumps that are needed.
fn mark_needed(marks: &mut Marks, dir: &Directory, art: &NeededArt<'_>)
    requires { length marks.old ≤ MAX_LUMPS }
    ensures count { length marks.new ≡ length marks.old }
    ensures marked { AddsMarks marks.old marks.new (is_needed dir.now.lumps art.now) }
{
    marks.set(art.colormap.0 as usize);
    marks.set(art.playpal.0 as usize);
    mark_map(marks, art.label);
    mark_lists(marks, dir);
    mark_patches(marks, art.textures);
    mark_flats(marks, art.flats);
    mark_lumps(marks, art.pictures);
}

// Marks the eight lumps behind a map's label.
fn mark_map(marks: &mut Marks, label: LumpNo)
    ensures count { length marks.new ≡ length marks.old }
    ensures marked { AddsMarks marks.old marks.new (is_map_lump label.0) }
{
    for i in 0..MAP_LUMP_COUNT {
        marks.set(label.0 as usize + 1 + i);
    }
}

// Marks the lists of textures.
fn mark_lists(marks: &mut Marks, dir: &Directory)
    ensures count { length marks.new ≡ length marks.old }
    ensures marked { AddsMarks marks.old marks.new (is_list dir.now.lumps) }
{
    mark_last(marks, dir, &Name8::from_bytes(PNAMES));
    mark_last(marks, dir, &Name8::from_bytes(TEXTURE1));
    mark_last(marks, dir, &Name8::from_bytes(TEXTURE2));
}

// Marks the last lump of a name, if there is one.
#[tactic(auto, unfolding(scene_rules::specs::Sizes::is_last))]
fn mark_last(marks: &mut Marks, dir: &Directory, name: &Name8)
    ensures count { length marks.new ≡ length marks.old }
    ensures marked { AddsMarks marks.old marks.new (is_last dir.now.lumps name.now) }
{
    if let Some(lump) = dir.last(name) {
        marks.set(lump.0 as usize);
    }
}

// Marks the patches of the prepared textures.
fn mark_patches(marks: &mut Marks, textures: &Textures)
    requires { length marks.old ≤ MAX_LUMPS }
    ensures count { length marks.new ≡ length marks.old }
    ensures marked { AddsMarks marks.old marks.new (is_patch_of_any textures.now.prepared) }
{
    mark_lumps(marks, textures.patches());
}

/// Marks these lumps. A number past the count of marks is let be.
///
/// The original: `R_PrecacheLevel`, r_data.c, which marks flats, textures and sprites.
pub fn mark_lumps(marks: &mut Marks, lumps: &[LumpNo])
    ensures count { length marks.new ≡ length marks.old }
    ensures marked { AddsMarks marks.old marks.new (λ number.
        list_any (λ n. n == number) (lump_numbers lumps.now)) }
{
    for lump in lumps {
        marks.set(lump.0 as usize);
    }
}

/// Marks the lumps that are flats of these sectors; sky and the absence of a flat are no lumps.
///
/// The original: `flatpresent`, `R_PrecacheLevel`, r_data.c.
pub fn mark_flats(marks: &mut Marks, flats: &[SectorFlats])
    requires { length marks.old ≤ SKY_FLAT }
    ensures count { length marks.new ≡ length marks.old }
    ensures marked { AddsMarks marks.old marks.new (λ number.
        list_any (has_flat number) flats.now) }
{
    for both in flats {
        mark_both(marks, both);
    }
}

// Marks both flats of a sector.
#[tactic(auto, unfolding(scene_rules::specs::Sizes::has_flat))]
fn mark_both(marks: &mut Marks, flats: &SectorFlats)
    requires { length marks.old ≤ SKY_FLAT }
    ensures count { length marks.new ≡ length marks.old }
    ensures marked { AddsMarks marks.old marks.new (λ number. has_flat number flats.now) }
{
    mark_flat(marks, flats.floor);
    mark_flat(marks, flats.ceiling);
}

// Marks a flat, if it is a lump.
#[tactic(auto, unfolding(scene_rules::specs::SectorFlats::flat_number))]
fn mark_flat(marks: &mut Marks, flat: Flat)
    requires { length marks.old ≤ SKY_FLAT }
    ensures count { length marks.new ≡ length marks.old }
    ensures marked { AddsMarks marks.old marks.new (λ number. flat_number flat == number) }
{
    if let Flat::Lump(lump) = flat {
        marks.set(lump.0 as usize);
    }
}

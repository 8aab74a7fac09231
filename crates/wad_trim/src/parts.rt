// The parts of the trimmed file, in their order.
//
// Rules: `trim_rules`, Parts.
ghost use Rattle.std.specs.Prelude.{◌≡◌, ◌≤◌, ◌<◌, ◌++◌, ◌^◌, ◌==◌, ◌&&◌, nat_lt, map, not, filter, length, All, IfOk, OnOk};
ghost use Rattle.std.specs.List.{list_any};
ghost use Rattle.std.specs.Option.{option_copied};
ghost use Rattle.wad_trim.specs.Rules.{book_lumps, called_lumps, copy_part, fixed_lumps, flat_lumps, group_parts, has_name, label_or_copy, listed_last, map_of, map_parts, name_of, picture_lumps, trim_parts};
ghost use Rattle.sound_scene.specs.Views.{AddsMarks, lump_numbers};
ghost use Rattle.wad_trim.specs.Plans.{trim_art, layer_lumps};
ghost use Rattle.wad_trim.specs.Writes.{IsPartThere};

use art_rules::{
    F_END, F_START, MAP_LUMP_COUNT, Name8, OutOfMemory, PNAMES, S_END, S_START, TEXTURE1, TEXTURE2,
};
use lump_cache::NAME_SIZE;
use scene_rules::{COLORMAP, PLAYPAL, SectorFlats};
use sound_scene::{Marks, SoundScene, mark_flats, mark_lumps};
use sprite_book::SpriteBook;
use std::alloc::Global;
use texture_build::{Directory, LumpNo, Textures};
use trim_rules::TrimPart;

// All parts. Takes memory for them, and while it runs a byte for each lump of the directory.
pub(crate) fn list_parts(
    alloc: Global,
    scene: &SoundScene,
    weapons: Option<&SpriteBook>,
    dir: &Directory,
    map: &Name8,
) -> Result<Vec<TrimPart>, OutOfMemory>
    ensures parts { IfOk result (λ parts. parts.items ≡ trim_parts dir.now.lumps
        (trim_art scene.now.scene (layer_lumps (option_copied weapons.entry))) map.now) }
    ensures there { IfOk result (λ parts.
        All (IsPartThere (length dir.now.lumps)) parts.items) }
    ensures few { IfOk result (λ parts. length parts.items ≤ 2 ^ 18) }
{
    let flats = flat_lumps(alloc, dir, scene.flats())?;
    let pictures = picture_lumps(alloc, dir, scene.sprites(), weapons)?;
    let called = called_lumps(alloc, dir, scene.textures())?;
    let mut parts = Vec::new(alloc);
    add_group(&mut parts, F_START, &flats, F_END)?;
    add_group(&mut parts, S_START, &pictures, S_END)?;
    add_map(&mut parts, dir, map, has_named(dir, &called, map))?;
    add_called(&mut parts, dir, map, &called)?;
    Ok(parts)
}

// The lumps that are flats of sectors, ascending and each once.
#[tactic(auto, unfolding(trim_rules::specs::Parts::flat_lumps))]
fn flat_lumps(
    alloc: Global,
    dir: &Directory,
    flats: &[SectorFlats],
) -> Result<Vec<LumpNo>, OutOfMemory>
    ensures lumps { IfOk result (λ lumps.
        lump_numbers lumps.items ≡ flat_lumps dir.now.lumps flats.now) }
    ensures few { OnOk result (length dir.now.lumps < 2 ^ 16) }
{
    let mut marks = Marks::none(alloc, dir.count() as usize)?;
    mark_flats(&mut marks, flats);
    marks.lumps(alloc)
}

// The lumps of the pictures of a scene and of its weapon layers, ascending and each once.
#[tactic(auto, unfolding(trim_rules::specs::Parts::picture_lumps))]
fn picture_lumps(
    alloc: Global,
    dir: &Directory,
    sprites: &SpriteBook,
    weapons: Option<&SpriteBook>,
) -> Result<Vec<LumpNo>, OutOfMemory>
    ensures { IfOk result (λ lumps. lump_numbers lumps.items ≡ picture_lumps dir.now.lumps
        (book_lumps sprites.now ++ layer_lumps (option_copied weapons.entry))) }
{
    let mut marks = Marks::none(alloc, dir.count() as usize)?;
    mark_pictures(&mut marks, sprites);
    mark_layers(&mut marks, weapons);
    marks.lumps(alloc)
}

// Marks the lumps of the pictures of weapon layers, where there are some.
fn mark_layers(marks: &mut Marks, weapons: Option<&SpriteBook>)
    ensures count { length marks.new ≡ length marks.old }
    ensures marked { AddsMarks marks.old marks.new (λ number.
        list_any (λ lump. lump == number) (layer_lumps (option_copied weapons.entry))) }
{
    if let Some(book) = weapons {
        mark_pictures(marks, book);
    }
}

// Marks the lumps of a book's pictures.
fn mark_pictures(marks: &mut Marks, book: &SpriteBook)
    ensures count { length marks.new ≡ length marks.old }
    ensures marked { AddsMarks marks.old marks.new (λ number.
        list_any (λ lump. lump == number) (book_lumps book.now)) }
{
    mark_lumps(marks, book.pictures());
}

// All lumps that are found by their names: those of colours, the lists of textures, and the patches
// of the prepared textures that are none of these.
#[tactic(auto, unfolding(trim_rules::specs::Parts::called_lumps))]
fn called_lumps(
    alloc: Global,
    dir: &Directory,
    textures: &Textures,
) -> Result<Vec<LumpNo>, OutOfMemory>
    ensures lumps { IfOk result (λ lumps. lump_numbers lumps.items
        ≡ called_lumps dir.now.lumps textures.now.prepared) }
    ensures there { IfOk result (λ lumps.
        All (λ lump. lump.0 < length dir.now.lumps) lumps.items) }
{
    let fixed = fixed_lumps(alloc, dir)?;
    let mut called = fixed.to_vec(alloc)?;
    add_patches(&mut called, dir.count(), &fixed, textures.patches())?;
    Ok(called)
}

// Adds the patches that are below the count of lumps, and none of the fixed ones.
fn add_patches(
    called: &mut Vec<LumpNo>,
    count: u32,
    fixed: &[LumpNo],
    patches: &[LumpNo],
) -> Result<(), OutOfMemory>
    ensures { OnOk result (lump_numbers called.new.items ≡ lump_numbers called.old.items
        ++ filter (λ n. nat_lt n count
        && not (list_any (λ m. m == n) (lump_numbers fixed.now))) (lump_numbers patches.now)) }
{
    for patch in patches {
        if is_further_patch(count, fixed, *patch) {
            called.push(*patch)?;
        }
    }
    Ok(())
}

// The lump is below the count, and none of the fixed ones.
fn is_further_patch(count: u32, fixed: &[LumpNo], patch: LumpNo) -> bool
    ensures { result ≡ (nat_lt patch.0 count
        && not (list_any (λ m. m == patch.0) (lump_numbers fixed.now))) }
{
    u32::from(patch.0) < count && !has_lump(fixed, patch)
}

// Whether a lump is among these.
fn has_lump(lumps: &[LumpNo], lump: LumpNo) -> bool
    ensures { result ≡ list_any (λ m. m == lump.0) (lump_numbers lumps.now) }
{
    for other in lumps {
        if other.0 == lump.0 {
            return true;
        }
    }
    false
}

// The lumps of colours and the lists of textures, where they are there.
#[tactic(auto, unfolding(trim_rules::specs::Parts::fixed_lumps))]
fn fixed_lumps(alloc: Global, dir: &Directory) -> Result<Vec<LumpNo>, OutOfMemory>
    ensures { IfOk result (λ lumps. lump_numbers lumps.items ≡ fixed_lumps dir.now.lumps) }
{
    let mut lumps = Vec::new(alloc);
    add_last(&mut lumps, dir, PLAYPAL)?;
    add_last(&mut lumps, dir, COLORMAP)?;
    add_last(&mut lumps, dir, PNAMES)?;
    add_last(&mut lumps, dir, TEXTURE1)?;
    add_last(&mut lumps, dir, TEXTURE2)?;
    Ok(lumps)
}

// Adds the last lump of a name, if there is one.
#[tactic(auto, unfolding(trim_rules::specs::Parts::listed_last))]
fn add_last(
    lumps: &mut Vec<LumpNo>,
    dir: &Directory,
    name: [u8; NAME_SIZE],
) -> Result<(), OutOfMemory>
    ensures { OnOk result (lump_numbers lumps.new.items
        ≡ lump_numbers lumps.old.items ++ listed_last dir.now.lumps (name_of name)) }
{
    if let Some(lump) = dir.last(&Name8::from_bytes(name)) {
        lumps.push(lump)?;
    }
    Ok(())
}

// Adds lumps between two marks.
#[tactic(auto, unfolding(trim_rules::specs::Parts::group_parts))]
fn add_group(
    parts: &mut Vec<TrimPart>,
    start: [u8; NAME_SIZE],
    lumps: &[LumpNo],
    end: [u8; NAME_SIZE],
) -> Result<(), OutOfMemory>
    ensures { OnOk result (parts.new.items ≡ parts.old.items
        ++ group_parts (name_of start) (lump_numbers lumps.now) (name_of end)) }
{
    parts.push(TrimPart::Mark(Name8::from_bytes(start)))?;
    for lump in lumps {
        parts.push(TrimPart::Copy(*lump))?;
    }
    parts.push(TrimPart::Mark(Name8::from_bytes(end)))?;
    Ok(())
}

// Adds the label of the map and the eight lumps behind it. The label has its bytes where it is
// called, that is, found by its name too.
#[tactic(auto, unfolding(trim_rules::specs::Parts::map_parts))]
fn add_map(
    parts: &mut Vec<TrimPart>,
    dir: &Directory,
    name: &Name8,
    called: bool,
) -> Result<(), OutOfMemory>
    ensures { OnOk result (parts.new.items
        ≡ parts.old.items ++ map_parts called (map_of dir.now.lumps name.now)) }
{
    if let Some(label) = dir.map(name) {
        parts.push(label_part(label, called))?;
        for i in 0..MAP_LUMP_COUNT {
            parts.push(TrimPart::Copy(LumpNo(label.0 + 1 + i as u16)))?;
        }
    }
    Ok(())
}

#[tactic(auto, unfolding(trim_rules::specs::Parts::label_or_copy))]
fn label_part(label: LumpNo, called: bool) -> TrimPart
    ensures { result ≡ label_or_copy called label.0 }
{
    if called {
        TrimPart::Copy(label)
    } else {
        TrimPart::Label(label)
    }
}

// Whether one of these lumps has that name.
fn has_named(dir: &Directory, lumps: &[LumpNo], name: &Name8) -> bool
    requires { All (λ lump. lump.0 < length dir.now.lumps) lumps.now }
    ensures { result ≡ list_any (has_name dir.now.lumps name.now) (lump_numbers lumps.now) }
{
    for lump in lumps {
        if lump_has_name(dir, *lump, name) {
            return true;
        }
    }
    false
}

// Whether a lump has that name.
fn lump_has_name(dir: &Directory, lump: LumpNo, name: &Name8) -> bool
    requires { lump.0 < length dir.now.lumps }
    ensures { result ≡ has_name dir.now.lumps name.now lump.0 }
{
    dir.name(lump) == *name
}

// Adds what is found by its name, but for the label of the map.
fn add_called(
    parts: &mut Vec<TrimPart>,
    dir: &Directory,
    name: &Name8,
    called: &[LumpNo],
) -> Result<(), OutOfMemory>
    requires { All (λ lump. lump.0 < length dir.now.lumps) called.now }
    ensures { OnOk result (parts.new.items ≡ parts.old.items ++ map copy_part
        (filter (λ n. not (has_name dir.now.lumps name.now n)) (lump_numbers called.now))) }
{
    for lump in called {
        if !lump_has_name(dir, *lump, name) {
            parts.push(TrimPart::Copy(*lump))?;
        }
    }
    Ok(())
}

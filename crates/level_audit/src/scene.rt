// A scene over its base.
//
// Rules: `scene_rules`, Scenes (`scene_on`); `specs/Scenes`. The original: `P_SetupLevel`,
// p_setup.c, `R_PrecacheLevel`, r_data.c.
ghost use Rattle.level_audit.specs.Rules.{IsSkill, MAX_TEXTURES, book_lumps, itself, need_of, scene_on, scene_over};
ghost use Rattle.std.specs.Prelude.{◌≡◌, ◌<◌, ◌≤◌, ◌⊎◌, All, length, map, IfOk, OnOk};
ghost use Rattle.texture_build.specs.Calls.{ReadsLumps};
ghost use Rattle.texture_build.specs.Views.{IsPrepared};
ghost use Rattle.sprite_book.specs.Calls.{IsWanted};
ghost use Rattle.sound_scene.specs.Bases.{base_of};
ghost use Rattle.level_audit.specs.Asked.{IsOfScene};
ghost use Rattle.sound_scene.specs.Scenes.{faces_of, scene_value};
ghost use Rattle.sound_scene.specs.Whole.{IsMiddleSingle, IsWholeScene};

use crate::AuditFault;
use crate::art::{prepare_faces, read_book};
use crate::checks::check_scene;
use crate::fault::above_scene;
use crate::names::find_faces;
use art_rules::{Name8, Shelf};
use csv_tables::ThingTable;
use level_scene::{PlacedThings, place_things};
use sound_scene::{ReadBase, ReadFaces, ReadScene};
use std::alloc::Global;
use texture_build::{Directory, LumpCache};

/// A map by name, the looks of things, and a skill of 1 to 5.
#[derive(Clone, Copy)]
pub struct MapRequest<'a> {
    pub name: &'a Name8,
    pub things: &'a ThingTable,
    pub skill: u8,
}

/// The scene over a base, for a skill of 1 to 5, with things that look as the thing table says.
///
/// In order: the textures of sides, the sky, the flats of sectors; the wanted textures are prepared;
/// things are placed, and the pictures of their frames read; then no thing may be one that would be
/// drawn as a shadow, and masked mid textures must have single columns. Each lump is fetched with
/// the tag `Cache`, read, and left purgeable. Takes memory for what is kept.
///
/// Errors: `Refused` with the first refusal in that order. `ReadFault` only where a call of the shelf
/// failed. `ZoneFull` where no gap of the zone held the block of a patch or a picture.
/// `OutOfMemory`. Whatever comes, what `ReadsLumps` says is kept of the cache.
///
/// The scene has all that drawing asks of it, whatever the lumps' bytes were, if the lists have no
/// more than `MAX_TEXTURES` textures (`whole`).
///
/// The original: `P_SetupLevel`, p_setup.c, `R_PrecacheLevel`, r_data.c.
pub fn read_scene<S: Shelf>(
    alloc: Global,
    base: ReadBase,
    request: &MapRequest,
    dir: &Directory,
    cache: &mut LumpCache,
    shelf: &mut S,
) -> Result<ReadScene, AuditFault>
    requires slots { length dir.now.lumps ≤ cache.old.lumps }
    requires skill { IsSkill request.now.skill }
    ensures tells { ReadsLumps itself (S.view shelf.old) (S.view shelf.new) dir.now cache.old
        cache.new (IsOfScene dir.now.lumps request.now.things.now request.now.skill
        request.now.name.now (base_of base)) scene_value
        (λ bytes. scene_on bytes dir.now.lumps request.now.things.now request.now.skill
        request.now.name.now (base_of base)) result }
    ensures base { IfOk result (λ scene. base_of scene.base ≡ base_of base) }
    ensures flats { IfOk result (λ scene.
        length scene.faces.flats.items ≡ length base.level.sectors) }
    ensures whole { length base.textures.lists.textures ≤ MAX_TEXTURES → IfOk result (λ scene.
        IsWholeScene dir.now.lumps request.now.things.now request.now.name.now
        request.now.skill (scene_value scene)) }
{
    let faces = match find_faces(alloc, request.name, dir, &base.level, base.textures.lists()) {
        Ok(faces) => faces,
        Err(fault) => return Err(above_scene(fault)),
    };
    let mut base = base;
    prepare_faces(
        alloc,
        &faces.sides,
        faces.sky,
        &mut base.textures,
        dir,
        cache,
        shelf,
    )?;
    let placed = place_things(alloc, &base.level, request.things, request.skill)?;
    read_things(alloc, base, faces, placed, dir, cache, shelf)
}

// The scene over a base with its textures prepared, with the things placed.
fn read_things<S: Shelf>(
    alloc: Global,
    base: ReadBase,
    faces: ReadFaces,
    placed: PlacedThings,
    dir: &Directory,
    cache: &mut LumpCache,
    shelf: &mut S,
) -> Result<ReadScene, AuditFault>
    requires slots { length dir.now.lumps ≤ cache.old.lumps }
    requires sides { length faces.sides.items ≡ length base.level.sides }
    requires middles { All (λ side. (side.middle ≡ 0) ⊎
        IsPrepared base.textures side.middle) faces.sides.items }
    ensures tells { ReadsLumps itself (S.view shelf.old) (S.view shelf.new) dir.now cache.old
        cache.new (IsWanted dir.now.lumps (map need_of placed)) scene_value (λ bytes.
        scene_over bytes dir.now.lumps (base_of base) (faces_of faces) placed
        base.textures.prepared) result }
    ensures base { IfOk result (λ scene. scene.base ≡ base) }
    ensures faces { IfOk result (λ scene. scene.faces ≡ faces) }
    ensures placed { IfOk result (λ scene. scene.placed ≡ placed) }
    ensures middles { OnOk result
        (All (IsMiddleSingle base.textures faces.sides.items) base.level.segs) }
    ensures pictures { IfOk result (λ scene. All (λ lump. lump < length dir.now.lumps)
        (book_lumps scene.book)) }
{
    let book = read_book(alloc, &placed, dir, cache, shelf)?;
    match check_scene(
        alloc,
        &placed,
        &base.textures,
        base.level.segs(),
        &faces.sides,
    ) {
        Ok(()) => Ok(ReadScene {
            base,
            faces,
            placed,
            book,
        }),
        Err(fault) => Err(above_scene(fault)),
    }
}

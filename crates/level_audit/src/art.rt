// The lumps of a scene's art, read through the cache: patches of wanted textures, pictures of things.
//
// Rules: `art_rules`, Wanted; `sprite_book`, Books; `scene_rules`, Scenes. The original:
// `R_PrecacheLevel`, r_data.c.
ghost use Rattle.level_audit.specs.Rules.{Sprite, book_in, book_lumps, from_below, is_wanted_texture, itself, last_of, need_of, prepared_textures};
ghost use Rattle.level_scene.specs.Bounds.{AreBelow};
ghost use Rattle.texture_build.specs.Calls.{ReadsLumps};
ghost use Rattle.scene_rules.specs.declared.refusal.AuditRefusal.TheVariants.{Texture};
ghost use Rattle.sound_scene.specs.Whole.{AreSidePrepared};
ghost use Rattle.sprite_book.specs.Calls.{IsWanted};
ghost use Rattle.std.specs.Prelude.{◌≡◌, ◌<◌, ◌≤◌, All, length, map, option_map, IfOk, IfSome, OnOk};
ghost use Rattle.texture_build.specs.Asked.{IsWantedPatch};
ghost use Rattle.texture_build.specs.Views.{AllTexturesListed, AllThere, IsPrepared};

use crate::AuditFault;
use crate::fault::{above_sprites, above_textures};
use art_rules::Shelf;
use level_scene::{PlacedThings, wanted_textures};
use scene_rules::SideTextures;
use sprite_book::SpriteBook;
use std::alloc::Global;
use texture_build::{Directory, LumpCache, TexNo, Textures};

// Prepares the textures that sides and sky want, in the order of their numbers.
pub(crate) fn prepare_faces<S: Shelf>(
    alloc: Global,
    sides: &[SideTextures],
    sky: Option<TexNo>,
    textures: &mut Textures,
    dir: &Directory,
    cache: &mut LumpCache,
    shelf: &mut S,
) -> Result<(), AuditFault>
    requires slots { length dir.now.lumps ≤ cache.old.lumps }
    requires below { All (AreBelow (length textures.old.lists.textures)) sides.now }
    requires sky { IfSome sky (λ tex. tex.0 < length textures.old.lists.textures) }
    ensures tells { ReadsLumps itself (S.view shelf.old) (S.view shelf.new) dir.now cache.old
        cache.new (IsWantedPatch dir.now.lumps textures.old.lists
        (is_wanted_texture sides.now (option_map (λ tex. tex.0) sky))) (λ _.
        textures.new.prepared) (λ bytes.
        from_below Texture (prepared_textures (last_of dir.now.lumps) bytes textures.old.lists
        (is_wanted_texture sides.now (option_map (λ tex. tex.0) sky)))) result }
    ensures lists { textures.new.lists ≡ textures.old.lists }
    ensures sides { OnOk result (All (AreSidePrepared textures.new) sides.now) }
    ensures sky { OnOk result
        (IfSome (option_map (λ tex. tex.0) sky) (IsPrepared textures.new)) }
    ensures there { OnOk result (AllThere dir.now.lumps textures.new) }
    ensures listed { OnOk result (AllTexturesListed textures.new) }
{
    let wanted = wanted_textures(alloc, sides, sky)?;
    textures
        .prepare(alloc, &wanted, dir, cache, shelf)
        .map_err(above_textures)
}

// Reads the pictures of the frames that placed things need.
pub(crate) fn read_book<S: Shelf>(
    alloc: Global,
    placed: &PlacedThings,
    dir: &Directory,
    cache: &mut LumpCache,
    shelf: &mut S,
) -> Result<SpriteBook, AuditFault>
    requires slots { length dir.now.lumps ≤ cache.old.lumps }
    ensures tells { ReadsLumps itself (S.view shelf.old) (S.view shelf.new) dir.now cache.old
        cache.new (IsWanted dir.now.lumps (map need_of placed.now)) (λ book. book) (λ bytes.
        from_below Sprite (book_in bytes dir.now.lumps placed.now)) result }
    ensures there { IfOk result (λ book. All (λ lump. lump < length dir.now.lumps)
        (book_lumps book)) }
{
    let needs = placed.needs(alloc)?;
    SpriteBook::load(alloc, &needs, dir, cache, shelf).map_err(above_sprites)
}

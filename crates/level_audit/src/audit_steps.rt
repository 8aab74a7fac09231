// The steps of an audit, in their order.
//
// Rules: `scene_rules`, Scenes; `specs/Reads`. The original: `P_SetupLevel`, p_setup.c,
// `R_InitData`, r_data.c.
ghost use Rattle.level_audit.specs.Rules.{HasCauses, IsInOrder, IsLaterShelf, IsSkill, Item, MIN_FRAGMENT, NameFiles, ResultIs, SceneValue, art_of, block_size, bytes_of, colormap_of, has_item, holding_of, itself, lump_at, lump_bytes, needed_lumps, scene_in, sizes_of};
ghost use Rattle.std.specs.Prelude.{◌≡◌, ◌≢◌, ◌<◌, ◌≤◌, ◌+◌, ℕ, List, length, true, Some, Ok, IfOk, IfErr, IfSome, IsOk};
ghost use Rattle.texture_build.specs.Caches.{IsAtRest, IsEmpty, IsFaithful, KeepsCounts, composite_owner, holds_static, lump_owner};
ghost use Rattle.texture_build.specs.Calls.{IfFull, LeavesInOrder, HoldContents, ReadsLumps};
ghost use Rattle.texture_build.specs.Sizes.{HasSizes, IsGapAround, StandsBeside};
ghost use Rattle.level_audit.specs.Asked.{IsOfBase};
ghost use Rattle.sound_scene.specs.Whole.{IsWholeScene};
ghost use Rattle.level_audit.specs.Reads.{IsFullAudit, IsReadBy, IsReadLater};

use crate::base::read_base;
use crate::scene::{MapRequest, read_scene};
use crate::{AuditFault, AuditRefusal, SoundScene};
use art_rules::{Fault, Name8, Shelf};
use csv_tables::ThingTable;
use job_files::find_colormap;
use std::alloc::Global;
use texture_build::{Directory, LumpCache, LumpNo, Tag};

/// The scene of a map, for a skill of 1 to 5, with things that look as the thing table says; or the
/// first thing that is wrong with it.
///
/// In order: COLORMAP is found, and fetched with the tag `Static`; PLAYPAL; the eight lumps of the
/// map; PNAMES, TEXTURE1 and, where it is there, TEXTURE2; the textures of sides, the sky, the flats
/// of sectors; the wanted textures; the pictures of things; no shadow; masked mid textures of single
/// columns. One lump at a time is fetched with the tag `Cache`, read, and left purgeable. Takes
/// memory for the scene.
///
/// Errors: `Refused` with the first refusal in that order. `ReadFault` only where the shelf's count
/// of faults rose, and never over a steady shelf with the files that the directory was loaded from.
/// `ZoneFull` only once COLORMAP is found (`found`), where no gap of the zone held the block of one
/// of these lumps; from a cache without a live slot only in a zone smaller than the block of
/// COLORMAP, that block and `MIN_FRAGMENT` (`room`), and, where nothing refuses, smaller than the
/// scene's `enough` (`enough`); the widest gap is then the whole zone, if COLORMAP itself had no room,
/// and else all that is left beside it (`gap`). `OutOfMemory`.
///
/// After Ok COLORMAP is live and pinned for the whole run, whatever was live before (`pinned`). From a
/// cache without a live slot it stands at place 0, and no other block is pinned (`rest`). Where each
/// live lump had the directory's size, its block and that of each of the other lumps of colours, of
/// the map, and of the lists are together no larger than the zone (`fits`).
///
/// After Ok over any shelf, the scene has all that drawing asks of it (`whole`).
///
/// The original: `P_SetupLevel`, p_setup.c, `R_InitData` and `R_PrecacheLevel`, r_data.c,
/// `R_InitSprites`, r_things.c. This project's own: that all is checked before anything is drawn.
pub fn audit<S: Shelf>(
    alloc: Global,
    dir: &Directory,
    cache: &mut LumpCache,
    shelf: &mut S,
    things: &ThingTable,
    map: &Name8,
    skill: u8,
) -> Result<SoundScene, AuditFault>
    requires slots { length dir.now.lumps ≤ cache.old.lumps }
    requires skill { IsSkill skill }
    ensures answers { (contents : List (List ℕ)) →
        HoldContents (S.view shelf.old) dir.now cache.old contents →
        ResultIs itself (S.view shelf.old).steady (λ sound.
        sound.scene) (scene_in (lump_bytes contents dir.now.lumps) dir.now.lumps things.now
        map.now skill) result }
    ensures named { IfOk result (λ sound.
        sound.named ≡ needed_lumps dir.now.lumps (art_of sound.scene)) }
    ensures sizes { IfOk result (λ sound. sound.sizes ≡ sizes_of dir.now.lumps sound.scene) }
    ensures colormap { IfOk result (λ sound.
        colormap_of dir.now.lumps ≡ Ok sound.scene.base.colormap) }
    ensures causes { HasCauses itself (S.view shelf.old).faults (S.view shelf.new).faults result }
    ensures found { IfErr result (λ fault.
        IfFull (itself fault) (λ wanted widest'. IsOk (colormap_of dir.now.lumps))) }
    ensures full { IfErr result (λ fault.
        IfFull (itself fault) (IsFullAudit (S.view shelf.old) dir.now cache.old things.now map.now
        skill)) }
    ensures room { (colormap : ℕ) → colormap_of dir.now.lumps ≡ Ok colormap → IsEmpty cache.old →
        IfErr result (λ fault. IfFull (itself fault) (λ wanted widest'.
        cache.old.size < block_size (lump_at dir.now.lumps colormap).size + wanted +
        MIN_FRAGMENT)) }
    ensures gap { (colormap : ℕ) → colormap_of dir.now.lumps ≡ Ok colormap → IsEmpty cache.old →
        IfErr result (λ fault. IfFull (itself fault) (λ wanted widest'.
        IsGapAround cache.old.size (block_size (lump_at dir.now.lumps colormap).size) wanted
        widest')) }
    ensures enough { (contents : List (List ℕ)) (scene : SceneValue) →
        HoldContents (S.view shelf.old) dir.now cache.old contents →
        scene_in (lump_bytes contents dir.now.lumps) dir.now.lumps things.now map.now skill ≡ Ok
        scene → IsEmpty cache.old →
        IfErr result (λ fault. IfFull (itself fault) (λ wanted widest'.
        cache.old.size < (sizes_of dir.now.lumps scene).enough)) }
    ensures rest { IsEmpty cache.old →
        IfOk result (λ sound. IsAtRest sound.scene.base.colormap
        (lump_at dir.now.lumps sound.scene.base.colormap).size cache.new) }
    ensures pinned { IfOk result (λ sound. holds_static
        (holding_of (lump_owner sound.scene.base.colormap) cache.new.blocks) ≡ true) }
    ensures fits { HasSizes dir.now.lumps cache.old →
        IfOk result (λ sound. (lump : ℕ) → IsOfBase dir.now.lumps map.now lump →
        lump ≢ sound.scene.base.colormap →
        block_size (lump_at dir.now.lumps sound.scene.base.colormap).size + block_size (lump_at
        dir.now.lumps lump).size ≤ cache.old.size) }
    ensures whole { IfOk result (λ sound.
        IsWholeScene dir.now.lumps things.now map.now skill sound.scene) }
    ensures follows { IsLaterShelf (S.view shelf.old) (S.view shelf.new) }
    ensures counts { KeepsCounts cache.old cache.new }
    ensures faithful { (contents : List (List ℕ)) →
        NameFiles (S.view shelf.old) dir.now.files contents →
        IsFaithful contents dir.now.lumps cache.old → IsFaithful contents dir.now.lumps cache.new }
    ensures composites { (number : ℕ) →
        IfSome (bytes_of (composite_owner number) cache.new.blocks) (λ bytes.
        bytes_of (composite_owner number) cache.old.blocks ≡ Some bytes) }
    ensures order { (contents : List (List ℕ)) (items : List Item) →
        HoldContents (S.view shelf.old) dir.now cache.old contents →
        ((lump : ℕ) →
        IsReadBy (lump_bytes contents dir.now.lumps) dir.now.lumps things.now map.now skill
        lump → has_item items (lump_owner lump) (lump_at dir.now.lumps lump).size ≡ true) →
        IsInOrder items cache.old →
        LeavesInOrder itself items (S.view shelf.old) (S.view shelf.new)
        cache.old cache.new result }
{
    let colormap = match find_colormap(dir) {
        Ok(colormap) => colormap,
        Err(refusal) => return Err(Fault::Refused(AuditRefusal::Art(refusal))),
    };
    let request = MapRequest {
        name: map,
        things,
        skill,
    };
    match cache.fetch(shelf, dir, colormap, Tag::Static) {
        Ok(()) => audit_rest(alloc, colormap, &request, dir, cache, shelf),
        Err(fault) => Err(fault.above()),
    }
}

// The steps after COLORMAP, whose lump this is.
fn audit_rest<S: Shelf>(
    alloc: Global,
    colormap: LumpNo,
    request: &MapRequest,
    dir: &Directory,
    cache: &mut LumpCache,
    shelf: &mut S,
) -> Result<SoundScene, AuditFault>
    requires slots { length dir.now.lumps ≤ cache.old.lumps }
    requires skill { IsSkill request.now.skill }
    requires colormap { colormap_of dir.now.lumps ≡ Ok colormap.0 }
    ensures tells { ReadsLumps itself (S.view shelf.old) (S.view shelf.new) dir.now cache.old
        cache.new (IsReadLater (S.view shelf.old) dir.now cache.old request.now.things.now
        request.now.name.now request.now.skill) (λ sound. sound.scene) (λ bytes.
        scene_in bytes dir.now.lumps request.now.things.now request.now.name.now
        request.now.skill) result }
    ensures named { IfOk result (λ sound.
        sound.named ≡ needed_lumps dir.now.lumps (art_of sound.scene)) }
    ensures sizes { IfOk result (λ sound. sound.sizes ≡ sizes_of dir.now.lumps sound.scene) }
    ensures colormap { IfOk result (λ sound. sound.scene.base.colormap ≡ colormap.0) }
    ensures whole { IfOk result (λ sound.
        IsWholeScene dir.now.lumps request.now.things.now request.now.name.now
        request.now.skill sound.scene) }
    ensures fits { IfOk result (λ sound. (lump : ℕ) → IsOfBase dir.now.lumps
        request.now.name.now lump →
        StandsBeside dir.now.lumps cache.old lump) }
{
    let base = read_base(alloc, colormap, request.name, dir, cache, shelf)?;
    let scene = read_scene(alloc, base, request, dir, cache, shelf)?;
    Ok(SoundScene::new(alloc, dir, scene)?)
}

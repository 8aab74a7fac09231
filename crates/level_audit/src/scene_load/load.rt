// The files and the scene of a job over a level.
//
// Rules: specs, Loads, Fulls, Orders and Calls. The original: `D_DoomMain`, d_main.c, `P_SetupLevel`,
// p_setup.c.
ghost use Rattle.level_audit.specs.Rules.{AreRoomy, IsInOrder, IsSkill, IsZoneSize, Item, MAX_SIZE, MIN_SIZE, OutOfMemory, itself, level_job_value};
ghost use Rattle.std.specs.Prelude.{◌≡◌, ◌<◌, ◌≤◌, ◌^◌, ℕ, List, length, map, IfOk, IfErr};
ghost use Rattle.texture_build.specs.Caches.{IsEmpty, IsFaithful};
ghost use Rattle.texture_build.specs.Calls.{ReadsLumps};
ghost use Rattle.level_audit.specs.Weapons.{AreThere};
ghost use Rattle.level_audit.specs.scene_load.Calls.{AuditsLevel, LoadsScene};
ghost use Rattle.level_audit.specs.scene_load.Fulls.{IsOfLayers};
ghost use Rattle.level_audit.specs.scene_load.Loads.{weapons_of, with_layers};

use crate::scene_load::fault::audit_fault;
use crate::{AuditFault, SoundScene, audit, audit_weapons};
use art_rules::{Fault, Shelf};
use csv_tables::WeaponTable;
use job_files::{LoadFault, SceneFiles, read_files};
use job_rules::LevelJob;
use sprite_book::SpriteBook;
use std::alloc::Global;
use texture_build::{Directory, LumpCache, ZoneMake};

/// The slots of composites: one for each texture that there may be.
pub const COMPOSITE_SLOTS: u32 = 32767;

/// What a job over a level has before it draws or tells anything: what its files give, the cache with
/// its zone, the scene that passed its audit, and the pictures of weapon layers, where a file of them
/// is named.
///
/// The original: the globals that `D_DoomMain`, d_main.c, and `P_SetupLevel`, p_setup.c, set.
pub struct LoadedScene {
    pub files: SceneFiles,
    pub cache: LumpCache,
    pub scene: SoundScene,
    pub weapons: Option<SpriteBook>,
}

// By hand, so that a drop of one is one call.
impl Drop for LoadedScene {
    fn drop(self) {
        let LoadedScene {
            files: _,
            cache: _,
            scene: _,
            weapons: _,
        } = self;
    }
}

/// The files of a job over a level, in these WADs, and its scene in a zone of the size that the
/// settings tell.
///
/// In order: the files, each asked for and read in its turn; then the zone is made; then the audit of
/// the level; then the pictures of the weapon layers, where a file of them is named. Takes memory for
/// the files' tables, the directory, the zone with its slots, and the scene.
///
/// Errors: `Refused` with the first refusal in that order. `ReadFault` only where a call of the shelf
/// failed; over a steady shelf only where a file is not held. `ZoneFull` only where the files are in
/// order, and the zone is small (`full`). `OutOfMemory`. The shelf goes on to stand for what it stood
/// for.
///
/// After Ok over any shelf, the scene has all that drawing asks of it (`whole`); over one that holds
/// the WADs, the lumps and composites in the cache and the textures are what their bytes give (`art`).
///
/// In a zone that is large enough for all that the level needs (`roomy`), `ZoneFull` does not come;
/// unless a read failed, no more bytes are read than the files that are read whole, the header and
/// the directory of each WAD and the needed lumps have, each once; and after Ok the cache is in
/// order for all that drawing may ask for (`order`).
///
/// The original: `D_DoomMain`, d_main.c, with `R_Init`, r_main.c, and `P_SetupLevel`, p_setup.c.
pub fn load_scene<S: Shelf>(
    alloc: Global,
    level: &LevelJob<'_>,
    wads: &[&str],
    shelf: &mut S,
) -> Result<LoadedScene, LoadFault>
    requires zone { IsZoneSize level.now.settings.zone }
    requires skill { IsSkill level.now.settings.skill }
    requires least { MIN_SIZE ≤ level.now.settings.size }
    requires greatest { level.now.settings.size ≤ MAX_SIZE }
    ensures { LoadsScene (level_job_value level.now) (map (λ wad. wad.now) wads.now)
        (S.view shelf.old) (S.view shelf.new) result }
{
    let files = read_files(alloc, &level.files, wads, &level.settings, shelf)?;
    let mut cache = make_cache(alloc, &files.dir, level.settings.zone)?;
    let (scene, weapons) = audit_level(alloc, level, &files, &mut cache, shelf).map_err(
        audit_fault,
    )?;
    Ok(LoadedScene {
        files,
        cache,
        scene,
        weapons,
    })
}

// A cache over a zone of that size, without a live slot.
fn make_cache(alloc: Global, dir: &Directory, size: u32) -> Result<LumpCache, LoadFault>
    requires zone { IsZoneSize size }
    requires few { length dir.now.lumps < 2 ^ 16 }
    ensures memory { IfErr result (λ fault. fault ≡ OutOfMemory) }
    ensures empty { IfOk result IsEmpty }
    ensures size { IfOk result (λ cache. cache.size ≡ size) }
    ensures slots { IfOk result (λ cache. cache.lumps ≡ length dir.now.lumps) }
    ensures composites { IfOk result (λ cache. cache.composites ≡ COMPOSITE_SLOTS) }
    ensures faithful { (contents : List (List ℕ)) →
        IfOk result (IsFaithful contents dir.now.lumps) }
    ensures order { (items : List Item) → AreRoomy size items → IfOk result (IsInOrder items) }
{
    match LumpCache::new(alloc, dir, size, COMPOSITE_SLOTS) {
        Ok(cache) => Ok(cache),
        Err(ZoneMake::BadSize) => unreachable!(),
        Err(ZoneMake::OutOfMemory) => Err(Fault::OutOfMemory),
    }
}

// The audit of the level, and the pictures of its weapon layers, where there are some.
fn audit_level<S: Shelf>(
    alloc: Global,
    level: &LevelJob<'_>,
    files: &SceneFiles,
    cache: &mut LumpCache,
    shelf: &mut S,
) -> Result<(SoundScene, Option<SpriteBook>), AuditFault>
    requires skill { IsSkill level.now.settings.skill }
    requires slots { length files.now.dir.lumps ≤ cache.old.lumps }
    requires empty { IsEmpty cache.old }
    requires size { cache.old.size ≡ level.now.settings.zone }
    ensures { AuditsLevel (λ audited. audited) (level_job_value level.now) files.now
        (S.view shelf.old) (S.view shelf.new) cache.old cache.new result }
{
    let mut scene = audit(
        alloc,
        &files.dir,
        cache,
        shelf,
        &files.things,
        &level.map,
        level.settings.skill,
    )?;
    let weapons = audit_layers(alloc, &mut scene, &files.weapons, &files.dir, cache, shelf)?;
    Ok((scene, weapons))
}

// The pictures of weapon layers, where there are some, which the scene then needs too.
fn audit_layers<S: Shelf>(
    alloc: Global,
    scene: &mut SoundScene,
    weapons: &Option<WeaponTable>,
    dir: &Directory,
    cache: &mut LumpCache,
    shelf: &mut S,
) -> Result<Option<SpriteBook>, AuditFault>
    requires slots { length dir.now.lumps ≤ cache.old.lumps }
    requires colormap { scene.old.scene.base.colormap < length dir.now.lumps }
    ensures tells { ReadsLumps itself (S.view shelf.old) (S.view shelf.new) dir.now
        cache.old cache.new (IsOfLayers dir.now.lumps weapons.now) (λ book. book)
        (λ bytes. weapons_of bytes dir.now.lumps weapons.now) result }
    ensures scene { IfOk result (λ book.
        scene.new ≡ with_layers dir.now.lumps book scene.old) }
    ensures there { IfOk result (λ book. AreThere dir.now.lumps book) }
{
    match weapons {
        Some(weapons) => Ok(Some(audit_weapons(alloc, scene, weapons, dir, cache, shelf)?)),
        None => Ok(None),
    }
}

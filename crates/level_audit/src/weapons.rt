// The pictures of weapon layers.
//
// Rules: `specs/Weapons`. The original: `R_InitSpriteDefs`, r_things.c.
ghost use Rattle.std.specs.Prelude.{◌≡◌, ◌<◌, ◌≤◌, ◌+◌, ◌++◌, ◌^◌, length, IfOk, OnErr, Some};
ghost use Rattle.level_audit.specs.Rules.{WeaponArt, from_below, itself};
ghost use Rattle.texture_build.specs.Calls.{ReadsLumps};
ghost use Rattle.sprite_book.specs.Calls.{IsWanted};
ghost use Rattle.sound_scene.specs.Sound.{with_book};
ghost use Rattle.level_audit.specs.Weapons.{AreThere, need_of_row, weapon_art, weapon_book, weapon_fault, weapon_needs, weapon_refusal};

use crate::{AuditFault, AuditRefusal, SoundScene, WeaponRefusal};
use art_rules::{OutOfMemory, Shelf, SpriteRefusal};
use csv_tables::{WeaponRow, WeaponTable};
use sound_scene::find_needed;
use sprite_book::{Need, SpriteBook, SpriteFault};
use std::alloc::Global;
use texture_build::{Directory, LumpCache, LumpNo};

/// The pictures of the frames that the rows of a weapon table need, which the scene then needs too:
/// its lumps and its sizes are those of its own pictures and of these, not of an earlier call's.
///
/// Each lump is fetched with the tag `Cache`, read, and left purgeable. Takes memory for the
/// pictures and the numbers of lumps.
///
/// Errors: `Refused` with `WeaponArt` of the first row, counted from 1, whose frame has no picture,
/// then the least rotation without one, then the first picture that is no patch. `ReadFault` only
/// where a call of the shelf failed. `ZoneFull` where no gap of the zone held a picture's block.
/// `OutOfMemory`. After any of them the scene is as it was.
///
/// The original: `R_InitSpriteDefs`, r_things.c, which ends the program there.
pub fn audit_weapons<S: Shelf>(
    alloc: Global,
    scene: &mut SoundScene,
    weapons: &WeaponTable,
    dir: &Directory,
    cache: &mut LumpCache,
    shelf: &mut S,
) -> Result<SpriteBook, AuditFault>
    requires slots { length dir.now.lumps ≤ cache.old.lumps }
    requires colormap { scene.old.scene.base.colormap < length dir.now.lumps }
    ensures tells { ReadsLumps itself (S.view shelf.old) (S.view shelf.new) dir.now cache.old
        cache.new (IsWanted dir.now.lumps (weapon_needs weapons.now)) (λ book. book) (λ bytes.
        from_below WeaponArt (weapon_book bytes dir.now.lumps weapons.now)) result }
    ensures scene { IfOk result (λ book. scene.new ≡ with_book dir.now.lumps book scene.old) }
    ensures there { IfOk result (λ book. AreThere dir.now.lumps (Some book)) }
    ensures unchanged { OnErr result (scene.new ≡ scene.old) }
{
    let book = load_weapons(alloc, weapons, dir, cache, shelf)?;
    let pictures = both_pictures(alloc, scene.sprites().pictures(), book.pictures())?;
    let needed = find_needed(alloc, dir, scene.read(), &pictures)?;
    scene.set_needed(needed);
    Ok(book)
}

// The book of the frames that the rows need.
fn load_weapons<S: Shelf>(
    alloc: Global,
    weapons: &WeaponTable,
    dir: &Directory,
    cache: &mut LumpCache,
    shelf: &mut S,
) -> Result<SpriteBook, AuditFault>
    requires slots { length dir.now.lumps ≤ cache.old.lumps }
    ensures tells { ReadsLumps itself (S.view shelf.old) (S.view shelf.new) dir.now cache.old
        cache.new (IsWanted dir.now.lumps (weapon_needs weapons.now)) (λ book. book) (λ bytes.
        from_below WeaponArt (weapon_book bytes dir.now.lumps weapons.now)) result }
    ensures there { IfOk result (λ book. AreThere dir.now.lumps (Some book)) }
{
    let needs = weapon_needs(alloc, weapons.rows())?;
    match SpriteBook::load(alloc, &needs, dir, cache, shelf) {
        Ok(book) => Ok(book),
        Err(fault) => Err(weapon_fault(fault)),
    }
}

// What the rows need, numbered from 1.
fn weapon_needs(alloc: Global, rows: &[WeaponRow]) -> Result<Vec<Need>, OutOfMemory>
    requires { length rows.now < 2 ^ 16 }
    ensures { IfOk result (λ needs. needs.items ≡ weapon_needs rows.now) }
{
    let mut needs = Vec::with_capacity(alloc, rows.len())?;
    for (i, row) in rows.iter().enumerate() {
        needs.push(need_of_row(row, i as u16 + 1))?;
    }
    Ok(needs)
}

// What a row of that number needs.
#[tactic(auto, unfolding(crate::specs::Weapons::need_of_row))]
fn need_of_row(row: &WeaponRow, number: u16) -> Need
    ensures { result ≡ need_of_row number row.now }
{
    Need {
        thing: number,
        sprite: row.sprite,
        frame: row.frame,
    }
}

// A fault of the book, in the words of weapon layers.
fn weapon_fault(fault: SpriteFault) -> AuditFault
    ensures { result ≡ weapon_fault fault }
{
    fault.above(weapon_art)
}

// A refusal of the book, as one of an audit.
fn weapon_art(refusal: SpriteRefusal) -> AuditRefusal
    ensures { result ≡ weapon_art refusal }
{
    AuditRefusal::WeaponArt(weapon_refusal(refusal))
}

// A refusal of the book, by the number of the row.
fn weapon_refusal(refusal: SpriteRefusal) -> WeaponRefusal
    ensures { result ≡ weapon_refusal refusal }
{
    match refusal {
        SpriteRefusal::NoFrame { thing } => WeaponRefusal::NoFrame { row: thing },
        SpriteRefusal::MissingRotation { thing, rotation } => WeaponRefusal::MissingRotation {
            row: thing,
            rotation,
        },
        SpriteRefusal::BadPatch { lump } => WeaponRefusal::BadPatch { lump },
    }
}

// The lumps of both lists.
fn both_pictures(
    alloc: Global,
    first: &[LumpNo],
    second: &[LumpNo],
) -> Result<Vec<LumpNo>, OutOfMemory>
    ensures { IfOk result (λ both. both.items ≡ first.now ++ second.now) }
{
    let mut both = first.to_vec(alloc)?;
    both.extend_from_slice(second)?;
    Ok(both)
}

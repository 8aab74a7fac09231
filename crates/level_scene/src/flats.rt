// The flats of sectors, and their surfaces.
//
// Rules: `scene_rules`, SectorFlats. The original: `P_LoadSectors`, p_setup.c.
ghost use Rattle.std.specs.Prelude.{◌≡◌, true, length, All, IfOk, IfSome};
ghost use Rattle.level_scene.specs.Rules.{ResultIs, flat_named, flat_number, flats_of, sector_flats, surface_of, surfaces_of};
ghost use Rattle.level_scene.specs.Bounds.{AreThere, IsThere};
ghost use Rattle.level_scene.specs.Faults.{scene_fault};

use crate::SceneFault;
use crate::sides::is_sky_name;
use art_rules::{Name8, OutOfMemory};
use lump_cache::Directory;
use scene_rules::{Flat, SKY_FLAT, SceneRefusal, Sector, SectorFlats, Surface};
use std::alloc::Global;

/// The flats of all sectors, in the order of the sectors.
///
/// The name `F_SKY1` is the sky, whether or not there is such a lump; another is the last flat of
/// that name. Each lump among them is below the directory's count. Takes memory for the result.
///
/// Errors: `Refused` with `SectorFlat` of the first sector, numbered as in its lump, whose floor or
/// ceiling is neither sky nor a flat. `OutOfMemory`.
///
/// The original: `P_LoadSectors`, p_setup.c, with `R_FlatNumForName`, r_data.c, which ends the
/// program there.
#[tactic(auto, using(scene_rules::proofs::NumberedLemmas::each_afters), unfolding(scene_rules::specs::SectorFlats::sector_flats))]
pub fn find_flats(
    alloc: Global,
    dir: &Directory,
    sectors: &[Sector],
) -> Result<Vec<SectorFlats>, SceneFault>
    ensures answers { ResultIs scene_fault true (λ flats. flats.items)
        (sector_flats dir.now.lumps sectors.now) result }
    ensures count { IfOk result (λ flats. length flats.items ≡ length sectors.now) }
    ensures there { IfOk result (λ flats. All (AreThere (length dir.now.lumps)) flats.items) }
{
    let mut flats = Vec::with_capacity(alloc, sectors.len())?;
    for (i, sector) in sectors.iter().enumerate() {
        match flats_of(dir, sector) {
            Some(both) => flats.push(both)?,
            None => return Err(SceneFault::Refused(SceneRefusal::SectorFlat { sector: i as u64 })),
        }
    }
    Ok(flats)
}

// The flats of a sector.
#[tactic(auto, unfolding(scene_rules::specs::SectorFlats::flats_of, scene_rules::specs::SectorFlats::both_flats))]
fn flats_of(dir: &Directory, sector: &Sector) -> Option<SectorFlats>
    ensures found { result ≡ flats_of dir.now.lumps sector.now }
    ensures there { IfSome result (AreThere (length dir.now.lumps)) }
{
    let floor = flat_named(dir, &sector.floor_name)?;
    let ceiling = flat_named(dir, &sector.ceiling_name)?;
    Some(SectorFlats { floor, ceiling })
}

// What a name of a flat means.
#[tactic(auto, unfolding(scene_rules::specs::SectorFlats::flat_named, scene_rules::specs::SectorFlats::lump_flat))]
fn flat_named(dir: &Directory, name: &Name8) -> Option<Flat>
    ensures found { result ≡ flat_named dir.now.lumps name.now }
    ensures there { IfSome result (IsThere (length dir.now.lumps)) }
{
    if is_sky_name(name) {
        return Some(Flat::Sky);
    }
    let lump = dir.flat(name)?;
    Some(Flat::Lump(lump))
}

/// The surfaces of all sectors, in the order of the sectors, with the flats found for them.
///
/// Takes memory for the result.
///
/// Errors: `OutOfMemory`.
///
/// The original: `P_LoadSectors`, p_setup.c.
#[tactic(auto, using(scene_rules::proofs::FlatLemmas::surfaces))]
pub fn make_surfaces(
    alloc: Global,
    sectors: &[Sector],
    flats: &[SectorFlats],
) -> Result<Vec<Surface>, OutOfMemory>
    requires { length flats.now ≡ length sectors.now }
    ensures surfaces { IfOk result (λ surfaces.
        surfaces.items ≡ surfaces_of sectors.now flats.now) }
    ensures count { IfOk result (λ surfaces. length surfaces.items ≡ length sectors.now) }
{
    let mut surfaces = Vec::with_capacity(alloc, sectors.len())?;
    for (i, sector) in sectors.iter().enumerate() {
        surfaces.push(surface_of(sector, &flats[i]))?;
    }
    Ok(surfaces)
}

// The surface of a sector with these flats.
#[tactic(auto, unfolding(scene_rules::specs::SectorFlats::surface_of))]
fn surface_of(sector: &Sector, flats: &SectorFlats) -> Surface
    ensures { result ≡ surface_of sector.now flats.now }
{
    Surface {
        floor: sector.floor,
        ceiling: sector.ceiling,
        floor_flat: flat_number(flats.floor),
        ceiling_flat: flat_number(flats.ceiling),
        light: sector.light,
    }
}

// The number by which a flat is compared.
#[tactic(auto, unfolding(scene_rules::specs::SectorFlats::flat_number))]
fn flat_number(flat: Flat) -> u32
    ensures { result ≡ flat_number flat }
{
    match flat {
        Flat::Sky => SKY_FLAT,
        Flat::Lump(lump) => lump.0 as u32,
    }
}

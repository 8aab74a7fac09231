// The textures of sides, the sky, and which textures a scene wants.
//
// Rules: `scene_rules`, Skies and Sides. The original: `P_LoadSideDefs`, p_setup.c;
// `G_DoLoadLevel`, g_game.c.
ghost use Rattle.std.specs.Prelude.{◌≡◌, ◌<◌, ◌==◌, ◌&&◌, ◌||◌, ℕ, true, not, length, option_map, All, IfOk, IfSome, OnOk};
ghost use Rattle.std.specs.List.{list_any};
ghost use Rattle.level_scene.specs.Rules.{Refused, ResultIs, episode_sky, has_sky, is_digit, is_episode_map, is_numbered_map, is_sky_name, is_sky_texture, is_wanted_texture, map_number, numbered_sky, shows_sky, shows_texture, side_textures, sky_name, sky_texture, textures_of};
ghost use Rattle.level_scene.specs.Bounds.{AreBelow, IsNoneOrBelow};
ghost use Rattle.level_scene.specs.Faults.{scene_fault};

use crate::SceneFault;
use art_rules::{Name8, OutOfMemory};
use lump_cache::NAME_SIZE;
use scene_rules::{
    SECOND_SKY_MAP, SKY_NAME, SKY1, SKY2, SKY3, SKY4, SceneRefusal, Sector, Side, SideTextures,
    THIRD_SKY_MAP,
};
use std::alloc::Global;
use texture_lists::{ListedTextures, TexNo};

/// The numbers of the textures of all sides, in the order of the sides.
///
/// A name that begins with `-` has number 0, which is none; another has the least texture of that
/// name. Each number is 0 or below the count of textures. Takes memory for the result.
///
/// Errors: `Refused` with `SideTexture` of the first side, numbered as in its lump, that names a
/// texture which is in neither list. `OutOfMemory`.
///
/// The original: `P_LoadSideDefs`, p_setup.c, with `R_TextureNumForName`, r_data.c, which ends the
/// program there.
#[tactic(auto, using(scene_rules::proofs::NumberedLemmas::each_afters), unfolding(scene_rules::specs::Sides::side_textures))]
pub fn number_sides(
    alloc: Global,
    lists: &ListedTextures,
    sides: &[Side],
) -> Result<Vec<SideTextures>, SceneFault>
    ensures answers { ResultIs scene_fault true (λ numbers. numbers.items)
        (side_textures lists.now.textures sides.now) result }
    ensures count { IfOk result (λ numbers. length numbers.items ≡ length sides.now) }
    ensures below { IfOk result (λ numbers.
        All (AreBelow (length lists.now.textures)) numbers.items) }
{
    let mut numbers = Vec::with_capacity(alloc, sides.len())?;
    for (i, side) in sides.iter().enumerate() {
        match textures_of(lists, side) {
            Some(textures) => numbers.push(textures)?,
            None => return Err(SceneFault::Refused(SceneRefusal::SideTexture { side: i as u64 })),
        }
    }
    Ok(numbers)
}

// The textures of a side.
#[tactic(auto, unfolding(scene_rules::specs::Sides::textures_of, scene_rules::specs::Sides::three_textures))]
fn textures_of(lists: &ListedTextures, side: &Side) -> Option<SideTextures>
    ensures found { result ≡ textures_of lists.now.textures side.now }
    ensures below { IfSome result (AreBelow (length lists.now.textures)) }
{
    let top = lists.number(&side.top)?;
    let bottom = lists.number(&side.bottom)?;
    let middle = lists.number(&side.middle)?;
    Some(SideTextures {
        top: top.0,
        bottom: bottom.0,
        middle: middle.0,
    })
}

/// The name of the sky's texture in a map.
///
/// Maps of the episodes E1 to E4 have `SKY1` to `SKY4`, maps to MAP11 `SKY1`, to MAP20 `SKY2`, and
/// to MAP99 `SKY3`. Takes no memory.
///
/// The original: `G_DoLoadLevel` for numbered maps, `G_InitNew` for episodes, g_game.c.
///
/// This project's own: maps of other names have the first sky.
#[tactic(auto, using(scene_rules::proofs::SkyLemmas::sky_is_name))]
pub fn sky_name(map: &Name8) -> Name8
    ensures { result ≡ sky_name map.now }
{
    Name8::from_bytes(sky_bytes(&map.bytes()))
}

// The bytes of that name.
#[tactic(auto, unfolding(scene_rules::specs::Skies::sky_name))]
fn sky_bytes(name: &[u8; NAME_SIZE]) -> [u8; NAME_SIZE]
    ensures { result ≡ sky_name name.now }
{
    if is_episode_map(name) {
        return episode_sky(name[1]);
    }
    if is_numbered_map(name) {
        return numbered_sky(map_number(name));
    }
    SKY1
}

// Whether a name is E, a digit from 1 to 4, and M.
#[tactic(auto, unfolding(scene_rules::specs::Skies::is_episode_map))]
fn is_episode_map(name: &[u8; NAME_SIZE]) -> bool
    ensures { result ≡ is_episode_map name.now }
{
    name[0] == b'E' && name[2] == b'M' && b'1' <= name[1] && name[1] <= b'4'
}

// The sky of an episode, by its digit.
#[tactic(auto, unfolding(scene_rules::specs::Skies::episode_sky))]
fn episode_sky(digit: u8) -> [u8; NAME_SIZE]
    ensures { result ≡ episode_sky digit }
{
    match digit {
        b'1' => SKY1,
        b'2' => SKY2,
        b'3' => SKY3,
        _ => SKY4,
    }
}

// Whether a name is MAP and two digits.
#[tactic(auto, unfolding(scene_rules::specs::Skies::is_numbered_map))]
fn is_numbered_map(name: &[u8; NAME_SIZE]) -> bool
    ensures { result ≡ is_numbered_map name.now }
{
    name.starts_with(b"MAP") && is_digit(name[3]) && is_digit(name[4]) && name[5] == 0
}

// Whether a byte is a digit from 0 to 9.
#[tactic(auto, unfolding(scene_rules::specs::Skies::is_digit))]
fn is_digit(byte: u8) -> bool
    ensures { result ≡ is_digit byte }
{
    b'0' <= byte && byte <= b'9'
}

// The number of a map whose name is MAP and two digits.
#[tactic(auto, unfolding(scene_rules::specs::Skies::is_numbered_map, scene_rules::specs::Skies::is_digit, scene_rules::specs::Skies::map_number))]
fn map_number(name: &[u8; NAME_SIZE]) -> u16
    requires { is_numbered_map name.now ≡ true }
    ensures { result ≡ map_number name.now }
{
    10 * (name[3] - b'0') as u16 + (name[4] - b'0') as u16
}

// The sky of a numbered map.
#[tactic(auto, unfolding(scene_rules::specs::Skies::numbered_sky))]
fn numbered_sky(number: u16) -> [u8; NAME_SIZE]
    ensures { result ≡ numbered_sky number }
{
    if number < SECOND_SKY_MAP {
        SKY1
    } else if number < THIRD_SKY_MAP {
        SKY2
    } else {
        SKY3
    }
}

/// The texture of a map's sky, or `None` where no floor and no ceiling is sky. Takes no memory.
///
/// Errors: `SkyTexture` exactly where a sector has sky, and no texture has the name of the sky.
///
/// The original: `G_DoLoadLevel`, g_game.c, with `R_TextureNumForName`, r_data.c, which ends the
/// program there.
///
/// This project's own: the sky is looked for only where a sector has it.
#[tactic(auto, unfolding(scene_rules::specs::Sides::sky_texture, scene_rules::specs::Sides::found_sky))]
pub fn find_sky(
    lists: &ListedTextures,
    map: &Name8,
    sectors: &[Sector],
) -> Result<Option<TexNo>, SceneRefusal>
    ensures answers { ResultIs (λ refusal. Refused refusal) true
        (λ sky. option_map (λ tex. tex.0) sky)
        (sky_texture lists.now.textures map.now sectors.now) result }
    ensures there { IfOk result (λ sky. IfSome sky (λ tex. tex.0 < length lists.now.textures)) }
{
    if !has_sky(sectors) {
        return Ok(None);
    }
    match lists.number(&sky_name(map)) {
        Some(sky) => Ok(Some(sky)),
        None => Err(SceneRefusal::SkyTexture),
    }
}

// Whether a sector has sky.
#[tactic(auto, unfolding(scene_rules::specs::Skies::has_sky))]
fn has_sky(sectors: &[Sector]) -> bool
    ensures { result ≡ has_sky sectors.now }
{
    sectors.iter().any(|sector| shows_sky(sector))
}

// Whether the floor or the ceiling is sky.
#[tactic(auto, unfolding(scene_rules::specs::Skies::shows_sky))]
fn shows_sky(sector: &Sector) -> bool
    ensures { result ≡ shows_sky sector.now }
{
    is_sky_name(&sector.floor_name) || is_sky_name(&sector.ceiling_name)
}

// Whether a flat of that name is the sky.
#[tactic(auto, unfolding(scene_rules::specs::Skies::is_sky_name))]
pub(crate) fn is_sky_name(name: &Name8) -> bool
    ensures { result ≡ is_sky_name name.now }
{
    name.bytes() == SKY_NAME
}

/// The textures that a scene wants: the sky's, and those that a side shows but number 0.
///
/// One comes as often as it is shown. Takes memory for the result.
///
/// Errors: `OutOfMemory`.
///
/// The original: `R_PrecacheLevel`, r_data.c.
///
/// This project's own: number 0 is not wanted for a side.
#[tactic(auto, using(scene_rules::proofs::SideLemmas::wanted_by_sides))]
pub fn wanted_textures(
    alloc: Global,
    sides: &[SideTextures],
    sky: Option<TexNo>,
) -> Result<Vec<TexNo>, OutOfMemory>
    ensures wanted { IfOk result (λ wanted. (number : ℕ) →
        list_any (λ tex. tex.0 == number) wanted.items
        ≡ is_wanted_texture sides.now (option_map (λ tex. tex.0) sky) number) }
    ensures below { (count : ℕ) →
        All (AreBelow count) sides.now → IfSome sky (λ tex. tex.0 < count) →
        IfOk result (λ wanted. All (λ tex. tex.0 < count) wanted.items) }
{
    let mut wanted = sky_alone(alloc, sky)?;
    for side in sides {
        add_side(&mut wanted, side)?;
    }
    Ok(wanted)
}

// The texture of the sky, if there is one.
#[tactic(auto, unfolding(scene_rules::specs::Sides::is_sky_texture))]
fn sky_alone(alloc: Global, sky: Option<TexNo>) -> Result<Vec<TexNo>, OutOfMemory>
    ensures wanted { IfOk result (λ wanted. (number : ℕ) →
        list_any (λ tex. tex.0 == number) wanted.items
        ≡ is_sky_texture (option_map (λ tex. tex.0) sky) number) }
    ensures below { (count : ℕ) → IfSome sky (λ tex. tex.0 < count) →
        IfOk result (λ wanted. All (λ tex. tex.0 < count) wanted.items) }
{
    let mut wanted = Vec::new(alloc);
    if let Some(sky) = sky {
        wanted.push(sky)?;
    }
    Ok(wanted)
}

// Adds the textures that a side shows, but number 0.
#[tactic(auto, unfolding(scene_rules::specs::Sides::shows_texture))]
fn add_side(wanted: &mut Vec<TexNo>, side: &SideTextures) -> Result<(), OutOfMemory>
    ensures wanted { OnOk result ((number : ℕ) →
        list_any (λ tex. tex.0 == number) wanted.new.items
        ≡ (list_any (λ tex. tex.0 == number) wanted.old.items
        || (not (number == 0) && shows_texture number side.now))) }
    ensures below { (count : ℕ) →
        AreBelow count side.now → All (λ tex. tex.0 < count) wanted.old.items →
        OnOk result (All (λ tex. tex.0 < count) wanted.new.items) }
{
    add_texture(wanted, side.top)?;
    add_texture(wanted, side.bottom)?;
    add_texture(wanted, side.middle)
}

// Adds a texture, but number 0.
fn add_texture(wanted: &mut Vec<TexNo>, texture: u16) -> Result<(), OutOfMemory>
    ensures wanted { OnOk result ((number : ℕ) →
        list_any (λ tex. tex.0 == number) wanted.new.items
        ≡ (list_any (λ tex. tex.0 == number) wanted.old.items
        || (not (number == 0) && texture == number))) }
    ensures below { (count : ℕ) →
        IsNoneOrBelow count texture → All (λ tex. tex.0 < count) wanted.old.items →
        OnOk result (All (λ tex. tex.0 < count) wanted.new.items) }
{
    if texture > 0 {
        wanted.push(TexNo(texture))?;
    }
    Ok(())
}

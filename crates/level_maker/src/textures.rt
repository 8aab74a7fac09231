// The names of patches, and the wall textures.
ghost use Rattle.std.specs.Prelude.{◌≡◌, ◌<◌, ◌++◌, ◌*◌, ◌+◌, ◌^◌, [], ◌∷◌, length, IfOk, OnOk};
ghost use Rattle.std.specs.List.{flat_map};
ghost use Rattle.level_maker.specs.Rules.{made_patch_names, made_textures, other_textures, patch_place_bytes, texture, texture_bytes, wall_textures, words};

use crate::bytes::put_halves;
use made_rules::PatchPlace;
use std::alloc::{AllocError, Global};

const PATCH_NAMES: &[u8; 36] = b"\x04\0\0\0WPATA\0\0\0WPATB\0\0\0GRATP\0\0\0SKYP\0\0\0\0";

const TEXTURE_HEIGHT: u32 = 128;

// How many textures there are, and where they stand.
const TEXTURES_HEAD: &[u8; 24] = b"\x05\0\0\0\x18\0\0\0\x38\0\0\0\x58\0\0\0\x82\0\0\0\xa2\0\0\0";

/// PNAMES: how many patches there are, and their names.
#[tactic(auto, unfolding(made_rules::specs::Textures::made_patch_names, made_rules::specs::Bytes::word_bytes))]
pub fn patch_names(alloc: Global) -> Result<Vec<u8>, AllocError>
    ensures { IfOk result (λ lump. lump.items ≡ made_patch_names) }
{
    Vec::from_slice(alloc, PATCH_NAMES)
}

/// TEXTURE1: how many textures there are, where they stand, and they themselves.
#[tactic(auto, using(made_rules::proofs::TextureLemmas::texture_parts))]
pub fn textures(alloc: Global) -> Result<Vec<u8>, AllocError>
    ensures { IfOk result (λ lump. lump.items ≡ made_textures) }
{
    let mut lump = textures_head(alloc)?;
    put_walls(&mut lump)?;
    put_others(&mut lump)?;
    Ok(lump)
}

#[tactic(auto, unfolding(made_rules::specs::Bytes::words, made_rules::specs::Bytes::word_bytes))]
fn textures_head(alloc: Global) -> Result<Vec<u8>, AllocError>
    ensures { IfOk result (λ lump. lump.items
        ≡ words (5 ∷ 24 ∷ 56 ∷ 88 ∷ 130 ∷ 162 ∷ [])) }
{
    Vec::from_slice(alloc, TEXTURES_HEAD)
}

#[tactic(auto, unfolding(made_rules::specs::Textures::wall_textures))]
fn put_walls(lump: &mut Vec<u8>) -> Result<(), AllocError>
    ensures { OnOk result (lump.new.items ≡ lump.old.items ++ flat_map texture_bytes
        wall_textures) }
{
    let wall = PatchPlace {
        x: 0,
        y: 0,
        number: 0,
    };
    let narrow = PatchPlace {
        x: 16,
        y: -8,
        number: 1,
    };
    put_texture(lump, b"NOTEX\0\0\0", 64, &[wall])?;
    put_texture(lump, b"WALL1\0\0\0", 64, &[wall])?;
    put_texture(lump, b"WALL2\0\0\0", 64, &[wall, narrow])
}

#[tactic(auto, unfolding(made_rules::specs::Textures::other_textures))]
fn put_others(lump: &mut Vec<u8>) -> Result<(), AllocError>
    ensures { OnOk result (lump.new.items ≡ lump.old.items ++ flat_map texture_bytes
        other_textures) }
{
    put_texture(
        lump,
        b"GRATE\0\0\0",
        64,
        &[PatchPlace {
            x: 0,
            y: 0,
            number: 2,
        }],
    )?;
    put_texture(
        lump,
        b"SKY1\0\0\0\0",
        256,
        &[PatchPlace {
            x: 0,
            y: 0,
            number: 3,
        }],
    )
}

#[tactic(auto, unfolding(made_rules::specs::Textures::texture_bytes))]
fn put_texture(
    lump: &mut Vec<u8>,
    name: &[u8; 8],
    width: u32,
    patches: &[PatchPlace],
) -> Result<(), AllocError>
    requires { length patches.now < 2 ^ 16 }
    ensures { OnOk result (lump.new.items ≡ lump.old.items ++ texture_bytes
        (texture name.now width patches.now)) }
{
    lump.extend_from_slice(name)?;
    put_halves(
        lump,
        &[0, 0, width, TEXTURE_HEIGHT, 0, 0, patches.len() as u32],
    )?;
    put_patches(lump, patches)
}

fn put_patches(lump: &mut Vec<u8>, patches: &[PatchPlace]) -> Result<(), AllocError>
    ensures { OnOk result (lump.new.items ≡ lump.old.items ++ flat_map patch_place_bytes
        patches.now) }
{
    for place in patches {
        put_patch(lump, *place)?;
    }
    Ok(())
}

#[tactic(auto, unfolding(made_rules::specs::Textures::patch_place_bytes))]
fn put_patch(lump: &mut Vec<u8>, place: PatchPlace) -> Result<(), AllocError>
    ensures { OnOk result (lump.new.items ≡ lump.old.items ++ patch_place_bytes place) }
{
    let y = place.y.cast_unsigned() as u32;
    put_halves(lump, &[place.x as u32, y, place.number as u32, 0, 0])
}

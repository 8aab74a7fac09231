// What is refused of textures and of sprites.
use crate::{MAX_COMPOSITE, MAX_TEXTURES};
use thiserror::Error;

/// What is wrong with the textures, the first of these in their order.
///
/// - `Pnames`: the lump PNAMES is not there, or is shorter than its count says.
/// - `Lump`: the list of that number (1 or 2) is not there (1 alone), is shorter than its places
///   need, or the textures pass `MAX_TEXTURES`.
/// - `Entry`: the record of the texture of that number passes its lump's end, or its width or its
///   height is below 1.
/// - `MissingPatch`: a patch of the texture is not among the names of patches, its name has no
///   lump, or the lump is no patch.
/// - `TooBig`: the composite of the texture has more than `MAX_COMPOSITE` bytes.
///
/// The original: `R_InitTextures`, `R_GenerateLookup`, r_data.c, which end the program.
#[derive(Clone, Copy, Debug, PartialEq, Eq, Error)]
pub enum TexRefusal {
    #[error("PNAMES is absent, or shorter than its count of names needs")]
    Pnames,
    #[error("TEXTURE{which} is absent or short, or textures pass {most}", most = MAX_TEXTURES)]
    Lump { which: u64 },
    #[error("texture {number} passes the end of its lump, or has a width or height below 1")]
    Entry { number: u64 },
    #[error("texture {texture} has a patch that PNAMES or the WADs lack, or that is not a patch")]
    MissingPatch { texture: u64 },
    #[error("texture {texture}: its composed columns pass {most} bytes", most = MAX_COMPOSITE)]
    TooBig { texture: u64 },
}

/// What is wrong with the pictures of a sprite's frame, the first of these in their order.
///
/// - `NoFrame`: no lump mentions the frame that the thing needs.
/// - `MissingRotation`: no lump mentions the frame with that rotation, 1 to 8, the least such.
/// - `BadPatch`: the lump is no patch.
///
/// The original: `R_InitSpriteDefs`, r_things.c, which ends the program.
#[derive(Clone, Copy, Debug, PartialEq, Eq, Error)]
pub enum SpriteRefusal {
    #[error("thing {thing}: no lump shows the sprite frame that it needs")]
    NoFrame { thing: u64 },
    #[error("thing {thing}: no lump shows its sprite frame from rotation {rotation}")]
    MissingRotation { thing: u64, rotation: u64 },
    #[error("lump {lump} has the name of a sprite, but is not a patch")]
    BadPatch { lump: u64 },
}

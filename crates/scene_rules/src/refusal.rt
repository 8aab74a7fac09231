// Why a scene is refused.
use art_rules::{SpriteRefusal, TexRefusal};
use level_rules::MapRefusal;
use thiserror::Error;

/// Which lump of colours is not there, or is too short.
///
/// - `Colormap`: COLORMAP, of which 8192 bytes are read.
/// - `Playpal`: PLAYPAL, of which 768 bytes are read.
#[derive(Clone, Copy, Debug, PartialEq, Eq, Error)]
pub enum ArtRefusal {
    #[error("COLORMAP is absent, or has fewer than 8192 bytes")]
    Colormap,
    #[error("PLAYPAL is absent, or has fewer than 768 bytes")]
    Playpal,
}

/// What a scene lacks. Sides, sectors and things are numbered as in their lumps.
///
/// - `SideTexture`: a texture that the side names is in neither list.
/// - `SkyTexture`: the map's sky is in neither list, though a sector has sky.
/// - `SectorFlat`: the floor or the ceiling of the sector is neither sky nor a flat.
/// - `Shadow`: the thing is one that would be drawn as a shadow.
/// - `Middle`: the side's masked mid texture has a column without exactly one patch.
/// - `FlatName`: no flat has the name that was asked for.
///
/// The original: `R_TextureNumForName`, `R_FlatNumForName`, r_data.c, which end the program. This
/// project's own: `Shadow` and `Middle`.
#[derive(Clone, Copy, Debug, PartialEq, Eq, Error)]
pub enum SceneRefusal {
    #[error("SIDEDEFS record {side} names a texture that is in neither TEXTURE1 nor TEXTURE2")]
    SideTexture { side: u64 },
    #[error("the map's sky texture is in neither TEXTURE1 nor TEXTURE2")]
    SkyTexture,
    #[error("SECTORS record {sector} names a flat that no WAD has")]
    SectorFlat { sector: u64 },
    #[error("THINGS record {thing} would be drawn as a shadow, which is left out here")]
    Shadow { thing: u64 },
    #[error("SIDEDEFS record {side}: a column of its masked mid texture has not exactly one patch")]
    Middle { side: u64 },
    #[error("no WAD has a flat of that name")]
    FlatName,
}

/// What is wrong with the picture of a weapon, as `SpriteRefusal`. Rows are numbered from 1.
#[derive(Clone, Copy, Debug, PartialEq, Eq, Error)]
pub enum WeaponRefusal {
    #[error("weapon layer {row}: no sprite lump has its frame")]
    NoFrame { row: u64 },
    #[error("weapon layer {row}: no sprite lump has rotation {rotation} of its frame")]
    MissingRotation { row: u64, rotation: u64 },
    #[error("lump {lump} is a weapon's picture, but no patch")]
    BadPatch { lump: u64 },
}

/// Why a level is refused: a group for each kind of check.
#[derive(Clone, Copy, Debug, PartialEq, Eq, Error)]
pub enum AuditRefusal {
    #[error("{0}")]
    Art(ArtRefusal),
    #[error("{0}")]
    Map(MapRefusal),
    #[error("{0}")]
    Texture(TexRefusal),
    #[error("{0}")]
    Sprite(SpriteRefusal),
    #[error("{0}")]
    Scene(SceneRefusal),
    #[error("{0}")]
    WeaponArt(WeaponRefusal),
}

//! A scene: what a level, the lists of textures, the thing table and the directory give to draw, or
//! the first thing that is wrong with them.
//!
//! Rules: records and constants, and in `specs/` the first that something is not found for
//! (Numbered), the sky (Skies), the flats of sectors (SectorFlats), the textures of sides (Sides),
//! where things stand (Places), masked mid textures (Middles), what the zone has to hold (Sizes), and
//! the order of all checks (Scenes). Nothing here is code. The original: p_setup.c, p_mobj.c,
//! r_data.c, r_plane.c.
#![tactic(auto)]

mod refusal;

use level_rules::ThingRow;
use lump_rules::LumpNo;
pub use refusal::{ArtRefusal, AuditRefusal, SceneRefusal, WeaponRefusal};

// Passed on from the crates below.
pub use level_rules::{
    Child, MAX_DEPTH, MapRefusal, Node, PlacedThing, SKY_FLAT, Sector, Seg, Side, SideTextures,
    Surface, Thing, partition_of,
};
pub use lump_rules::{DirRefusal, Name8};
pub use outside::{Failed, Fault, MemorySink, PutFault, Sink};
pub use view_rules::{Spans, TablesRefusal};
pub use word_rules::WORD_SIZE;
pub use zone_rules::MIN_FRAGMENT;

/// The bytes of a name of a lump or a texture.
pub const NAME_SIZE: usize = lump_rules::NAME_SIZE;

/// The names of the lumps of colours.
pub const COLORMAP: [u8; NAME_SIZE] = *b"COLORMAP";

pub const PLAYPAL: [u8; NAME_SIZE] = *b"PLAYPAL\0";

/// The bytes that COLORMAP has at least: 32 colormaps of 256 colours.
pub const COLORMAP_SIZE: u32 = 8192;

/// The bytes of the first palette.
pub const PALETTE_SIZE: u32 = art_rules::PALETTE_SIZE as u32;

/// The flat that is the sky.
pub const SKY_NAME: [u8; NAME_SIZE] = *b"F_SKY1\0\0";

/// The textures of the sky.
pub const SKY1: [u8; NAME_SIZE] = *b"SKY1\0\0\0\0";

pub const SKY2: [u8; NAME_SIZE] = *b"SKY2\0\0\0\0";

pub const SKY3: [u8; NAME_SIZE] = *b"SKY3\0\0\0\0";

pub const SKY4: [u8; NAME_SIZE] = *b"SKY4\0\0\0\0";

/// The first maps of the second and of the third sky. The original: `G_DoLoadLevel`, g_game.c.
pub const SECOND_SKY_MAP: u16 = 12;

pub const THIRD_SKY_MAP: u16 = 21;

/// The options of a thing that say in which skills it stands (MTF_EASY, MTF_NORMAL, MTF_HARD), and
/// that it stands only in games of several players. The original: doomdata.h.
pub const EASY: u16 = 1;

pub const NORMAL: u16 = 2;

pub const HARD: u16 = 4;

pub const NOT_ALONE: u16 = 16;

/// The last skill that is easy, and the one that is normal, of 1 to 5.
pub const LAST_EASY: u8 = 2;

pub const NORMAL_SKILL: u8 = 3;

/// The eighth part of a turn, in degrees.
pub const EIGHTH_DEGREES: i16 = 45;

/// A flat of a sector: the sky, or a lump.
///
/// The original: `skyflatnum`, r_sky.c.
#[derive(Clone, Copy)]
pub enum Flat {
    Sky,
    Lump(LumpNo),
}

/// The two flats of a sector.
///
/// The original: `floorpic` and `ceilingpic` of `sector_t`, r_defs.h.
#[derive(Clone, Copy)]
pub struct SectorFlats {
    pub floor: Flat,
    pub ceiling: Flat,
}

/// A thing that stands in a level: the number of its sector, how things of its type look, and itself.
///
/// The original: `mobj_t`, p_mobj.h.
#[derive(Clone, Copy)]
pub struct Placed {
    pub sector: u16,
    pub row: ThingRow,
    pub thing: PlacedThing,
}

/// How large a zone has to be, in bytes: with `enough` no drawing finds it full, with `roomy` no lump
/// is read twice.
///
/// This project's own.
#[derive(Clone, Copy)]
pub struct ZoneSizes {
    pub enough: u64,
    pub roomy: u64,
}

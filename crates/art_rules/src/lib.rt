//! What the bytes of art lumps mean: pictures and their posts, flats, colormaps and palettes, the
//! lists of textures, the columns and composites of a texture, and the frames of a sprite.
//!
//! Rules: records and constants, and in `specs/` patches and their posts (Patches), flats and
//! palettes (Flats), the two lists of textures and the names of patches (Textures), the patches of a
//! column and what is composed of them (Columns), what each column is read from (Lookups), what is
//! prepared of a wanted texture or what refuses it (Wanted), the pictures of sprite frames (Frames),
//! and the book of the frames that things need (Books). Code is only what reads bytes and numbers,
//! and `Patch::read`, which is proved. A patch is the field's picture lump. The original: r_data.c,
//! r_things.c, r_defs.h.
#![tactic(auto)]

mod bytes;
mod layout;
mod patch;
mod refusal;
mod shapes;

pub use bytes::{byte_at, half_at, signed_half_at, word_at};
pub use layout::{
    COLUMN_PLACE_SIZE, COLUMN_PLACES_AT, COUNT_SIZE, ENTRY_NUMBER_AT, ENTRY_SIZE, ENTRY_Y_AT,
    LEFT_AT, NAME_SIZE, PATCH_COUNT_AT, PATCH_HEADER_SIZE, PLACE_SIZE, POST_BYTES_AT,
    POST_LENGTH_AT, POSTS_END, TEXTURE_HEAD_SIZE, TEXTURE_HEIGHT_AT, TEXTURE_WIDTH_AT, TOP_AT,
};
pub use patch::Patch;
pub use refusal::{SpriteRefusal, TexRefusal};
pub use shapes::{Frame, Need, Shape};

// Passed on from the crates below.
pub use lump_rules::{
    DirRefusal, F_END, F_START, FF_END, FF_START, HEADER_SIZE, IWAD, LumpNo, MAP_LUMP_COUNT,
    MAP_LUMPS, MAX_LUMPS, Name8, S_END, S_START, SS_END, SS_START,
};
pub use outside::{
    Failed, Fault, FileNo, HostShelf, MemoryFile, MemoryShelf, MemorySink, OutOfMemory, PutFault,
    Shelf, Sink, TallySink,
};
pub use pixel_rules::{
    COMPOSITE, FLAT_SIDE, FRAME_CELLS, LUMP, MAP_COLOURS, NO_SOURCE, Painter, Post,
};
pub use view_rules::{FRAME_HEIGHT, FRAME_WIDTH, MAX_SIZE, TablesRefusal};
pub use word_rules::{ANG45, FRACTION_BITS};

/// The most textures that both lists together may have.
pub const MAX_TEXTURES: u32 = 32767;

/// The most bytes that the composite of a texture may have. The original: 64 KB, r_data.c.
pub const MAX_COMPOSITE: u32 = 65536;

/// The bytes of a palette: red, green and blue of 256 colours.
pub const PALETTE_SIZE: usize = 768;

/// The bytes of a palette's colour.
pub const COLOUR_SIZE: usize = 3;

/// The first byte of a name that stands for no texture.
pub const NO_TEXTURE: u8 = b'-';

/// The letters of a sprite's name.
pub const SPRITE_LETTERS: usize = 4;

/// Where in a sprite lump's name its second frame letter stands.
pub const SECOND_PAIR_AT: usize = 6;

/// The first and the last frame letter: `A` and `]`. The original: 29 frames, `R_InitSpriteDefs`,
/// r_things.c.
pub const FIRST_FRAME: u8 = 65;

pub const LAST_FRAME: u8 = 93;

/// The digits of a rotation: `0` for all eight, `1` to `8`.
pub const FIRST_ROTATION: u8 = 48;

pub const LAST_ROTATION: u8 = 56;

/// The rotations from which a thing is seen.
pub const ROTATIONS: usize = 8;

/// The number of the lump PNAMES, TEXTURE1 or TEXTURE2 in a refusal counts the lists from 1.
pub const FIRST_LIST: u64 = 1;

pub const SECOND_LIST: u64 = 2;

/// The names of the lumps of textures.
pub const PNAMES: [u8; NAME_SIZE] = *b"PNAMES\0\0";

pub const TEXTURE1: [u8; NAME_SIZE] = *b"TEXTURE1";

pub const TEXTURE2: [u8; NAME_SIZE] = *b"TEXTURE2";

/// A patch of a texture: where its left column and its top row stand in the texture, in texels, and
/// its number among the names of patches.
///
/// The original: `mappatch_t`, r_data.c.
#[derive(Clone, Copy)]
pub struct TextureEntry {
    pub x: i16,
    pub y: i16,
    pub number: u16,
}

/// A patch lump in its texture: the lump's number, where its left column and top row stand, in
/// texels, and its width in columns.
///
/// The original: `texpatch_t`, r_data.c.
#[derive(Clone, Copy)]
pub struct PlacedPatch {
    pub lump: u16,
    pub x: i16,
    pub y: i16,
    pub width: u16,
}

/// What a column of a texture is read from: nothing, the posts that begin at a byte of one patch
/// lump, or the bytes of the texture's composite from `place` on.
///
/// The original: `texturecolumnlump` and `texturecolumnofs`, r_data.c, which tell a composed column
/// by the lump -1 and have the place of a patch's first texel, 3 bytes on.
#[derive(Clone, Copy, Debug, PartialEq, Eq)]
pub enum ColumnLookup {
    Empty,
    Single { lump: u16, place: u32 },
    Composed { place: u32 },
}

/// One frame and rotation of a sprite that a lump's name mentions. `frame` is the frame letter's
/// byte, `rotation` 0 to 8.
///
/// The original: `R_InstallSpriteLump`, r_things.c.
#[derive(Clone, Copy)]
pub struct Mention {
    pub lump: u16,
    pub frame: u8,
    pub rotation: u8,
    pub flip: bool,
}

//! Pixels as the drawing layers write them: dots, each with its painter, in strips and posts.
//!
//! Rules only: records and constants, and in `specs/` dots and the cells of a frame after them
//! (Dots), the art that a view reads (Art), strips of a column or a row (Strips), and the posts
//! of masked columns (Posts). Nothing here is tested. The original: r_draw.c, and
//! R_DrawMaskedColumn of r_things.c.
#![tactic(auto)]

/// Who writes a pixel, and whose bytes it reads.
///
/// `kind` is one of `WALL` to `WEAPON`; `number` is that of the fragment, of the plane, of the
/// sprite in order of making (each from 0), or of the weapon's row (from 1). `source_kind` is
/// `NO_SOURCE`, `LUMP` or `COMPOSITE`; `source` is the number of the lump or of the texture, or 0.
///
/// This project's own: the original keeps no painter.
#[derive(Clone, Copy)]
pub struct Painter {
    pub kind: u8,
    pub number: u16,
    pub source_kind: u8,
    pub source: u16,
}

/// A post of a picture: rows from the picture's top, number of bytes, place of its first byte.
///
/// The place is in bytes from the lump's first one. The original: `post_t`, r_defs.h.
#[derive(Clone, Copy, Debug, PartialEq, Eq)]
pub struct Post {
    pub topdelta: u8,
    pub length: u8,
    pub first: u64,
}

/// Whose bytes a paint reads: the kind of source, and the number of the lump or texture, or 0.
///
/// This project's own.
#[derive(Clone, Copy)]
pub struct Source {
    pub kind: u8,
    pub number: u16,
}

/// How a masked column is drawn.
///
/// `scale` is in pixels a texel, `iscale` in texels a pixel, `mid` is the texel row at the view's
/// centre row, all 16.16 fixed point; it is seen in the rows between the two clips. The original:
/// spryscale, dc_iscale, dc_texturemid, mceilingclip and mfloorclip, r_things.c and r_draw.c.
#[derive(Clone, Copy)]
pub struct MaskedColumn {
    pub scale: i32,
    pub mid: i32,
    pub iscale: i32,
    pub top_clip: i32,
    pub bottom_clip: i32,
}

/// The cells of a frame, row by row from the top.
pub const FRAME_CELLS: usize = 64000;

/// The kinds of painter: a strip of a wall, a plane that is not sky, a sky plane, a masked mid
/// texture, a sprite, a weapon.
pub const WALL: u8 = 1;

pub const PLANE: u8 = 2;

pub const SKY: u8 = 3;

pub const MIDDLE: u8 = 4;

pub const SPRITE: u8 = 5;

pub const WEAPON: u8 = 6;

/// The kinds of source: none, a lump, the composite of a texture.
pub const NO_SOURCE: u8 = 0;

pub const LUMP: u8 = 1;

pub const COMPOSITE: u8 = 2;

/// The texel rows after which a texture column begins again.
pub const TEXEL_ROWS: u16 = 128;

/// The columns and the rows of a flat, in texels.
pub const FLAT_SIDE: u16 = 64;

/// The colours of a colormap, in bytes.
pub const MAP_COLOURS: u16 = 256;

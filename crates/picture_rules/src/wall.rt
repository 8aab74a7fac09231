//! Walls: what a fragment of a seg is drawn with.
//!
//! Rules only: records and constants, and in `specs/` the numbers of a fragment (Scales, Heights,
//! Silhouettes, Marks, Parts, Numbers), its edges and texture columns (Edges, Columns), the clips
//! of a column before and after it (Clips, Walls), what it keeps for sprites (Openings, Notes),
//! and the strips that it paints (Strips). A drawn fragment is the field's drawseg; `top`,
//! `bottom`, `high` and `low` are topfrac, bottomfrac, pixhigh and pixlow. The original: r_segs.c.

use level_rules::{Seg, Surface};

/// A texture of a side: its number, 0 for none, and its height in texels.
#[derive(Clone, Copy)]
pub struct WallTexture {
    pub number: u16,
    pub height: u16,
}

/// The bits by which heights are shifted down before they are scaled to edges.
pub const HEIGHT_SHIFT: u32 = 4;

/// What a fragment is drawn from: a seg, the two sectors, and the side's offsets and textures.
///
/// `front` is the sector of the leaf that shows the seg, `back` the sector behind the seg; the
/// offsets are texels, 16.16 fixed point. The original: curline, frontsector, backsector and
/// sidedef, r_bsp.c.
#[derive(Clone, Copy)]
pub struct WallFacts {
    pub seg_no: u16,
    pub seg: Seg,
    pub front: Surface,
    pub back: Option<Surface>,
    pub x_offset: i32,
    pub y_offset: i32,
    pub top: WallTexture,
    pub bottom: WallTexture,
    pub middle: WallTexture,
}

/// The bits of fraction of an edge. The original: `HEIGHTBITS`, r_segs.c.
pub const EDGE_BITS: u32 = 12;

/// The scale and the four edges of a fragment at a column.
///
/// The scale is 16.16, pixels a map unit; an edge is a row with 12 bits of fraction. The original:
/// rw_scale, topfrac, bottomfrac, pixhigh and pixlow, r_segs.c.
#[derive(Clone, Copy, Debug, PartialEq, Eq)]
pub struct Edges {
    pub scale: i32,
    pub top: i32,
    pub bottom: i32,
    pub high: i32,
    pub low: i32,
}

/// What is left open of a column: the rows between the two. The original: ceilingclip and
/// floorclip, r_plane.c.
#[derive(Clone, Copy)]
pub struct ColumnClip {
    pub ceiling_clip: i32,
    pub floor_clip: i32,
}

/// The bits of a silhouette: what is behind is clipped from below, and from above. The original:
/// `SIL_BOTTOM` and `SIL_TOP`, r_defs.h.
pub const SIL_BOTTOM: u8 = 1;

pub const SIL_TOP: u8 = 2;

/// Whether a fragment clips what is behind it, and up to which height.
///
/// Map units, 16.16 fixed point; 0 where it does not clip. The original: silhouette, bsilheight
/// and tsilheight of `drawseg_t`, r_defs.h.
#[derive(Clone, Copy)]
pub struct Silhouette {
    pub is_there: bool,
    pub height: i32,
}

/// A texture of a fragment: its number, 0 for none, and the texel row at the view's centre row.
///
/// `mid` is 16.16 fixed point, 0 where there is no texture. The original: toptexture and
/// rw_toptexturemid and their like, r_segs.c.
#[derive(Clone, Copy)]
pub struct Part {
    pub number: u16,
    pub mid: i32,
}

/// The most that an edge's fraction has. The original: `HEIGHTUNIT - 1`, r_segs.c.
pub const MAX_EDGE_FRACTION: i32 = 0xfff;

/// Rows first to last, none where first is past last.
#[derive(Clone, Copy)]
pub struct RowRange {
    pub first: i32,
    pub last: i32,
}

/// The numbers of a fragment.
///
/// Scales and step are 16.16; the four heights are above the viewpoint, map units 16.16; marks,
/// silhouettes and textures follow; the light number is 0 to 15. The original:
/// R_StoreWallRange, r_segs.c, which keeps them in globals.
#[derive(Clone, Copy)]
pub struct FragmentNumbers {
    pub scale1: i32,
    pub scale2: i32,
    pub step: i32,
    pub world_top: i32,
    pub world_bottom: i32,
    pub world_high: i32,
    pub world_low: i32,
    pub floor_mark: bool,
    pub ceiling_mark: bool,
    pub bottom: Silhouette,
    pub top: Silhouette,
    pub bottom_is_constant: bool,
    pub top_is_constant: bool,
    pub middle_part: Part,
    pub top_part: Part,
    pub bottom_part: Part,
    pub masked: bool,
    pub light: u8,
}

/// How a drawn fragment clips sprites behind it: not at all, by one row in every column, or by
/// rows that are saved from this place among the openings on, one for each column.
#[derive(Clone, Copy)]
pub enum Clip {
    Absent,
    Constant(i32),
    Saved(u32),
}

/// The most openings to which an option may raise that limit.
///
/// This project's own.
pub const MOST_OPENINGS: u32 = 245760;

/// What the masked pass needs of a drawn fragment.
///
/// `silhouette` is `SIL_BOTTOM` and `SIL_TOP`, added; the heights are map units 16.16, 0 without
/// the silhouette; `masked` is the place of its saved texture columns among the openings. The
/// original: `drawseg_t`, r_defs.h.
#[derive(Clone, Copy)]
pub struct FragmentNote {
    pub seg_no: u16,
    pub first: u16,
    pub last: u16,
    pub scale1: i32,
    pub scale2: i32,
    pub step: i32,
    pub silhouette: u8,
    pub bottom_height: i32,
    pub top_height: i32,
    pub masked: Option<u32>,
    pub top_clip: Clip,
    pub bottom_clip: Clip,
}

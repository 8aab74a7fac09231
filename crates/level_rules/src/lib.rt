//! The records of a level, and its entries by number.
//!
//! Records, look-ups and the limits that they share; and in the folder `maps` how the bytes of the
//! eight map lumps give them, in the folder `walk` what is seen of them in which order. A leaf is
//! the field's subsector. Rules only.
//! The original: r_defs.h, doomdata.h.
#![tactic(auto)]

pub mod maps;
pub mod walk;

use lump_rules::Name8;
pub use maps::{
    LEAF_BIT, MAX_RECORDS, MapLeaf, MapLine, MapLump, MapRefusal, MapSeg, MapVertex, NO_SIDE,
};
pub use walk::{Corners, MAX_DRAWSEGS, partition_of};

/// A thing as its lump has it: point, angle, type and options.
///
/// `x` and `y` are map units, 16.16 fixed point; `angle` is in degrees, counterclockwise from
/// east; `kind` is the type that thing tables name. The original: mapthing_t, doomdata.h.
#[derive(Clone, Copy, Debug, PartialEq, Eq)]
pub struct Thing {
    pub x: i32,
    pub y: i32,
    pub angle: i16,
    pub kind: u16,
    pub options: u16,
}

/// How things of a type look: their sprite, its frame letter, whether they are bright, how far
/// below the ceiling they stand in map units, 0 for a thing on the floor, and whether they are
/// shadows.
///
/// The original: `mobjinfo_t` and its spawn state's `state_t`, info.h.
#[derive(Clone, Copy, Debug, PartialEq, Eq)]
pub struct ThingRow {
    pub sprite: [u8; 4],
    pub frame: u8,
    pub bright: bool,
    pub hang: u16,
    pub shadow: bool,
}

/// A line of a thing table: a type, and how its things look.
#[derive(Clone, Copy)]
pub struct ThingLine {
    pub kind: u16,
    pub row: ThingRow,
}

/// A side of a line: offsets of its textures, their three names, and the number of its sector.
///
/// The offsets are texels, 16.16 fixed point. The original: side_t, r_defs.h.
#[derive(Clone, Copy, Debug, PartialEq, Eq)]
pub struct Side {
    pub x_offset: i32,
    pub y_offset: i32,
    pub top: Name8,
    pub bottom: Name8,
    pub middle: Name8,
    pub sector: u16,
}

/// A sector: heights, names of its two flats, and light.
///
/// The heights are map units, 16.16 fixed point; `light` is 0 to 255 in sound levels, and is kept
/// as it is read. The original: sector_t, r_defs.h.
#[derive(Clone, Copy, Debug, PartialEq, Eq)]
pub struct Sector {
    pub floor: i32,
    pub ceiling: i32,
    pub floor_name: Name8,
    pub ceiling_name: Name8,
    pub light: i16,
}

/// The partition line of a node: a point of it and its direction.
///
/// Map units, 16.16 fixed point. The original: node_t, r_defs.h.
#[derive(Clone, Copy, Debug, PartialEq, Eq)]
pub struct Partition4 {
    pub x: i32,
    pub y: i32,
    pub dx: i32,
    pub dy: i32,
}

/// The box round a child of a node.
///
/// Map units, 16.16 fixed point. The original: bbox of node_t, r_defs.h.
#[derive(Clone, Copy, Debug, PartialEq, Eq)]
pub struct Box4 {
    pub top: i32,
    pub bottom: i32,
    pub left: i32,
    pub right: i32,
}

/// What stands on one side of a node: a further node, or a leaf, by its number.
///
/// The original marks a leaf by NF_SUBSECTOR, doomdata.h.
#[derive(Clone, Copy, Debug, PartialEq, Eq)]
pub enum Child {
    Node(u16),
    Leaf(u16),
}

/// The most nodes on the way from the root to a leaf, the root and the last node among them.
///
/// This project's own: the original sets no limit.
pub const MAX_DEPTH: u32 = 1024;

/// A node of the tree: its line, and a box and a child for each side of it.
///
/// Child 0 is in front of the line, child 1 behind it. The original: node_t, r_defs.h.
#[derive(Clone, Copy, Debug, PartialEq, Eq)]
pub struct Node {
    pub line: Partition4,
    pub boxes: [Box4; 2],
    pub children: [Child; 2],
}

/// A leaf (subsector): `count` segs from number `first` on, and the sector of the first of them.
///
/// The original: subsector_t, r_defs.h.
#[derive(Clone, Copy, Debug, PartialEq, Eq)]
pub struct Leaf {
    pub first: u16,
    pub count: u16,
    pub sector: u16,
}

/// The flag of a line through which the sector behind it is seen (ML_TWOSIDED).
pub const TWO_SIDED: u16 = 4;

/// A seg: a piece of a line, as seen from one side of it.
///
/// Its ends `x1`, `y1` and `x2`, `y2`, and the distance `offset` from the line's end to the first
/// of them, are map units, 16.16 fixed point; `angle` is BAM; `flags` are the line's; `side` is
/// the number of the side that is seen, `front` that side's sector, and `back` the sector behind
/// a two-sided line. The original: seg_t, r_defs.h.
#[derive(Clone, Copy, Debug, PartialEq, Eq)]
pub struct Seg {
    pub x1: i32,
    pub y1: i32,
    pub x2: i32,
    pub y2: i32,
    pub angle: u32,
    pub offset: i32,
    pub flags: u16,
    pub side: u16,
    pub front: u16,
    pub back: Option<u16>,
}

/// The flag of a line whose upper texture begins at the ceiling in front (ML_DONTPEGTOP).
pub const TOP_UNPEGGED: u16 = 8;

/// The flag of a line whose lower texture begins at the ceiling, and whose middle texture stands
/// on the floor (ML_DONTPEGBOTTOM).
pub const BOTTOM_UNPEGGED: u16 = 16;

/// The numbers of a side's three textures; 0 is none.
///
/// The original: side_t, r_defs.h.
#[derive(Clone, Copy)]
pub struct SideTextures {
    pub top: u16,
    pub bottom: u16,
    pub middle: u16,
}

/// The flat of a surface that is sky; no lump has this number.
pub const SKY_FLAT: u32 = 65536;

/// A sector as the drawing layers compare it.
///
/// Heights are map units, 16.16 fixed point; a flat is the number of its lump, or `SKY_FLAT`, so
/// two flats are the same exactly where their numbers are; light is the sector's, 0 to 255. The
/// original: sector_t, r_defs.h.
#[derive(Clone, Copy)]
pub struct Surface {
    pub floor: i32,
    pub ceiling: i32,
    pub floor_flat: u32,
    pub ceiling_flat: u32,
    pub light: i16,
}

/// A thing that stands in the level, with its picture's name.
///
/// `thing` is its number in its lump; the point is map units, 16.16 fixed point, `z` its feet;
/// `angle` is BAM; `sprite` and the letter `frame` name the picture; one that is `bright` is drawn
/// in full light. The original: mobj_t, p_mobj.h.
#[derive(Clone, Copy, Debug, PartialEq, Eq)]
pub struct PlacedThing {
    pub thing: u16,
    pub x: i32,
    pub y: i32,
    pub z: i32,
    pub angle: u32,
    pub sprite: [u8; 4],
    pub frame: u8,
    pub bright: bool,
}

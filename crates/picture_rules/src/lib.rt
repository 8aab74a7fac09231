//! The picture of a view: what is drawn of a scene, in which order, and the counts that limit it.
//!
//! Rules only: records, and in `specs/` what a picture is made from (Scene), the drawn fragments
//! and their dots (Walls), the planes (Planes), the fragments as the masked pass needs them
//! (Masked), the vissprites (Things), the list of all paints (Paints), the frame and its trace
//! (Picture), the counts (Counts), the list of what a view is made of (Lists), and what a trace
//! names of it (Named). The rules of one wall, one plane and one sprite stand in the folders
//! `wall`, `plane` and `sprite`. A paint is what one layer writes; a dot one pixel of it. The
//! original: R_RenderPlayerView, r_main.c.
#![tactic(auto)]

pub mod list;
pub mod plane;
pub mod sprite;
pub mod wall;

pub use list::{ListedFragment, ListedPlane, ListedSprite, MOST_TOLD, PlaneMaker};
pub use plane::{Flat4, MOST_VISPLANES, PlaneKey, SKY_MAP, SKY_MID, SKY_SHIFT};
pub use sprite::{
    MAX_VISSPRITES, MIN_DEPTH, Placed, ROTATION_SHIFT, ROTATION_TURN, SIDE_SHIFT, Seen, Shape5,
    SpriteEntry, WEAPON_CENTRE, WEAPON_MID,
};
pub use wall::{
    Clip, ColumnClip, EDGE_BITS, Edges, FragmentNote, FragmentNumbers, HEIGHT_SHIFT,
    MAX_EDGE_FRACTION, MOST_OPENINGS, Part, RowRange, SIL_BOTTOM, SIL_TOP, Silhouette, WallFacts,
    WallTexture,
};

// Passed on from the crates below.
pub use level_rules::{
    BOTTOM_UNPEGGED, MAX_DRAWSEGS, PlacedThing, SKY_FLAT, Sector, Seg, Side, SideTextures, Surface,
    TOP_UNPEGGED,
};
pub use pixel_rules::{
    FLAT_SIDE, FRAME_CELLS, LUMP, MIDDLE, MaskedColumn, PLANE, Painter, Post, SKY, SPRITE, WALL,
    WEAPON,
};
pub use view_rules::{
    Eye, FRAME_HEIGHT, FRAME_WIDTH, HALF_UNIT, MAX_FRACTION, MAX_SCALE, MAX_SIZE, Partition, Spans,
    TABLES_BYTES, TANGENTS, TablesRefusal, ViewShape,
};
pub use word_rules::{ANG90, ANG180, FRACTION_BITS, FRACTION_UNIT};

/// How many planes and openings a view may have.
///
/// The original: `MAXVISPLANES` and `MAXOPENINGS`, r_plane.c.
#[derive(Clone, Copy)]
pub struct Limits {
    pub planes: u32,
    pub openings: u32,
}

/// What a view counts: its planes, its openings, its drawn fragments and its kept sprites.
///
/// This project's own: the original keeps these as pointers into its arrays.
#[derive(Clone, Copy)]
pub struct Counts {
    pub planes: u32,
    pub openings: u32,
    pub fragments: u32,
    pub sprites: u32,
}

/// What of a view passes its limit.
#[derive(Clone, Copy, Debug, PartialEq, Eq)]
pub enum LimitKind {
    Planes,
    Openings,
}

/// The first count of a view that passes its limit.
///
/// This project's own: the original ends the program at a plane too many, and tests openings only
/// after the walk.
#[derive(Clone, Copy)]
pub struct OverLimit {
    pub kind: LimitKind,
    pub count: u32,
}

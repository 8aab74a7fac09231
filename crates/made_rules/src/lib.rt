//! The made files: angle tables, a thing table, paths, and WAD files with one level, each told from
//! a number alone.
//!
//! Rules: how numbers become bytes (Bytes), the tables by formula (Tables), the two texts (Texts),
//! palette, flats and patches (Pictures), the wall textures (Textures), the cells of a level and
//! their walls (Cells), the map lumps (Maps, Nodes) and the whole file (Wads); `proofs/` has their
//! laws. A level is a square of cells, each a sector of its own with four walls; two by two cells
//! are a room. This project's own: the original has no such files.
#![tactic(auto)]

mod map;
mod path;
mod pictures;
mod tables;
mod wad;

pub use map::{
    CELL_SIZE, CELLS_PER_NUMBER, EDGES, LEAF_MARK, LEVEL_THING, NO_SIDE, NODE_SIZE, ONE_SIDED,
    Part, THING_OPTIONS, TWO_SIDED,
};
pub use path::{
    ANGLE_STEP, EAST_ROOMS, EAST_STEPS, FREE_STEPS, NORTH_ROOMS, NORTH_STEPS, ROOM_SIZE,
    VIEWS_PER_NUMBER, WALL_DISTANCE,
};
pub use pictures::{
    COLORMAPS, COLOURS, FLAT_SIZE, FLATS, GRATE, PatchPlace, Picture, Post, SKY, TREE, WALL,
    WALL_NARROW,
};
pub use tables::{SINES, SLOPE_STEP, SLOPES, TANGENTS};
pub use wad::{HEAD_SIZE, LUMPS};

/// The greatest number that names made files.
pub const MAX_NUMBER: u32 = 32;

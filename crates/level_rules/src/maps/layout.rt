// Where the fields of a record of each map lump begin, in bytes of the record, and how many bytes
// a record has.

/// The bytes of a name.
pub const NAME_SIZE: usize = lump_rules::NAME_SIZE;

/// A record of THINGS: point, angle, type, options.
pub const THING_SIZE: usize = 10;

pub const THING_X: usize = 0;

pub const THING_Y: usize = 2;

pub const THING_ANGLE: usize = 4;

pub const THING_KIND: usize = 6;

pub const THING_OPTIONS: usize = 8;

/// A record of LINEDEFS: two vertices, flags, special, tag, and the two sides.
pub const LINE_SIZE: usize = 14;

pub const LINE_FLAGS: usize = 4;

pub const LINE_FRONT: usize = 10;

pub const LINE_BACK: usize = 12;

/// A record of SIDEDEFS: two offsets, three names, and the sector.
pub const SIDE_SIZE: usize = 30;

pub const SIDE_X_OFFSET: usize = 0;

pub const SIDE_Y_OFFSET: usize = 2;

pub const SIDE_TOP: usize = 4;

pub const SIDE_BOTTOM: usize = 12;

pub const SIDE_MIDDLE: usize = 20;

pub const SIDE_SECTOR: usize = 28;

/// A record of VERTEXES: a point.
pub const VERTEX_SIZE: usize = 4;

pub const VERTEX_X: usize = 0;

pub const VERTEX_Y: usize = 2;

/// A record of SEGS: two vertices, angle, line, side of the line, offset.
pub const SEG_SIZE: usize = 12;

pub const SEG_START: usize = 0;

pub const SEG_END: usize = 2;

pub const SEG_ANGLE: usize = 4;

pub const SEG_LINE: usize = 6;

pub const SEG_SIDE: usize = 8;

pub const SEG_OFFSET: usize = 10;

/// A record of SSECTORS: how many segs, and the first of them.
pub const LEAF_SIZE: usize = 4;

pub const LEAF_COUNT: usize = 0;

pub const LEAF_FIRST: usize = 2;

/// A record of NODES: a point of the line and its direction, two boxes, two children.
pub const NODE_SIZE: usize = 28;

pub const NODE_X: usize = 0;

pub const NODE_Y: usize = 2;

pub const NODE_DX: usize = 4;

pub const NODE_DY: usize = 6;

pub const NODE_BOX_0: usize = 8;

pub const NODE_BOX_1: usize = 16;

pub const NODE_CHILD_0: usize = 24;

pub const NODE_CHILD_1: usize = 26;

/// A box of a node, in bytes of the box.
pub const BOX_TOP: usize = 0;

pub const BOX_BOTTOM: usize = 2;

pub const BOX_LEFT: usize = 4;

pub const BOX_RIGHT: usize = 6;

/// A record of SECTORS: two heights, two names, light, special, tag.
pub const SECTOR_SIZE: usize = 26;

pub const SECTOR_FLOOR: usize = 0;

pub const SECTOR_CEILING: usize = 2;

pub const SECTOR_FLOOR_NAME: usize = 4;

pub const SECTOR_CEILING_NAME: usize = 12;

pub const SECTOR_LIGHT: usize = 20;

/// The checked fields of each record, by their numbers in it, which count a name as one field.
pub const LINE_FRONT_FIELD: u64 = 5;

pub const LINE_BACK_FIELD: u64 = 6;

pub const SIDE_SECTOR_FIELD: u64 = 5;

pub const SEG_START_FIELD: u64 = 0;

pub const SEG_END_FIELD: u64 = 1;

pub const SEG_LINE_FIELD: u64 = 3;

pub const SEG_SIDE_FIELD: u64 = 4;

pub const LEAF_FIRST_FIELD: u64 = 1;

pub const NODE_CHILD_0_FIELD: u64 = 12;

pub const NODE_CHILD_1_FIELD: u64 = 13;

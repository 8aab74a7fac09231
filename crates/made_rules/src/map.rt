// The sizes and marks of a made level.

/// A rectangle of cells: columns `west` to `east - 1` and rows `south` to `north - 1`.
#[derive(Clone, Copy)]
pub struct Part {
    pub west: u32,
    pub east: u32,
    pub south: u32,
    pub north: u32,
}

/// The columns of cells, and the rows, for each step of the number that names the files.
pub const CELLS_PER_NUMBER: u32 = 2;

/// The width and height of a cell in map units.
pub const CELL_SIZE: u32 = 128;

/// The walls of a cell.
pub const EDGES: u32 = 4;

/// The bytes of a node.
pub const NODE_SIZE: u32 = level_rules::maps::layout::NODE_SIZE as u32;

/// The mark of a leaf in a node's child.
pub const LEAF_MARK: u32 = level_rules::maps::LEAF_BIT as u32;

/// The mark of a line without a second side.
pub const NO_SIDE: u32 = level_rules::maps::NO_SIDE as u32;

/// The flags of a line with one side: it blocks.
pub const ONE_SIDED: u32 = 1;

/// The flags of a line with two sides.
pub const TWO_SIDED: u32 = level_rules::TWO_SIDED as u32;

/// The type of the things.
pub const LEVEL_THING: u32 = 2035;

/// The options of the things: they stand in the level at every skill.
pub const THING_OPTIONS: u32 = 7;

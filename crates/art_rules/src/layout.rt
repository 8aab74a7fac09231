// Where the fields of art lumps begin, and how many bytes they have. Numbers have their low byte
// first.

/// The bytes of a name.
pub const NAME_SIZE: usize = lump_rules::NAME_SIZE;

/// The bytes of the count that a list begins with.
pub const COUNT_SIZE: usize = 4;

/// The bytes of a record's place in TEXTURE1 and TEXTURE2.
pub const PLACE_SIZE: usize = 4;

/// A patch: width, height, left and top, each of two bytes, and then a place for each column.
pub const PATCH_HEADER_SIZE: usize = 8;

pub const LEFT_AT: usize = 4;

pub const TOP_AT: usize = 6;

pub const COLUMN_PLACES_AT: usize = 8;

pub const COLUMN_PLACE_SIZE: usize = 4;

/// A post: its row, its length, a byte that nothing reads, its texels, and another such byte.
pub const POST_LENGTH_AT: usize = 1;

pub const POST_BYTES_AT: usize = 3;

/// What stands in the place of a row after the last post of a column.
pub const POSTS_END: u8 = 255;

/// A record of a texture: name, four bytes, width, height, four bytes, count of patches, and then
/// its patches.
pub const TEXTURE_WIDTH_AT: usize = 12;

pub const TEXTURE_HEIGHT_AT: usize = 14;

pub const PATCH_COUNT_AT: usize = 20;

pub const TEXTURE_HEAD_SIZE: usize = 22;

/// A patch of a texture: column, row, number, and four bytes that nothing reads.
pub const ENTRY_SIZE: usize = 10;

pub const ENTRY_Y_AT: usize = 2;

pub const ENTRY_NUMBER_AT: usize = 4;

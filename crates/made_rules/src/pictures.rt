// The pictures of a made WAD file.

/// A picture in columns: sizes and offsets in texels, and the number from which its bytes count.
#[derive(Clone, Copy)]
pub struct Picture {
    pub width: u16,
    pub height: u16,
    pub left: u16,
    pub top: u16,
    pub seed: u8,
}

/// A run of rows of a column: its first row, and how many rows it has.
#[derive(Clone, Copy, Debug, PartialEq, Eq)]
pub struct Post {
    pub top: u8,
    pub length: u8,
}

/// A patch of a wall texture: the texel of its left upper corner, and its number in PNAMES.
#[derive(Clone, Copy)]
pub struct PatchPlace {
    pub x: u16,
    pub y: i16,
    pub number: u16,
}

/// The wall that both textures begin with.
pub const WALL: Picture = Picture {
    width: 64,
    height: 128,
    left: 0,
    top: 0,
    seed: 16,
};

/// The narrow wall.
pub const WALL_NARROW: Picture = Picture {
    width: 32,
    height: 128,
    left: 0,
    top: 0,
    seed: 90,
};

/// The grate, which has a hole in its middle.
pub const GRATE: Picture = Picture {
    width: 64,
    height: 128,
    left: 0,
    top: 0,
    seed: 40,
};

/// The sky.
pub const SKY: Picture = Picture {
    width: 256,
    height: 128,
    left: 0,
    top: 0,
    seed: 7,
};

/// The tree.
pub const TREE: Picture = Picture {
    width: 32,
    height: 64,
    left: 16,
    top: 64,
    seed: 120,
};

/// The colours of the palette.
pub const COLOURS: u32 = 256;

/// The light maps.
pub const COLORMAPS: u32 = 32;

/// The flats.
pub const FLATS: u32 = 4;

/// The bytes of a flat.
pub const FLAT_SIZE: u32 = 4096;

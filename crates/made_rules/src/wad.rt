// The sizes of a WAD file.

/// The bytes before the first lump of a WAD file.
pub const HEAD_SIZE: usize = 12;

/// The lumps of a made WAD file.
pub const LUMPS: u32 = 26;

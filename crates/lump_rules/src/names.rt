// The names that files, groups of lumps and maps are known by.
use crate::name::NAME_SIZE;

/// How many letters a file begins with.
pub const LETTER_COUNT: usize = 4;
/// The first bytes of the main file of a game.
pub const IWAD: [u8; LETTER_COUNT] = *b"IWAD";
/// The first bytes of a file that adds to it.
pub const PWAD: [u8; LETTER_COUNT] = *b"PWAD";

/// A mark before flats.
pub const F_START: [u8; NAME_SIZE] = *b"F_START\0";
/// Another mark before flats.
pub const FF_START: [u8; NAME_SIZE] = *b"FF_START";
/// A mark after flats.
pub const F_END: [u8; NAME_SIZE] = *b"F_END\0\0\0";
/// Another mark after flats.
pub const FF_END: [u8; NAME_SIZE] = *b"FF_END\0\0";
/// A mark before sprite lumps.
pub const S_START: [u8; NAME_SIZE] = *b"S_START\0";
/// Another mark before sprite lumps.
pub const SS_START: [u8; NAME_SIZE] = *b"SS_START";
/// A mark after sprite lumps.
pub const S_END: [u8; NAME_SIZE] = *b"S_END\0\0\0";
/// Another mark after sprite lumps.
pub const SS_END: [u8; NAME_SIZE] = *b"SS_END\0\0";

/// How many lumps follow the label of a map.
pub const MAP_LUMP_COUNT: usize = 8;
/// The lumps of a map, in the order in which they follow its label.
pub const MAP_LUMPS: [[u8; NAME_SIZE]; MAP_LUMP_COUNT] = [
    *b"THINGS\0\0",
    *b"LINEDEFS",
    *b"SIDEDEFS",
    *b"VERTEXES",
    *b"SEGS\0\0\0\0",
    *b"SSECTORS",
    *b"NODES\0\0\0",
    *b"SECTORS\0",
];

/// The lump that a map of another format has, which this renderer does not read.
pub const BEHAVIOR: [u8; NAME_SIZE] = *b"BEHAVIOR";
/// How many lumps after the label it stands.
pub const BEHAVIOR_AFTER: u16 = 11;

/// The lumps that stand between marks.
#[derive(Clone, Copy)]
pub enum Group {
    Flats,
    Sprites,
}

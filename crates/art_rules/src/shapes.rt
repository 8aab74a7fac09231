// What a book is asked for, and what it has.
use crate::{ROTATIONS, SPRITE_LETTERS};
use lump_rules::LumpNo;

/// A frame that a thing needs: the thing's number, the four letters of its sprite, and the frame
/// letter's byte.
///
/// The original: `state_t`, info.h.
#[derive(Clone, Copy, Debug, PartialEq, Eq)]
pub struct Need {
    pub thing: u16,
    pub sprite: [u8; SPRITE_LETTERS],
    pub frame: u8,
}

/// How a frame looks from one rotation: its lump, whether that is drawn flipped, its width in
/// columns, and how many texels it lies left of and above its point.
///
/// The original: `spriteframe_t`, r_defs.h, with spritewidth, spriteoffset and spritetopoffset.
#[derive(Clone, Copy)]
pub struct Shape {
    pub lump: LumpNo,
    pub flip: bool,
    pub width: u16,
    pub left: i16,
    pub top: i16,
}

/// A frame of a sprite, with its shapes from the eight rotations.
///
/// The original: `spriteframe_t`, r_defs.h.
#[derive(Clone, Copy)]
pub struct Frame {
    pub sprite: [u8; SPRITE_LETTERS],
    pub frame: u8,
    pub shapes: [Shape; ROTATIONS],
}

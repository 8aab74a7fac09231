//! Frames on their way out: the bytes of their pixels, or a PPM picture.
//!
//! A frame has a byte for each pixel, row by row from the top, which is an index into a palette.
//! Rules: Ppm in specs. Proved: what is appended, on a fault a prefix of it, and the cause of a
//! fault. A PPM file goes out in six puts, which is seen by its tests alone.
#![tactic(auto)]

mod index;
mod ppm;

use art_rules::{FRAME_CELLS, FRAME_HEIGHT, FRAME_WIDTH, PALETTE_SIZE};
pub use index::put_index;
pub use ppm::put_ppm;

/// The bytes of a frame, one for each pixel.
pub const FRAME_BYTES: usize = FRAME_CELLS;

/// The bytes of a palette: red, green and blue of 256 colours.
pub const PALETTE_BYTES: usize = PALETTE_SIZE;

/// The bytes of a frame as a PPM file.
pub const PPM_BYTES: usize = HEADER_BYTES + COLOUR_BYTES * FRAME_BYTES;

/// The bytes of a PPM file before its pixels.
const HEADER_BYTES: usize = 15;

/// The bytes of a colour: red, green and blue.
const COLOUR_BYTES: usize = 3;

const _: () = prove!(FRAME_BYTES == FRAME_WIDTH as usize * FRAME_HEIGHT as usize);

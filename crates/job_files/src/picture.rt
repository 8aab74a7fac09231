// A picture that waits to be written.
ghost use Rattle.std.specs.Prelude.{◌≡◌, length};

use frame_writer::{FRAME_BYTES, PALETTE_BYTES};
use std::marker::Model;

/// A frame, and the palette for its indices. Contracts see the two lists.
#[derive(Drop)]
pub struct Picture {
    pixels: Vec<u8>,
    playpal: Vec<u8>,
}

impl Model for Picture {
    ghost use Rattle.std.specs.Prelude.{◌≡◌, length};
    ghost use Rattle.frame_writer.specs.declared.TheConstants.{FRAME_BYTES, PALETTE_BYTES};
    ghost use Rattle.job_files.specs.Flats.{PictureValue};

    ghost Value = { PictureValue };

    ghost view = { λ picture. record {
      frame = picture.pixels.items;
      palette = picture.playpal.items;
    } };

    ghost invariant = { λ picture.
        (length picture.pixels.items ≡ FRAME_BYTES)
        × (length picture.playpal.items ≡ PALETTE_BYTES) };
}

impl Picture {
    /// A frame of palette indices, 64000 bytes row by row, and the 768 bytes of its palette.
    pub fn new(pixels: Vec<u8>, playpal: Vec<u8>) -> Picture
        requires frame { length pixels.items ≡ FRAME_BYTES }
        requires palette { length playpal.items ≡ PALETTE_BYTES }
        ensures { result ≡ record { frame = pixels.items; palette = playpal.items } }
    {
        Picture { pixels, playpal }
    }

    /// The palette index of each cell, row by row from the top.
    pub fn frame(&self) -> &[u8]
        ensures value { result.now ≡ self.now.frame }
        ensures length { length result.now ≡ FRAME_BYTES }
    {
        &self.pixels
    }

    /// Red, green and blue of 256 colours.
    pub fn playpal(&self) -> &[u8]
        ensures value { result.now ≡ self.now.palette }
        ensures length { length result.now ≡ PALETTE_BYTES }
    {
        &self.playpal
    }
}

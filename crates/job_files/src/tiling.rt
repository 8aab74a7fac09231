// A flat over the frame.
ghost use Rattle.std.specs.Prelude.{◌≡◌, length, IfOk};
ghost use Rattle.picture_rules.specs.Words.{listed};
ghost use Rattle.job_files.specs.Flats.{tiled_index};

use art_rules::OutOfMemory;
use patch_columns::flat_byte;
use picture_rules::{FLAT_SIDE, FRAME_WIDTH};
use std::alloc::Global;

// So many indices of a frame that the flat is laid over, row by row.
pub fn tile(alloc: Global, flat: &[u8], count: usize) -> Result<Vec<u8>, OutOfMemory>
    ensures pixels { IfOk result (λ frame. frame.items ≡ listed (tiled_index flat.now) count) }
    ensures count { IfOk result (λ frame. length frame.items ≡ count) }
{
    let mut frame = vec![in alloc; 0; count]?;
    for (i, pixel) in frame.iter_mut().enumerate() {
        let x = i % FRAME_WIDTH as usize % FLAT_SIDE as usize;
        let y = i / FRAME_WIDTH as usize % FLAT_SIDE as usize;
        *pixel = flat_byte(flat, x as u32, y as u32);
    }
    Ok(frame)
}

// What calls that paint write.

use art_rules::Shelf;
use lump_cache::LumpCache;
use pixel_strips::Canvas;

/// What a call that paints writes: the cache by its shelf, and the canvas.
#[derive(Drop)]
pub struct Hands<'a, S: Shelf, C: Canvas> {
    pub cache: &'a mut LumpCache,
    pub shelf: &'a mut S,
    pub canvas: &'a mut C,
}

// What a view is drawn with.

use art_rules::Shelf;
use pixel_strips::Canvas;
use sound_scene::SoundScene;
use texture_build::{Directory, LumpCache};
use view_frame::View;

/// What a view is drawn with: the scene and the view, the cache with its directory and shelf, and
/// the canvas.
#[derive(Drop)]
pub struct ViewTools<'a, S: Shelf, C: Canvas> {
    pub scene: &'a SoundScene,
    pub view: &'a View<'a>,
    pub dir: &'a Directory,
    pub cache: &'a mut LumpCache,
    pub shelf: &'a mut S,
    pub canvas: &'a mut C,
}

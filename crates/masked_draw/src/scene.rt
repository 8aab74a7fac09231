// What stays as it is while sprites and masked mid textures are drawn.

use picture_rules::{Sector, Seg, Side};
use texture_build::Textures;
use view_frame::View;

/// What the strips of the masked pass are made of: the view, the heights of textures, the openings
/// that the notes name, and the level's lists; `middles` has the number of each side's middle texture.
#[derive(Clone, Copy)]
pub struct MaskScene<'a> {
    pub view: &'a View<'a>,
    pub textures: &'a Textures,
    pub openings: &'a [i32],
    pub segs: &'a [Seg],
    pub sides: &'a [Side],
    pub sectors: &'a [Sector],
    pub middles: &'a [u16],
}

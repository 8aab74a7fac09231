// What planes are drawn with that stays as it is.

use texture_build::{Directory, LumpNo, TexNo, Textures};
use view_frame::View;
use visplanes::Planes;

/// What stays as it is while planes are drawn: the view, its planes, the textures with the number of
/// the sky's, if it has one, and the directory. `colormap` is the number of the lump COLORMAP, which is
/// live with the tag `Static`.
#[derive(Clone, Copy)]
pub struct PlaneScene<'a> {
    pub view: &'a View<'a>,
    pub textures: &'a Textures,
    pub sky: Option<TexNo>,
    pub dir: &'a Directory,
    pub planes: &'a Planes,
    pub colormap: LumpNo,
}

/// What is shown of planes: the view, its planes, and the number of the sky's texture, if it has one.
#[derive(Clone, Copy)]
pub struct ViewPlanes<'a> {
    pub view: &'a View<'a>,
    pub planes: &'a Planes,
    pub sky: Option<TexNo>,
}

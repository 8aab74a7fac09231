//! Who is asked for strips.
//!
//! Rules: `receiver_rules`; `specs/Strips`.
ghost use Rattle.std.specs.Prelude.{List, [], ◌∷◌, ◌<◌, length};
ghost use Rattle.brush.specs.Strips.{Floor, Middle, Picture, Strip, Texture};
ghost use Rattle.brush.specs.Values.{floor_value, picture_value};
ghost use Rattle.receiver_rules.specs.Receivers.{Receives};

use picture_rules::{MaskedColumn, ViewShape};
use texture_build::{LumpNo, TexNo, TextureStrip};
use view_frame::View;
use visplanes::{PlaneNo, Planes};

/// A plane of the view that is not sky, by its runs, with the flat of lump `lump`.
///
/// The original: what `R_DrawPlanes` sets before it calls `R_MakeSpans`, r_plane.c.
#[derive(Clone, Copy)]
pub struct FloorStrip<'a> {
    pub view: &'a View<'a>,
    pub planes: &'a Planes,
    pub plane: PlaneNo,
    pub lump: LumpNo,
}

/// Column `x` of a view of shape `shape`, with the masked column of a texture that texture column
/// `column` stands for. `number` is the fragment's, `map` is a colormap (0 bright to 31 dark).
///
/// The original: what `R_RenderMaskedSegRange` sets before it calls `R_DrawMaskedColumn`, r_segs.c.
#[derive(Clone, Copy)]
pub struct MiddleStrip {
    pub number: u16,
    pub tex: TexNo,
    pub column: i32,
    pub shape: ViewShape,
    pub x: u16,
    pub masked: MaskedColumn,
    pub map: u8,
}

/// Columns `first` to `last` of a view of shape `shape`, with the picture of lump `lump`, `width`
/// texels wide, whose left edge is at column `left`, which may lie outside the view.
///
/// `kind` and `number` are the painter's, `map` is a colormap (0 bright to 31 dark). Each column is
/// drawn as `masked` says, but for the clips that were taken in it: `tops` and `bottoms` have those
/// of column `first` at index 0, None where none was taken, and none past their end.
///
/// The original: `vissprite_t`, r_defs.h, with mfloorclip and mceilingclip, r_things.c.
#[derive(Clone, Copy)]
pub struct PictureStrip<'a> {
    pub kind: u8,
    pub number: u16,
    pub lump: LumpNo,
    pub flip: bool,
    pub width: u16,
    pub left: i32,
    pub shape: ViewShape,
    pub first: u16,
    pub last: u16,
    pub masked: MaskedColumn,
    pub map: u8,
    pub tops: &'a [Option<i32>],
    pub bottoms: &'a [Option<i32>],
}

/// Is asked for strips, one after the other. No call takes memory.
///
/// It stands for the lists of strips that it may have been asked for, each with a start: that on
/// which what it makes of the strips depends, such as the cells of a canvas.
pub trait Brush {
    /// Why a strip was not painted.
    type Stop: Drop;

    /// What it makes of the strips depends on one of these.
    ghost Start: { Type 0 } = { Unit {0} };

    /// For which starts and lists of strips it stands.
    ghost stands: { Self → Start → List Strip → Type 0 };

    /// For which starts, lists of strips and Stops it has stopped; the last strip of the list is
    /// the one that it answered so.
    ghost stopped: { Self → Start → List Strip → Self.Stop → Type 0 };

    /// Which strips it takes.
    ghost takes: { Self → Strip → Type 0 };

    /// Paints rows of a column with a column of a texture.
    ///
    /// The original: `R_GetColumn`, r_data.c, and `colfunc`, r_main.c.
    fn texture(&mut self, strip: &TextureStrip) -> Result<(), Self::Stop>
        requires { takes self.old (Texture strip.now) }
        ensures { Receives takes stands stopped self.old self.new (Texture strip.now ∷ []) result };

    /// Paints a plane with its flat.
    ///
    /// The original: `R_DrawPlanes`, r_plane.c.
    fn floor(&mut self, strip: &FloorStrip<'_>) -> Result<(), Self::Stop>
        requires takes { takes self.old (Floor (floor_value strip.now)) }
        requires there { strip.now.plane.0 < length strip.now.planes.now.planes }
        ensures { Receives takes stands stopped self.old self.new
            (Floor (floor_value strip.now) ∷ []) result };

    /// Paints the posts of a masked column of a texture.
    ///
    /// The original: `R_GetColumn`, r_data.c, and `R_DrawMaskedColumn`, r_things.c.
    fn middle(&mut self, strip: &MiddleStrip) -> Result<(), Self::Stop>
        requires { takes self.old (Middle strip.now) }
        ensures { Receives takes stands stopped self.old self.new (Middle strip.now ∷ []) result };

    /// Paints columns of the view with a picture.
    ///
    /// The original: `R_DrawVisSprite`, r_things.c.
    fn picture(&mut self, strip: &PictureStrip<'_>) -> Result<(), Self::Stop>
        requires { takes self.old (Picture (picture_value strip.now)) }
        ensures { Receives takes stands stopped self.old self.new
            (Picture (picture_value strip.now) ∷ []) result };
}

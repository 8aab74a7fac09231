// What takes pixels, and what it paints a column and a span with.
ghost use Rattle.std.specs.Prelude.{◌≡◌, ◌+◌, ◌<◌, ◌≤◌, ℕ, length};
ghost use Rattle.pixel_strips.specs.Rules.{FRAME_HEIGHT, FRAME_WIDTH, MAP_COLOURS, Painter, TEXEL_ROWS, span_dots};
ghost use Rattle.pixel_strips.specs.declared.texels.TheConstants.{FLAT_BYTES};
ghost use Rattle.pixel_strips.specs.Canvases.{CanvasView, with_painter, placed_at, with_dot, with_dots};
ghost use Rattle.pixel_strips.specs.Strips.{column_strip_dots, cut_strip_colour, cut_row_colour};

use crate::places::{first_place, flat_place_at, place_after};
use crate::texels::{cut_colour, cut_span_colour};
use fx_words::plus;
use pixel_rules::Painter;
use view_rules::Spans;

/// What a column is painted with: 128 texels, the 256 shades of a colormap, the texel row at the
/// first row and what a row adds to it, both 16.16 fixed point.
///
/// This project's own: the original keeps dc_source, dc_colormap, dc_texturemid and dc_iscale,
/// r_draw.c, whose source and colormap have no length.
#[derive(Clone, Copy)]
pub struct CutColumn<'a> {
    pub texels: &'a [u8],
    pub shades: &'a [u8],
    pub fraction: i32,
    pub step: i32,
}

/// What a span is painted with: the 64 by 64 texels of a flat, row by row, the 256 shades of a
/// colormap, how it is stepped, the point in the flat at the first column and what a column adds to
/// it, in texels, 16.16 fixed point.
///
/// This project's own: the original keeps ds_source, ds_colormap, ds_xfrac, ds_yfrac, ds_xstep and
/// ds_ystep, r_draw.c, whose source and colormap have no length.
#[derive(Clone, Copy)]
pub struct CutSpan<'a> {
    pub texels: &'a [u8],
    pub shades: &'a [u8],
    pub spans: Spans,
    pub x_fraction: i32,
    pub y_fraction: i32,
    pub x_step: i32,
    pub y_step: i32,
}

/// What takes the pixels of a view: the cells of a frame, row by row, in which the view stands at a
/// left column and a top row.
///
/// Its `view` tells the cells, the painter and the place; its `mark` what a painter and a colour
/// make of a cell. No call takes memory.
///
/// This project's own: the original writes to the screen's buffer.
pub trait Canvas {
    /// The cells, who paints, and where the view stands.
    ghost view: { Self → CanvasView };

    /// What a cell holds after a dot of this painter and this colour.
    ghost mark: { Painter → ℕ → ℕ };

    /// Says who paints from now on. Nothing else changes.
    fn begin(&mut self, painter: Painter)
        ensures { view self.new ≡ with_painter painter (view self.old) };

    /// Says where the view stands in the frame, in columns and rows. Nothing else changes.
    fn place(&mut self, left: u16, top: u16)
        ensures { view self.new ≡ placed_at left top (view self.old) };

    /// Paints the pixel at column `x` and row `y` of the view. No other cell changes.
    fn dot(&mut self, x: u16, y: u16, colour: u8)
        requires column { x + (view self.old).left < FRAME_WIDTH }
        requires row { y + (view self.old).top < FRAME_HEIGHT }
        ensures { view self.new ≡ with_dot mark x y colour (view self.old) };

    /// Paints rows `first` to `last` of column `x` of the view. No other cell changes.
    ///
    /// By one `dot` a row, where the canvas has no faster way. The original: `R_DrawColumn`,
    /// r_draw.c.
    fn column(&mut self, x: u16, first: u16, last: u16, cut: &CutColumn<'_>)
        requires ordered { first ≤ last }
        requires column { x + (view self.old).left < FRAME_WIDTH }
        requires rows { last + (view self.old).top < FRAME_HEIGHT }
        requires texels { length cut.now.texels.now ≡ TEXEL_ROWS }
        requires shades { length cut.now.shades.now ≡ MAP_COLOURS }
        ensures { view self.new ≡ with_dots mark (column_strip_dots (view self.old).painter x
            (cut_strip_colour cut.now.texels.now cut.now.shades.now cut.now.fraction cut.now.step
            first) first last) (view self.old) }
    {
        let mut fraction = cut.fraction;
        for y in first..last + 1 {
            self.dot(x, y, cut_colour(cut.texels, cut.shades, fraction));
            fraction = plus(fraction, cut.step);
        }
    }

    /// Paints columns `first` to `last` of row `y` of the view. No other cell changes.
    ///
    /// By one `dot` a column, where the canvas has no faster way. The original: `R_DrawSpan`,
    /// r_draw.c.
    fn span(&mut self, y: u16, first: u16, last: u16, cut: &CutSpan<'_>)
        requires ordered { first ≤ last }
        requires row { y + (view self.old).top < FRAME_HEIGHT }
        requires columns { last + (view self.old).left < FRAME_WIDTH }
        requires texels { length cut.now.texels.now ≡ FLAT_BYTES }
        requires shades { length cut.now.shades.now ≡ MAP_COLOURS }
        ensures { view self.new ≡ with_dots mark (span_dots (view self.old).painter y
            (cut_row_colour cut.now.spans cut.now.texels.now cut.now.shades.now cut.now.x_fraction
            cut.now.y_fraction cut.now.x_step cut.now.y_step first)
            first last) (view self.old) }
    {
        let step = first_place(cut.spans, cut.x_step, cut.y_step);
        let mut place = first_place(cut.spans, cut.x_fraction, cut.y_fraction);
        for x in first..last + 1 {
            let colour = cut_span_colour(cut.texels, cut.shades, flat_place_at(place));
            self.dot(x, y, colour);
            place = place_after(place, step, 1);
        }
    }
}

// Columns of pixels.
ghost use Rattle.std.specs.Prelude.{◌≡◌, ◌^◌, ◌<◌};
ghost use Rattle.pixel_strips.specs.Rules.{row_fraction};
ghost use Rattle.pixel_strips.specs.Lying.{IsColumnIn, with_column_cut};

use crate::canvas::{Canvas, CutColumn};
use crate::texels::{column_colour, shades_of, window};
use fx_words::{minus, plus, times};
use pixel_rules::TEXEL_ROWS;

/// Rows `first` to `last` of column `x` of the view.
///
/// `fraction` is the texel row at the first row, `step` what a row adds, both 16.16 fixed point;
/// the texel is the byte of `source` at `base` and the texel row modulo 128, 0 past the end, seen
/// through colormap `map` of the lump.
///
/// The original: dc_x, dc_yl, dc_yh, dc_iscale, dc_texturemid, dc_source, dc_colormap, r_draw.c.
#[derive(Clone, Copy)]
pub struct ColumnStrip<'a> {
    pub x: u16,
    pub first: u16,
    pub last: u16,
    pub fraction: i32,
    pub step: i32,
    pub source: &'a [u8],
    pub base: u64,
    pub colormap: &'a [u8],
    pub map: u8,
}

/// The texel row at row `y` of a column whose texel row at row `centre` is `mid`, where a row adds
/// `step`. They are 16.16 fixed point, and it wraps.
///
/// The original: `frac` of `R_DrawColumn`, r_draw.c.
#[tactic(auto, unfolding(pixel_rules::specs::Strips::row_fraction))]
#[inline(always)]
pub fn row_fraction(centre: u16, mid: i32, step: i32, y: u16) -> i32
    ensures { result ≡ row_fraction centre mid step y }
{
    plus(mid, times(minus(y as i32, centre as i32), step))
}

/// Paints the strip. Takes no memory.
///
/// The original: `R_DrawColumn`, r_draw.c.
#[inline(always)]
pub fn paint_column<C: Canvas>(canvas: &mut C, strip: &ColumnStrip<'_>)
    requires within { IsColumnIn strip.now (C.view canvas.old) }
    requires base { strip.now.base < 2 ^ 63 }
    ensures { C.view canvas.new ≡ with_column_cut C.mark strip.now (C.view canvas.old) }
{
    if let Some(texels) = window(strip.source, strip.base, TEXEL_ROWS as usize)
        && let Some(shades) = shades_of(strip.colormap, strip.map)
    {
        let cut = CutColumn {
            texels,
            shades,
            fraction: strip.fraction,
            step: strip.step,
        };
        canvas.column(strip.x, strip.first, strip.last, &cut);
    } else {
        paint_any_column(canvas, strip);
    }
}

/// Paints the rows of a post: a strip that begins at the post's first row seen. Takes no memory.
///
/// The original: `R_DrawMaskedColumn`, r_things.c, which calls `colfunc` for each post.
pub fn paint_post<C: Canvas>(canvas: &mut C, strip: &ColumnStrip<'_>)
    requires within { IsColumnIn strip.now (C.view canvas.old) }
    requires base { strip.now.base < 2 ^ 63 }
    ensures { C.view canvas.new ≡ with_column_cut C.mark strip.now (C.view canvas.old) }
{
    paint_column(canvas, strip);
}

// Paints the strip where the source or the colormap ends before it has all texels or shades.
fn paint_any_column<C: Canvas>(canvas: &mut C, strip: &ColumnStrip<'_>)
    requires within { IsColumnIn strip.now (C.view canvas.old) }
    requires base { strip.now.base < 2 ^ 63 }
    ensures { C.view canvas.new ≡ with_column_cut C.mark strip.now (C.view canvas.old) }
{
    let mut fraction = strip.fraction;
    for y in strip.first..strip.last + 1 {
        let colour = column_colour(
            strip.source,
            strip.base,
            strip.colormap,
            strip.map,
            fraction,
        );
        canvas.dot(strip.x, y, colour);
        fraction = plus(fraction, strip.step);
    }
}

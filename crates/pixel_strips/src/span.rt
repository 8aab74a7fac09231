// Spans of pixels.
ghost use Rattle.std.specs.Prelude.{◌≡◌};
ghost use Rattle.view_rules.specs.declared.Spans.TheVariants.{Full};
ghost use Rattle.pixel_strips.specs.Lying.{IsSpanIn, with_span};

use crate::canvas::{Canvas, CutSpan};
use crate::places::{first_place, flat_place_at, place_after};
use crate::texels::{FLAT_BYTES, shades_of, span_colour, window};
use view_rules::Spans;

/// Columns `first` to `last` of row `y` of the view.
///
/// The fractions are the place in the flat at the first column, the steps what a column adds, all
/// in texels, 16.16 fixed point; the texel is the byte of the flat's 64 by 64, 0 past its end, seen
/// through colormap `map` of the lump.
///
/// The original: ds_y, ds_x1, ds_x2, ds_xfrac, ds_yfrac, ds_xstep, ds_ystep, ds_source,
/// ds_colormap, r_draw.c.
#[derive(Clone, Copy)]
pub struct SpanStrip<'a> {
    pub y: u16,
    pub first: u16,
    pub last: u16,
    pub x_fraction: i32,
    pub y_fraction: i32,
    pub x_step: i32,
    pub y_step: i32,
    pub flat: &'a [u8],
    pub colormap: &'a [u8],
    pub map: u8,
}

/// Paints the strip, whose fractions are full. Takes no memory.
///
/// The original: `R_DrawSpan`, r_draw.c.
pub fn paint_span<C: Canvas>(canvas: &mut C, strip: &SpanStrip<'_>)
    requires within { IsSpanIn strip.now (C.view canvas.old) }
    ensures { C.view canvas.new ≡ with_span C.mark Full strip.now (C.view canvas.old) }
{
    paint_span_as(canvas, strip, Spans::Full);
}

/// Paints the strip, whose fractions are stepped as `spans` says. Takes no memory.
///
/// The original: `R_DrawSpan`, r_draw.c; for packed ones its assembly in the DOS program.
pub fn paint_span_as<C: Canvas>(canvas: &mut C, strip: &SpanStrip<'_>, spans: Spans)
    requires within { IsSpanIn strip.now (C.view canvas.old) }
    ensures { C.view canvas.new ≡ with_span C.mark spans strip.now (C.view canvas.old) }
{
    if let Some(texels) = window(strip.flat, 0, FLAT_BYTES)
        && let Some(shades) = shades_of(strip.colormap, strip.map)
    {
        let cut = CutSpan {
            texels,
            shades,
            spans,
            x_fraction: strip.x_fraction,
            y_fraction: strip.y_fraction,
            x_step: strip.x_step,
            y_step: strip.y_step,
        };
        canvas.span(strip.y, strip.first, strip.last, &cut);
    } else {
        paint_any_span(canvas, strip, spans);
    }
}

// Paints the strip where the flat or the colormap ends before it has all texels or shades.
fn paint_any_span<C: Canvas>(canvas: &mut C, strip: &SpanStrip<'_>, spans: Spans)
    requires within { IsSpanIn strip.now (C.view canvas.old) }
    ensures { C.view canvas.new ≡ with_span C.mark spans strip.now (C.view canvas.old) }
{
    let step = first_place(spans, strip.x_step, strip.y_step);
    let mut place = first_place(spans, strip.x_fraction, strip.y_fraction);
    for x in strip.first..strip.last + 1 {
        let texel = flat_place_at(place);
        let colour = span_colour(strip.flat, strip.colormap, strip.map, texel);
        canvas.dot(x, strip.y, colour);
        place = place_after(place, step, 1);
    }
}

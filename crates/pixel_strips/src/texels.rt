// Texels by their fractions, and colours through a colormap.
ghost use Rattle.std.specs.Prelude.{◌≡◌, ◌+◌, ◌*◌, ◌<◌, ◌≤◌, ◌^◌, ℕ, length, slice_index, IfSome, IfNone};
ghost use Rattle.pixel_strips.specs.Rules.{MAP_COLOURS, TEXEL_ROWS, column_colour, shade, span_colour, texel_row};
ghost use Rattle.pixel_strips.specs.Strips.{IsWindow, cut_colour, cut_span_colour};

use pixel_rules::{FLAT_SIDE, MAP_COLOURS, TEXEL_ROWS};
use word_rules::FRACTION_BITS;

/// The bytes of a flat.
pub const FLAT_BYTES: usize = FLAT_SIDE as usize * FLAT_SIDE as usize;

/// `count` bytes from an offset on, None where the end comes before.
pub fn window(bytes: &[u8], offset: u64, count: usize) -> Option<&[u8]>
    requires offset { offset < 2 ^ 63 }
    requires count { count ≤ FLAT_BYTES }
    ensures some { IfSome result (λ part. IsWindow bytes.now offset count part.now) }
    ensures within { IfSome result (λ part. (k : ℕ) → slice_index part.now k < MAP_COLOURS) }
    ensures none { IfNone result (length bytes.now < offset + count) }
{
    let start = offset as usize;
    let end = start + count;
    if end > bytes.len() {
        return None;
    }
    Some(&bytes[start..end])
}

/// The 256 shades of colormap `map`, None where the lump ends before them.
#[inline(always)]
pub fn shades_of(colormap: &[u8], map: u8) -> Option<&[u8]>
    ensures some { IfSome result (λ part.
        IsWindow colormap.now (MAP_COLOURS * map) MAP_COLOURS part.now) }
    ensures none { IfNone result (length colormap.now < MAP_COLOURS * map + MAP_COLOURS) }
{
    window(
        colormap,
        MAP_COLOURS as u64 * map as u64,
        MAP_COLOURS as usize,
    )
}

/// The byte at an offset, 0 past the end.
pub fn byte_or_zero(bytes: &[u8], offset: u64) -> u8
    ensures { result ≡ slice_index bytes.now offset }
{
    bytes.get(offset as usize).copied().unwrap_or(0)
}

/// The texel row that a fraction stands for, 0 to 127.
#[tactic(auto, unfolding(pixel_rules::specs::Strips::texel_row, word_rules::specs::Words::shr_word))]
pub fn texel_row(fraction: i32) -> usize
    ensures row { result ≡ texel_row fraction }
    ensures within { result < TEXEL_ROWS }
{
    ((fraction >> FRACTION_BITS).cast_unsigned() % TEXEL_ROWS as u32) as usize
}

/// A colour through colormap `map`, 0 past the end of the lump.
#[tactic(auto, unfolding(pixel_rules::specs::Strips::shade))]
pub fn shade(colormap: &[u8], map: u8, index: u8) -> u8
    ensures { result ≡ shade colormap.now map index }
{
    byte_or_zero(colormap, MAP_COLOURS as u64 * map as u64 + index as u64)
}

/// The colour of a column strip at a fraction.
#[tactic(auto, unfolding(pixel_rules::specs::Strips::column_colour))]
pub fn column_colour(source: &[u8], base: u64, colormap: &[u8], map: u8, fraction: i32) -> u8
    requires { base < 2 ^ 63 }
    ensures { result ≡ column_colour source.now base colormap.now map fraction }
{
    shade(
        colormap,
        map,
        byte_or_zero(source, base + texel_row(fraction) as u64),
    )
}

/// The colour of a span at a place in its flat.
#[tactic(auto, unfolding(pixel_rules::specs::Strips::span_colour))]
pub fn span_colour(flat: &[u8], colormap: &[u8], map: u8, place: usize) -> u8
    ensures { result ≡ span_colour flat.now colormap.now map place }
{
    shade(colormap, map, byte_or_zero(flat, place as u64))
}

/// The same of 128 texels and 256 shades that are cut out: no bound is tested.
#[tactic(auto, unfolding(crate::specs::Strips::cut_colour))]
pub fn cut_colour(texels: &[u8], shades: &[u8], fraction: i32) -> u8
    requires texels { length texels.now ≡ TEXEL_ROWS }
    requires shades { length shades.now ≡ MAP_COLOURS }
    ensures { result ≡ cut_colour texels.now shades.now fraction }
{
    shades[texels[texel_row(fraction)] as usize]
}

/// The same of the 4096 texels of a flat.
#[tactic(auto, unfolding(crate::specs::Strips::cut_span_colour))]
pub fn cut_span_colour(texels: &[u8], shades: &[u8], place: usize) -> u8
    requires texels { length texels.now ≡ FLAT_BYTES }
    requires shades { length shades.now ≡ MAP_COLOURS }
    requires place { place < FLAT_BYTES }
    ensures { result ≡ cut_span_colour texels.now shades.now place }
{
    shades[texels[place] as usize]
}

// Flats, colormaps and palettes.
//
// Rules: `art_rules`, Flats, and `shade` of `pixel_rules`. The original: r_draw.c, r_data.c.
ghost use Rattle.std.specs.Prelude.{◌≡◌};
ghost use Rattle.art_rules.specs.Words.{byte_at, flat_byte, palette_colour, shade};

use art_rules::{COLOUR_SIZE, FLAT_SIDE, MAP_COLOURS, byte_at};

/// The texel of a flat at column `x` and row `y`, both in texels, 0 past the lump's end.
///
/// The original: `R_DrawSpan`, r_draw.c.
#[tactic(auto, unfolding(art_rules::specs::Flats::flat_byte))]
pub fn flat_byte(bytes: &[u8], x: u32, y: u32) -> u8
    ensures { result ≡ flat_byte bytes.now x y }
{
    byte_at(bytes, FLAT_SIDE as u64 * y as u64 + x as u64)
}

/// The colour `index` through colormap `map` of the lump COLORMAP, 0 past the lump's end.
///
/// The original: `dc_colormap`, r_draw.c.
#[tactic(auto, unfolding(art_rules::specs::Words::shade, art_rules::specs::Words::byte_at))]
pub fn shade(colormap: &[u8], map: u8, index: u8) -> u8
    ensures { result ≡ shade colormap.now map index }
{
    byte_at(colormap, MAP_COLOURS as u64 * map as u64 + index as u64)
}

/// Red, green and blue of the colour `index` of the first palette of the lump PLAYPAL, 0 past the
/// lump's end.
///
/// The original: `I_SetPalette`, i_video.c.
#[tactic(auto, unfolding(art_rules::specs::Flats::palette_colour))]
pub fn palette_colour(playpal: &[u8], index: u8) -> [u8; 3]
    ensures { result ≡ palette_colour playpal.now index }
{
    let place = COLOUR_SIZE as u64 * index as u64;
    [
        byte_at(playpal, place),
        byte_at(playpal, place + 1),
        byte_at(playpal, place + 2),
    ]
}

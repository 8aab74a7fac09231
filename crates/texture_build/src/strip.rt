// Strips of textures, painted.
//
// Rules: `specs/Strips`. The original: `R_RenderSegLoop`, r_segs.c, and the sky of `R_DrawPlanes`,
// r_plane.c, where they call `R_GetColumn` and `colfunc`.
ghost use Rattle.std.specs.Prelude.{◌<◌, ◌≤◌, length};
ghost use Rattle.texture_build.specs.Draws.{CanDraw};
ghost use Rattle.texture_build.specs.Hands.{AreSameHands, hands_state};
ghost use Rattle.texture_build.specs.Strips.{IsTextureIn, PaintsTexture, art_tools};

use crate::hands::Hands;
use crate::textures::Textures;
use art_rules::Shelf;
use lump_cache::{CacheFault, Directory, LumpNo};
use pixel_strips::{Canvas, ColumnStrip, paint_column, row_fraction};
use texture_lists::TexNo;

/// What stays as it is while strips of textures are painted: the textures, and the directory.
/// `colormap` is the number of the lump COLORMAP, which is live with the tag `Static`.
#[derive(Clone, Copy)]
pub struct TextureArt<'a> {
    pub textures: &'a Textures,
    pub dir: &'a Directory,
    pub colormap: LumpNo,
}

/// Rows `first` to `last` of column `x` of the view, painted with column `column` of a texture.
///
/// `kind` and `number` are the painter's, `map` is a colormap (0 bright to 31 dark). `mid` is the
/// texel row at row `centre`, `step` what a row adds, both 16.16 fixed point.
///
/// The original: dc_x, dc_yl, dc_yh, dc_texturemid, dc_iscale and dc_colormap, r_draw.c.
#[derive(Clone, Copy)]
pub struct TextureStrip {
    pub kind: u8,
    pub number: u16,
    pub tex: TexNo,
    pub column: i32,
    pub x: u16,
    pub first: u16,
    pub last: u16,
    pub centre: u16,
    pub mid: i32,
    pub step: i32,
    pub map: u8,
}

/// Makes the texture's column live, as it nearly always is, and paints the strip with it. Takes no
/// memory.
///
/// Errors: those of `Textures::ready_at`. Nothing is painted then.
///
/// The original: `R_GetColumn`, r_data.c, and `colfunc`, r_main.c, one after the other.
#[inline(always)]
pub fn paint_texture<S: Shelf, C: Canvas>(
    art: &TextureArt<'_>,
    hands: &mut Hands<'_, S, C>,
    strip: &TextureStrip,
) -> Result<(), CacheFault>
    requires slots { length art.now.dir.now.lumps ≤ hands.old.cache.now.lumps }
    requires colormap { art.now.colormap.0 < length art.now.dir.now.lumps }
    requires texture { CanDraw art.now.dir.now.lumps art.now.textures.now hands.old.cache.now
        strip.now.tex.0 }
    requires within { IsTextureIn strip.now (C.view hands.old.canvas.now) }
    ensures same { AreSameHands hands.old hands.new }
    ensures paints { PaintsTexture C.mark (art_tools art.now) strip.now
        (hands_state S.view C.view hands.old) (hands_state S.view C.view hands.new) result }
{
    let textures = art.textures;
    let lookup = textures.lookup(strip.tex, strip.column);
    textures.ready_at(hands.cache, art.dir, hands.shelf, strip.tex, lookup)?;
    let painter = textures.painter_at(strip.kind, strip.number, strip.tex, lookup);
    let cache = &*hands.cache;
    if let Some(colormap) = cache.bytes(art.colormap)
        && let Some(texels) = textures.column_at(cache, strip.tex, lookup)
    {
        let column = ColumnStrip {
            x: strip.x,
            first: strip.first,
            last: strip.last,
            fraction: row_fraction(strip.centre, strip.mid, strip.step, strip.first),
            step: strip.step,
            source: texels.bytes,
            base: texels.first,
            colormap,
            map: strip.map,
        };
        hands.canvas.begin(painter);
        paint_column(hands.canvas, &column);
    }
    Ok(())
}

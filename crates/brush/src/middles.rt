// A masked column of a texture, painted post by post.
//
// Rules: `picture_rules/sprite`, Middles; `specs/Middles`. The original: `R_RenderMaskedSegRange`,
// r_segs.c.
ghost use Rattle.std.specs.Prelude.{◌≡◌, ◌<◌, ◌≤◌, ℕ, List, length};
ghost use Rattle.art_rules.specs.Words.{ShelfView};
ghost use Rattle.brush.specs.Middles.{IsSingle, PaintsMiddle};
ghost use Rattle.brush.specs.Posts.{HasClipsIn, IsColumnInFrame};
ghost use Rattle.brush.specs.Strips.{middle_dots};
ghost use Rattle.pixel_strips.specs.Dotted.{HasDots, PlacedAlike};
ghost use Rattle.texture_build.specs.Draws.{CanDraw, FitBeside, HoldsArt};
ghost use Rattle.texture_build.specs.Hands.{AreSameHands, hands_state};
ghost use Rattle.texture_build.specs.Paints.{painted_art};
ghost use Rattle.texture_build.specs.Sources.{IsColumnLive, IsColumnThere, column_in};
ghost use Rattle.texture_build.specs.Strips.{art_tools};
ghost use Rattle.texture_build.specs.Views.{prepared_texture};

use crate::brush::MiddleStrip;
use crate::posts::{PostLook, lend_art, paint_posts};
use art_rules::Shelf;
use picture_rules::{LUMP, MIDDLE, Painter};
use pixel_strips::Canvas;
use texture_build::{CacheFault, Hands, TextureArt};

/// Makes the column live, and paints its posts. One patch is in each column of the texture.
///
/// Errors: those of `Textures::ready`. Nothing is painted then.
///
/// The original: `R_RenderMaskedSegRange`, r_segs.c.
pub fn paint_middle<S: Shelf, C: Canvas>(
    art: &TextureArt<'_>,
    hands: &mut Hands<'_, S, C>,
    strip: &MiddleStrip,
) -> Result<(), CacheFault>
    requires slots { length art.now.dir.now.lumps ≤ hands.old.cache.now.lumps }
    requires colormap { art.now.colormap.0 < length art.now.dir.now.lumps }
    requires texture { CanDraw art.now.dir.now.lumps art.now.textures.now hands.old.cache.now
        strip.now.tex.0 }
    requires single { IsSingle (prepared_texture art.now.textures.now strip.now.tex.0) }
    requires column { IsColumnInFrame (C.view hands.old.canvas.now) strip.now.shape strip.now.x }
    requires clips { HasClipsIn strip.now.shape.height strip.now.masked }
    ensures same { AreSameHands hands.old hands.new }
    ensures paints { PaintsMiddle C.mark (art_tools art.now) strip.now
        (hands_state S.view C.view hands.old) (hands_state S.view C.view hands.new) result }
{
    let textures = art.textures;
    textures.ready(hands.cache, art.dir, hands.shelf, strip.tex, strip.column)?;
    fill_middle(art, hands, strip);
    Ok(())
}

// Paints the posts of a column that is live.
fn fill_middle<S: Shelf, C: Canvas>(
    art: &TextureArt<'_>,
    hands: &mut Hands<'_, S, C>,
    strip: &MiddleStrip,
)
    requires slots { length art.now.dir.now.lumps ≤ hands.old.cache.now.lumps }
    requires colormap { art.now.colormap.0 < length art.now.dir.now.lumps }
    requires texture { CanDraw art.now.dir.now.lumps art.now.textures.now hands.old.cache.now
        strip.now.tex.0 }
    requires single { IsSingle (prepared_texture art.now.textures.now strip.now.tex.0) }
    requires column { IsColumnInFrame (C.view hands.old.canvas.now) strip.now.shape strip.now.x }
    requires clips { HasClipsIn strip.now.shape.height strip.now.masked }
    requires there { IsColumnThere art.now.dir.now.lumps
        (column_in (prepared_texture art.now.textures.now strip.now.tex.0) strip.now.column) }
    requires live { IsColumnLive strip.now.tex.0 hands.old.cache.now
        (column_in (prepared_texture art.now.textures.now strip.now.tex.0) strip.now.column) }
    ensures same { AreSameHands hands.old hands.new }
    ensures cache { hands.new.cache.now ≡ hands.old.cache.now }
    ensures shelf { hands.new.shelf.now ≡ hands.old.shelf.now }
    ensures painted { (view : ShelfView) (contents : List (List ℕ)) (count : ℕ) →
        HoldsArt view art.now.dir.now art.now.textures.now contents art.now.colormap.0 count
        hands.old.cache.now →
        HasDots C.mark (middle_dots (painted_art contents (art_tools art.now)) strip.now)
        (C.view hands.old.canvas.now) (C.view hands.new.canvas.now) }
    ensures fits { (view : ShelfView) (contents : List (List ℕ)) (count : ℕ) →
        HoldsArt view art.now.dir.now art.now.textures.now contents art.now.colormap.0 count
        hands.old.cache.now →
        FitBeside art.now.dir.now.lumps art.now.textures.now art.now.colormap.0 count
        hands.old.cache.now.size (middle_dots (painted_art contents (art_tools art.now)) strip.now) }
    ensures place { PlacedAlike (C.view hands.old.canvas.now) (C.view hands.new.canvas.now) }
{
    let (lump, place) = art.textures.posts_place(strip.tex, strip.column);
    hands.canvas.begin(Painter {
        kind: MIDDLE,
        number: strip.number,
        source_kind: LUMP,
        source: lump.0,
    });
    if let Some(column) = lend_art(hands.cache, lump, art.colormap, strip.map) {
        let look = PostLook {
            shape: strip.shape,
            x: strip.x,
            column: strip.masked,
        };
        paint_posts(hands.canvas, &look, &column, place);
    }
}

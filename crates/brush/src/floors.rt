// A plane that is not sky, painted with its flat.
//
// Rules: `picture_rules/plane`, Floors; `specs/Floors`. The original: `R_DrawPlanes`, r_plane.c.
ghost use Rattle.std.specs.Prelude.{◌≡◌, ◌<◌, ◌≤◌, ℕ, List, length};
ghost use Rattle.art_rules.specs.Words.{ShelfView};
ghost use Rattle.brush.specs.Floors.{PaintsFloor};
ghost use Rattle.brush.specs.Strips.{floor_strip_dots};
ghost use Rattle.brush.specs.Values.{floor_value};
ghost use Rattle.pixel_strips.specs.Dotted.{HasDots, PlacedAlike};
ghost use Rattle.picture_rules.specs.declared.plane.Flat4.TheVariants.{Lump};
ghost use Rattle.texture_build.specs.Caches.{lump_owner};
ghost use Rattle.texture_build.specs.Draws.{FitBeside, HoldsArt};
ghost use Rattle.texture_build.specs.Hands.{AreSameHands, hands_state};
ghost use Rattle.texture_build.specs.Paints.{painted_art};
ghost use Rattle.texture_build.specs.Strips.{art_tools};
ghost use Rattle.texture_build.specs.Zones.{IsLive};
ghost use Rattle.visplanes.specs.Planes.{plane_at};
ghost use Rattle.visplanes.specs.Spans.{IsSeen};

use crate::brush::FloorStrip;
use art_rules::Shelf;
use pixel_strips::Canvas;
use texture_build::{CacheFault, Hands, Tag, TextureArt};
use visplanes::draw_plane;

/// Makes the flat live, and paints the plane with it.
///
/// Errors: those of `LumpCache::fetch`. Nothing is painted then.
pub(crate) fn paint_floor<S: Shelf, C: Canvas>(
    art: &TextureArt<'_>,
    hands: &mut Hands<'_, S, C>,
    strip: &FloorStrip<'_>,
) -> Result<(), CacheFault>
    requires slots { length art.now.dir.now.lumps ≤ hands.old.cache.now.lumps }
    requires colormap { art.now.colormap.0 < length art.now.dir.now.lumps }
    requires lump { strip.now.lump.0 < length art.now.dir.now.lumps }
    requires there { strip.now.plane.0 < length strip.now.planes.now.planes }
    requires flat { (floor_value strip.now).plane.key.flat ≡ Lump strip.now.lump.0 }
    requires seen { IsSeen strip.now.view.now.shape (C.view hands.old.canvas.now).left
        (C.view hands.old.canvas.now).top (floor_value strip.now).plane }
    ensures same { AreSameHands hands.old hands.new }
    ensures paints { PaintsFloor C.mark (art_tools art.now) (floor_value strip.now)
        (hands_state S.view C.view hands.old) (hands_state S.view C.view hands.new) result }
{
    hands
        .cache
        .fetch(hands.shelf, art.dir, strip.lump, Tag::Cache)?;
    fill_floor(art, hands, strip);
    Ok(())
}

// Paints a plane whose flat is live.
fn fill_floor<S: Shelf, C: Canvas>(
    art: &TextureArt<'_>,
    hands: &mut Hands<'_, S, C>,
    strip: &FloorStrip<'_>,
)
    requires slots { length art.now.dir.now.lumps ≤ hands.old.cache.now.lumps }
    requires colormap { art.now.colormap.0 < length art.now.dir.now.lumps }
    requires lump { strip.now.lump.0 < length art.now.dir.now.lumps }
    requires there { strip.now.plane.0 < length strip.now.planes.now.planes }
    requires flat { (floor_value strip.now).plane.key.flat ≡ Lump strip.now.lump.0 }
    requires seen { IsSeen strip.now.view.now.shape (C.view hands.old.canvas.now).left
        (C.view hands.old.canvas.now).top (floor_value strip.now).plane }
    requires live { IsLive hands.old.cache.now (lump_owner strip.now.lump.0) }
    ensures same { AreSameHands hands.old hands.new }
    ensures cache { hands.new.cache.now ≡ hands.old.cache.now }
    ensures shelf { hands.new.shelf.now ≡ hands.old.shelf.now }
    ensures painted { (view : ShelfView) (contents : List (List ℕ)) (count : ℕ) →
        HoldsArt view art.now.dir.now art.now.textures.now contents art.now.colormap.0 count
        hands.old.cache.now →
        HasDots C.mark (floor_strip_dots (painted_art contents (art_tools art.now))
        (floor_value strip.now)) (C.view hands.old.canvas.now) (C.view hands.new.canvas.now) }
    ensures fits { (view : ShelfView) (contents : List (List ℕ)) (count : ℕ) →
        HoldsArt view art.now.dir.now art.now.textures.now contents art.now.colormap.0 count
        hands.old.cache.now →
        FitBeside art.now.dir.now.lumps art.now.textures.now art.now.colormap.0 count
        hands.old.cache.now.size (floor_strip_dots (painted_art contents (art_tools art.now))
        (floor_value strip.now)) }
    ensures place { PlacedAlike (C.view hands.old.canvas.now) (C.view hands.new.canvas.now) }
{
    let cache = &*hands.cache;
    if let Some(flat) = cache.bytes(strip.lump)
        && let Some(shades) = cache.bytes(art.colormap)
    {
        draw_plane(
            strip.planes,
            strip.plane,
            strip.view,
            flat,
            shades,
            hands.canvas,
        );
    }
}

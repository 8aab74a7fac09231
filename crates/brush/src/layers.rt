// Columns of a view, painted with a picture.
//
// Rules: `specs/Strips`, `specs/Pictures`. The original: `R_DrawVisSprite`, r_things.c.
ghost use Rattle.std.specs.Prelude.{◌≡◌, ◌<◌, ◌≤◌, ◌+◌, None, length, slice_index_or, unwrap_or};
ghost use Rattle.brush.specs.Pictures.{ArePictureColumns, FitsDots, GivesDots, PaintsPicture, read_columns};
ghost use Rattle.brush.specs.Posts.{HasClipsIn};
ghost use Rattle.brush.specs.Strips.{picture_dots, picture_masked};
ghost use Rattle.brush.specs.Values.{picture_value};
ghost use Rattle.pixel_strips.specs.Canvases.{with_dots};
ghost use Rattle.pixel_strips.specs.Dotted.{PlacedAlike};
ghost use Rattle.texture_build.specs.Caches.{lump_owner};
ghost use Rattle.texture_build.specs.Paints.{PaintTools, paint_state};
ghost use Rattle.texture_build.specs.Zones.{IsLive};

use crate::brush::PictureStrip;
use crate::pictures::{paint_own, picture_column};
use crate::posts::{ColumnArt, lend_art};
use art_rules::Shelf;
use picture_rules::{LUMP, MaskedColumn, Painter};
use pixel_strips::Canvas;
use texture_build::{CacheFault, Directory, LumpCache, LumpNo, Tag};

/// Makes the picture live, and paints its columns. `colormap` is the lump COLORMAP, which is live
/// with the tag `Static`. Takes no memory.
///
/// Errors: those of `LumpCache::fetch`. Nothing is painted then.
///
/// The original: `R_DrawVisSprite`, r_things.c.
pub fn paint_picture<S: Shelf, C: Canvas>(
    dir: &Directory,
    colormap: LumpNo,
    cache: &mut LumpCache,
    shelf: &mut S,
    canvas: &mut C,
    strip: &PictureStrip<'_>,
) -> Result<(), CacheFault>
    requires slots { length dir.now.lumps ≤ cache.old.lumps }
    requires colormap { colormap.0 < length dir.now.lumps }
    requires lump { strip.now.lump.0 < length dir.now.lumps }
    requires columns { ArePictureColumns (C.view canvas.old) (picture_value strip.now) }
    ensures { (t : PaintTools) → t.dir ≡ dir.now → t.colormap ≡ colormap.0 →
        PaintsPicture C.mark t (picture_value strip.now)
        (paint_state (S.view shelf.old) cache.old (C.view canvas.old))
        (paint_state (S.view shelf.new) cache.new (C.view canvas.new)) result }
{
    cache.fetch(shelf, dir, strip.lump, Tag::Cache)?;
    fill_picture(colormap, cache, canvas, strip);
    Ok(())
}

// Paints the columns of a picture that is live.
fn fill_picture<C: Canvas>(
    colormap: LumpNo,
    cache: &LumpCache,
    canvas: &mut C,
    strip: &PictureStrip<'_>,
)
    requires lump { strip.now.lump.0 < cache.now.lumps }
    requires colormap { colormap.0 < cache.now.lumps }
    requires live { IsLive cache.now (lump_owner strip.now.lump.0) }
    requires columns { ArePictureColumns (C.view canvas.old) (picture_value strip.now) }
    ensures painted { GivesDots C.mark colormap.0 strip.now.lump.0 cache.now
        (λ art. picture_dots art (picture_value strip.now))
        (C.view canvas.old) (C.view canvas.new) }
    ensures fits { FitsDots colormap.0 strip.now.lump.0 cache.now
        (λ art. picture_dots art (picture_value strip.now)) }
    ensures place { PlacedAlike (C.view canvas.old) (C.view canvas.new) }
{
    canvas.begin(Painter {
        kind: strip.kind,
        number: strip.number,
        source_kind: LUMP,
        source: strip.lump.0,
    });
    if let Some(art) = lend_art(cache, strip.lump, colormap, strip.map) {
        fill_columns(canvas, strip, &art);
    }
}

// Paints the columns, one after the other.
fn fill_columns<C: Canvas>(canvas: &mut C, strip: &PictureStrip<'_>, art: &ColumnArt<'_>)
    requires columns { ArePictureColumns (C.view canvas.old) (picture_value strip.now) }
    requires map { art.now.map ≡ strip.now.map }
    ensures { C.view canvas.new ≡ with_dots C.mark (read_columns (picture_value strip.now)
        art.now.bytes.now art.now.colormap.now (C.view canvas.old).painter (strip.now.last + 1))
        (C.view canvas.old) }
{
    for x in strip.first..strip.last + 1 {
        let own = picture_column(strip.flip, strip.width, strip.left, strip.masked.iscale, x);
        let column = picture_masked(strip, x);
        paint_own(canvas, strip.shape, x, &column, art, own);
    }
}

// How column `x` of a picture is drawn.
#[tactic(auto, unfolding(crate::specs::Strips::picture_masked))]
fn picture_masked(strip: &PictureStrip<'_>, x: u16) -> MaskedColumn
    requires { strip.now.first ≤ x }
    ensures { result ≡ picture_masked (picture_value strip.now) x }
{
    MaskedColumn {
        scale: strip.masked.scale,
        mid: strip.masked.mid,
        iscale: strip.masked.iscale,
        top_clip: clip_or(strip.tops, x - strip.first, strip.masked.top_clip),
        bottom_clip: clip_or(strip.bottoms, x - strip.first, strip.masked.bottom_clip),
    }
}

// The clip at an index, where one was taken, or else another row.
fn clip_or(clips: &[Option<i32>], index: u16, row: i32) -> i32
    ensures { result ≡ unwrap_or (slice_index_or clips.now index None) row }
{
    match clips.get(index as usize) {
        Some(clip) => clip.unwrap_or(row),
        None => row,
    }
}

// Sprites in drawing order, and the masked mid textures between and behind them.
//
// Rules: `picture_rules/sprite`, Clips and Middles; `specs/Strips`, `specs/Lists`, `specs/Ready`. The
// original: `R_DrawMasked` and `R_DrawSprite`, r_things.c.
ghost use Rattle.std.specs.Prelude.{◌≡◌, ◌<◌, ◌≤◌, ◌≤ℤ◌, ℕ, ⊤, true, false, List, All, OnOk, Some, None, length, slice_get};
ghost use Rattle.std.specs.List.{AllPass};
ghost use Rattle.texture_build.specs.Caches.{cache_fault};
ghost use Rattle.masked_draw.specs.Rules.{AreNoted, FRAME_WIDTH, IsWholeNote, SpriteEntry, draw_order, entry_has};
ghost use Rattle.vissprites.specs.Bounds.{lies_within, has_lump_below};
ghost use Rattle.pixel_strips.specs.Standing.{StandsInFrame};
ghost use Rattle.texture_build.specs.Paints.{Paints};
ghost use Rattle.masked_draw.specs.Clipped.{TakesRows};
ghost use Rattle.masked_draw.specs.Marks.{MarkedTo, MarksBy, MissesColumns, is_passed, mark_in, unmarked_strips};
ghost use Rattle.masked_draw.specs.Passes.{ShowsSprite};
ghost use Rattle.masked_draw.specs.Ready.{IsListed, IsNotedMiddle, IsSpriteLump};
ghost use Rattle.masked_draw.specs.Scenes.{CanShow, IsInScene, scene_drawseg, scene_drawsegs};
ghost use Rattle.masked_draw.specs.Strips.{masked_strips, middles_strips, sprites_strips};
ghost use Rattle.masked_draw.specs.Takes.{TakesColumns, TakesFragments, TakesMasked, TakesSprite};
ghost use Rattle.masked_draw.specs.Tools.{AreSameMaskTools, masked_state, masked_tools, tools_dots, tools_lists};
ghost use Rattle.receiver_rules.specs.Receivers.{Receives};

use crate::clips::{SpriteClips, is_behind};
use crate::middles::paint_middle;
use crate::scene::MaskScene;
use crate::sprites::paint_sprite;
use crate::tools::MaskedTools;
use art_rules::Shelf;
use brush::{Brush, LiveBrush, column_of};
use picture_rules::{FragmentNote, SpriteEntry};
use pixel_strips::Canvas;
use texture_build::{CacheFault, TextureArt};
use vissprites::Sprites;

/// Draws the sprites, the least scale first, each after the masked mid textures that are behind it,
/// and at last the masked columns that are left. Of the middle textures only columns are asked for
/// that are seen, and only pictures of sprites that have a column in the view. Takes no memory.
///
/// The notes and the openings are those of the view's drawn fragments, at most 256; `marks` has an
/// entry for each opening, and what it holds does not matter. The segs of the notes, with their
/// sides and sectors, are among the lists; the middle texture of a masked one is prepared and has
/// one patch in each column. The sprites' columns lie in the view, and their lumps are the
/// directory's. The canvas stands where the view lies in the frame.
///
/// Errors: `ZoneFull` only if no gap of the zone held the block of a sprite's lump or of a masked
/// column's; `ReadFault` only if the shelf's count of faults rose. After any answer, a cache that
/// was at rest is at rest, and one that was faithful is faithful.
///
/// The original: `R_DrawMasked`, r_things.c.
pub fn draw_masked<S: Shelf, C: Canvas>(
    tools: &mut MaskedTools<'_, S, C>,
    notes: &[FragmentNote],
    sprites: &Sprites,
) -> Result<(), CacheFault>
    requires noted { AreNoted tools.old.view.now.shape notes.now tools.old.openings.now }
    requires listed { All (IsListed tools.old.dir.now.lumps tools.old.textures.now
        tools.old.cache.now (tools_lists tools.old)) notes.now }
    requires marks { length tools.old.openings.now ≤ length tools.old.marks.now }
    requires columns { AllPass (lies_within tools.old.view.now.shape.width) sprites.now }
    requires lumps { AllPass (has_lump_below (length tools.old.dir.now.lumps)) sprites.now }
    requires slots { length tools.old.dir.now.lumps ≤ tools.old.cache.now.lumps }
    requires colormap { tools.old.colormap.0 < length tools.old.dir.now.lumps }
    requires placed { StandsInFrame tools.old.view.now.shape (C.view tools.old.canvas.now) }
    ensures same { AreSameMaskTools tools.old tools.new }
    ensures marks { length tools.new.marks.now ≡ length tools.old.marks.now }
    ensures paints { Paints cache_fault C.mark (masked_tools tools.old)
        (IsNotedMiddle (tools_lists tools.old) tools.old.openings.now notes.now)
        (IsSpriteLump sprites.now) (λ (q : ⊤). ⊤)
        (λ contents q. tools_dots tools.old notes.now sprites.now contents)
        (masked_state S.view C.view tools.old) (masked_state S.view C.view tools.new) result }
{
    let scene = MaskScene {
        view: tools.view,
        textures: tools.textures,
        openings: tools.openings,
        segs: tools.segs,
        sides: tools.sides,
        sectors: tools.sectors,
        middles: tools.middles,
    };
    let mut brush = LiveBrush {
        art: TextureArt {
            textures: tools.textures,
            dir: tools.dir,
            colormap: tools.colormap,
        },
        cache: &mut *tools.cache,
        shelf: &mut *tools.shelf,
        canvas: &mut *tools.canvas,
    };
    paint_masked(&scene, &mut brush, tools.marks, notes, sprites)
}

/// Asks a brush for what the masked pass shows: each sprite in drawing order, after the masked
/// columns that it stands in front of, and at last the masked columns that are left, those of the last
/// fragment first. Takes no memory.
///
/// The notes and the openings are those of the view's drawn fragments; `marks` has an entry for each
/// opening, and what it holds does not matter. The segs of the notes, with their sides and sectors,
/// are among the lists, and the sprites' columns lie in the view.
///
/// Errors: what the brush answered, at the strip where it was asked for, at once.
///
/// The original: `R_DrawMasked`, r_things.c.
pub fn paint_masked<B: Brush>(
    scene: &MaskScene<'_>,
    brush: &mut B,
    marks: &mut [bool],
    notes: &[FragmentNote],
    sprites: &Sprites,
) -> Result<(), B::Stop>
    requires ready { CanShow scene.now notes.now marks.old }
    requires columns { AllPass (lies_within scene.now.view.now.shape.width) sprites.now }
    requires takes { TakesMasked B.takes brush.old scene.now.view.now
        (scene_drawsegs scene.now notes.now) sprites.now }
    ensures marks { length marks.new ≡ length marks.old }
    ensures asks { Receives B.takes B.stands B.stopped brush.old brush.new
        (masked_strips scene.now.view.now (scene_drawsegs scene.now notes.now)
        (draw_order sprites.now)) result }
{
    marks.fill(false);
    draw_sprites(scene, brush, marks, notes, sprites)?;
    draw_middles(scene, brush, marks, notes)
}

// Asks for the sprites, each after the masked columns behind it. No column is marked before.
fn draw_sprites<B: Brush>(
    scene: &MaskScene<'_>,
    brush: &mut B,
    marks: &mut [bool],
    notes: &[FragmentNote],
    sprites: &Sprites,
) -> Result<(), B::Stop>
    requires ready { CanShow scene.now notes.now marks.old }
    requires unmarked { (p : ℕ) → mark_in marks.old p ≡ false }
    requires columns { AllPass (lies_within scene.now.view.now.shape.width) sprites.now }
    requires takes { TakesMasked B.takes brush.old scene.now.view.now
        (scene_drawsegs scene.now notes.now) sprites.now }
    ensures marks { length marks.new ≡ length marks.old }
    ensures marked { OnOk result (MarkedTo (scene_drawseg scene.now) notes.now
        (draw_order sprites.now) (length notes.now) (λ k. length (draw_order sprites.now))
        marks.new) }
    ensures asks { Receives B.takes B.stands B.stopped brush.old brush.new
        (sprites_strips scene.now.view.now (scene_drawsegs scene.now notes.now)
        (draw_order sprites.now)) result }
{
    let mut clips = SpriteClips::new();
    for entry in sprites.sorted() {
        draw_sprite(scene, brush, marks, notes, &entry, &mut clips)?;
    }
    Ok(())
}

// Asks for the masked columns that are left, where all sprites are drawn.
fn draw_middles<B: Brush>(
    scene: &MaskScene<'_>,
    brush: &mut B,
    marks: &mut [bool],
    notes: &[FragmentNote],
) -> Result<(), B::Stop>
    requires ready { CanShow scene.now notes.now marks.old }
    requires takes { TakesFragments B.takes brush.old scene.now.view.now
        (scene_drawsegs scene.now notes.now) }
    ensures marks { length marks.new ≡ length marks.old }
    ensures asks { (es : List SpriteEntry) → MarkedTo (scene_drawseg scene.now) notes.now es
        (length notes.now) (λ k. length es) marks.old →
        Receives B.takes B.stands B.stopped brush.old brush.new
        (middles_strips scene.now.view.now (scene_drawsegs scene.now notes.now) es None) result }
{
    for k in (0..notes.len()).rev() {
        let note = &notes[k];
        paint_middle(scene, brush, marks, note, k as u16, note.first, note.last)?;
    }
    Ok(())
}

// Asks for a sprite, where it has a column, after the masked columns behind it and within the clips
// of the fragments in front of it, the last fragment first. It is the next of the sprites whose
// masked columns are marked.
fn draw_sprite<B: Brush>(
    scene: &MaskScene<'_>,
    brush: &mut B,
    marks: &mut [bool],
    notes: &[FragmentNote],
    entry: &SpriteEntry,
    clips: &mut SpriteClips,
) -> Result<(), B::Stop>
    requires ready { CanShow scene.now notes.now marks.old }
    requires within { lies_within scene.now.view.now.shape.width entry.now ≡ true }
    requires fragments { TakesFragments B.takes brush.old scene.now.view.now
        (scene_drawsegs scene.now notes.now) }
    requires sprite { TakesSprite B.takes brush.old scene.now.view.now
        (scene_drawsegs scene.now notes.now) entry.now }
    ensures marks { length marks.new ≡ length marks.old }
    ensures shows { (es : List SpriteEntry) (i : ℕ) → i < length es →
        slice_get es i ≡ Some entry.now →
        MarkedTo (scene_drawseg scene.now) notes.now es (length notes.now) (λ k. i) marks.old →
        ShowsSprite B.takes B.stands B.stopped scene.now notes.now es i entry.now marks.new
        brush.old brush.new result }
{
    if entry.last < entry.first {
        return Ok(());
    }
    let first = column_of(entry.first);
    let last = column_of(entry.last);
    clips.clear(first, last);
    for k in (0..notes.len()).rev() {
        pass_fragment(scene, brush, marks, &notes[k], k as u16, entry, clips)?;
    }
    paint_sprite(scene.view.shape(), brush, clips, entry, first, last)
}

// Asks for the masked columns of fragment `number` where it is behind a sprite, or else takes its
// clips.
fn pass_fragment<B: Brush>(
    scene: &MaskScene<'_>,
    brush: &mut B,
    marks: &mut [bool],
    note: &FragmentNote,
    number: u16,
    entry: &SpriteEntry,
    clips: &mut SpriteClips,
) -> Result<(), B::Stop>
    requires width { scene.now.view.now.shape.width ≤ FRAME_WIDTH }
    requires whole { IsWholeNote scene.now.view.now.shape scene.now.openings.now note.now }
    requires listed { IsInScene scene.now note.now }
    requires marks { length scene.now.openings.now ≤ length marks.old }
    requires within { lies_within scene.now.view.now.shape.width entry.now ≡ true }
    requires ordered { entry.now.first ≤ℤ entry.now.last }
    requires takes { TakesColumns B.takes brush.old scene.now.view.now number
        (scene_drawseg scene.now note.now) }
    ensures marks { length marks.new ≡ length marks.old }
    ensures marked { OnOk result (MarksBy note.now
        (is_passed entry.now (scene_drawseg scene.now note.now)) marks.old marks.new) }
    ensures rows { (x : ℕ) → entry_has entry.now x ≡ true →
        TakesRows entry.now (scene_drawseg scene.now note.now) clips.old clips.new x }
    ensures asks { Receives B.takes B.stands B.stopped brush.old brush.new
        (unmarked_strips scene.now.view.now marks.old note.now
        (is_passed entry.now (scene_drawseg scene.now note.now)) number
        (scene_drawseg scene.now note.now)) result }
{
    let first = column_of(entry.first);
    let last = column_of(entry.last);
    if !counts(note, first, last) {
        return Ok(());
    }
    let from = first.max(note.first);
    let to = last.min(note.last);
    if is_behind(note, &scene.segs[note.seg_no as usize], entry) {
        return paint_middle(scene, brush, marks, note, number, from, to);
    }
    clips.take(note, scene.openings, entry, from, to);
    Ok(())
}

// Whether a fragment has one of the columns, and clips or is masked. Asked of each fragment for each
// sprite, and seldom so: one branch for both ends.
fn counts(note: &FragmentNote, first: u16, last: u16) -> bool
    ensures yes { result ≡ true → (note.now.first ≤ last) × (first ≤ note.now.last) }
    ensures no { result ≡ false → MissesColumns note.now first last }
{
    let meets = (note.first <= last) & (first <= note.last);
    meets && (note.silhouette != 0 || note.masked.is_some())
}

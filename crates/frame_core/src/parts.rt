// The three parts of a view, in order: walls as they are walked, planes, the masked pass.
//
// Rules: `picture_rules`, Paints; `specs/ViewStrips`, `specs/Parts`. The original:
// `R_RenderPlayerView`, r_main.c.
ghost use Rattle.std.specs.Prelude.{◌≡◌, ◌≤◌, ◌++◌, ℕ, List, IfErr, IfSome, OnOk, Some, length};
ghost use Rattle.frame_core.specs.declared.bench.Bench.{Bench};
ghost use Rattle.frame_core.specs.Ends.{EndsOver, EndsWithin};
ghost use Rattle.frame_core.specs.Painters.{HasWalkedNothing, HasWalkedView, limits_in};
ghost use Rattle.frame_core.specs.Parts.{AreNotesListed, AsksView, TakesView};
ghost use Rattle.frame_core.specs.Rules.{AreInView, IsWithinFrame, draw_order, view_over, view_paints};
ghost use Rattle.frame_core.specs.Views.{AreSameViewTools, CanCount, CanDrawTools, PaintsView, placed_for, tools_scene, tools_state};
ghost use Rattle.frame_core.specs.ViewStrips.{scene_entries, scene_noted, scene_planes, scene_sky};
ghost use Rattle.frame_core.specs.Walked.{CanTake};
ghost use Rattle.masked_draw.specs.Strips.{masked_strips};
ghost use Rattle.plane_draw.specs.Strips.{planes_strips};
ghost use Rattle.receiver_rules.specs.Receivers.{Receives};
ghost use Rattle.sound_scene.specs.Pictures.{scene_of};
ghost use Rattle.texture_build.specs.Paints.{paint_state};
ghost use Rattle.wall_columns.specs.Faults.{over_in};

use crate::bench::Bench;
use crate::fault::ViewFault;
use crate::floors::paint_floors;
use crate::masks::paint_masks;
use crate::painter::paint_walls;
use crate::tools::ViewTools;
use art_rules::Shelf;
use brush::{Brush, LiveBrush};
use pixel_strips::Canvas;
use sound_scene::SoundScene;
use texture_build::TextureArt;
use view_frame::View;
use wall_columns::WallStop;

/// Draws the three parts of a view on a canvas, which is placed where the view lies in the frame.
///
/// Errors: `Limit` with the first count of the view that passes its limit; `ZoneFull` and
/// `ReadFault` as for `Textures::ready`.
pub(crate) fn draw_parts<S: Shelf, C: Canvas>(
    tools: &mut ViewTools<'_, S, C>,
    bench: &mut Bench,
    marks: &mut [bool],
) -> Result<(), ViewFault>
    requires drawable { CanDrawTools tools.old }
    requires marks { bench.old.walls.room ≤ length marks.old }
    ensures same { AreSameViewTools tools.old tools.new }
    ensures marks { length marks.new ≡ length marks.old }
    ensures within { EndsWithin tools.old.view.now tools.old.scene.now.scene (limits_in bench.old)
        result }
    ensures over { EndsOver tools.old.view.now tools.old.scene.now.scene (limits_in bench.old)
        result }
    ensures paints { let v = tools.old.view.now in
        PaintsView C.mark (tools_scene tools.old)
        (view_paints v)
        (paint_state (S.view tools.old.shelf.now) tools.old.cache.now
        (placed_for v (C.view tools.old.canvas.now)))
        (tools_state S.view C.view tools.new) result }
    ensures in_view { (bytes : ℕ → List ℕ) → OnOk result (AreInView tools.old.view.now.shape
        (view_paints tools.old.view.now (scene_of bytes tools.old.scene.now.scene))) }
    ensures frame { IsWithinFrame tools.old.view.now.shape }
    ensures limits { limits_in bench.new ≡ limits_in bench.old }
{
    let shape = tools.view.shape();
    tools.canvas.place(shape.left, shape.top);
    bench.start(tools.scene, tools.view);
    let mut brush = LiveBrush {
        art: TextureArt {
            textures: tools.scene.textures(),
            dir: tools.dir,
            colormap: tools.scene.colormap(),
        },
        cache: &mut *tools.cache,
        shelf: &mut *tools.shelf,
        canvas: &mut *tools.canvas,
    };
    paint_view(tools.scene, tools.view, bench, marks, &mut brush)?;
    Ok(())
}

// Asks a brush for all that a view shows, in a bench that was started for it.
fn paint_view<B: Brush>(
    scene: &SoundScene,
    view: &View<'_>,
    bench: &mut Bench,
    marks: &mut [bool],
    brush: &mut B,
) -> Result<(), WallStop<B::Stop>>
    requires scene { CanCount scene.now.scene }
    requires start { CanTake view.now scene.now.scene bench.old }
    requires walked { HasWalkedNothing view.now scene.now.scene bench.old }
    requires marks { bench.old.walls.room ≤ length marks.old }
    requires listed { (b : Bench) → HasWalkedView view.now scene.now.scene b →
        AreNotesListed view.now scene.now.scene }
    requires takes { TakesView B.takes brush.old view.now scene.now.scene }
    ensures marks { length marks.new ≡ length marks.old }
    ensures walked { OnOk result (HasWalkedView view.now scene.now.scene bench.new) }
    ensures over { (bytes : ℕ → List ℕ) → IfErr result (λ stop. IfSome (over_in stop) (λ over.
        view_over view.now (scene_of bytes scene.now.scene) (limits_in bench.old) ≡ Some over)) }
    ensures limits { limits_in bench.new ≡ limits_in bench.old }
    ensures asks { AsksView B.takes B.stands B.stopped view.now scene.now.scene bench.new brush.old
        brush.new result }
{
    paint_walls(scene, view, bench, brush)?;
    match paint_rest(scene, view, bench, marks, brush) {
        Ok(()) => Ok(()),
        Err(stop) => Err(WallStop::Brush(stop)),
    }
}

// Asks a brush for the planes, and then for the masked pass.
fn paint_rest<B: Brush>(
    scene: &SoundScene,
    view: &View<'_>,
    bench: &Bench,
    marks: &mut [bool],
    brush: &mut B,
) -> Result<(), B::Stop>
    requires walked { HasWalkedView view.now scene.now.scene bench.now }
    requires marks { bench.now.walls.room ≤ length marks.old }
    requires listed { AreNotesListed view.now scene.now.scene }
    requires takes { TakesView B.takes brush.old view.now scene.now.scene }
    ensures marks { length marks.new ≡ length marks.old }
    ensures asks { Receives B.takes B.stands B.stopped brush.old brush.new
        (planes_strips view.now (scene_sky scene.now.scene)
        (scene_planes view.now scene.now.scene)
        ++ masked_strips view.now (scene_noted view.now scene.now.scene)
        (draw_order (scene_entries view.now scene.now.scene))) result }
{
    paint_floors(scene, view, bench, brush)?;
    paint_masks(scene, view, bench, marks, brush)
}

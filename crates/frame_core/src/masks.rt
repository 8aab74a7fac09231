// The masked pass of a view, asked of a brush at last.
//
// Rules: `picture_rules`, Masked and Paints; `specs/ViewStrips`. The original: `R_DrawMasked`,
// r_things.c.
ghost use Rattle.std.specs.Prelude.{◌≡◌, ◌≤◌, length};
ghost use Rattle.frame_core.specs.Painters.{HasWalkedView};
ghost use Rattle.frame_core.specs.Parts.{AreNotesListed};
ghost use Rattle.frame_core.specs.Rules.{FRAME_HEIGHT, FRAME_WIDTH, draw_order};
ghost use Rattle.frame_core.specs.ViewStrips.{scene_entries, scene_noted};
ghost use Rattle.masked_draw.specs.Strips.{masked_strips};
ghost use Rattle.masked_draw.specs.Takes.{TakesMasked};
ghost use Rattle.receiver_rules.specs.Receivers.{Receives};

use crate::bench::Bench;
use brush::Brush;
use masked_draw::{MaskScene, paint_masked};
use picture_rules::{FRAME_HEIGHT, FRAME_WIDTH};
use sound_scene::SoundScene;
use view_frame::View;

/// Asks a brush for the vissprites and the masked mid textures of a view, where the walk is in the
/// bench. `marks` has an entry for each opening that there may be, and what it holds does not matter.
///
/// Errors: what the brush answered, at once.
pub(crate) fn paint_masks<B: Brush>(
    scene: &SoundScene,
    view: &View<'_>,
    bench: &Bench,
    marks: &mut [bool],
    brush: &mut B,
) -> Result<(), B::Stop>
    requires walked { HasWalkedView view.now scene.now.scene bench.now }
    requires marks { bench.now.walls.room ≤ length marks.old }
    requires listed { AreNotesListed view.now scene.now.scene }
    requires takes { TakesMasked B.takes brush.old view.now
        (scene_noted view.now scene.now.scene) (scene_entries view.now scene.now.scene) }
    ensures marks { length marks.new ≡ length marks.old }
    ensures asks { Receives B.takes B.stands B.stopped brush.old brush.new (masked_strips view.now
        (scene_noted view.now scene.now.scene)
        (draw_order (scene_entries view.now scene.now.scene))) result }
{
    let shape = view.shape();
    prove!(shape.width <= FRAME_WIDTH && shape.height <= FRAME_HEIGHT);
    let level = scene.level();
    let openings = bench.walls.openings();
    let (marks, _) = marks.split_at_mut(openings.len());
    let shown = MaskScene {
        view,
        textures: scene.textures(),
        openings,
        segs: level.segs(),
        sides: level.sides(),
        sectors: level.sectors(),
        middles: scene.middles(),
    };
    paint_masked(&shown, brush, marks, bench.walls.notes(), &bench.sprites)
}

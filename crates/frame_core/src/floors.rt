// The planes of a view, asked of a brush when its walls are there.
//
// Rules: `picture_rules`, Planes; `specs/ViewStrips`. The original: `R_DrawPlanes`, r_plane.c.
ghost use Rattle.frame_core.specs.Painters.{HasWalkedView};
ghost use Rattle.frame_core.specs.ViewStrips.{scene_planes, scene_sky};
ghost use Rattle.plane_draw.specs.Strips.{planes_strips};
ghost use Rattle.receiver_rules.specs.Receivers.{Receives, TakesEach};

use crate::bench::Bench;
use brush::Brush;
use plane_draw::{ViewPlanes, paint_planes};
use sound_scene::SoundScene;
use view_frame::View;

/// Asks a brush for the planes of a view, in order of making, where the walk is in the bench.
///
/// Errors: what the brush answered, at once.
pub(crate) fn paint_floors<B: Brush>(
    scene: &SoundScene,
    view: &View<'_>,
    bench: &Bench,
    brush: &mut B,
) -> Result<(), B::Stop>
    requires walked { HasWalkedView view.now scene.now.scene bench.now }
    requires takes { TakesEach B.takes brush.old (planes_strips view.now
        (scene_sky scene.now.scene) (scene_planes view.now scene.now.scene)) }
    ensures { Receives B.takes B.stands B.stopped brush.old brush.new (planes_strips view.now
        (scene_sky scene.now.scene) (scene_planes view.now scene.now.scene)) result }
{
    let shown = ViewPlanes {
        view,
        planes: &bench.planes,
        sky: scene.sky(),
    };
    paint_planes(&shown, brush)
}

// The strips of a sky plane.
//
// Rules: `picture_rules/plane`, Skies; `specs/Strips`. The original: `R_DrawPlanes`, r_plane.c.
ghost use Rattle.std.specs.Prelude.{◌≡◌, ◌<◌, length};
ghost use Rattle.plane_draw.specs.Rules.{FRAME_WIDTH, Sky, column, sky_column};
ghost use Rattle.plane_draw.specs.Strips.{plane_strips, run_strips};
ghost use Rattle.receiver_rules.specs.Receivers.{Receives, TakesEach};
ghost use Rattle.visplanes.specs.Planes.{plane_at};

use crate::scene::ViewPlanes;
use brush::{Brush, TextureStrip};
use picture_rules::{SKY, SKY_MAP, SKY_MID, SKY_SHIFT};
use texture_build::TexNo;
use view_frame::{View, turn};
use visplanes::PlaneNo;

// The column of the sky's texture at column `x`.
#[tactic(auto, unfolding(picture_rules::specs::plane::Skies::sky_column))]
fn sky_column(view: &View<'_>, x: u16) -> i32
    requires { x < view.now.shape.width }
    ensures { result ≡ sky_column view.now x }
{
    let angle = view.tables().angle_of_column(x as usize);
    (turn(view.eye().angle, angle) >> SKY_SHIFT) as i32
}

/// Asks for the strips of a sky plane, from its first to its last marked column; for none without a
/// texture of the sky.
pub(crate) fn paint_sky<B: Brush>(
    scene: &ViewPlanes<'_>,
    brush: &mut B,
    plane: PlaneNo,
) -> Result<(), B::Stop>
    requires there { plane.0 < length scene.now.planes.now.planes }
    requires flat { (plane_at scene.now.planes.now.planes plane.0).key.flat ≡ Sky }
    requires takes { TakesEach B.takes brush.old (plane_strips scene.now.view.now scene.now.sky
        plane.0 (plane_at scene.now.planes.now.planes plane.0)) }
    ensures { Receives B.takes B.stands B.stopped brush.old brush.new (plane_strips
        scene.now.view.now scene.now.sky plane.0
        (plane_at scene.now.planes.now.planes plane.0)) result }
{
    let Some(tex) = scene.sky else {
        return Ok(());
    };
    let (first, last) = scene.planes.marked(plane);
    for x in first..scene.view.shape().width.min(last + 1) {
        paint_sky_column(scene, brush, plane, tex, x)?;
    }
    Ok(())
}

// Asks for the strip of column `x` of a sky plane, if it has rows there.
#[tactic(auto, unfolding(crate::specs::Strips::run_strips, crate::specs::Strips::sky_strip))]
fn paint_sky_column<B: Brush>(
    scene: &ViewPlanes<'_>,
    brush: &mut B,
    plane: PlaneNo,
    tex: TexNo,
    x: u16,
) -> Result<(), B::Stop>
    requires there { plane.0 < length scene.now.planes.now.planes }
    requires column { x < scene.now.view.now.shape.width }
    requires narrow { x < FRAME_WIDTH }
    requires takes { TakesEach B.takes brush.old (run_strips scene.now.view.now plane.0 tex x
        (column (plane_at scene.now.planes.now.planes plane.0) x)) }
    ensures { Receives B.takes B.stands B.stopped brush.old brush.new (run_strips
        scene.now.view.now plane.0 tex x
        (column (plane_at scene.now.planes.now.planes plane.0) x)) result }
{
    let Some((first, last)) = scene.planes.column(plane, x) else {
        return Ok(());
    };
    if last < first {
        return Ok(());
    }
    let shape = scene.view.shape();
    brush.texture(&TextureStrip {
        kind: SKY,
        number: plane.0,
        tex,
        column: sky_column(scene.view, x),
        x,
        first: first as u16,
        last: last as u16,
        centre: shape.centre_y,
        mid: SKY_MID,
        step: shape.sky_step,
        map: SKY_MAP,
    })
}

// The strips of the planes of a view, in order of making.
//
// Rules: `specs/Strips`. The original: `R_DrawPlanes`, r_plane.c.
ghost use Rattle.std.specs.Prelude.{◌≡◌, ◌<◌, length};
ghost use Rattle.picture_rules.specs.declared.plane.Flat4.TheVariants.{Lump};
ghost use Rattle.plane_draw.specs.Strips.{plane_strips, planes_strips};
ghost use Rattle.receiver_rules.specs.Receivers.{Receives, TakesEach};
ghost use Rattle.visplanes.specs.Planes.{plane_at};

use crate::scene::ViewPlanes;
use crate::sky::paint_sky;
use brush::{Brush, FloorStrip};
use picture_rules::Flat4;
use texture_build::LumpNo;
use visplanes::PlaneNo;

/// Asks a brush for the strips of all planes, in order of making: for a floor or a ceiling once, with
/// its flat, for the sky once a column, with its texture. A plane without a run has no strip.
///
/// Errors: what the brush answered, at the strip where it was asked for, at once.
///
/// The original: `R_DrawPlanes`, r_plane.c.
pub fn paint_planes<B: Brush>(scene: &ViewPlanes<'_>, brush: &mut B) -> Result<(), B::Stop>
    requires { TakesEach B.takes brush.old (planes_strips scene.now.view.now scene.now.sky
        scene.now.planes.now.planes) }
    ensures { Receives B.takes B.stands B.stopped brush.old brush.new (planes_strips
        scene.now.view.now scene.now.sky scene.now.planes.now.planes) result }
{
    for number in 0..scene.planes.count() {
        paint_plane(scene, brush, PlaneNo(number as u16))?;
    }
    Ok(())
}

// Asks for the strips of a plane.
fn paint_plane<B: Brush>(
    scene: &ViewPlanes<'_>,
    brush: &mut B,
    plane: PlaneNo,
) -> Result<(), B::Stop>
    requires there { plane.0 < length scene.now.planes.now.planes }
    requires takes { TakesEach B.takes brush.old (plane_strips scene.now.view.now scene.now.sky
        plane.0 (plane_at scene.now.planes.now.planes plane.0)) }
    ensures { Receives B.takes B.stands B.stopped brush.old brush.new (plane_strips
        scene.now.view.now scene.now.sky plane.0
        (plane_at scene.now.planes.now.planes plane.0)) result }
{
    match scene.planes.key(plane).flat {
        Flat4::Sky => paint_sky(scene, brush, plane),
        Flat4::Lump(lump) => paint_floor(scene, brush, plane, LumpNo(lump)),
    }
}

// Asks for a plane with its flat, if it has a run.
fn paint_floor<B: Brush>(
    scene: &ViewPlanes<'_>,
    brush: &mut B,
    plane: PlaneNo,
    lump: LumpNo,
) -> Result<(), B::Stop>
    requires there { plane.0 < length scene.now.planes.now.planes }
    requires flat { (plane_at scene.now.planes.now.planes plane.0).key.flat ≡ Lump lump.0 }
    requires takes { TakesEach B.takes brush.old (plane_strips scene.now.view.now scene.now.sky
        plane.0 (plane_at scene.now.planes.now.planes plane.0)) }
    ensures { Receives B.takes B.stands B.stopped brush.old brush.new (plane_strips
        scene.now.view.now scene.now.sky plane.0
        (plane_at scene.now.planes.now.planes plane.0)) result }
{
    if scene.planes.is_empty(plane) {
        return Ok(());
    }
    brush.floor(&FloorStrip {
        view: scene.view,
        planes: scene.planes,
        plane,
        lump,
    })
}

// The planes of a view, drawn on a canvas.
//
// Rules: `picture_rules`, Planes; `specs/Planes`. The original: `R_DrawPlanes`, r_plane.c.
ghost use Rattle.picture_rules.specs.Words.{planes_dots};
ghost use Rattle.texture_build.specs.Caches.{cache_fault};
ghost use Rattle.texture_build.specs.Hands.{AreSameHands, hands_state};
ghost use Rattle.texture_build.specs.Paints.{Paints};
ghost use Rattle.plane_draw.specs.Planes.{IsFlatOf, IsSkyColumn};
ghost use Rattle.plane_draw.specs.Scenes.{CanDrawPlanes, HasSky, plane_tools, with_art};

use crate::planes::paint_planes;
use crate::scene::{PlaneScene, ViewPlanes};
use art_rules::Shelf;
use brush::LiveBrush;
use pixel_strips::Canvas;
use texture_build::{CacheFault, Hands, TextureArt};

/// Paints all planes, in order of making: a floor or a ceiling by its flat, and the sky by its
/// texture, column by column. A plane without a marked column asks for nothing, and of the sky's
/// texture only columns are asked for that are seen. Takes no memory.
///
/// The flats of the planes are lumps of the directory, and if one is sky there is a texture of the
/// sky, which is prepared; their rows lie in the view. The canvas stands where the view lies in
/// the frame.
///
/// Errors: `ZoneFull` only if no gap of the zone held the block of a flat or of the sky's column;
/// `ReadFault` only if the shelf's count of faults rose. After any answer, a cache that was at rest
/// is at rest, and one that was faithful is faithful.
///
/// The original: `R_DrawPlanes`, r_plane.c.
pub fn draw_planes<S: Shelf, C: Canvas>(
    scene: &PlaneScene<'_>,
    hands: &mut Hands<'_, S, C>,
) -> Result<(), CacheFault>
    requires { CanDrawPlanes scene.now (hands_state S.view C.view hands.old) }
    ensures same { AreSameHands hands.old hands.new }
    ensures paints { Paints cache_fault C.mark (plane_tools scene.now)
        (IsSkyColumn scene.now.view.now scene.now.sky scene.now.planes.now.planes)
        (IsFlatOf scene.now.planes.now.planes) (HasSky scene.now)
        (λ contents picture. planes_dots scene.now.view.now (with_art contents scene.now picture)
        scene.now.planes.now.planes)
        (hands_state S.view C.view hands.old) (hands_state S.view C.view hands.new) result }
{
    let shown = ViewPlanes {
        view: scene.view,
        planes: scene.planes,
        sky: scene.sky,
    };
    let mut brush = LiveBrush {
        art: TextureArt {
            textures: scene.textures,
            dir: scene.dir,
            colormap: scene.colormap,
        },
        cache: &mut *hands.cache,
        shelf: &mut *hands.shelf,
        canvas: &mut *hands.canvas,
    };
    paint_planes(&shown, &mut brush)
}

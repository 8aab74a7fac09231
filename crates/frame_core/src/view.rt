// One view, drawn and counted.
//
// Rules: `picture_rules`, Paints, Picture and Counts. The original: `R_RenderPlayerView`, r_main.c.
ghost use Rattle.frame_core.specs.Ends.{EndsComplete, EndsNotFull, EndsOver, EndsWithin, HoldsAgain, HoldsScene};
ghost use Rattle.frame_core.specs.Faults.{view_fault};
ghost use Rattle.frame_core.specs.Painters.{limits_in};
ghost use Rattle.sound_scene.specs.Pictures.{scene_of};
ghost use Rattle.frame_core.specs.Views.{AreSameViewTools, CanCount, CanDrawTools, CanDrawView, IsViewLump, IsViewTexture, PaintsView, placed_for, tools_scene, tools_state, view_scene};
ghost use Rattle.frame_core.specs.Rules.{AreInView, IsWithinFrame, lump_bytes, picture, view_counts, view_of, view_over, view_paints};
ghost use Rattle.sound_scene.specs.Sound.{textures_view};
ghost use Rattle.std.specs.Prelude.{◌≡◌, ◌≤◌, ℕ, List, Some, IfErr, IfOk, OnOk, length};
ghost use Rattle.texture_build.specs.Draws.{DrawsWith, FitBeside};
ghost use Rattle.texture_build.specs.Paints.{paint_state};

use crate::fault::ViewFault;
use crate::painter::count_walls;
use crate::parts::draw_parts;
use crate::tools::ViewTools;
use crate::workshop::Workshop;
use art_rules::Shelf;
use picture_rules::{Counts, Eye, OverLimit};
use pixel_strips::Canvas;
use sound_scene::SoundScene;
use texture_build::{Directory, LumpCache};
use view_frame::{Tables, View};

/// Draws the view of `eye` on the workshop's frame, which is cleared before: after Ok its bytes are
/// the picture of the view (`picture`). Takes no memory.
///
/// The lumps that the scene names are among this directory's (`IsDrawable`), as they are in the one
/// of its audit, and the cache has a slot for each lump and for each of the scene's textures. What
/// is told of bytes is told of a cache at rest that holds those of its files.
///
/// Errors: `Limit` only where a count of the view passes its limit, with the first count that does;
/// where one does, never Ok. `ZoneFull` only if no gap of the zone held the block of a lump or a
/// texture of the scene, and never in a zone that is large enough for the scene (`enough`);
/// `ReadFault` only if the shelf's count of faults rose, and it rises nowhere else. In such a zone
/// any other answer is Ok or a limit (`complete`). After an error the frame's bytes are not told;
/// after any answer the next call finds what a first call finds: a cache that was at rest and held
/// the bytes of its files is at rest and holds them (`again`). The frame is placed where the view
/// lies in it (`left`, `top`, `window`), so that a weapon can be painted on it (`Workshop::canvas`).
///
/// The original: `R_RenderPlayerView`, r_main.c, and `R_ExecuteSetViewSize` for the place.
pub fn draw_view<S: Shelf>(
    scene: &SoundScene,
    tables: &Tables,
    shop: &mut Workshop,
    cache: &mut LumpCache,
    dir: &Directory,
    shelf: &mut S,
    eye: Eye,
) -> Result<(), ViewFault>
    requires { CanDrawView dir.now.lumps scene.now.scene cache.old }
    ensures picture { (contents : List (List ℕ)) (count : ℕ) →
        HoldsScene dir.now scene.now.scene (S.view shelf.old) cache.old contents count →
        OnOk result (shop.new.frame.cells ≡ picture (view_of tables.now eye)
        (scene_of (lump_bytes contents dir.now.lumps) scene.now.scene)) }
    ensures within { EndsWithin (view_of tables.now eye) scene.now.scene shop.old.limits result }
    ensures over { EndsOver (view_of tables.now eye) scene.now.scene shop.old.limits result }
    ensures fits { (contents : List (List ℕ)) (count : ℕ) →
        HoldsScene dir.now scene.now.scene (S.view shelf.old) cache.old contents count →
        OnOk result (FitBeside dir.now.lumps (textures_view scene.now.scene)
        scene.now.scene.base.colormap count cache.old.size
        (view_paints (view_of tables.now eye)
        (scene_of (lump_bytes contents dir.now.lumps) scene.now.scene))) }
    ensures draws { DrawsWith view_fault (IsViewTexture scene.now.scene)
        (IsViewLump dir.now.lumps scene.now.scene) (S.view shelf.old) (S.view shelf.new)
        dir.now (textures_view scene.now.scene) cache.old cache.new result }
    ensures enough { EndsNotFull dir.now scene.now.scene (S.view shelf.old) cache.old result }
    ensures complete { EndsComplete dir.now scene.now.scene (S.view shelf.old) cache.old result }
    ensures again { HoldsAgain dir.now scene.now.scene (S.view shelf.old) (S.view shelf.new)
        cache.old cache.new }
    ensures left { shop.new.frame.left ≡ (view_of tables.now eye).shape.left }
    ensures top { shop.new.frame.top ≡ (view_of tables.now eye).shape.top }
    ensures window { IsWithinFrame (view_of tables.now eye).shape }
    ensures limits { shop.new.limits ≡ shop.old.limits }
{
    shop.frame.clear();
    let view = View::new(tables, eye);
    let mut tools = ViewTools {
        scene: &*scene,
        view: &view,
        dir: &*dir,
        cache: &mut *cache,
        shelf: &mut *shelf,
        canvas: &mut shop.frame,
    };
    draw_parts(&mut tools, &mut shop.bench, &mut shop.marks)
}

/// Draws the view of `eye` on a canvas, which is placed where the view lies in the frame: after Ok
/// it was given the dots of the view in order (`painted`). Takes no memory.
///
/// The conditions, the errors and what is told after them are those of `draw_view`; the workshop's
/// frame stays as it is. The dots lie in the view, which lies in the frame.
///
/// The original: `R_RenderPlayerView`, r_main.c, and `R_ExecuteSetViewSize` for the place.
pub fn draw_view_on<'a, S: Shelf, C: Canvas>(
    scene: &'a SoundScene,
    tables: &Tables,
    shop: &mut Workshop,
    cache: &'a mut LumpCache,
    dir: &'a Directory,
    shelf: &'a mut S,
    eye: Eye,
    canvas: &'a mut C,
) -> Result<(), ViewFault>
    requires { CanDrawView dir.now.lumps scene.now.scene cache.old }
    ensures within { EndsWithin (view_of tables.now eye) scene.now.scene shop.old.limits result }
    ensures over { EndsOver (view_of tables.now eye) scene.now.scene shop.old.limits result }
    ensures paints { let v = view_of tables.now eye in
        PaintsView C.mark (view_scene v scene.now.scene dir.now) (view_paints v)
        (paint_state (S.view shelf.old) cache.old
        (placed_for v (C.view canvas.old)))
        (paint_state (S.view shelf.new) cache.new (C.view canvas.new)) result }
    ensures in_view { (bytes : ℕ → List ℕ) → OnOk result (AreInView (view_of tables.now eye).shape
        (view_paints (view_of tables.now eye) (scene_of bytes scene.now.scene))) }
    ensures window { IsWithinFrame (view_of tables.now eye).shape }
    ensures enough { EndsNotFull dir.now scene.now.scene (S.view shelf.old) cache.old result }
    ensures complete { EndsComplete dir.now scene.now.scene (S.view shelf.old) cache.old result }
    ensures again { HoldsAgain dir.now scene.now.scene (S.view shelf.old) (S.view shelf.new)
        cache.old cache.new }
    ensures limits { shop.new.limits ≡ shop.old.limits }
    ensures frame { shop.new.frame ≡ shop.old.frame }
{
    let view = View::new(tables, eye);
    let mut tools = ViewTools {
        scene,
        view: &view,
        dir,
        cache,
        shelf,
        canvas,
    };
    draw_parts(&mut tools, &mut shop.bench, &mut shop.marks)
}

/// What the view of `eye` counts: its planes, its openings, its drawn fragments (at most 256) and
/// its vissprites (at most 128). Draws nothing, and takes no memory.
///
/// Errors: the first count of the view that passes its limit, exactly where one does.
///
/// This project's own.
pub fn count_view(
    scene: &SoundScene,
    tables: &Tables,
    shop: &mut Workshop,
    eye: Eye,
) -> Result<Counts, OverLimit>
    requires { CanCount scene.now.scene }
    ensures counts { (bytes : ℕ → List ℕ) → IfOk result (λ counts. counts
        ≡ view_counts (view_of tables.now eye) (scene_of bytes scene.now.scene)) }
    ensures within { EndsWithin (view_of tables.now eye) scene.now.scene shop.old.limits result }
    ensures over { (bytes : ℕ → List ℕ) → IfErr result (λ over.
        view_over (view_of tables.now eye) (scene_of bytes scene.now.scene) shop.old.limits
        ≡ Some over) }
    ensures limits { shop.new.limits ≡ shop.old.limits }
    ensures frame { shop.new.frame ≡ shop.old.frame }
{
    let view = View::new(tables, eye);
    let bench = &mut shop.bench;
    bench.start(scene, &view);
    count_walls(scene, &view, bench)?;
    Ok(bench.counts())
}

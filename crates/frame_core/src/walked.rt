// The walk of a view of a scene.
//
// Rules: `sound_scene`, Pictures; `node_walk`, Visits. The original: `R_RenderBSPNode`, r_bsp.c.
ghost use Rattle.std.specs.Prelude.{◌≡◌, length};
ghost use Rattle.node_walk.specs.Lists.{walk_lists};
ghost use Rattle.node_walk.specs.Visits.{TakesAll};
ghost use Rattle.receiver_rules.specs.Receivers.{Receives};
ghost use Rattle.picture_rules.specs.Words.{view_events};
ghost use Rattle.sound_scene.specs.Pictures.{lists_of};

use node_walk::{Cover, Visitor, WalkScene, walk};
use sound_scene::SoundScene;
use view_frame::View;

/// The level of a scene, with its surfaces and middle textures.
#[tactic(auto, using(sound_scene::proofs::SurfaceLemmas::surface_counts))]
pub(crate) fn walked_scene(scene: &SoundScene) -> WalkScene<'_>
    requires sides { length scene.now.scene.faces.sides
        ≡ length scene.now.scene.base.level.sides }
    requires flats { length scene.now.scene.faces.flats
        ≡ length scene.now.scene.base.level.sectors }
    ensures lists { walk_lists result.level.now result.surfaces.now result.middles.now
        ≡ lists_of scene.now.scene }
    ensures level { result.level.now ≡ scene.now.scene.base.level }
    ensures surfaces { length result.surfaces.now ≡ length result.level.now.sectors }
    ensures middles { length result.middles.now ≡ length result.level.now.sides }
{
    WalkScene {
        level: scene.level(),
        surfaces: scene.surfaces(),
        middles: scene.middles(),
    }
}

/// Gives the visitor the leaves and fragments of a view of the scene, in order.
///
/// Errors: what the visitor answered, at the event where it was given, at once.
pub(crate) fn walk_view<V: Visitor>(
    scene: &SoundScene,
    view: &View<'_>,
    visitor: &mut V,
) -> Result<(), V::Stop>
    requires sides { length scene.now.scene.faces.sides
        ≡ length scene.now.scene.base.level.sides }
    requires flats { length scene.now.scene.faces.flats
        ≡ length scene.now.scene.base.level.sectors }
    requires takes { TakesAll (V.takes visitor.old) (length scene.now.scene.base.level.leaves)
        (length scene.now.scene.base.level.segs) view.now.shape.width }
    ensures { Receives V.takes V.stands V.stopped visitor.old visitor.new
        (view_events view.now (lists_of scene.now.scene)) result }
{
    let walked = walked_scene(scene);
    let mut cover = Cover::new(view.shape().width);
    walk(&walked, view, &mut cover, visitor)
}

// What a view is made of, item by item.
//
// Rules: `picture_rules`, Lists. This project's own.
ghost use Rattle.frame_core.specs.Ends.{EndsWithin};
ghost use Rattle.sound_scene.specs.Pictures.{scene_of};
ghost use Rattle.frame_core.specs.ViewLists.{empty_list, listed_planes};
ghost use Rattle.frame_core.specs.Views.{CanCount};
ghost use Rattle.frame_core.specs.Rules.{MOST_VISPLANES, listed_plane, marked_columns, view_counts, view_list, view_of, view_over};
ghost use Rattle.std.specs.Prelude.{◌≡◌, ◌≤◌, ◌<◌, ℕ, List, Some, IfErr, IfOk, OnOk, length, vec_capacity};
ghost use Rattle.visplanes.specs.Planes.{plane_at};

use crate::lister::list_walls;
use crate::walk_list::{WalkList, push_within};
use crate::workshop::Workshop;
use picture_rules::{
    Counts, Eye, FRAME_WIDTH, ListedFragment, ListedPlane, ListedSprite, MOST_VISPLANES, OverLimit,
    PlaneMaker,
};
use sound_scene::SoundScene;
use std::alloc::{AllocError, Global};
use std::marker::Model;
use view_frame::{Tables, View};
use visplanes::{PlaneNo, Planes};

/// The list of a view: its drawn fragments, its planes with what made each, and its kept vissprites
/// with their things, each in the order of the numbers by which a trace names them; and how many
/// fragments and vissprites there would be without a limit.
///
/// This project's own.
pub struct ViewList {
    walk: WalkList,
    planes: Vec<ListedPlane>,
}

// By hand, so that a drop of one is one call.
impl Drop for ViewList {
    fn drop(self) {
        let ViewList { walk: _, planes: _ } = self;
    }
}

impl Model for ViewList {
    ghost use Rattle.std.specs.Prelude.{◌≤◌, vec_capacity};
    ghost use Rattle.frame_core.specs.Rules.{MOST_VISPLANES, ViewListValue};

    ghost Value = { ViewListValue };

    ghost view = { λ l. record {
      fragments = l.walk.fragments;
      planes = l.planes.items;
      sprites = l.walk.sprites;
      all_fragments = l.walk.all_fragments;
      all_sprites = l.walk.all_sprites;
    } };

    ghost invariant = { λ l. MOST_VISPLANES ≤ vec_capacity l.planes };
}

impl ViewList {
    /// An empty list. Takes all its memory: room for 256 fragments, 1024 planes and 128 vissprites.
    ///
    /// Errors: `AllocError`, out of memory.
    pub fn new(alloc: Global) -> Result<ViewList, AllocError>
        ensures { IfOk result (λ list. list ≡ empty_list) }
    {
        Ok(ViewList {
            walk: WalkList::new(alloc)?,
            planes: Vec::with_capacity(alloc, MOST_VISPLANES as usize)?,
        })
    }

    /// The drawn fragments, at most 256, by number: each with the number of its seg in SEGS and its
    /// columns, 0 to 319.
    pub fn fragments(&self) -> &[ListedFragment]
        ensures { result.now ≡ self.now.fragments }
    {
        self.walk.fragments()
    }

    /// The planes, by number: each with its key (its height in map units, 16.16 fixed point), what
    /// made it, and in how many columns it has a run.
    pub fn planes(&self) -> &[ListedPlane]
        ensures { result.now ≡ self.now.planes }
    {
        &self.planes
    }

    /// The kept vissprites, at most 128, by number: each with the number of its thing in THINGS, the
    /// lump of its picture and its columns, none where the first is past the last.
    pub fn sprites(&self) -> &[ListedSprite]
        ensures { result.now ≡ self.now.sprites }
    {
        self.walk.sprites()
    }

    /// How many fragments are seen, those past the 256 that are drawn too.
    pub fn all_fragments(&self) -> u64
        ensures { result ≡ self.now.all_fragments }
    {
        self.walk.all_fragments()
    }

    /// How many vissprites the things make, those past the 128 that are kept too.
    pub fn all_sprites(&self) -> u64
        ensures { result ≡ self.now.all_sprites }
    {
        self.walk.all_sprites()
    }
}

/// Lists what the view of `eye` is made of, and counts it as `count_view` does: after Ok the list
/// is that of the view (`view_list`). Draws nothing, and takes no memory: `ViewList::new` took it
/// all.
///
/// Numbers of segs, leaves and things are those of the level's lumps (SEGS, SSECTORS, THINGS),
/// columns are 0 to 319 from the left of the view, heights map units in 16.16 fixed point.
///
/// Errors: the first count of the view that passes its limit, exactly where one does. The list is
/// not told then.
///
/// This project's own.
pub fn list_view(
    scene: &SoundScene,
    tables: &Tables,
    shop: &mut Workshop,
    list: &mut ViewList,
    eye: Eye,
) -> Result<Counts, OverLimit>
    requires { CanCount scene.now.scene }
    ensures counts { (bytes : ℕ → List ℕ) → IfOk result (λ counts. counts
        ≡ view_counts (view_of tables.now eye) (scene_of bytes scene.now.scene)) }
    ensures within { EndsWithin (view_of tables.now eye) scene.now.scene shop.old.limits result }
    ensures over { (bytes : ℕ → List ℕ) → IfErr result (λ over.
        view_over (view_of tables.now eye) (scene_of bytes scene.now.scene) shop.old.limits
        ≡ Some over) }
    ensures limits { shop.new.limits ≡ shop.old.limits }
    ensures frame { shop.new.frame ≡ shop.old.frame }
    ensures list { (bytes : ℕ → List ℕ) → OnOk result (list.new
        ≡ view_list (view_of tables.now eye) (scene_of bytes scene.now.scene)) }
{
    let view = View::new(tables, eye);
    let bench = &mut shop.bench;
    bench.start(scene, &view);
    list.walk.clear();
    list_walls(scene, &view, bench, &mut list.walk)?;
    let counts = bench.counts();
    list_planes(&bench.planes, list.walk.makers(), &mut list.planes);
    Ok(counts)
}

// Lists the planes with their makers, in order of making.
fn list_planes(planes: &Planes, makers: &[PlaneMaker], listed: &mut Vec<ListedPlane>)
    requires makers { length makers.now ≤ length planes.now.planes }
    requires most { length planes.now.planes ≤ MOST_VISPLANES }
    requires capacity { MOST_VISPLANES ≤ vec_capacity listed.old }
    ensures items { listed.new.items ≡ listed_planes planes.now.planes makers.now }
    ensures capacity { MOST_VISPLANES ≤ vec_capacity listed.new }
{
    listed.clear();
    for (index, maker) in makers.iter().enumerate() {
        let plane = listed_plane(planes, PlaneNo(index as u16), *maker);
        push_within(listed, plane);
    }
}

// A plane with its maker.
#[tactic(auto, unfolding(picture_rules::specs::Lists::listed_plane))]
fn listed_plane(planes: &Planes, plane: PlaneNo, maker: PlaneMaker) -> ListedPlane
    requires { plane.0 < length planes.now.planes }
    ensures { result ≡ listed_plane (plane_at planes.now.planes plane.0) maker }
{
    ListedPlane {
        key: planes.key(plane),
        maker,
        columns: marked_columns(planes, plane),
    }
}

// In how many columns a plane has a run.
fn marked_columns(planes: &Planes, plane: PlaneNo) -> u16
    requires { plane.0 < length planes.now.planes }
    ensures { result ≡ marked_columns (plane_at planes.now.planes plane.0) }
{
    let all = planes.count();
    prove!(u32::from(plane.0) < all);
    let mut columns = 0;
    for x in 0..FRAME_WIDTH {
        if planes.column(plane, x).is_none() {
            continue;
        }
        columns += 1;
    }
    columns
}

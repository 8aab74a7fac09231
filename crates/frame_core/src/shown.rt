// The things of a sector as their vissprites are listed: rules `specs/ViewLists`.
ghost use Rattle.sound_scene.specs.Pictures.{lists_of, scene_of};
ghost use Rattle.frame_core.specs.ViewLists.{seen_sprite, shape_sprite, thing_sprite, with_entered, with_sprites};
ghost use Rattle.frame_core.specs.Rules.{FRAME_WIDTH, LIGHT_LEVELS, light_number, listed_sprite, natural, project, surface_at, things_of};
ghost use Rattle.std.specs.Prelude.{◌≡◌, ◌<◌, ◌≤ℤ◌, ℕ, List, Some, length, pos};
ghost use Rattle.vissprites.specs.declared.seen.TheConstants.{ROTATIONS};

use crate::facts::surface_at;
use crate::things::{drawn_shape, placed_of};
use crate::walk_list::WalkList;
use picture_rules::{FRAME_WIDTH, ListedSprite, Placed, PlacedThing, Seen, Shape5, SpriteEntry};
use sound_scene::SoundScene;
use view_frame::View;
use vissprites::{entry_for, project};

/// Lists the vissprites of the things of a sector, where it was not entered before. Takes no
/// memory.
pub(crate) fn list_entered(
    scene: &SoundScene,
    view: &View<'_>,
    list: &mut WalkList,
    is_known: bool,
    sector: u16,
)
    requires sector { sector < length scene.now.scene.base.level.sectors }
    requires flats { length scene.now.scene.faces.flats
        ≡ length scene.now.scene.base.level.sectors }
    ensures { (bytes : ℕ → List ℕ) → list.new ≡ with_entered view.now
        (scene_of bytes scene.now.scene) is_known sector list.old }
{
    if !is_known {
        list_things(scene, view, list, sector);
    }
}

// Lists the vissprites of the things of a sector, in drawing order.
fn list_things(scene: &SoundScene, view: &View<'_>, list: &mut WalkList, sector: u16)
    requires sector { sector < length scene.now.scene.base.level.sectors }
    requires flats { length scene.now.scene.faces.flats
        ≡ length scene.now.scene.base.level.sectors }
    ensures { (bytes : ℕ → List ℕ) → list.new ≡ with_sprites view.now
        (scene_of bytes scene.now.scene) sector list.old
        (things_of scene.now.scene.placed sector) }
{
    let light = view.light_number(surface_at(scene, sector).light, 0);
    let things = scene.things_of(sector);
    for thing in things {
        let sprite = thing_sprite(scene, view, thing, light);
        list.add_sprite(sprite);
    }
}

// The vissprite of a thing in a sector of that light, where it makes one.
fn thing_sprite(
    scene: &SoundScene,
    view: &View<'_>,
    thing: &PlacedThing,
    light: u8,
) -> Option<ListedSprite>
    requires { light < LIGHT_LEVELS }
    ensures { (bytes : ℕ → List ℕ) (sector : ℕ) →
        light ≡ light_number view.now (surface_at (lists_of scene.now.scene) sector).light (pos 0) →
        result ≡ thing_sprite view.now (scene_of bytes scene.now.scene) sector thing.now }
{
    let placed = placed_of(thing, light);
    match project(view, &placed) {
        Some(seen) => seen_sprite(scene, view, thing, &placed, seen),
        None => None,
    }
}

// The vissprite of a thing that is seen, where its picture is in the book and does not miss the
// view.
fn seen_sprite(
    scene: &SoundScene,
    view: &View<'_>,
    thing: &PlacedThing,
    placed: &Placed,
    seen: Seen,
) -> Option<ListedSprite>
    requires light { placed.now.light < LIGHT_LEVELS }
    requires seen { project view.now placed.now ≡ Some seen }
    requires rotation { seen.rotation < ROTATIONS }
    ensures { (bytes : ℕ → List ℕ) → result ≡ seen_sprite view.now
        (scene_of bytes scene.now.scene) thing.now placed.now (Some seen) }
{
    match scene
        .sprites()
        .pick(thing.sprite, thing.frame, seen.rotation)
    {
        Some(shape) => shape_sprite(view, thing, placed, seen, drawn_shape(shape)),
        None => None,
    }
}

// The vissprite of a thing by its picture, where that does not miss the view.
fn shape_sprite(
    view: &View<'_>,
    thing: &PlacedThing,
    placed: &Placed,
    seen: Seen,
    shape: Shape5,
) -> Option<ListedSprite>
    requires light { placed.now.light < LIGHT_LEVELS }
    requires seen { project view.now placed.now ≡ Some seen }
    ensures { result ≡ shape_sprite view.now thing.now placed.now seen (Some shape) }
{
    let width = view.shape().width;
    prove!(width <= FRAME_WIDTH);
    match entry_for(view, 0, placed, seen, shape) {
        Some(entry) => Some(listed_sprite(&entry, thing)),
        None => None,
    }
}

// A vissprite of the view, as it is listed.
#[tactic(auto, unfolding(picture_rules::specs::Lists::listed_sprite))]
fn listed_sprite(entry: &SpriteEntry, thing: &PlacedThing) -> ListedSprite
    requires first { entry.now.first ≤ℤ pos FRAME_WIDTH }
    requires last { entry.now.last ≤ℤ pos FRAME_WIDTH }
    ensures { result ≡ listed_sprite entry.now thing.now }
{
    ListedSprite {
        thing: thing.thing,
        lump: entry.lump,
        first: column_of(entry.first),
        last: column_of(entry.last),
    }
}

// A column of an entry, 0 where it is left of the view.
#[tactic(auto, unfolding(picture_rules::specs::Words::natural))]
fn column_of(column: i32) -> u16
    requires { column ≤ℤ pos FRAME_WIDTH }
    ensures { result ≡ natural column }
{
    if column < 0 { 0 } else { column as u16 }
}

// The things of a sector as vissprites: rules `picture_rules`, Things.
ghost use Rattle.frame_core.specs.Rules.{LIGHT_LEVELS, book_lumps, light_number, project, surface_at, things_of, with_seen, with_thing, with_things};
ghost use Rattle.sound_scene.specs.Pictures.{drawn_shape, lists_of, scene_of};
ghost use Rattle.std.specs.List.{AllPass};
ghost use Rattle.std.specs.Prelude.{◌≡◌, ◌<◌, ℕ, List, All, Some, length, pos};
ghost use Rattle.vissprites.specs.Bounds.{lies_within, has_lump_below};
ghost use Rattle.vissprites.specs.declared.seen.TheConstants.{ROTATIONS};

use crate::facts::surface_at;
use picture_rules::{Placed, PlacedThing, Seen, Shape5};
use sound_scene::SoundScene;
use sprite_book::Shape;
use view_frame::View;
use vissprites::{Sprites, project};

/// Adds the vissprites of the things of a sector that is entered, in drawing order. Takes no
/// memory.
///
/// The original: `R_AddSprites`, r_things.c.
pub fn add_things(scene: &SoundScene, view: &View<'_>, sprites: &mut Sprites, sector: u16)
    requires sector { sector < length scene.now.scene.base.level.sectors }
    requires flats { length scene.now.scene.faces.flats
        ≡ length scene.now.scene.base.level.sectors }
    ensures sprites { (bytes : ℕ → List ℕ) → sprites.new ≡ with_things view.now
        (scene_of bytes scene.now.scene) sector sprites.old
        (things_of scene.now.scene.placed sector) }
    ensures columns { AllPass (lies_within view.now.shape.width) sprites.old →
        AllPass (lies_within view.now.shape.width) sprites.new }
    ensures lumps { (n : ℕ) → All (λ lump. lump < n) (book_lumps scene.now.scene.book) →
        AllPass (has_lump_below n) sprites.old → AllPass (has_lump_below n) sprites.new }
{
    let light = view.light_number(surface_at(scene, sector).light, 0);
    let things = scene.things_of(sector);
    for thing in things {
        add_thing(scene, view, sprites, thing, light);
    }
}

// Adds the vissprite of a thing in a sector of that light, where it is seen.
fn add_thing(
    scene: &SoundScene,
    view: &View<'_>,
    sprites: &mut Sprites,
    thing: &PlacedThing,
    light: u8,
)
    requires { light < LIGHT_LEVELS }
    ensures sprites { (bytes : ℕ → List ℕ) (sector : ℕ) →
        light ≡ light_number view.now (surface_at (lists_of scene.now.scene) sector).light (pos 0) →
        sprites.new ≡ with_thing view.now (scene_of bytes scene.now.scene) sector sprites.old
        thing.now }
    ensures columns { AllPass (lies_within view.now.shape.width) sprites.old →
        AllPass (lies_within view.now.shape.width) sprites.new }
    ensures lumps { (n : ℕ) → All (λ lump. lump < n) (book_lumps scene.now.scene.book) →
        AllPass (has_lump_below n) sprites.old → AllPass (has_lump_below n) sprites.new }
{
    let placed = placed_of(thing, light);
    match project(view, &placed) {
        Some(seen) => add_seen(scene, view, sprites, thing, &placed, seen),
        None => {}
    }
}

// A thing in a sector of that light.
pub(crate) fn placed_of(thing: &PlacedThing, light: u8) -> Placed
    ensures { result ≡ record {
      x = thing.now.x;
      y = thing.now.y;
      z = thing.now.z;
      angle = thing.now.angle;
      bright = thing.now.bright;
      light = light;
    } }
{
    Placed {
        x: thing.x,
        y: thing.y,
        z: thing.z,
        angle: thing.angle,
        bright: thing.bright,
        light,
    }
}

// Adds the vissprite of a thing that is seen, where its picture is in the book.
fn add_seen(
    scene: &SoundScene,
    view: &View<'_>,
    sprites: &mut Sprites,
    thing: &PlacedThing,
    placed: &Placed,
    seen: Seen,
)
    requires light { placed.now.light < LIGHT_LEVELS }
    requires seen { project view.now placed.now ≡ Some seen }
    requires rotation { seen.rotation < ROTATIONS }
    ensures sprites { (bytes : ℕ → List ℕ) → sprites.new ≡ with_seen view.now
        (scene_of bytes scene.now.scene) sprites.old thing.now placed.now (Some seen) }
    ensures columns { AllPass (lies_within view.now.shape.width) sprites.old →
        AllPass (lies_within view.now.shape.width) sprites.new }
    ensures lumps { (n : ℕ) → All (λ lump. lump < n) (book_lumps scene.now.scene.book) →
        AllPass (has_lump_below n) sprites.old → AllPass (has_lump_below n) sprites.new }
{
    match scene
        .sprites()
        .pick(thing.sprite, thing.frame, seen.rotation)
    {
        Some(shape) => sprites.add(view, placed, seen, drawn_shape(shape)),
        None => {}
    }
}

// A picture of the book as it is drawn.
pub(crate) fn drawn_shape(shape: Shape) -> Shape5
    ensures { result ≡ drawn_shape shape }
{
    Shape5 {
        lump: shape.lump.0,
        flip: shape.flip,
        width: shape.width,
        left: shape.left,
        top: shape.top,
    }
}

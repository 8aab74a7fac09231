// The things of the made level of one, seen from the first row of the made path.

ghost use Rattle.std.specs.Prelude.{◌≡◌};

use crate::tests::made::{FIRST, made_angles};
use std::process::Abort;
use std::test::Fail;
use view_frame::View;
use vissprites::{Placed, Seen, Shape5, SortedSprites, SpriteEntry, Sprites, project};

// The made picture of a thing.
const TREE: Shape5 = Shape5 {
    lump: 9,
    flip: false,
    width: 32,
    left: 16,
    top: 64,
};

// A bright thing at this place in whole map units.
fn thing(x: i32, y: i32, z: i32, angle: u32) -> Placed
    ensures { result.light ≡ 10 }
{
    Placed {
        x: x << 16,
        y: y << 16,
        z: z << 16,
        angle,
        bright: true,
        light: 10,
    }
}

// Looks at things before the eye, beside it and behind.
fn look_ahead(rt: &impl Abort, view: &View<'_>) {
    let near = Seen {
        scale: 436746,
        side: -1572240,
        rotation: 5,
    };
    let turned = Seen {
        rotation: 1,
        ..near
    };
    let seen = [
        project(view, &thing(64, 64, 0, 0)),
        project(view, &thing(64, 64, 0, 1 << 31)),
        project(view, &thing(64, 192, 16, 0)),
        project(view, &thing(16, 40, 0, 0)),
    ];
    assert_eq!(rt; seen, [Some(near), Some(turned), None, None]);
}

#[test]
fn things_are_seen_ahead_alone(rt: HostRuntime) -> Result<(), Fail> {
    let tables = made_angles(rt.alloc())?;
    look_ahead(&rt, &View::new(&tables, FIRST));
    Ok(())
}

// Adds a thing where it is seen.
fn put(sprites: &mut Sprites, view: &View<'_>, x: i32, y: i32, z: i32) {
    let thing = thing(x, y, z, 0);
    if let Some(seen) = project(view, &thing) {
        sprites.add(view, &thing, seen, TREE);
    }
}

// The number and the columns of the next entry.
fn columns(sorted: &mut SortedSprites<'_>) -> Option<(u16, i32, i32)> {
    let entry = sorted.next()?;
    Some((entry.number, entry.first, entry.last))
}

// The entry of a thing at 192, 64.
const ENTRY: SpriteEntry = SpriteEntry {
    number: 0,
    first: 117,
    last: 150,
    a1: 117,
    x: 12582912,
    y: 4194304,
    gz: 524288,
    gzt: 4718592,
    mid: 0,
    scale: 68982,
    iscale: 62262,
    flip: false,
    width: 32,
    lump: 9,
    map: 0,
};

// Looks at a thing alone, then at it with three more, and at none after these are cleared.
fn look_at_order(rt: &impl Abort, view: &View<'_>, sprites: &mut Sprites) {
    put(sprites, view, 192, 64, 8);
    assert_eq!(rt;
        (sprites.count(), sprites.sorted().next()),
        (1, Some(ENTRY))
    );
    put(sprites, view, 64, 64, 0);
    put(sprites, view, 192, 192, 24);
    put(sprites, view, 192, 192, 24);
    let mut sorted = sprites.sorted();
    let entries = [0; 5].map(|_| columns(&mut sorted));
    let expected = [
        Some((2, 0, 15)),
        Some((3, 0, 15)),
        Some((0, 117, 150)),
        Some((1, 0, 105)),
        None,
    ];
    assert_eq!(rt; entries, expected);
    sprites.clear();
    assert_eq!(rt; sprites.count(), 0);
}

#[test]
fn smaller_things_are_drawn_first(rt: HostRuntime) -> Result<(), Fail> {
    let tables = made_angles(rt.alloc())?;
    let mut sprites = Box::new(rt.alloc(), Sprites::new(rt.alloc())?)?;
    look_at_order(&rt, &View::new(&tables, FIRST), &mut sprites);
    Ok(())
}

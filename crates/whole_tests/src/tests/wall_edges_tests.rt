// The east wall of a room from -256 to 256 map units both ways, floor 0, ceiling 128 and light 160,
// seen from its middle through the made tables.

use crate::tests::made::{EYE, made_angles};
use picture_rules::{Eye, Seg, Surface};
use std::process::Abort;
use std::test::Fail;
use view_frame::{ColumnRange, View};
use wall_edges::{Edges, Fragment, Stepper, WallFacts, WallTexture};

pub(super) const ROOM: Surface = Surface {
    floor: 0,
    ceiling: 128 << 16,
    floor_flat: 1,
    ceiling_flat: 2,
    light: 160,
};

const NICHE: Surface = Surface {
    floor: 32 << 16,
    ceiling: 96 << 16,
    ..ROOM
};

const EAST: Seg = Seg {
    x1: 256 << 16,
    y1: 256 << 16,
    x2: 256 << 16,
    y2: -(256 << 16),
    angle: 49152 << 16,
    offset: 0,
    flags: 1,
    side: 0,
    front: 0,
    back: None,
};

pub(super) const BARE: WallTexture = WallTexture {
    number: 0,
    height: 0,
};

const BRICK: WallTexture = WallTexture {
    number: 1,
    height: 128,
};

pub(super) const WALL: WallFacts = WallFacts {
    seg_no: 0,
    seg: EAST,
    front: ROOM,
    back: None,
    x_offset: 0,
    y_offset: 0,
    top: BARE,
    bottom: BARE,
    middle: BRICK,
};

const WINDOW: WallFacts = WallFacts {
    back: Some(NICHE),
    top: BRICK,
    bottom: BRICK,
    middle: BARE,
    ..WALL
};

// The first and the last row of a wall between these edges.
fn wall_rows(edges: Option<Edges>) -> Option<(i32, i32)> {
    let edges = edges?;
    Some((edges.top.wrapping_add(4095) >> 12, edges.bottom >> 12))
}

// Looks at a wall as one fragment of the view, and at the rows of its columns.
fn look_at_wall(rt: &impl Abort, view: &View<'_>) {
    let left = view.point_angle(EAST.x1, EAST.y1);
    let right = view.point_angle(EAST.x2, EAST.y2);
    let columns = ColumnRange::Columns { x1: 1, x2: 320 };
    assert_eq!(rt; view.column_range(left, right), columns);
    assert!(rt; view.shape().width == 320);
    let fragment = Fragment::new(view, &WALL, 1, 319);
    let scales = (fragment.scale1, fragment.scale2, fragment.step);
    assert_eq!(rt; scales, (40928, 40928, 0));
    assert_eq!(rt; fragment.column_at(view, 160), 255);
    let light = fragment.numbers().light;
    assert!(rt; light == 11);
    assert_eq!(rt; view.scale_map(light, 40928), 12);
    let mut stepper = Stepper::new(&fragment);
    for _ in 0..319 {
        assert_eq!(rt; wall_rows(stepper.next()), Some((46, 125)));
    }
    assert_eq!(rt; stepper.next(), None);
}

#[test]
fn a_wall_is_one_fragment_with_the_same_rows(rt: HostRuntime) -> Result<(), Fail> {
    let tables = made_angles(rt.alloc())?;
    look_at_wall(&rt, &View::new(&tables, EYE));
    Ok(())
}

// Looks at what a wall of one side hides, at its light, and at the upper and the lower wall of a
// window.
fn look_at_marks(rt: &impl Abort, view: &View<'_>) {
    assert!(rt; view.shape().width == 320);
    let wall = Fragment::new(view, &WALL, 1, 319);
    let hidden = (wall.silhouette, wall.bottom_height, wall.top_height);
    assert_eq!(rt; hidden, (3, i32::MAX, i32::MIN));
    let light = wall.numbers().light;
    assert!(rt; light == 12);
    let seen = (wall.middle_mid, view.scale_map(light, 40928));
    assert_eq!(rt; seen, (87 << 16, 8));
    let window = Fragment::new(view, &WINDOW, 1, 319);
    let mids = (window.silhouette, window.top_mid, window.bottom_mid);
    assert_eq!(rt; mids, (0, 183 << 16, -(9 << 16)));
    let edges = window.edges_at(160);
    assert_eq!(rt; (edges.high >> 12, edges.low >> 12), (65, 105));
    let marks = [wall, window].map(|it| (it.floor_mark, it.ceiling_mark, it.masked));
    assert_eq!(rt; marks, [(true, true, false); 2]);
}

#[test]
fn a_wall_hides_what_is_behind_and_a_window_does_not(rt: HostRuntime) -> Result<(), Fail> {
    let tables = made_angles(rt.alloc())?;
    let lit = Eye {
        extralight: 1,
        ..EYE
    };
    look_at_marks(&rt, &View::new(&tables, lit));
    Ok(())
}

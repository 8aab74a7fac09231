// Points that are seen from the origin, through the made tables.

use crate::tests::made::{EYE, made_angles};
use picture_rules::{Eye, Partition};
use std::process::Abort;
use std::test::Fail;
use view_frame::{View, side_of};

// A line from the origin to the north.
const NORTH: Partition = Partition {
    x: 0,
    y: 0,
    dx: 0,
    dy: 8388608,
};

fn look(rt: &impl Abort, view: &View<'_>) {
    let angles = [
        view.point_angle(65536, 65536),
        view.point_angle(-65536, 0),
        view.point_angle(0, 0),
    ];
    assert_eq!(rt; angles, [536870911, 2147483647, 0]);
    let scales = (view.point_dist(0, 0), view.scale_at(0, 0, 10485760));
    assert_eq!(rt; scales, (0, 65536));
}

#[test]
fn points_are_seen_from_the_origin(rt: HostRuntime) -> Result<(), Fail> {
    assert_eq!(rt; (side_of(NORTH, 0, 5), side_of(NORTH, 1, 5)), (1, 0));
    let tables = made_angles(rt.alloc())?;
    look(&rt, &View::new(&tables, Eye { z: 0, ..EYE }));
    Ok(())
}

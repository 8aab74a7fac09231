// Planes by hand.
use std::test::Fail;
use visplanes::{Flat4, PlaneKey, PlaneNo, Planes, PlanesFull};

// The floor of this height.
fn floor_at(height: i32) -> PlaneKey {
    PlaneKey {
        height,
        flat: Flat4::Lump(6),
        light: 160,
    }
}

#[test]
fn planes_are_made_up_to_the_room(rt: HostRuntime) -> Result<(), Fail> {
    let mut planes = Planes::new(rt.alloc(), 2)?;
    let floor = planes.find(floor_at(0))?;
    planes.mark(floor, 4, 150, 199);
    let same = planes.check(floor, 5, 6)?;
    assert_eq!(rt; same, PlaneNo(0));
    let second = planes.check(same, 3, 4)?;
    assert_eq!(rt; second, PlaneNo(1));
    let found = [planes.find(floor_at(0)), planes.find(floor_at(8))];
    assert_eq!(rt; found, [Ok(PlaneNo(0)), Err(PlanesFull { count: 3 })]);
    assert_eq!(rt; planes.count(), 2);
    planes.clear();
    assert_eq!(rt; planes.count(), 0);
    assert_eq!(rt; planes.find(floor_at(8)), Ok(PlaneNo(0)));
    Ok(())
}

#[test]
fn columns_have_their_later_runs_and_rows_theirs_from_left_to_right(
    rt: HostRuntime,
) -> Result<(), Fail> {
    let mut planes = Planes::new(rt.alloc(), 1)?;
    let floor = planes.find(floor_at(0))?;
    planes.mark(floor, 6, 15, 30);
    planes.mark(floor, 2, 0, 9);
    planes.mark(floor, 2, 10, 20);
    planes.mark(floor, 3, 15, 15);
    let columns = [planes.column(floor, 2), planes.column(floor, 5)];
    assert_eq!(rt; columns, [Some((10, 20)), None]);
    let mut runs = planes.runs(floor, 15);
    let found = [runs.next(), runs.next(), runs.next()];
    assert_eq!(rt; found, [Some((2, 3)), Some((6, 6)), None]);
    assert_eq!(rt; planes.runs(floor, 9).next(), None);
    Ok(())
}

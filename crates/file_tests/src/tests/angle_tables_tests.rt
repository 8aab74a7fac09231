// The made tables of angles, with the numbers of their file, and those of two sizes of the view.
ghost use Rattle.std.specs.Prelude.{◌≤◌};
ghost use Rattle.art_rules.specs.Words.{MAX_SIZE, MIN_SIZE};

use angle_tables::Tables;
use art_rules::MAX_SIZE;
use level_maker::make_tables;
use std::alloc::Global;
use std::process::Abort;
use std::test::Fail;

fn made(alloc: Global, size: u8) -> Result<Box<Tables>, Fail>
    requires { (MIN_SIZE ≤ size) × (size ≤ MAX_SIZE) }
{
    let bytes = make_tables(alloc)?;
    Ok(Box::new(alloc, Tables::from_bytes(alloc, &bytes, size)?)?)
}

// Looks at the numbers of a view as wide and as high as the frame.
fn look_at(rt: &impl Abort, tables: &Tables) {
    let shape = tables.shape();
    assert!(rt; shape.width == 320 && shape.height == 200);
    let numbers = [
        tables.sine(2047),
        tables.tangent(3072),
        tables.tangent(2047),
        tables.y_slope(99),
        tables.y_slope(100),
        tables.y_slope(0),
    ];
    let expected = [65535, 65587, -25, 20971520, 20971520, 105384];
    assert_eq!(rt; numbers, expected);
    let angles = [
        tables.angle(2048),
        tables.clip_angle(),
        tables.angle_of_column(160),
    ];
    assert_eq!(rt; angles, [536870912, 537395200, 0]);
    let lights = [
        tables.light_scale(8, 10),
        tables.light_scale(0, 0),
        tables.light_z(8, 15),
        tables.light_z(8, 0),
        tables.light_z(0, 127),
    ];
    assert_eq!(rt; lights, [23, 31, 23, 0, 31]);
}

// Looks at those of a view half as wide.
fn look_at_smaller(rt: &impl Abort, tables: &Tables) {
    let shape = tables.shape();
    assert!(rt; shape.width == 160 && shape.height == 80);
    assert_eq!(rt; (shape.left, shape.top, tables.size()), (80, 44, 5));
    let slopes = (
        tables.y_slope(39),
        tables.y_slope(40),
        tables.light_scale(8, 10),
    );
    assert_eq!(rt; slopes, (10485760, 10485760, 18));
}

#[test]
fn each_size_of_the_view_has_its_numbers(rt: HostRuntime) -> Result<(), Fail> {
    let tables = made(rt.alloc(), MAX_SIZE)?;
    look_at(&rt, &tables);
    let smaller = made(rt.alloc(), 5)?;
    look_at_smaller(&rt, &smaller);
    Ok(())
}

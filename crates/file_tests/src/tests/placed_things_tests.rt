// The things of a level of two sectors, with values from outside the definitions.
use crate::tests::levels::read_map;
use art_rules::Need;
use csv_tables::ThingTable;
use level_rules::PlacedThing;
use level_scene::{Level, PlacedThings, place_things, sector_at};
use std::alloc::{AllocError, Global};
use std::process::Abort;
use std::test::Fail;

const UNIT: i32 = 65536;

// Things of type 2035 stand, and those of type 63 hang 68 map units below the ceiling, as shadows.
fn table() -> &'static [u8] {
    b"type,sprite,frame,bright,hang,shadow\n2035,BAR1,A,0,0,0\n63,GOR1,C,1,68,1\n"
}

// The things of a level in skill 3.
fn placed(alloc: Global, level: &Level) -> Result<Box<PlacedThings>, Fail> {
    let table = ThingTable::read(alloc, table())?;
    let placed = place_things(alloc, level, &table, 3)?;
    Ok(Box::new(alloc, placed)?)
}

// The first thing of sector 0, and the first of sector 1.
const HANGING_THING: PlacedThing = PlacedThing {
    thing: 2,
    x: 120 * UNIT,
    y: 20 * UNIT,
    z: 92 * UNIT,
    angle: 0,
    sprite: *b"GOR1",
    frame: b'C',
    bright: true,
};

const STANDING_THING: PlacedThing = PlacedThing {
    thing: 1,
    x: 10 * UNIT,
    y: 10 * UNIT,
    z: 24 * UNIT,
    angle: 0xe000_0000,
    sprite: *b"BAR1",
    frame: b'A',
    bright: false,
};

// Looks at where things stand, in their order, at what frames they need and which is a shadow.
fn look_at(rt: &impl Abort, alloc: Global, placed: &PlacedThings) -> Result<(), AllocError> {
    let first = [placed.of(0).first(), placed.of(1).first()];
    assert_eq!(rt; first, [Some(&HANGING_THING), Some(&STANDING_THING)]);
    let counts = [placed.of(0).len(), placed.of(1).len(), placed.of(2).len()];
    assert_eq!(rt; counts, [2, 1, 0]);
    let needs = placed.needs(alloc)?;
    let need = Need {
        thing: 2,
        sprite: *b"GOR1",
        frame: b'C',
    };
    let found = (needs.len(), needs.last().copied(), placed.first_shadow());
    assert_eq!(rt; found, (3, Some(need), Some(2)));
    Ok(())
}

#[test]
fn things_stand_hang_and_are_turned(rt: HostRuntime) -> Result<(), Fail> {
    let level = read_map(rt.alloc())?;
    let sectors = [
        sector_at(&level, 100 * UNIT, 0),
        sector_at(&level, 64 * UNIT, 0),
    ];
    assert_eq!(rt; sectors, [0, 1]);
    let placed = placed(rt.alloc(), &level)?;
    Ok(look_at(&rt, rt.alloc(), &placed)?)
}

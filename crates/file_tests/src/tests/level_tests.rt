// Values from outside: the level of a file by hand.
use crate::tests::levels::read_map;
use art_rules::Name8;
use level_scene::Level;
use map_lumps::{Box4, Child, Leaf, Node, Partition4, Sector, Seg, Side, Thing};
use std::process::Abort;
use std::test::Fail;

const UNIT: i32 = 65536;

const LAST_THING: Thing = Thing {
    x: 90 * UNIT,
    y: 5 * UNIT,
    angle: 0,
    kind: 2035,
    options: 4,
};

fn last_side() -> Side {
    Side {
        x_offset: UNIT,
        y_offset: -UNIT,
        top: Name8::from_bytes(*b"WALL1\0\0\0"),
        bottom: Name8::from_bytes(*b"WALL2\0\0\0"),
        middle: Name8::from_bytes(*b"-\0\0\0\0\0\0\0"),
        sector: 1,
    }
}

fn last_sector() -> Sector {
    Sector {
        floor: 24 * UNIT,
        ceiling: 160 * UNIT,
        floor_name: Name8::from_bytes(*b"FLAT1\0\0\0"),
        ceiling_name: Name8::from_bytes(*b"FLAT0\0\0\0"),
        light: 112,
    }
}

// The second seg goes south, on the line's back side.
const LAST_SEG: Seg = Seg {
    x1: 64 * UNIT,
    y1: 128 * UNIT,
    x2: 64 * UNIT,
    y2: 0,
    angle: 0xc000_0000,
    offset: 0,
    flags: 4,
    side: 1,
    front: 1,
    back: Some(0),
};

const LAST_LEAF: Leaf = Leaf {
    first: 1,
    count: 1,
    sector: 1,
};

// It parts the east from the west.
const NODE: Node = Node {
    line: Partition4 {
        x: 64 * UNIT,
        y: 0,
        dx: 0,
        dy: 128 * UNIT,
    },
    boxes: [
        Box4 {
            left: 64 * UNIT,
            right: 128 * UNIT,
            ..WEST
        },
        WEST,
    ],
    children: [Child::Leaf(0), Child::Leaf(1)],
};

const WEST: Box4 = Box4 {
    top: 128 * UNIT,
    bottom: 0,
    left: 0,
    right: 64 * UNIT,
};

// Looks at the last of each list.
fn look_at(rt: &impl Abort, level: &Level) {
    let alike = [
        level.things().last() == Some(&LAST_THING),
        level.sides().last() == Some(&last_side()),
        level.sectors().last() == Some(&last_sector()),
        level.segs().last() == Some(&LAST_SEG),
        level.leaves().last() == Some(&LAST_LEAF),
        level.nodes().last() == Some(&NODE),
        level.root() == Child::Node(0),
    ];
    assert_eq!(rt; alike, [true; 7]);
}

#[test]
fn a_level_has_what_its_lumps_say(rt: HostRuntime) -> Result<(), Fail> {
    let level = read_map(rt.alloc())?;
    look_at(&rt, &level);
    Ok(())
}

// Patches and other bytes by hand, as their formats have them, and patches put one over the other.
use art_rules::{ColumnLookup, PlacedPatch};
use patch_columns::{
    Patch, Post, add_patch, column_place, flat_byte, next_place, palette_colour, place_columns,
    post_at, put_patch, shade,
};

// A patch of one column: width 1, height 4, left 2, top -1, its posts at byte 12.
const PATCH: [u8; 21] = [
    1, 0, 4, 0, 2, 0, 255, 255, 12, 0, 0, 0, 5, 2, 0, 8, 9, 0, 255, 7, 7,
];

fn post_of(topdelta: u8, length: u8, first: u64) -> Post {
    Post {
        topdelta,
        length,
        first,
    }
}

#[test]
fn a_patch_of_one_column_has_one_post(rt: HostRuntime) {
    let patch = Patch {
        width: 1,
        left: 2,
        top: -1,
    };
    let post = Post {
        topdelta: 5,
        length: 2,
        first: 15,
    };
    // it goes on past the end of the lump
    let cut = post_of(7, 0, 23);
    let read = [
        Patch::read(&PATCH),
        Patch::read(&PATCH[..11]),
        Patch::read(&PATCH[1..]),
    ];
    assert_eq!(rt; read, [Some(patch), None, None]);
    assert_eq!(rt; (column_place(&PATCH, 0), next_place(post)), (12, 18));
    let posts = [
        post_at(&PATCH, 12),
        post_at(&PATCH, 18),
        post_at(&PATCH, 20),
    ];
    assert_eq!(rt; posts, [Some(post), None, Some(cut)]);
}

#[test]
fn bytes_past_the_end_are_0(rt: HostRuntime) {
    let bytes = [9, 8, 7, 6];
    assert_eq!(rt; [flat_byte(&bytes, 3, 0), flat_byte(&bytes, 0, 1)], [6, 0]);
    assert_eq!(rt; [shade(&bytes, 0, 2), shade(&bytes, 1, 2)], [7, 0]);
    assert_eq!(rt; palette_colour(&bytes, 1), [6, 0, 0]);
}

// Width 1, height 4, its one post at byte 12: row 0, four bytes.
const EARLIER: [u8; 21] = [
    1, 0, 4, 0, 0, 0, 0, 0, 12, 0, 0, 0, 0, 4, 0, 1, 2, 3, 4, 0, 255,
];

const LATER: [u8; 21] = [
    1, 0, 4, 0, 0, 0, 0, 0, 12, 0, 0, 0, 0, 4, 0, b'a', b'b', b'c', b'd', 0, 255,
];

// The lump ends in the post, after its first byte.
const CUT: [u8; 16] = [1, 0, 4, 0, 0, 0, 0, 0, 12, 0, 0, 0, 0, 4, 0, 9];

fn placed(lump: u16, y: i16) -> PlacedPatch {
    PlacedPatch {
        lump,
        x: 0,
        y,
        width: 1,
    }
}

#[test]
fn a_patch_above_the_top_stands_over_the_earlier_one(rt: HostRuntime) {
    let (earlier, later) = (placed(0, 0), placed(1, -2));
    let mut columns = [ColumnLookup::Empty];
    add_patch(&mut columns, &EARLIER, &earlier);
    assert_eq!(rt; columns, [ColumnLookup::Single { lump: 0, place: 12 }]);
    add_patch(&mut columns, &LATER, &later);
    assert_eq!(rt; place_columns(&mut columns, 4), 4);
    assert_eq!(rt; columns, [ColumnLookup::Composed { place: 0 }]);
    let mut composite = [7; 4];
    put_patch(&EARLIER, &earlier, &columns, 4, &mut composite);
    put_patch(&LATER, &later, &columns, 4, &mut composite);
    assert_eq!(rt; composite, [b'a', b'b', 3, 4]);
    put_patch(&CUT, &earlier, &columns, 4, &mut composite);
    assert_eq!(rt; composite, [9, 0, 0, 0]);
}

// Books of one sprite, by the names of its lumps.
ghost use Rattle.std.specs.Prelude.{◌<◌};

use crate::tests::files::{NO_CALL, load_directory, shelf_of};
use art_rules::MemoryShelf;
use lump_cache::LumpCache;
use sprite_book::{Need, SpriteBook, SpriteFault, SpriteRefusal};
use std::alloc::{AllocError, Global};
use std::test::Fail;
use test_files::wad_of;

// A patch of one column without a post, 5 texels left of its point and 9 above.
const PATCH: &[u8] = b"\x01\0\x01\0\x05\0\x09\0\x0c\0\0\0\xff";

const LETTER_A: u8 = 65;

// The lump, from 0, that shows each rotation, and whether it is flipped.
type Seen = [Option<(u16, bool)>; 8];

// A shelf with a sprite lump of each of five names, all of the same bytes.
fn shelf_of_names(alloc: Global, names: [&str; 5]) -> Result<MemoryShelf, AllocError> {
    let [first, second, third, fourth, fifth] = names;
    let lumps = [
        ("S_START", b"".as_slice()),
        (first, PATCH),
        (second, PATCH),
        (third, PATCH),
        (fourth, PATCH),
        (fifth, PATCH),
        ("S_END", b""),
    ];
    shelf_of(alloc, wad_of(alloc, &lumps)?, NO_CALL)
}

// The picture of a rotation.
fn picture(book: &SpriteBook, rotation: u8) -> Option<(u16, bool)>
    requires { rotation < 8 }
{
    let shape = book.pick(*b"TREE", LETTER_A, rotation)?;
    Some((shape.lump.0, shape.flip))
}

fn pictures(book: &SpriteBook) -> Seen {
    [
        picture(book, 0),
        picture(book, 1),
        picture(book, 2),
        picture(book, 3),
        picture(book, 4),
        picture(book, 5),
        picture(book, 6),
        picture(book, 7),
    ]
}

// The book of frame A of the tree that thing 7 needs.
fn load(
    alloc: Global,
    shelf: &mut MemoryShelf,
) -> Result<Result<Box<SpriteBook>, SpriteFault>, Fail> {
    let dir = load_directory(alloc, shelf)?;
    let mut cache = LumpCache::new(alloc, &dir, 4096, 1)?;
    let needed = [Need {
        thing: 7,
        sprite: *b"TREE",
        frame: LETTER_A,
    }; 2];
    Ok(
        match SpriteBook::load(alloc, &needed, &dir, &mut cache, shelf) {
            Ok(book) => Ok(Box::new(alloc, book)?),
            Err(fault) => Err(fault),
        },
    )
}

// What such a book shows.
fn seen(alloc: Global, names: [&str; 5]) -> Result<Result<Seen, SpriteFault>, Fail> {
    let mut shelf = shelf_of_names(alloc, names)?;
    Ok(match load(alloc, &mut shelf)? {
        Ok(book) => Ok(pictures(&book)),
        Err(fault) => Err(fault),
    })
}

#[test]
fn the_last_mention_of_a_frame_decides(rt: HostRuntime) -> Result<(), Fail> {
    let alloc = rt.alloc();
    let whole = [
        Some((3, false)),
        Some((2, false)),
        Some((1, false)),
        Some((4, false)),
        Some((5, false)),
        Some((4, true)),
        Some((1, true)),
        Some((2, true)),
    ];
    let five = ["TREEA3A7", "TREEA2A8", "TREEA1", "TREEA4A6", "TREEA5"];
    assert_eq!(rt; seen(alloc, five)?, Ok(whole));
    let all_round = ["TREEA1", "TREEA2A8", "TREEA0", "TREEB0", "LEAFA1"];
    assert_eq!(rt; seen(alloc, all_round)?, Ok([Some((3, false)); 8]));
    let missing = SpriteRefusal::MissingRotation {
        thing: 7,
        rotation: 3,
    };
    let two = ["TREEA1", "TREEA2A8", "TREEB0", "TREEB1", "LEAFA0"];
    assert_eq!(rt; seen(alloc, two)?, Err(SpriteFault::Refused(missing)));
    Ok(())
}

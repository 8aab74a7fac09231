// Values from outside: a file of small lists, written by hand in their format.
use crate::tests::files::{NO_CALL, load_directory, shelf_of};
use art_rules::{MemoryShelf, Name8};
use lump_cache::LumpCache;
use std::alloc::Global;
use std::process::Abort;
use std::test::Fail;
use texture_lists::{ListedTextures, TexNo};

// PNAMES at 12, TEXTURE1 at 32 with textures of 64 by 128 and of 100 by 72, TEXTURE2 at 108 with
// one of 8 by 4 that has the second one's name, and the directory at 148.
fn wad() -> &'static [u8; 196] {
    b"PWAD\x03\0\0\0\x94\0\0\0\
\x02\0\0\0PATCH1\0\0PATCH2\0\0\
\x02\0\0\0\x0c\0\0\0\x2c\0\0\0\
AASTART\0\0\0\0\0\x40\0\x80\0\0\0\0\0\x01\0\0\0\0\0\0\0\0\0\0\0\
WIDE\0\0\0\0\0\0\0\0\x64\0\x48\0\0\0\0\0\x01\0\0\0\0\0\0\0\0\0\0\0\
\x01\0\0\0\x08\0\0\0\
wide\0\0\0\0\0\0\0\0\x08\0\x04\0\0\0\0\0\x01\0\0\0\0\0\x01\0\0\0\0\0\
\x0c\0\0\0\x14\0\0\0PNAMES\0\0\
\x20\0\0\0\x4c\0\0\0TEXTURE1\
\x6c\0\0\0\x28\0\0\0TEXTURE2"
}

// What is loaded of it.
fn load(alloc: Global, shelf: &mut MemoryShelf) -> Result<Box<ListedTextures>, Fail> {
    let dir = load_directory(alloc, shelf)?;
    let mut cache = LumpCache::new(alloc, &dir, 1024, 0)?;
    Ok(Box::new(alloc, ListedTextures::load(alloc, &dir, &mut cache, shelf)?)?)
}

// The number of the texture with that name.
fn number(textures: &ListedTextures, name: [u8; 8]) -> Option<u16> {
    Some(textures.number(&Name8::from_bytes(name))?.0)
}

// The width, the height and the mask of a texture that is there.
fn sizes(textures: &ListedTextures, number: u16) -> Option<(u16, u16, u16)> {
    if number as u32 >= textures.count() {
        return None;
    }
    let tex = TexNo(number);
    Some((
        textures.width(tex),
        textures.height(tex),
        textures.mask(tex),
    ))
}

// Looks at what both lists say.
fn look_at(rt: &impl Abort, textures: &ListedTextures) {
    let numbers = [
        number(textures, *b"wide\0\0\0\0"),
        number(textures, *b"-\0\0\0\0\0\0\0"),
        number(textures, *b"PATCH1\0\0"),
    ];
    assert_eq!(rt; numbers, [Some(1), Some(0), None]);
    let sizes = [sizes(textures, 1), sizes(textures, 2), sizes(textures, 3)];
    assert_eq!(rt; sizes, [Some((100, 72, 63)), Some((8, 4, 7)), None]);
}

#[test]
fn both_lists_are_read(rt: HostRuntime) -> Result<(), Fail> {
    let mut shelf = shelf_of(rt.alloc(), wad().to_vec(rt.alloc())?, NO_CALL)?;
    let textures = load(rt.alloc(), &mut shelf)?;
    look_at(&rt, &textures);
    Ok(())
}

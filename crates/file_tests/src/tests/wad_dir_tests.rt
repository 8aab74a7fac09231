// Values from outside: what is found in two small files.
use art_rules::{FileNo, MemoryShelf, Shelf};
use lump_cache::{Directory, LumpNo, Name8};
use std::alloc::{AllocError, Global};
use std::process::Abort;
use std::test::Fail;
use test_files::file_of;

// PLAYPAL of 768 bytes at 12 and the flat TILE of ten bytes at 780: 854 bytes.
fn tiny_wad(alloc: Global) -> Result<Vec<u8>, AllocError> {
    let mut wad = b"IWAD\x04\0\0\0\x16\x03\0\0".to_vec(alloc)?;
    wad.resize(790, 0)?;
    wad.extend_from_slice(tiny_entries())?;
    Ok(wad)
}

fn tiny_entries() -> &'static [u8; 64] {
    b"\x0c\0\0\0\0\x03\0\0PLAYPAL\0\
\x0c\x03\0\0\0\0\0\0F_START\0\
\x0c\x03\0\0\x0a\0\0\0Tile\0abc\
\x16\x03\0\0\0\0\0\0F_END\0\0\0"
}

// A label with the eight lumps of a map, the mark of a sprite, the sprite and its end.
fn level_wad() -> &'static [u8; 204] {
    b"PWAD\x0c\0\0\0\x0c\0\0\0\
\0\0\0\0\0\0\0\0MAP01\0\0\0\0\0\0\0\0\0\0\0THINGS\0\0\
\0\0\0\0\0\0\0\0LINEDEFS\0\0\0\0\0\0\0\0SIDEDEFS\
\0\0\0\0\0\0\0\0VERTEXES\0\0\0\0\0\0\0\0SEGS\0\0\0\0\
\0\0\0\0\0\0\0\0SSECTORS\0\0\0\0\0\0\0\0NODES\0\0\0\
\0\0\0\0\0\0\0\0SECTORS\0\0\0\0\0\0\0\0\0S_START\0\
\0\0\0\0\0\0\0\0TREEA0\0\0\0\0\0\0\0\0\0\0S_END\0\0\0"
}

// A shelf of both.
fn both_shelf(alloc: Global) -> Result<Box<MemoryShelf>, AllocError> {
    let mut files = Vec::with_capacity(alloc, 2)?;
    files.push(file_of(alloc, "tiny.wad", tiny_wad(alloc)?)?)?;
    files.push(file_of(alloc, "level.wad", level_wad().to_vec(alloc)?)?)?;
    Ok(Box::new(alloc, MemoryShelf::new(files, Vec::new(alloc)))?)
}

// The directory of the tiny file, the level, and the tiny file again; and the tiny file's number.
fn load_both(alloc: Global, shelf: &mut MemoryShelf) -> Result<(Box<Directory>, FileNo), Fail> {
    let tiny = shelf.find("tiny.wad")?;
    let level = shelf.find("level.wad")?;
    let dir = Directory::load(alloc, shelf, &[tiny, level, tiny])?;
    Ok((Box::new(alloc, dir)?, tiny))
}

// The name, the offset, the size and the file of a lump that is there.
fn entry(dir: &Directory, lump: LumpNo) -> Option<(Name8, u32, u32, FileNo)> {
    if lump.0 as u32 >= dir.count() {
        return None;
    }
    Some((
        dir.name(lump),
        dir.place(lump),
        dir.size(lump),
        dir.file(lump),
    ))
}

// Looks for lumps by name and by number.
fn look_at(rt: &impl Abort, dir: &Directory, tiny: FileNo) {
    let tile = Name8::from_bytes(*b"TILE\0\0\0\0");
    let map = Name8::from_bytes(*b"MAP01\0\0\0");
    let found = [
        dir.last(&tile),
        dir.flat(&tile),
        dir.map(&map),
        dir.flat(&map),
        dir.map(&tile),
        dir.sprite_lumps().first().copied(),
    ];
    let expected = [
        Some(LumpNo(18)),
        Some(LumpNo(18)),
        Some(LumpNo(4)),
        None,
        None,
        Some(LumpNo(14)),
    ];
    assert_eq!(rt; found, expected);
    let entries = (entry(dir, LumpNo(2)), entry(dir, LumpNo(20)));
    assert_eq!(rt; entries, (Some((tile, 780, 10, tiny)), None));
}

#[test]
fn a_name_finds_the_last_lump_of_all_files(rt: HostRuntime) -> Result<(), Fail> {
    let mut shelf = both_shelf(rt.alloc())?;
    let (dir, tiny) = load_both(rt.alloc(), &mut shelf)?;
    look_at(&rt, &dir, tiny);
    Ok(())
}

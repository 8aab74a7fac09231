// A shelf of one file, and its directory.
ghost use Rattle.std.specs.Prelude.{◌<◌, ◌^◌, IfOk, length};

use art_rules::{MemoryShelf, Shelf};
use lump_cache::Directory;
use std::alloc::{AllocError, Global};
use std::test::Fail;
use test_files::file_of;

// The call of a shelf that fails where none does: calls are numbered from 1.
pub(crate) const NO_CALL: u64 = 0;

// A shelf of a file of these bytes, whose call of that number fails.
pub(crate) fn shelf_of(
    alloc: Global,
    bytes: Vec<u8>,
    failing: u64,
) -> Result<MemoryShelf, AllocError> {
    let mut files = Vec::with_capacity(alloc, 1)?;
    files.push(file_of(alloc, "file.wad", bytes)?)?;
    Ok(MemoryShelf::new(files, vec![in alloc; failing; 1]?))
}

// The directory of that file, which takes the first four calls.
pub(crate) fn load_directory(alloc: Global, shelf: &mut MemoryShelf) -> Result<Directory, Fail>
    ensures { IfOk result (λ dir. length dir.lumps < 2 ^ 16) }
{
    let number = shelf.find("file.wad")?;
    Ok(Directory::load(alloc, shelf, &[number])?)
}

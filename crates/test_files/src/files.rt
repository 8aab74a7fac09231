// Files in memory, those of a made level, and the sum of bytes.
ghost use Rattle.std.specs.Prelude.{◌≡◌, ◌≤◌, IfOk, length};
ghost use Rattle.made_rules.specs.declared.TheConstants.{MAX_NUMBER};

use level_maker::{make_path, make_tables, make_things, make_wad};
use outside::MemoryFile;
use std::alloc::{AllocError, Global};

/// A file of that name.
pub fn file_of(alloc: Global, name: &str, bytes: Vec<u8>) -> Result<MemoryFile, AllocError> {
    let name = name.to_string(alloc)?;
    Ok(MemoryFile { name, bytes })
}

/// The four made files of a number: made.wad, the tables t, the things h and the path p.
pub fn made_files(alloc: Global, n: u32) -> Result<Vec<MemoryFile>, AllocError>
    requires least { 1 ≤ n }
    requires most { n ≤ MAX_NUMBER }
    ensures { IfOk result (λ files. length files.items ≡ 4) }
{
    let mut files = Vec::with_capacity(alloc, 4)?;
    files.push(file_of(alloc, "made.wad", make_wad(alloc, n)?)?)?;
    files.push(file_of(alloc, "t", make_tables(alloc)?)?)?;
    files.push(file_of(alloc, "h", make_things(alloc)?)?)?;
    files.push(file_of(alloc, "p", make_path(alloc, n)?)?)?;
    Ok(files)
}

/// The FNV-1a of bytes, of 64 bits.
pub fn sum_of(bytes: &[u8]) -> u64 {
    let mut sum = 0xcbf2_9ce4_8422_2325u64;
    for byte in bytes {
        sum = (sum ^ *byte as u64).wrapping_mul(0x100_0000_01b3);
    }
    sum
}

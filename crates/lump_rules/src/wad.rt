// What the directory of WAD files holds, and why it is refused.
use crate::Name8;
use thiserror::Error;

/// A lump of some files.
///
/// `file` is the index of its file, in the order in which the files were given. Its `size` bytes
/// begin at byte `place` of that file. Where `size` is 0, `place` may be anything.
///
/// The original: `lumpinfo_t`, w_wad.h.
#[derive(Clone, Copy)]
pub struct Lump {
    pub file: u64,
    pub place: u32,
    pub size: u32,
    pub name: Name8,
}

/// What the header of a file says: the count of its entries and the offset of the first, in bytes,
/// beside the file's size in bytes.
///
/// The original: `wadinfo_t`, w_wad.h.
#[derive(Clone, Copy)]
pub struct Header {
    pub size: u64,
    pub count: u32,
    pub place: u32,
}

/// The number of a lump: its index among the lumps of all files, in the order of the files.
#[derive(Clone, Copy, Debug, PartialEq, Eq)]
pub struct LumpNo(pub u16);

/// Why files are refused. `file` is the index of a file in the order in which the files were given,
/// and `index` that of an entry in the file's directory.
///
/// The original: `W_AddFile`, w_wad.c, which ends the program at `NotWad` and looks for no other.
#[derive(Clone, Copy, Debug, PartialEq, Eq, Error)]
pub enum DirRefusal {
    /// The file does not begin with `IWAD` or `PWAD`.
    #[error("WAD {file} does not begin with IWAD or PWAD")]
    NotWad { file: u64 },
    /// The file has no whole header, or its directory passes the file's end.
    #[error("WAD {file} ends before its header or its directory does")]
    Short { file: u64 },
    /// A lump of at least one byte passes the file's end.
    #[error("WAD {file} ends before the lump of directory entry {index} does")]
    Entry { file: u64, index: u64 },
    /// The files have more than `MAX_LUMPS` entries.
    #[error("the WADs list more than {most} lumps", most = MAX_LUMPS)]
    TooMany,
}

/// The bytes of a file's header: four letters, the count of entries and the directory's offset.
pub const HEADER_SIZE: usize = 12;
/// Where in the header the count of entries stands, in bytes.
pub const COUNT_AT: usize = 4;
/// Where in the header the offset of the directory stands, in bytes.
pub const PLACE_AT: usize = 8;

/// The bytes of an entry: offset and size of a lump in bytes, and its name.
pub const ENTRY_SIZE: usize = 16;
/// Where in an entry the size of its lump stands, in bytes. The lump's offset comes first.
pub const SIZE_AT: usize = 4;
/// Where in an entry the name of its lump stands, in bytes.
pub const NAME_AT: usize = 8;

/// The most lumps that all files together may have.
pub const MAX_LUMPS: u32 = 65535;

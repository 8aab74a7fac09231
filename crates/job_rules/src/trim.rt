// Why a level is not trimmed.
use lump_rules::MAX_LUMPS;
use thiserror::Error;

/// The most bytes that a WAD file may have, whose offsets are 32-bit numbers.
pub const MAX_FILE_BYTES: u64 = 4294967295;

/// Why there is no trimmed file of a level that passed its audit.
///
/// This project's own.
#[derive(Clone, Copy, Debug, PartialEq, Eq, Error)]
pub enum TrimRefusal {
    /// The lump is to be copied, or is the label of the map, and has the name of a mark.
    #[error("lump {lump} has the name of a mark, so it cannot stand in a trimmed file")]
    MarkName { lump: u64 },
    /// The file would have more entries than a directory may have.
    #[error("the trimmed file would have {count} entries, but may have at most {most}", most = MAX_LUMPS)]
    TrimTooMany { count: u64 },
    /// The file would have more bytes than its directory can tell.
    #[error("the trimmed file would have {bytes} bytes, but may have at most {most}", most = MAX_FILE_BYTES)]
    TrimTooLarge { bytes: u64 },
}

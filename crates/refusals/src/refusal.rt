// Why the bytes of files are refused.

use art_rules::{DirRefusal, TablesRefusal};
use csv_tables::CsvRefusal;
use job_rules::TrimRefusal;
use scene_rules::AuditRefusal;
use thiserror::Error;

/// Why a run is refused: a group for each kind of file or check.
#[derive(Clone, Copy, Debug, PartialEq, Eq, Error)]
pub enum Refusal {
    /// The tables of angles.
    #[error("{0}")]
    Tables(TablesRefusal),
    /// How things look.
    #[error("things: {0}")]
    Things(CsvRefusal),
    /// The views of the path.
    #[error("path: {0}")]
    Path(CsvRefusal),
    /// The weapon layers.
    #[error("weapon layers: {0}")]
    Weapons(CsvRefusal),
    /// The WAD files are no directory.
    #[error("{0}")]
    Wad(DirRefusal),
    /// The level, or what it is drawn with.
    #[error("{0}")]
    Level(AuditRefusal),
    /// The trimmed file of the level.
    #[error("{0}")]
    Trim(TrimRefusal),
}

// What can be wrong with a table.

use crate::MAX_TABLE_BYTES;
use thiserror::Error;

/// What is refused of a table's bytes. Rows are numbered from 1 after the header, columns from 0.
#[derive(Clone, Copy, Debug, PartialEq, Eq, Error)]
pub enum CsvRefusal {
    /// The file has more bytes than a table may have.
    #[error("the table has {bytes} bytes, but may have at most {most}", most = MAX_TABLE_BYTES)]
    TooLong { bytes: u64 },
    /// The first record is not the header.
    #[error("the first line of the table is not its header")]
    Header,
    /// The row has another number of fields than the header.
    #[error("row {row} of the table has another number of fields than the header")]
    Fields { row: u64 },
    /// The field is no number.
    #[error("row {row} of the table, column {column}: the field is not a number")]
    Number { row: u64, column: u64 },
    /// The field is outside its range.
    #[error("row {row} of the table, column {column}: the field is out of its range")]
    Range { row: u64, column: u64 },
    /// An earlier row has the type of this one.
    #[error("row {row} of the table has the thing type of an earlier row")]
    Repeat { row: u64 },
    /// There are more rows than the table may have.
    #[error("the table has too many rows")]
    TooMany,
}

/// Why there is no table.
#[derive(Debug, Drop, Error)]
pub enum CsvFault {
    #[error("{0}")]
    Refused(CsvRefusal),
    #[error("out of memory")]
    OutOfMemory,
}

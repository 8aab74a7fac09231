// The records of a table's bytes, and whether one is a header.

ghost use Rattle.std.specs.Prelude.{◌≡◌, ◌≤◌, true, false, length, map, take, Err, IfErr, IfOk, Ok};
ghost use Rattle.std.specs.Prelude.{bytes_eq};
ghost use Rattle.std.specs.Option.{option_map_or};
ghost use Rattle.csv.specs.Records.{fields_of, field_at};
ghost use Rattle.csv.specs.Reading.{error_kind};
ghost use Rattle.csv_tables.specs.Records.{IsRefusedAs, is_of_length, is_header, csv_records, checked_shape, rows_under, table_records};

use crate::fault::{CsvFault, CsvRefusal};
use csv::{ByteRecord, Error, ErrorKind, ReaderBuilder};
use std::alloc::{AllocError, Global};

/// The most bytes of a table.
pub const MAX_TABLE_BYTES: usize = 1_048_576;

// The records beside the rows that a table may have: the header, and a row that is one too many.
pub(crate) const BESIDE_ROWS: usize = 2;

// The first `limit` records of a table's bytes.
#[tactic(auto, unfolding(crate::specs::Records::table_records))]
pub(crate) fn table_records(
    alloc: Global,
    bytes: &[u8],
    limit: usize,
) -> Result<Vec<ByteRecord>, CsvFault>
    ensures whole { IfOk result (λ v. table_records bytes.now ≡ Ok (csv_records bytes.now)) }
    ensures records { IfOk result (λ v.
        map fields_of v.items ≡ take limit (csv_records bytes.now)) }
    ensures refused { IsRefusedAs (table_records bytes.now) result }
{
    if bytes.len() > MAX_TABLE_BYTES {
        return Err(CsvFault::Refused(CsvRefusal::TooLong {
            bytes: bytes.len() as u64,
        }));
    }
    match first_records(alloc, bytes, limit) {
        Ok(records) => Ok(records),
        Err(_) => Err(CsvFault::OutOfMemory),
    }
}

// The first `limit` records of a text.
pub(crate) fn first_records(
    alloc: Global,
    bytes: &[u8],
    limit: usize,
) -> Result<Vec<ByteRecord>, AllocError>
    ensures { IfOk result (λ v. map fields_of v.items ≡ take limit (csv_records bytes.now)) }
{
    let rdr = ReaderBuilder::new()
        .has_headers(false)
        .flexible(true)
        .from_reader(alloc, bytes);
    let mut rows = Vec::new(alloc);
    for row in rdr.into_byte_records() {
        if rows.len() == limit {
            return Ok(rows);
        }
        match row {
            Ok(fields) => rows.push(fields)?,
            Err(error) => {
                // Records may have any length, so that memory is all that can be wanting.
                let refused = is_of_length(&error);
                prove!(!refused);
                return Err(AllocError);
            }
        }
    }
    Ok(rows)
}

// Whether a record was refused for its number of fields.
#[tactic(auto, unfolding(crate::specs::Records::is_of_length))]
fn is_of_length(error: &Error) -> bool
    ensures { result ≡ is_of_length (error_kind error.now) }
{
    match error.kind() {
        ErrorKind::UnequalLengths { .. } => true,
        _ => false,
    }
}

// The rows under a header of these names.
#[tactic(auto, unfolding(crate::specs::Records::rows_under))]
pub(crate) fn rows_under<'a>(
    records: &'a [ByteRecord],
    names: &[&[u8]],
) -> Result<&'a [ByteRecord], CsvRefusal>
    ensures ok { IfOk result (λ rows.
        rows_under (map (λ n. n.now) names.now) (map fields_of records.now) ≡ Ok
        (map fields_of rows.now)) }
    ensures refused { IfErr result (λ r.
        rows_under (map (λ n. n.now) names.now) (map fields_of records.now) ≡ Err r) }
{
    match records.split_first() {
        None => Err(CsvRefusal::Header),
        Some((head, rows)) => {
            if is_header(head, names) {
                Ok(rows)
            } else {
                Err(CsvRefusal::Header)
            }
        }
    }
}

// Whether the fields of a record are these names.
pub(crate) fn is_header(fields: &ByteRecord, names: &[&[u8]]) -> bool
    ensures { result ≡ is_header (map (λ n. n.now) names.now) (fields_of fields.now) }
{
    if fields.len() != names.len() {
        return false;
    }
    for (i, name) in names.iter().enumerate() {
        if !has_field(fields, i, name) {
            return false;
        }
    }
    true
}

// Whether field `i` is there and is `name`.
fn has_field(fields: &ByteRecord, i: usize, name: &[u8]) -> bool
    ensures { result ≡ option_map_or (λ f.
        bytes_eq f name.now) (field_at (fields_of fields.now) i) false }
{
    match fields.get(i) {
        Some(field) => field == name,
        None => false,
    }
}

// Whether a row is one too many, and else whether it has as many fields as the header.
#[tactic(auto, unfolding(crate::specs::Records::checked_shape))]
pub(crate) fn checked_shape(
    limit: u64,
    width: usize,
    row: u64,
    fields: &ByteRecord,
) -> Result<(), CsvRefusal>
    ensures value { result ≡ checked_shape limit width row (fields_of fields.now) }
    ensures within { IfOk result (λ _. row ≤ limit) }
{
    if row > limit {
        return Err(CsvRefusal::TooMany);
    }
    if fields.len() != width {
        return Err(CsvRefusal::Fields { row });
    }
    Ok(())
}

// The views of a path.

ghost use Rattle.std.specs.Prelude.{◌≡◌, ◌≤◌, ◌+◌, List, length, IfOk, map, Result, Ok, Err, All};
ghost use Rattle.csv.specs.Records.{fields_of};
ghost use Rattle.csv_tables.specs.Records.{IsRefusedAs};
ghost use Rattle.csv_tables.specs.declared.path.TheConstants.{MAX_VIEWS};
ghost use Rattle.csv_tables.specs.Paths.{HasLightInRange, light_column, path_in, path_of_records, path_row, path_rows, path_width, view_of_fields};

use crate::columns::{natural_column, place_column};
use crate::fault::{CsvFault, CsvRefusal};
use crate::records::{BESIDE_ROWS, checked_shape, is_header, table_records};
use csv::ByteRecord;
use std::alloc::Global;
use std::marker::Model;
use view_rules::Eye;

/// The most views of a path.
pub const MAX_VIEWS: u64 = 10_000;

/// Columns of a path without and with the columns of the light.
pub const PLAIN_WIDTH: usize = 4;

pub const LIT_WIDTH: usize = 6;

/// The greatest angle (BAM), extra light and fixed colormap of a view.
pub const MAX_ANGLE: u32 = 4_294_967_295;

pub const MAX_EXTRALIGHT: u8 = 15;

pub const MAX_COLORMAP: u8 = 32;

/// The views of a path, in order.
#[derive(Drop)]
pub struct PathTable {
    rows: Vec<Eye>,
}

impl Model for PathTable {
    ghost use Rattle.std.specs.Prelude.{◌≤◌, List, All, length};
    ghost use Rattle.view_rules.specs.declared.Eye.{Eye};
    ghost use Rattle.csv_tables.specs.declared.path.TheConstants.{MAX_VIEWS};
    ghost use Rattle.csv_tables.specs.Paths.{HasLightInRange};

    ghost Value = { List Eye };

    ghost view = { λ t. t.rows.items };

    ghost invariant = { λ t.
        (length t.rows.items ≤ MAX_VIEWS) × All HasLightInRange t.rows.items };
}

impl PathTable {
    /// The views of a file whose header is `x,y,z,angle` or `x,y,z,angle,extralight,colormap`.
    ///
    /// A file without the last two columns has 0 in them. Takes memory for the records and views.
    ///
    /// Errors: the file's first refusal, of its size, its header, then row by row that it is one
    /// too many, its number of fields, and its fields from left to right. `OutOfMemory`.
    ///
    /// This project's own: the original takes its views from the player.
    #[tactic(auto, unfolding(crate::specs::Paths::path_in))]
    pub fn read(alloc: Global, bytes: &[u8]) -> Result<PathTable, CsvFault>
        ensures ok { IfOk result (λ t. path_in bytes.now ≡ Ok t) }
        ensures refused { IsRefusedAs (path_in bytes.now) result }
    {
        let records = table_records(alloc, bytes, MAX_VIEWS as usize + BESIDE_ROWS)?;
        let rows = path_of_records(alloc, &records)?;
        Ok(PathTable { rows })
    }

    /// The views in the order of the file, at most 10,000. Takes no memory.
    pub fn views(&self) -> &[Eye]
        ensures value { result.now ≡ self.now }
        ensures few { length result.now ≤ MAX_VIEWS }
        ensures light { All HasLightInRange result.now }
    {
        &self.rows
    }
}

// The views of the header's record and those after it.
#[tactic(auto, unfolding(crate::specs::Paths::path_of_records))]
fn path_of_records(alloc: Global, records: &[ByteRecord]) -> Result<Vec<Eye>, CsvFault>
    ensures ok { IfOk result (λ v. path_of_records (map fields_of records.now) ≡ Ok v.items) }
    ensures few { IfOk result (λ v. length v.items ≤ MAX_VIEWS) }
    ensures light { IfOk result (λ v. All HasLightInRange v.items) }
    ensures refused { IsRefusedAs (path_of_records (map fields_of records.now)) result }
{
    match records.split_first() {
        None => Err(CsvFault::Refused(CsvRefusal::Header)),
        Some((head, rows)) => match path_width(head) {
            Ok(width) => path_rows(alloc, width, rows),
            Err(refusal) => Err(CsvFault::Refused(refusal)),
        },
    }
}

// How many columns a path with this header has.
#[tactic(auto, unfolding(crate::specs::Paths::path_width))]
fn path_width(head: &ByteRecord) -> Result<usize, CsvRefusal>
    ensures { result ≡ path_width (fields_of head.now) }
{
    if is_header(head, &[b"x", b"y", b"z", b"angle"]) {
        return Ok(PLAIN_WIDTH);
    }
    if is_header(
        head,
        &[b"x", b"y", b"z", b"angle", b"extralight", b"colormap"],
    ) {
        return Ok(LIT_WIDTH);
    }
    Err(CsvRefusal::Header)
}

// The views of the rows.
fn path_rows(alloc: Global, width: usize, rows: &[ByteRecord]) -> Result<Vec<Eye>, CsvFault>
    ensures ok { IfOk result (λ v. path_rows width (map fields_of rows.now) ≡ Ok v.items) }
    ensures few { IfOk result (λ v. length v.items ≤ MAX_VIEWS) }
    ensures light { IfOk result (λ v. All HasLightInRange v.items) }
    ensures refused { IsRefusedAs (path_rows width (map fields_of rows.now)) result }
{
    let mut views = Vec::new(alloc);
    for (i, fields) in rows.iter().enumerate() {
        match path_row(width, i as u64 + 1, fields) {
            Ok(view) => {
                if views.push(view).is_err() {
                    return Err(CsvFault::OutOfMemory);
                }
            }
            Err(refusal) => return Err(CsvFault::Refused(refusal)),
        }
    }
    Ok(views)
}

// The view of a row.
#[tactic(auto, unfolding(crate::specs::Paths::path_row))]
fn path_row(width: usize, row: u64, fields: &ByteRecord) -> Result<Eye, CsvRefusal>
    ensures value { result ≡ path_row width row (fields_of fields.now) }
    ensures within { IfOk result (λ _. row ≤ MAX_VIEWS) }
    ensures light { IfOk result HasLightInRange }
{
    checked_shape(MAX_VIEWS, width, row, fields)?;
    view_of_fields(width, row, fields)
}

// The view of a row with the right number of fields.
#[tactic(auto, unfolding(crate::specs::Paths::view_of_fields))]
fn view_of_fields(width: usize, row: u64, fields: &ByteRecord) -> Result<Eye, CsvRefusal>
    ensures value { result ≡ view_of_fields width row (fields_of fields.now) }
    ensures light { IfOk result HasLightInRange }
{
    let x = place_column(row, 0, fields)?;
    let y = place_column(row, 1, fields)?;
    let z = place_column(row, 2, fields)?;
    let angle = natural_column(row, 3, MAX_ANGLE, fields)?;
    let extralight = light_column(width, row, 4, MAX_EXTRALIGHT, fields)?;
    let colormap = light_column(width, row, 5, MAX_COLORMAP, fields)?;
    Ok(Eye {
        x,
        y,
        z,
        angle,
        extralight,
        colormap,
    })
}

// A column of the light, 0 in a path that has none.
#[tactic(auto, unfolding(crate::specs::Paths::light_column))]
fn light_column(
    width: usize,
    row: u64,
    column: usize,
    high: u8,
    fields: &ByteRecord,
) -> Result<u8, CsvRefusal>
    ensures value { result ≡ light_column width row column high (fields_of fields.now) }
    ensures limit { IfOk result (λ light. light ≤ high) }
{
    if width == PLAIN_WIDTH {
        return Ok(0);
    }
    let light = natural_column(row, column, high as u32, fields)?;
    Ok(light as u8)
}

// How the things of each type look.
#![tactic(auto, unfolding(crate::specs::Things::things_in_table))]

ghost use Rattle.std.specs.Prelude.{◌≡◌, ◌<◌, ◌≤◌, ◌+◌, List, IfOk, IfSome, map, Option, Some, None, Result, Ok, Err, All, get_or, replicate};
ghost use Rattle.csv.specs.Records.{fields_of};
ghost use Rattle.csv_tables.specs.Records.{IsRefusedAs};
ghost use Rattle.csv_tables.specs.Things.{IsLineInRange, IsThingInRange, thing_header, line_of_fields, lines_of_records, not_repeated, read_line, thing_line, thing_lines, things_in_table};
ghost use Rattle.level_rules.specs.Types.{row_of};
ghost use Rattle.csv_tables.specs.Slots.{AreNumbersOf, numbered_row};

use crate::columns::{flag_column, frame_column, natural_column, sprite_field};
use crate::fault::{CsvFault, CsvRefusal};
use crate::records::{BESIDE_ROWS, checked_shape, rows_under, table_records};
use csv::ByteRecord;
use level_rules::{ThingLine, ThingRow};
use std::alloc::{AllocError, Global};
use std::marker::Model;

/// The most rows of a thing table.
pub const MAX_THINGS: u64 = 4_096;

/// Columns of a thing table.
pub const THING_WIDTH: usize = 6;

/// The greatest type, and how many types there are.
pub const MAX_TYPE: u32 = 65_535;

pub const TYPES: usize = 65_536;

/// The greatest distance that a thing hangs below the ceiling, in map units.
pub const MAX_HANG: u16 = 32_767;

/// How the things of each type look; contracts see the lines of the file in order.
#[derive(Drop)]
pub struct ThingTable {
    lines: Vec<ThingLine>,
    // for each type the number of its line, from 1, or 0 where it has none
    numbers: Vec<u16>,
}

impl Model for ThingTable {
    ghost use Rattle.std.specs.Prelude.{List, All};
    ghost use Rattle.level_rules.specs.declared.ThingLine.{ThingLine};
    ghost use Rattle.csv_tables.specs.Things.{IsLineInRange};
    ghost use Rattle.level_rules.specs.Types.{row_of};
    ghost use Rattle.csv_tables.specs.Slots.{AreNumbersOf};

    ghost Value = { List ThingLine };

    ghost view = { λ t. t.lines.items };

    ghost invariant = { λ t. AreNumbersOf t.lines.items t.numbers.items × All IsLineInRange t.lines.items };
}

impl ThingTable {
    /// The table of a file whose header is `type,sprite,frame,bright,hang,shadow`.
    ///
    /// Takes memory for the records, the lines, and a number of 2 bytes for each type.
    ///
    /// Errors: the file's first refusal, of its size, its header, then row by row that it is one
    /// too many, its number of fields, its fields from left to right, and that its type has an
    /// earlier row. `OutOfMemory`.
    ///
    /// The original has the table in its program: `mobjinfo`, info.c.
    pub fn read(alloc: Global, bytes: &[u8]) -> Result<ThingTable, CsvFault>
        ensures ok { IfOk result (λ t. things_in_table bytes.now ≡ Ok t) }
        ensures refused { IsRefusedAs (things_in_table bytes.now) result }
    {
        let records = table_records(alloc, bytes, MAX_THINGS as usize + BESIDE_ROWS)?;
        table_of_records(alloc, &records)
    }

    /// How things of type `kind` look, where the file has a row of it.
    ///
    /// One look-up, by the type. Takes no memory. The original: `mobjinfo[type]`, p_mobj.c.
    pub fn row(&self, kind: u16) -> Option<ThingRow>
        ensures value { result ≡ row_of self.now kind }
        ensures range { IfSome result IsThingInRange }
    {
        numbered_row(&self.lines, number_of(&self.numbers, kind))
    }
}

// The number of a type's line, from 1, or 0 where it has none.
fn number_of(numbers: &[u16], kind: u16) -> usize
    ensures { result ≡ get_or numbers.now kind 0 }
{
    match numbers.get(kind as usize) {
        Some(number) => *number as usize,
        None => 0,
    }
}

// The row of the line with that number, where there is one.
#[tactic(auto, unfolding(crate::specs::Slots::numbered_row))]
fn numbered_row(lines: &[ThingLine], number: usize) -> Option<ThingRow>
    ensures { result ≡ numbered_row lines.now number }
{
    if number == 0 {
        return None;
    }
    match lines.get(number - 1) {
        Some(line) => Some(line.row),
        None => None,
    }
}

// The table of the header's record and those after it.
#[tactic(auto, unfolding(crate::specs::Things::lines_of_records))]
fn table_of_records(alloc: Global, records: &[ByteRecord]) -> Result<ThingTable, CsvFault>
    ensures ok { IfOk result (λ t. lines_of_records (map fields_of records.now) ≡ Ok t) }
    ensures refused { IsRefusedAs (lines_of_records (map fields_of records.now)) result }
{
    match rows_under(records, &thing_names()) {
        Ok(rows) => table_of_rows(alloc, rows),
        Err(refusal) => Err(CsvFault::Refused(refusal)),
    }
}

// A number 0 for each type.
fn no_numbers(alloc: Global, count: usize) -> Result<Vec<u16>, AllocError>
    ensures { IfOk result (λ v. v.items ≡ replicate count 0) }
{
    vec![in alloc; 0; count]
}

// The table of the rows.
fn table_of_rows(alloc: Global, rows: &[ByteRecord]) -> Result<ThingTable, CsvFault>
    ensures ok { IfOk result (λ t. thing_lines (map fields_of rows.now) ≡ Ok t) }
    ensures refused { IsRefusedAs (thing_lines (map fields_of rows.now)) result }
{
    let mut lines: Vec<ThingLine> = Vec::new(alloc);
    let Ok(mut numbers) = no_numbers(alloc, TYPES) else {
        return Err(CsvFault::OutOfMemory);
    };
    for (i, fields) in rows.iter().enumerate() {
        let row = i as u64 + 1;
        match read_line(&lines, &numbers, row, fields) {
            Ok(line) => {
                if lines.push(line).is_err() {
                    return Err(CsvFault::OutOfMemory);
                }
                numbers[line.kind as usize] = row as u16;
            }
            Err(refusal) => return Err(CsvFault::Refused(refusal)),
        }
    }
    Ok(ThingTable { lines, numbers })
}

fn thing_names() -> [&'static [u8]; 6]
    ensures { map (λ n. n.now) result ≡ thing_header }
{
    [b"type", b"sprite", b"frame", b"bright", b"hang", b"shadow"]
}

// The line of a row, of a type that no earlier line has.
#[tactic(auto, unfolding(crate::specs::Things::read_line))]
fn read_line(
    lines: &[ThingLine],
    numbers: &[u16],
    row: u64,
    fields: &ByteRecord,
) -> Result<ThingLine, CsvRefusal>
    requires { AreNumbersOf lines.now numbers.now }
    ensures value { result ≡ read_line lines.now row (fields_of fields.now) }
    ensures range { IfOk result IsLineInRange }
    ensures new { IfOk result (λ line. row_of lines.now line.kind ≡ None) }
    ensures within { IfOk result (λ _. row ≤ MAX_THINGS) }
{
    let line = thing_line(row, fields)?;
    not_repeated(
        numbered_row(lines, number_of(numbers, line.kind)),
        row,
        line,
    )
}

// A line of a type that no earlier line has.
#[tactic(auto, unfolding(crate::specs::Things::not_repeated))]
fn not_repeated(
    earlier: Option<ThingRow>,
    row: u64,
    line: ThingLine,
) -> Result<ThingLine, CsvRefusal>
    ensures value { result ≡ not_repeated earlier row line }
    ensures new { IfOk result (λ same. (same ≡ line) × (earlier ≡ None)) }
{
    if earlier.is_some() {
        return Err(CsvRefusal::Repeat { row });
    }
    Ok(line)
}

// The line of a row.
#[tactic(auto, unfolding(crate::specs::Things::thing_line))]
fn thing_line(row: u64, fields: &ByteRecord) -> Result<ThingLine, CsvRefusal>
    ensures value { result ≡ thing_line row (fields_of fields.now) }
    ensures range { IfOk result IsLineInRange }
    ensures within { IfOk result (λ _. row ≤ MAX_THINGS) }
{
    checked_shape(MAX_THINGS, THING_WIDTH, row, fields)?;
    line_of_fields(row, fields)
}

// The line of a row with the right number of fields.
#[tactic(auto, unfolding(crate::specs::Things::line_of_fields))]
fn line_of_fields(row: u64, fields: &ByteRecord) -> Result<ThingLine, CsvRefusal>
    ensures value { result ≡ line_of_fields row (fields_of fields.now) }
    ensures range { IfOk result IsLineInRange }
{
    let kind = natural_column(row, 0, MAX_TYPE, fields)?;
    let sprite = sprite_field(row, 1, fields)?;
    let frame = frame_column(row, 2, fields)?;
    let bright = flag_column(row, 3, fields)?;
    let hang = natural_column(row, 4, MAX_HANG as u32, fields)?;
    let shadow = flag_column(row, 5, fields)?;
    Ok(ThingLine {
        kind: kind as u16,
        row: ThingRow {
            sprite,
            frame,
            bright,
            hang: hang as u16,
            shadow,
        },
    })
}

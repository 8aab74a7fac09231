// The values of a row's columns: numbers within a range, flags, sprite names, frame letters.

ghost use Rattle.std.specs.Prelude.{◌≡◌, ◌<◌, ◌≤◌, ◌≤ℤ◌, ◌&&◌, nat_le, true, length, map, IfErr, IfOk, None, Some};
ghost use Rattle.std.specs.List.{list_all};
ghost use Rattle.std.specs.Char.{to_ascii_uppercase};
ghost use Rattle.csv.specs.Records.{fields_of, field_at};
ghost use Rattle.csv_tables.specs.declared.fault.CsvRefusal.TheVariants.{Fields, Range};
ghost use Rattle.csv_tables.specs.Columns.{capital, flag_column, frame_column, in_range, integer_column, is_frame_letter, is_sprite, natural_column, number_in, place_column, sprite_field};

use crate::fault::CsvRefusal;
use crate::number::number;
use csv::ByteRecord;

/// The least and the greatest place, in map units (16.16).
pub const LEAST_PLACE: i64 = -2_147_483_648;

pub const GREATEST_PLACE: i64 = 2_147_483_647;

/// Bytes of a sprite's name, and the least and greatest of them.
pub const SPRITE_LENGTH: usize = 4;

pub const FIRST_VISIBLE: u8 = b'!';

pub const LAST_VISIBLE: u8 = b'~';

/// The frame letters.
pub const FIRST_FRAME: u8 = b'A';

pub const LAST_FRAME: u8 = b']';

// A column that is a number from `low` to `high`.
#[tactic(auto, unfolding(crate::specs::Columns::integer_column))]
fn integer_column(
    row: u64,
    column: usize,
    low: i64,
    high: i64,
    fields: &ByteRecord,
) -> Result<i64, CsvRefusal>
    ensures value { result ≡ integer_column row column low high
        (field_at (fields_of fields.now) column) }
    ensures limits { IfOk result (λ z. (low ≤ℤ z) × (z ≤ℤ high)) }
{
    match fields.get(column) {
        Some(text) => number_in(row, column as u64, low, high, number(text)),
        None => Err(CsvRefusal::Fields { row }),
    }
}

// A number from `low` to `high`, where there is one.
#[tactic(auto, unfolding(crate::specs::Columns::number_in))]
fn number_in(
    row: u64,
    column: u64,
    low: i64,
    high: i64,
    value: Option<i64>,
) -> Result<i64, CsvRefusal>
    ensures value { result ≡ number_in row column low high value }
    ensures limits { IfOk result (λ z. (low ≤ℤ z) × (z ≤ℤ high)) }
{
    match value {
        Some(z) => in_range(row, column, low, high, z),
        None => Err(CsvRefusal::Number { row, column }),
    }
}

// A number from `low` to `high`.
#[tactic(auto, unfolding(crate::specs::Columns::in_range))]
fn in_range(row: u64, column: u64, low: i64, high: i64, value: i64) -> Result<i64, CsvRefusal>
    ensures value { result ≡ in_range row column low high value }
    ensures limits { IfOk result (λ z. (low ≤ℤ z) × (z ≤ℤ high)) }
{
    if value < low || value > high {
        return Err(CsvRefusal::Range { row, column });
    }
    Ok(value)
}

// A place: any number of 32 bits with a sign.
#[tactic(auto, unfolding(crate::specs::Columns::place_column))]
pub(crate) fn place_column(row: u64, column: usize, fields: &ByteRecord) -> Result<i32, CsvRefusal>
    ensures { result ≡ place_column row column (fields_of fields.now) }
{
    let place = integer_column(row, column, LEAST_PLACE, GREATEST_PLACE, fields)?;
    Ok(place as i32)
}

// A number from 0 to `high`.
#[tactic(auto, unfolding(crate::specs::Columns::natural_column, crate::specs::Columns::natural_of))]
pub(crate) fn natural_column(
    row: u64,
    column: usize,
    high: u32,
    fields: &ByteRecord,
) -> Result<u32, CsvRefusal>
    ensures value { result ≡ natural_column row column high (fields_of fields.now) }
    ensures limit { IfOk result (λ n. n ≤ high) }
{
    let number = integer_column(row, column, 0, high as i64, fields)?;
    Ok(number as u32)
}

// A flag: 0 or 1.
#[tactic(auto, unfolding(crate::specs::Columns::flag_column))]
pub(crate) fn flag_column(row: u64, column: usize, fields: &ByteRecord) -> Result<bool, CsvRefusal>
    ensures { result ≡ flag_column row column (fields_of fields.now) }
{
    let flag = natural_column(row, column, 1, fields)?;
    Ok(flag == 1)
}

// The text of a column.
fn text_of<'a>(row: u64, column: usize, fields: &'a ByteRecord) -> Result<&'a [u8], CsvRefusal>
    ensures some { IfOk result (λ text.
        field_at (fields_of fields.now) column ≡ Some text.now) }
    ensures none { IfErr result (λ e.
        (field_at (fields_of fields.now) column ≡ None) × (e ≡ Fields row)) }
{
    match fields.get(column) {
        Some(text) => Ok(text),
        None => Err(CsvRefusal::Fields { row }),
    }
}

fn out_of_range(row: u64, column: usize) -> CsvRefusal
    ensures { result ≡ Range row column }
{
    CsvRefusal::Range {
        row,
        column: column as u64,
    }
}

// The name of a sprite, small letters as capitals.
#[tactic(auto, unfolding(crate::specs::Columns::sprite_field))]
pub(crate) fn sprite_field(
    row: u64,
    column: usize,
    fields: &ByteRecord,
) -> Result<[u8; 4], CsvRefusal>
    ensures { result ≡ sprite_field row column (field_at (fields_of fields.now) column) }
{
    let text = text_of(row, column, fields)?;
    if !is_sprite(text) {
        return Err(out_of_range(row, column));
    }
    Ok(capitals(text))
}

// A frame letter, small letters as capitals.
#[tactic(auto, unfolding(crate::specs::Columns::frame_column))]
pub(crate) fn frame_column(row: u64, column: usize, fields: &ByteRecord) -> Result<u8, CsvRefusal>
    ensures value { result ≡ frame_column row column (field_at (fields_of fields.now) column) }
    ensures limits { IfOk result (λ frame. (FIRST_FRAME ≤ frame) × (frame ≤ LAST_FRAME)) }
{
    let text = text_of(row, column, fields)?;
    if !is_frame_letter(text) {
        return Err(out_of_range(row, column));
    }
    Ok(capital(text))
}

// Whether this is four bytes that can be seen.
#[tactic(auto, unfolding(crate::specs::Columns::is_sprite))]
fn is_sprite(text: &[u8]) -> bool
    ensures value { result ≡ is_sprite text.now }
    ensures four { result ≡ true → length text.now ≡ SPRITE_LENGTH }
{
    text.len() == SPRITE_LENGTH && are_visible(text)
}

fn are_visible(text: &[u8]) -> bool
    ensures { result ≡ list_all (λ b. nat_le FIRST_VISIBLE b && nat_le b LAST_VISIBLE) text.now }
{
    text.iter()
        .all(|b| FIRST_VISIBLE <= *b && *b <= LAST_VISIBLE)
}

// Four bytes, small letters as capitals.
fn capitals(text: &[u8]) -> [u8; 4]
    requires { length text.now ≡ SPRITE_LENGTH }
    ensures { result ≡ map to_ascii_uppercase text.now }
{
    [
        text[0].to_ascii_uppercase(),
        text[1].to_ascii_uppercase(),
        text[2].to_ascii_uppercase(),
        text[3].to_ascii_uppercase(),
    ]
}

// Whether this is one frame letter.
#[tactic(auto, unfolding(crate::specs::Columns::is_frame_letter))]
fn is_frame_letter(text: &[u8]) -> bool
    ensures value { result ≡ is_frame_letter text.now }
    ensures limits { result ≡ true →
        (FIRST_FRAME ≤ capital text.now) × (capital text.now ≤ LAST_FRAME) }
{
    text.len() == 1 && FIRST_FRAME <= capital(text) && capital(text) <= LAST_FRAME
}

// The first byte, a small letter as a capital; 0 where there is none.
#[tactic(auto, unfolding(crate::specs::Columns::capital))]
fn capital(text: &[u8]) -> u8
    ensures { result ≡ capital text.now }
{
    match text.first() {
        Some(letter) => letter.to_ascii_uppercase(),
        None => 0,
    }
}

// The weapon layers of the views of a path.

ghost use Rattle.std.specs.Prelude.{◌≡◌, ◌≤◌, ◌+◌, List, length, IfOk, map, Result, Ok, Err, All};
ghost use Rattle.csv.specs.Records.{fields_of};
ghost use Rattle.csv_tables.specs.Records.{IsRefusedAs};
ghost use Rattle.csv_tables.specs.declared.weapons.TheConstants.{MAX_WEAPONS};
ghost use Rattle.csv_tables.specs.Weapons.{IsWeaponInRange, weapon_row, weapon_rows, weapons_in, weapons_of_records, weapon_header};

use crate::columns::{flag_column, frame_column, natural_column, place_column, sprite_field};
use crate::fault::{CsvFault, CsvRefusal};
use crate::records::{BESIDE_ROWS, checked_shape, rows_under, table_records};
use csv::ByteRecord;
use std::alloc::Global;
use std::marker::Model;

/// The most rows of a weapon table.
pub const MAX_WEAPONS: u64 = 20_000;

/// Columns of a weapon table.
pub const WEAPON_WIDTH: usize = 6;

/// The greatest number of a view, which a path's last row has.
pub const MAX_VIEW: u32 = 9_999;

/// A weapon layer: the number of its view, from 0, its sprite and frame letter, whether it is
/// bright, and its place in the view in units of 1/65536 of a pixel of a full view.
///
/// The original: `pspdef_t` and its `state_t`, p_pspr.h and info.h.
#[derive(Clone, Copy, Debug, PartialEq, Eq)]
pub struct WeaponRow {
    pub view: u16,
    pub sprite: [u8; 4],
    pub frame: u8,
    pub bright: bool,
    pub sx: i32,
    pub sy: i32,
}

/// The weapon layers of a path's views, in the order of the file.
#[derive(Drop)]
pub struct WeaponTable {
    rows: Vec<WeaponRow>,
}

impl Model for WeaponTable {
    ghost use Rattle.std.specs.Prelude.{◌≤◌, List, All, length};
    ghost use Rattle.csv_tables.specs.declared.weapons.WeaponRow.{WeaponRow};
    ghost use Rattle.csv_tables.specs.declared.weapons.TheConstants.{MAX_WEAPONS};
    ghost use Rattle.csv_tables.specs.Weapons.{IsWeaponInRange};

    ghost Value = { List WeaponRow };

    ghost view = { λ t. t.rows.items };

    ghost invariant = { λ t. All IsWeaponInRange t.rows.items × (length t.rows.items ≤ MAX_WEAPONS) };
}

impl WeaponTable {
    /// The layers of a file whose header is `view,sprite,frame,bright,sx,sy`.
    ///
    /// Takes memory for the records and rows.
    ///
    /// Errors: the file's first refusal, of its size, its header, then row by row that it is one
    /// too many, its number of fields, and its fields from left to right. `OutOfMemory`.
    ///
    /// This project's own: the original takes its weapon from the player.
    #[tactic(auto, unfolding(crate::specs::Weapons::weapons_in))]
    pub fn read(alloc: Global, bytes: &[u8]) -> Result<WeaponTable, CsvFault>
        ensures ok { IfOk result (λ t. weapons_in bytes.now ≡ Ok t) }
        ensures refused { IsRefusedAs (weapons_in bytes.now) result }
    {
        let records = table_records(alloc, bytes, MAX_WEAPONS as usize + BESIDE_ROWS)?;
        let rows = weapons_of_records(alloc, &records)?;
        Ok(WeaponTable { rows })
    }

    /// The layers in the order of the file. Takes no memory.
    pub fn rows(&self) -> &[WeaponRow]
        ensures value { result.now ≡ self.now }
        ensures range { All IsWeaponInRange result.now }
        ensures count { length result.now ≤ MAX_WEAPONS }
    {
        &self.rows
    }
}

// The layers of the header's record and those after it.
#[tactic(auto, unfolding(crate::specs::Weapons::weapons_of_records))]
fn weapons_of_records(alloc: Global, records: &[ByteRecord]) -> Result<Vec<WeaponRow>, CsvFault>
    ensures ok { IfOk result (λ v. weapons_of_records (map fields_of records.now) ≡ Ok v.items) }
    ensures range { IfOk result (λ v. All IsWeaponInRange v.items) }
    ensures refused { IsRefusedAs (weapons_of_records (map fields_of records.now)) result }
{
    match rows_under(records, &weapon_names()) {
        Ok(rows) => weapon_rows(alloc, rows),
        Err(refusal) => Err(CsvFault::Refused(refusal)),
    }
}

fn weapon_names() -> [&'static [u8]; 6]
    ensures { map (λ n. n.now) result ≡ weapon_header }
{
    [b"view", b"sprite", b"frame", b"bright", b"sx", b"sy"]
}

// The layers of the rows.
fn weapon_rows(alloc: Global, rows: &[ByteRecord]) -> Result<Vec<WeaponRow>, CsvFault>
    ensures ok { IfOk result (λ v. weapon_rows (map fields_of rows.now) ≡ Ok v.items) }
    ensures range { IfOk result (λ v. All IsWeaponInRange v.items) }
    ensures refused { IsRefusedAs (weapon_rows (map fields_of rows.now)) result }
{
    let mut weapons = Vec::new(alloc);
    for (i, fields) in rows.iter().enumerate() {
        match weapon_row(i as u64 + 1, fields) {
            Ok(weapon) => {
                if weapons.push(weapon).is_err() {
                    return Err(CsvFault::OutOfMemory);
                }
            }
            Err(refusal) => return Err(CsvFault::Refused(refusal)),
        }
    }
    Ok(weapons)
}

// The layer of a row.
#[tactic(auto, unfolding(crate::specs::Weapons::weapon_row, crate::specs::Weapons::weapon_of))]
fn weapon_row(row: u64, fields: &ByteRecord) -> Result<WeaponRow, CsvRefusal>
    ensures value { result ≡ weapon_row row (fields_of fields.now) }
    ensures range { IfOk result IsWeaponInRange }
{
    checked_shape(MAX_WEAPONS, WEAPON_WIDTH, row, fields)?;
    let view = natural_column(row, 0, MAX_VIEW, fields)?;
    let sprite = sprite_field(row, 1, fields)?;
    let frame = frame_column(row, 2, fields)?;
    let bright = flag_column(row, 3, fields)?;
    let sx = place_column(row, 4, fields)?;
    let sy = place_column(row, 5, fields)?;
    Ok(WeaponRow {
        view: view as u16,
        sprite,
        frame,
        bright,
        sx,
        sy,
    })
}

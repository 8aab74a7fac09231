// The tables of text: how things look, the views of the path, the weapon layers. Each file is asked
// for by name, read whole and then checked.
ghost use Rattle.std.specs.Prelude.{◌≤◌, ◌+◌, ◌*◌, ℕ, List, true, option_map};
ghost use Rattle.job_files.specs.Rules.{File, HasCauses, Holds, IsLaterShelf, ResultIs, ResultIsOrAbsent, file_names, itself};
ghost use Rattle.job_files.specs.Files.{IsNeverFull, in_file, in_optional_file, things_file, path_file, weapons_file, texts_in};
ghost use Rattle.job_files.specs.Sizes.{named_size, optional_size, texts_size};

use crate::fault::LoadFault;
use crate::whole_files::{FileKind, read_named};
use art_rules::{Fault, Shelf};
use csv_tables::{CsvFault, MAX_TABLE_BYTES, PathTable, ThingTable, WeaponTable};
use job_rules::Files;
use refusals::Refusal;
use std::alloc::Global;

/// The tables of text.
#[derive(Drop)]
pub struct TextTables {
    pub things: ThingTable,
    pub path: PathTable,
    pub weapons: Option<WeaponTable>,
}

// The tables of text in the files of these names: things, path, and weapons where they are named.
pub fn load_texts<S: Shelf>(
    alloc: Global,
    shelf: &mut S,
    names: &Files<'_>,
) -> Result<TextTables, LoadFault>
    ensures answers { (files : List File) → Holds (S.view shelf.old) files →
        ResultIsOrAbsent itself (S.view shelf.old).steady (λ texts. texts)
        (texts_in (file_names names.now) files) result }
    ensures full { IsNeverFull result }
    ensures follows { IsLaterShelf (S.view shelf.old) (S.view shelf.new) }
    ensures causes { HasCauses itself
        (S.view shelf.old).faults (S.view shelf.new).faults result }
    ensures taken { (S.view shelf.new).taken ≤ (S.view shelf.old).taken + 3 * MAX_TABLE_BYTES }
    ensures taken_of { (files : List File) → Holds (S.view shelf.old) files →
        (S.view shelf.new).taken
        ≤ (S.view shelf.old).taken + texts_size (file_names names.now) files }
{
    let things = load_things(alloc, shelf, names.things)?;
    let path = load_path(alloc, shelf, names.path)?;
    let weapons = load_weapons(alloc, shelf, names.weapon)?;
    Ok(TextTables {
        things,
        path,
        weapons,
    })
}

// How things look, in a file.
pub fn load_things<S: Shelf>(
    alloc: Global,
    shelf: &mut S,
    name: &str,
) -> Result<ThingTable, LoadFault>
    ensures answers { (files : List File) → Holds (S.view shelf.old) files →
        ResultIsOrAbsent itself (S.view shelf.old).steady (λ things. things)
        (in_file things_file name.now files) result }
    ensures full { IsNeverFull result }
    ensures follows { IsLaterShelf (S.view shelf.old) (S.view shelf.new) }
    ensures causes { HasCauses itself
        (S.view shelf.old).faults (S.view shelf.new).faults result }
    ensures taken { (S.view shelf.new).taken ≤ (S.view shelf.old).taken + MAX_TABLE_BYTES }
    ensures taken_of { (files : List File) → Holds (S.view shelf.old) files →
        (S.view shelf.new).taken ≤ (S.view shelf.old).taken + named_size name.now files }
{
    let bytes = read_named(alloc, shelf, name, FileKind::Things)?;
    check_things(alloc, &bytes)
}

fn check_things(alloc: Global, bytes: &[u8]) -> Result<ThingTable, LoadFault>
    ensures answers { ResultIs itself true (λ things. things) (things_file bytes.now) result }
    ensures causes { (faults : ℕ) → HasCauses itself faults faults result }
    ensures full { IsNeverFull result }
{
    match ThingTable::read(alloc, bytes) {
        Ok(things) => Ok(things),
        Err(CsvFault::Refused(refusal)) => Err(Fault::Refused(Refusal::Things(refusal))),
        Err(CsvFault::OutOfMemory) => Err(Fault::OutOfMemory),
    }
}

// The views of a path, in a file.
pub fn load_path<S: Shelf>(alloc: Global, shelf: &mut S, name: &str) -> Result<PathTable, LoadFault>
    ensures answers { (files : List File) → Holds (S.view shelf.old) files →
        ResultIsOrAbsent itself (S.view shelf.old).steady (λ path. path)
        (in_file path_file name.now files) result }
    ensures full { IsNeverFull result }
    ensures follows { IsLaterShelf (S.view shelf.old) (S.view shelf.new) }
    ensures causes { HasCauses itself
        (S.view shelf.old).faults (S.view shelf.new).faults result }
    ensures taken { (S.view shelf.new).taken ≤ (S.view shelf.old).taken + MAX_TABLE_BYTES }
    ensures taken_of { (files : List File) → Holds (S.view shelf.old) files →
        (S.view shelf.new).taken ≤ (S.view shelf.old).taken + named_size name.now files }
{
    let bytes = read_named(alloc, shelf, name, FileKind::Path)?;
    check_path(alloc, &bytes)
}

fn check_path(alloc: Global, bytes: &[u8]) -> Result<PathTable, LoadFault>
    ensures answers { ResultIs itself true (λ path. path) (path_file bytes.now) result }
    ensures causes { (faults : ℕ) → HasCauses itself faults faults result }
    ensures full { IsNeverFull result }
{
    match PathTable::read(alloc, bytes) {
        Ok(path) => Ok(path),
        Err(CsvFault::Refused(refusal)) => Err(Fault::Refused(Refusal::Path(refusal))),
        Err(CsvFault::OutOfMemory) => Err(Fault::OutOfMemory),
    }
}

// The weapon layers, where a file of them is named.
pub fn load_weapons<S: Shelf>(
    alloc: Global,
    shelf: &mut S,
    name: Option<&str>,
) -> Result<Option<WeaponTable>, LoadFault>
    ensures answers { (files : List File) → Holds (S.view shelf.old) files →
        ResultIsOrAbsent itself (S.view shelf.old).steady (λ weapons. weapons)
        (in_optional_file weapons_file (option_map (λ text. text.now) name.entry) files) result }
    ensures full { IsNeverFull result }
    ensures follows { IsLaterShelf (S.view shelf.old) (S.view shelf.new) }
    ensures causes { HasCauses itself
        (S.view shelf.old).faults (S.view shelf.new).faults result }
    ensures taken { (S.view shelf.new).taken ≤ (S.view shelf.old).taken + MAX_TABLE_BYTES }
    ensures taken_of { (files : List File) → Holds (S.view shelf.old) files →
        (S.view shelf.new).taken ≤ (S.view shelf.old).taken
        + optional_size (option_map (λ text. text.now) name.entry) files }
{
    match name {
        None => Ok(None),
        Some(name) => Ok(Some(load_layers(alloc, shelf, name)?)),
    }
}

// The weapon layers in a file.
fn load_layers<S: Shelf>(alloc: Global, shelf: &mut S, name: &str) -> Result<WeaponTable, LoadFault>
    ensures answers { (files : List File) → Holds (S.view shelf.old) files →
        ResultIsOrAbsent itself (S.view shelf.old).steady (λ weapons. weapons)
        (in_file weapons_file name.now files) result }
    ensures full { IsNeverFull result }
    ensures follows { IsLaterShelf (S.view shelf.old) (S.view shelf.new) }
    ensures causes { HasCauses itself
        (S.view shelf.old).faults (S.view shelf.new).faults result }
    ensures taken { (S.view shelf.new).taken ≤ (S.view shelf.old).taken + MAX_TABLE_BYTES }
    ensures taken_of { (files : List File) → Holds (S.view shelf.old) files →
        (S.view shelf.new).taken ≤ (S.view shelf.old).taken + named_size name.now files }
{
    let bytes = read_named(alloc, shelf, name, FileKind::Weapons)?;
    check_layers(alloc, &bytes)
}

fn check_layers(alloc: Global, bytes: &[u8]) -> Result<WeaponTable, LoadFault>
    ensures answers { ResultIs itself true (λ weapons. weapons) (weapons_file bytes.now) result }
    ensures causes { (faults : ℕ) → HasCauses itself faults faults result }
    ensures full { IsNeverFull result }
{
    match WeaponTable::read(alloc, bytes) {
        Ok(weapons) => Ok(weapons),
        Err(CsvFault::Refused(refusal)) => Err(Fault::Refused(Refusal::Weapons(refusal))),
        Err(CsvFault::OutOfMemory) => Err(Fault::OutOfMemory),
    }
}

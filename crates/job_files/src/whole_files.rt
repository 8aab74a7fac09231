// The bytes of a named file, which is read whole where its length is not refused.
ghost use Rattle.std.specs.Prelude.{◌≡◌, ◌≤◌, ◌+◌, ℕ, List, length, IfOk};
ghost use Rattle.art_rules.specs.Words.{File, HasCauses, Holds, IsLaterShelf, itself, ResultIs, ResultIsOrAbsent, Stands};
ghost use Rattle.job_files.specs.Files.{IsNeverFull, in_file, value_unless};
ghost use Rattle.job_files.specs.Lengths.{bytes_in, length_refusal, most_bytes, tables_length_refusal, text_length_refusal};
ghost use Rattle.job_files.specs.Sizes.{named_size};

use crate::fault::LoadFault;
use art_rules::{Fault, FileNo, Shelf};
use csv_tables::{CsvRefusal, MAX_TABLE_BYTES};
use picture_rules::{TABLES_BYTES, TablesRefusal};
use refusals::Refusal;
use std::alloc::Global;

// The files that are read whole.
#[derive(Clone, Copy)]
pub enum FileKind {
    Tables,
    Things,
    Path,
    Weapons,
}

// The bytes of the first file of that name.
pub fn read_named<S: Shelf>(
    alloc: Global,
    shelf: &mut S,
    name: &str,
    kind: FileKind,
) -> Result<Vec<u8>, LoadFault>
    ensures answers { (files : List File) → Holds (S.view shelf.old) files →
        ResultIsOrAbsent itself (S.view shelf.old).steady (λ bytes. bytes.items)
        (in_file (bytes_in kind) name.now files) result }
    ensures full { IsNeverFull result }
    ensures follows { IsLaterShelf (S.view shelf.old) (S.view shelf.new) }
    ensures causes { HasCauses itself
        (S.view shelf.old).faults (S.view shelf.new).faults result }
    ensures taken { (S.view shelf.new).taken ≤ (S.view shelf.old).taken + most_bytes kind }
    ensures taken_of { (files : List File) → Holds (S.view shelf.old) files →
        (S.view shelf.new).taken ≤ (S.view shelf.old).taken + named_size name.now files }
{
    let file = shelf.find(name)?;
    read_file(alloc, shelf, file, kind)
}

// The bytes of a file.
fn read_file<S: Shelf>(
    alloc: Global,
    shelf: &mut S,
    file: FileNo,
    kind: FileKind,
) -> Result<Vec<u8>, LoadFault>
    ensures answers { (bytes : List ℕ) → Stands (S.view shelf.old) file.0 bytes →
        ResultIs itself (S.view shelf.old).steady (λ found. found.items)
        (bytes_in kind bytes) result }
    ensures full { IsNeverFull result }
    ensures follows { IsLaterShelf (S.view shelf.old) (S.view shelf.new) }
    ensures causes { HasCauses itself
        (S.view shelf.old).faults (S.view shelf.new).faults result }
    ensures taken { (S.view shelf.new).taken ≤ (S.view shelf.old).taken + most_bytes kind }
    ensures taken_of { (bytes : List ℕ) → Stands (S.view shelf.old) file.0 bytes →
        (S.view shelf.new).taken ≤ (S.view shelf.old).taken + length bytes }
{
    let size = shelf.size_of(file)?;
    let count = match check_length(kind, size) {
        Ok(count) => count,
        Err(refusal) => return Err(Fault::Refused(refusal)),
    };
    let mut bytes = vec![in alloc; 0; count]?;
    shelf.read_at(file, 0, &mut bytes)?;
    Ok(bytes)
}

// The length of a file, where it is not refused.
#[tactic(auto, unfolding(crate::specs::Lengths::length_refusal, crate::specs::Lengths::tables_length_refusal, crate::specs::Lengths::text_length_refusal))]
fn check_length(kind: FileKind, size: u64) -> Result<usize, Refusal>
    ensures value { result ≡ value_unless (length_refusal kind size) size }
    ensures most { IfOk result (λ same. same ≤ most_bytes kind) }
{
    match length_refusal(kind, size) {
        None => Ok(size as usize),
        Some(refusal) => Err(refusal),
    }
}

// The refusal of a length.
#[tactic(auto, unfolding(crate::specs::Lengths::length_refusal))]
fn length_refusal(kind: FileKind, size: u64) -> Option<Refusal>
    ensures { result ≡ length_refusal kind size }
{
    match kind {
        FileKind::Tables => Some(Refusal::Tables(tables_length_refusal(size)?)),
        FileKind::Things => Some(Refusal::Things(text_length_refusal(size)?)),
        FileKind::Path => Some(Refusal::Path(text_length_refusal(size)?)),
        FileKind::Weapons => Some(Refusal::Weapons(text_length_refusal(size)?)),
    }
}

// The refusal of the length of a file of tables of angles.
#[tactic(auto, unfolding(crate::specs::Lengths::tables_length_refusal))]
fn tables_length_refusal(size: u64) -> Option<TablesRefusal>
    ensures { result ≡ tables_length_refusal size }
{
    if size == TABLES_BYTES as u64 {
        return None;
    }
    Some(TablesRefusal::Length { found: size })
}

// The refusal of the length of a file of text.
#[tactic(auto, unfolding(crate::specs::Lengths::text_length_refusal))]
fn text_length_refusal(size: u64) -> Option<CsvRefusal>
    ensures { result ≡ text_length_refusal size }
{
    if size <= MAX_TABLE_BYTES as u64 {
        return None;
    }
    Some(CsvRefusal::TooLong { bytes: size })
}

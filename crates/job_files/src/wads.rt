// The WADs: all are asked for, and then their directories are read.
ghost use Rattle.std.specs.Prelude.{◌≡◌, ◌<◌, ◌≤◌, ◌+◌, ◌*◌, ◌^◌, ℕ, List, length, map, Some, IfOk, IfErr};
ghost use Rattle.art_rules.specs.Words.{AllWithin, else_absent, FaultFitsOrAbsent, File, HasCauses, Holds, IsLaterShelf, itself, listing_sizes, NameFiles, ResultIs, ResultIsOrAbsent};
ghost use Rattle.refusals.specs.declared.refusal.Refusal.{Refusal};
ghost use Rattle.job_files.specs.Files.{IsNeverFull, files_named, lumps_in, wad_files};
ghost use Rattle.job_files.specs.Found.{AllStandForNamed};

use crate::fault::{LoadFault, wad_fault};
use art_rules::{FileNo, HEADER_SIZE, Shelf};
use lump_cache::{Directory, ENTRY_SIZE};
use std::alloc::Global;

// The directory of the first files of these names.
pub fn load_wads<S: Shelf>(
    alloc: Global,
    shelf: &mut S,
    names: &[&str],
) -> Result<Directory, LoadFault>
    ensures answers { (files : List File) → Holds (S.view shelf.old) files →
        ResultIsOrAbsent itself (S.view shelf.old).steady (λ dir. dir.lumps)
        (lumps_in (map (λ name. name.now) names.now) files) result }
    ensures contents { (files : List File) (contents : List (List ℕ)) →
        Holds (S.view shelf.old) files →
        files_named (map (λ name. name.now) names.now) files ≡ Some contents →
        IfOk result (λ dir. NameFiles (S.view shelf.new) dir.files contents
        × AllWithin contents dir.lumps) }
    ensures files { IfOk result (λ dir. length dir.files ≡ length names.now) }
    ensures count { IfOk result (λ dir. length dir.lumps < 2 ^ 16) }
    ensures full { IsNeverFull result }
    ensures follows { IsLaterShelf (S.view shelf.old) (S.view shelf.new) }
    ensures causes { HasCauses itself
        (S.view shelf.old).faults (S.view shelf.new).faults result }
    ensures taken { (files : List File) (contents : List (List ℕ)) →
        Holds (S.view shelf.old) files →
        files_named (map (λ name. name.now) names.now) files ≡ Some contents →
        (S.view shelf.new).taken ≤ (S.view shelf.old).taken + listing_sizes contents }
    ensures taken_by_count { IfOk result (λ dir.
        (S.view shelf.new).taken ≤ (S.view shelf.old).taken
        + (HEADER_SIZE * length dir.files + ENTRY_SIZE * length dir.lumps)) }
{
    let numbers = find_all(alloc, shelf, names)?;
    load_dir(alloc, shelf, &numbers)
}

/// The directory of the WADs of these numbers, with the faults of loading.
///
/// Takes memory for the directory. Errors: `Refused` with the first refusal of the files' bytes.
/// `ReadFault` only where a call of the shelf failed. `OutOfMemory`. The shelf goes on to stand for
/// what it stood for.
///
/// The original: `W_InitMultipleFiles`, w_wad.c.
#[tactic(auto, using(art_rules::proofs::Laws::ok_through))]
pub fn load_dir<S: Shelf>(
    alloc: Global,
    shelf: &mut S,
    numbers: &[FileNo],
) -> Result<Directory, LoadFault>
    ensures answers { (contents : List (List ℕ)) →
        NameFiles (S.view shelf.old) numbers.now contents →
        ResultIs itself (S.view shelf.old).steady (λ dir. dir.lumps) (wad_files contents) result }
    ensures files { IfOk result (λ dir. dir.files ≡ numbers.now) }
    ensures within { (contents : List (List ℕ)) →
        NameFiles (S.view shelf.old) numbers.now contents →
        IfOk result (λ dir. AllWithin contents dir.lumps) }
    ensures count { IfOk result (λ dir. length dir.lumps < 2 ^ 16) }
    ensures full { IsNeverFull result }
    ensures follows { IsLaterShelf (S.view shelf.old) (S.view shelf.new) }
    ensures causes { HasCauses itself
        (S.view shelf.old).faults (S.view shelf.new).faults result }
    ensures taken { (contents : List (List ℕ)) →
        NameFiles (S.view shelf.old) numbers.now contents →
        (S.view shelf.new).taken ≤ (S.view shelf.old).taken + listing_sizes contents }
    ensures taken_by_count { IfOk result (λ dir.
        (S.view shelf.new).taken ≤ (S.view shelf.old).taken
        + (HEADER_SIZE * length dir.files + ENTRY_SIZE * length dir.lumps)) }
{
    Directory::load(alloc, shelf, numbers).map_err(wad_fault)
}

// A number for each name.
fn find_all<S: Shelf>(
    alloc: Global,
    shelf: &mut S,
    names: &[&str],
) -> Result<Vec<FileNo>, LoadFault>
    ensures found { (files : List File) → Holds (S.view shelf.old) files →
        IfOk result (λ numbers. AllStandForNamed (S.view shelf.new) numbers.items
        (map (λ name. name.now) names.now) files) }
    ensures stops { (files : List File) → Holds (S.view shelf.old) files →
        IfErr result (λ fault. FaultFitsOrAbsent {R = Refusal} (S.view shelf.old).steady
        (else_absent (files_named (map (λ name. name.now) names.now) files)) (itself fault)) }
    ensures count { IfOk result (λ numbers. length numbers.items ≡ length names.now) }
    ensures full { IsNeverFull result }
    ensures follows { IsLaterShelf (S.view shelf.old) (S.view shelf.new) }
    ensures causes { HasCauses itself
        (S.view shelf.old).faults (S.view shelf.new).faults result }
    ensures untaken { (S.view shelf.new).taken ≡ (S.view shelf.old).taken }
{
    let mut numbers = Vec::new(alloc);
    for name in names {
        let number = shelf.find(name)?;
        numbers.push(number)?;
    }
    Ok(numbers)
}

// Lumps that are read straight from the shelf, without a zone.
ghost use Rattle.std.specs.Prelude.{◌≡◌, ◌<◌, ◌≤◌, ◌+◌, ℕ, List, length, take, Ok, IsTrue, IsOk, IfOk, OnOk, OnErr};
ghost use Rattle.art_rules.specs.Words.{AllWithin, FaultsRose, HasCauses, IsLaterShelf, itself, lump_at, lump_bytes, NameFiles, ResultIs};
ghost use Rattle.job_files.specs.Files.{IsNeverFull};

use crate::fault::LoadFault;
use art_rules::{Failed, Shelf};
use lump_cache::{Directory, LumpNo};
use std::alloc::Global;

// Fills a piece with the first bytes of a lump. For an empty piece the shelf is not called.
fn fill_front<S: Shelf>(
    shelf: &mut S,
    dir: &Directory,
    lump: LumpNo,
    piece: &mut [u8],
) -> Result<(), Failed>
    requires lump { lump.0 < length dir.now.lumps }
    requires within { length piece.old ≤ (lump_at dir.now.lumps lump.0).size }
    ensures bytes { (contents : List (List ℕ)) →
        NameFiles (S.view shelf.old) dir.now.files contents → AllWithin contents dir.now.lumps →
        OnOk result (piece.new ≡ take (length piece.old)
        (lump_bytes contents dir.now.lumps lump.0)) }
    ensures follows { IsLaterShelf (S.view shelf.old) (S.view shelf.new) }
    ensures taken { (S.view shelf.new).taken ≤ (S.view shelf.old).taken + length piece.old }
    ensures failed { OnErr result (FaultsRose (S.view shelf.old).faults (S.view shelf.new).faults) }
    ensures settled { OnOk result ((S.view shelf.new).faults ≡ (S.view shelf.old).faults) }
    ensures steady { (contents : List (List ℕ)) →
        NameFiles (S.view shelf.old) dir.now.files contents → AllWithin contents dir.now.lumps →
        IsTrue (S.view shelf.old).steady → IsOk result }
{
    if piece.is_empty() {
        return Ok(());
    }
    shelf.read_at(dir.file(lump), dir.place(lump) as u64, piece)
}

// The first bytes of a lump, so many of them.
pub fn read_front<S: Shelf>(
    alloc: Global,
    shelf: &mut S,
    dir: &Directory,
    lump: LumpNo,
    size: usize,
) -> Result<Vec<u8>, LoadFault>
    requires lump { lump.0 < length dir.now.lumps }
    requires within { size ≤ (lump_at dir.now.lumps lump.0).size }
    ensures answers { (contents : List (List ℕ)) →
        NameFiles (S.view shelf.old) dir.now.files contents → AllWithin contents dir.now.lumps →
        ResultIs itself (S.view shelf.old).steady (λ piece. piece.items)
        (Ok (take size (lump_bytes contents dir.now.lumps lump.0))) result }
    ensures size { IfOk result (λ piece. length piece.items ≡ size) }
    ensures full { IsNeverFull result }
    ensures follows { IsLaterShelf (S.view shelf.old) (S.view shelf.new) }
    ensures causes { HasCauses itself
        (S.view shelf.old).faults (S.view shelf.new).faults result }
    ensures taken { (S.view shelf.new).taken ≤ (S.view shelf.old).taken + size }
{
    let mut piece = vec![in alloc; 0; size]?;
    fill_front(shelf, dir, lump, &mut piece)?;
    Ok(piece)
}

// All bytes of a lump.
pub fn read_lump<S: Shelf>(
    alloc: Global,
    shelf: &mut S,
    dir: &Directory,
    lump: LumpNo,
) -> Result<Vec<u8>, LoadFault>
    requires { lump.0 < length dir.now.lumps }
    ensures answers { (contents : List (List ℕ)) →
        NameFiles (S.view shelf.old) dir.now.files contents → AllWithin contents dir.now.lumps →
        ResultIs itself (S.view shelf.old).steady (λ piece. piece.items)
        (Ok (lump_bytes contents dir.now.lumps lump.0)) result }
    ensures full { IsNeverFull result }
    ensures follows { IsLaterShelf (S.view shelf.old) (S.view shelf.new) }
    ensures causes { HasCauses itself
        (S.view shelf.old).faults (S.view shelf.new).faults result }
    ensures taken { (S.view shelf.new).taken
        ≤ (S.view shelf.old).taken + (lump_at dir.now.lumps lump.0).size }
{
    let size = dir.size(lump) as usize;
    read_front(alloc, shelf, dir, lump, size)
}

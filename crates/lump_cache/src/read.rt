// Bytes of a file, read into the block of a lump.
ghost use Rattle.std.specs.Prelude.{◌≡◌, ◌<◌, ◌≤◌, ◌+◌, length, IfSome, OnOk, OnErr, IsTrue, IsOk};
ghost use Rattle.lump_cache.specs.Rules.{FaultsRose, IsLaterShelf, IsLive, IsPieceAt, bytes_of, counted};
ghost use Rattle.lump_cache.specs.Caches.{lump_owner, IsFilled};

use outside::{Failed, FileNo, Shelf};
use wad_dir::LumpNo;
use zone_heap::{LumpKind, Slot, Zone};

/// The slot of a lump.
pub fn lump_slot(lump: LumpNo) -> Slot<LumpKind>
    ensures { result.number ≡ lump.0 }
{
    Slot::new(u32::from(lump.0))
}

/// Reads the bytes of a live lump's block from a file, from byte `place` on.
pub fn read_into<S: Shelf>(
    zone: &mut Zone,
    shelf: &mut S,
    lump: LumpNo,
    file: FileNo,
    place: u32,
) -> Result<(), Failed>
    requires in_range { lump.0 < zone.old.lumps }
    requires live { IsLive zone.old (lump_owner lump.0) }
    ensures filled { IsFilled (lump_owner lump.0) zone.old zone.new (λ w.
        OnOk result
        (IfSome ((S.view shelf.old).file file.0) (λ bytes. IsPieceAt bytes place w))) }
    ensures follows { IsLaterShelf (S.view shelf.old) (S.view shelf.new) }
    ensures taken { OnOk result (IfSome (bytes_of (lump_owner lump.0) zone.old.blocks) (λ xs.
        (S.view shelf.new).taken ≡ counted (S.view shelf.old).taken (length xs))) }
    ensures failed { OnErr result (FaultsRose (S.view shelf.old).faults (S.view shelf.new).faults) }
    ensures settled { OnOk result ((S.view shelf.new).faults ≡ (S.view shelf.old).faults) }
    ensures steady { IsTrue (S.view shelf.old).steady →
        IfSome ((S.view shelf.old).file file.0) (λ bytes.
        IfSome (bytes_of (lump_owner lump.0) zone.old.blocks) (λ xs.
        place + length xs ≤ length bytes → IsOk result)) }
{
    zone.bytes_mut_with(lump_slot(lump), shelf, |piece: &mut [u8], shelf: &mut S| {
        shelf.read_at(file, u64::from(place), piece)
    })
}

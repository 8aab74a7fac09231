//! A shelf of files in memory, whose calls fail where they are told to.
//!
//! Rules: `specs/MemoryShelf`. Proved: each call is the trait's, and when it fails and what it leaves.
ghost use Rattle.std.specs.Prelude.{◌≡◌, ◌<◌, ◌≤◌, ◌+◌, ◌^◌, ◌↔◌, ◌⊎◌, refl, false, length, position, Contains, MatchOption, IsTrue, IsSome, IfSome, IsOk, IsErr, IfOk, OnOk, OnErr, string_bytes};
ghost use Rattle.std.specs.Str.{bytes_eq};
ghost use Rattle.outside.specs.Causes.{FaultsRose};
ghost use Rattle.outside.specs.Shelf.{File, IsLaterShelf, StandsForNamed, file_named, file_at, IsPieceAt, counted};
ghost use Rattle.outside.specs.MemoryShelf.{ShelfInMemory, memory_view, called, failed, read, IsFailing, first_named, has_piece};

use crate::{Failed, FileNo, Shelf};
use std::marker::Model;

/// A named file in memory; a contract sees its name and its bytes as two lists of bytes.
pub struct MemoryFile {
    pub name: String,
    pub bytes: Vec<u8>,
}

// By hand, so that a drop of one is one call.
impl Drop for MemoryFile {
    fn drop(self) {
        let MemoryFile { name: _, bytes: _ } = self;
    }
}

impl Model for MemoryFile {
    ghost Value = { File };

    ghost view = { λ file. record { name = string_bytes file.name; bytes = file.bytes.items } };
}

/// Files in memory. The calls of all three kinds are numbered from 1, and those whose number is
/// listed fail. With no such number it is steady.
#[derive(Drop)]
pub struct MemoryShelf {
    files: Vec<MemoryFile>,
    failing: Vec<u64>,
    calls: u64,
    faults: u64,
    taken: u64,
}

impl Model for MemoryShelf {
    ghost Value = { ShelfInMemory };

    ghost view = { λ shelf. record {
      files = shelf.files.items;
      failing = shelf.failing.items;
      calls = shelf.calls;
      faults = shelf.faults;
      taken = shelf.taken;
    } };

    ghost invariant = { λ shelf. length shelf.files.items < 2 ^ 32 };
}

impl MemoryShelf {
    /// A shelf of these files, with the numbers of the calls that fail. Takes no memory.
    pub fn new(files: Vec<MemoryFile>, failing: Vec<u64>) -> MemoryShelf
        requires { length files.items < 2 ^ 32 }
        ensures { result ≡ record
            { files = files.items; failing = failing.items; calls = 0; faults = 0; taken = 0 } }
    {
        MemoryShelf {
            files,
            failing,
            calls: 0,
            faults: 0,
            taken: 0,
        }
    }
}

// The index of the first file of that name.
#[tactic(auto, using(crate::proofs::FileLemmas::named_place))]
fn place_of(files: &[MemoryFile], name: &str) -> Option<usize>
    ensures within { IfSome result (λ place. place < length files.now) }
    ensures first { result ≡ first_named name.now files.now }
    ensures named { MatchOption result (file_named name.now files.now ≡ None)
        (λ place. IsSome (file_named name.now files.now) ×
        (file_at files.now place ≡ file_named name.now files.now)) }
{
    position_of(files, name)
}

fn position_of(files: &[MemoryFile], name: &str) -> Option<usize>
    ensures within { IfSome result (λ place. place < length files.now) }
    ensures first { result ≡ position (λ file. bytes_eq file.name name.now) files.now }
{
    files.iter().position(|file| file.name.as_str() == name)
}

// The length of the file at an index.
fn length_at(files: &[MemoryFile], place: usize) -> Option<u64>
    ensures { MatchOption result (file_at files.now place ≡ None) (λ size.
        IsSome (file_at files.now place) ×
        IfSome (file_at files.now place) (λ file. size ≡ length file)) }
{
    let file = files.get(place)?;
    Some(file.bytes.len() as u64)
}

// Fills the piece from the file at an index, where all the bytes are there.
fn fill(files: &[MemoryFile], number: usize, place: u64, piece: &mut [u8]) -> bool
    ensures exact { result ≡ has_piece files.now number place (length piece.old) }
    ensures filled { IsTrue result →
        IfSome (file_at files.now number) (λ file. IsPieceAt file place piece.new) }
    ensures short { (result ≡ false) →
        IfSome (file_at files.now number) (λ file. length file < place + length piece.old) }
{
    let Some(file) = files.get(number) else {
        return false;
    };
    let bytes = file.bytes.as_slice();
    let start = place as usize;
    if start > bytes.len() || piece.len() > bytes.len() - start {
        return false;
    }
    piece.copy_from_slice(&bytes[start..][..piece.len()]);
    true
}

impl MemoryShelf {
    // Counts a call, and says whether it is one that fails.
    fn is_failing(&mut self) -> bool
        ensures same { self.new ≡ record self.old { calls = counted self.old.calls 1 } }
        ensures failing { IsTrue result ↔ Contains self.old.failing self.new.calls }
    {
        self.calls = self.calls.saturating_add(1);
        self.failing.contains(&self.calls)
    }

    // Counts a failure.
    fn fail(&mut self) -> Failed
        ensures same { self.new ≡ record self.old { faults = counted self.old.faults 1 } }
        ensures later { self.old.faults ≤ self.new.faults }
    {
        Failed::counted(&mut self.faults)
    }
}

impl Shelf for MemoryShelf {
    ghost view = { memory_view };

    ghost tells = { λ shelf steady. refl };

    /// The index of the first file of that name. Takes no memory.
    ///
    /// Errors: `Failed` exactly where this call is one that fails, or no file has the name.
    fn find(&mut self, name: &str) -> Result<FileNo, Failed>
        ensures found { IfOk result (λ number.
            IfSome (memory_view self.old).all_files
            (StandsForNamed (memory_view self.new) number.0 name.now)) }
        ensures follows { IsLaterShelf (memory_view self.old) (memory_view self.new) }
        ensures settled { OnOk result
            ((memory_view self.new).faults ≡ (memory_view self.old).faults) }
        ensures untaken { (memory_view self.new).taken ≡ (memory_view self.old).taken }
        ensures failed { OnErr result
            (FaultsRose (memory_view self.old).faults (memory_view self.new).faults) }
        ensures steady { IsTrue (memory_view self.old).steady →
            IfSome (memory_view self.old).all_files (λ files. IsSome (file_named name.now files) →
            IsOk result) }
        ensures first { IfOk result (λ number.
            Some number.0 ≡ first_named name.now self.old.files) }
        ensures ok { OnOk result (self.new ≡ called self.old) }
        ensures err { OnErr result (self.new ≡ failed self.old) }
        ensures cause { IsErr result ↔
            (IsFailing self.old ⊎ (first_named name.now self.old.files ≡ None)) }
    {
        if self.is_failing() {
            return Err(self.fail());
        }
        match place_of(&self.files, name) {
            Some(place) => Ok(FileNo(place as u32)),
            None => Err(self.fail()),
        }
    }

    /// The length of the file with that index, in bytes. Takes no memory.
    ///
    /// Errors: `Failed` exactly where this call is one that fails, or no file has the index.
    fn size_of(&mut self, file: FileNo) -> Result<u64, Failed>
        ensures size { IfOk result (λ size.
            IfSome ((memory_view self.old).file file.0) (λ bytes. size ≡ length bytes)) }
        ensures follows { IsLaterShelf (memory_view self.old) (memory_view self.new) }
        ensures settled { OnOk result
            ((memory_view self.new).faults ≡ (memory_view self.old).faults) }
        ensures untaken { (memory_view self.new).taken ≡ (memory_view self.old).taken }
        ensures failed { OnErr result
            (FaultsRose (memory_view self.old).faults (memory_view self.new).faults) }
        ensures steady { IsTrue (memory_view self.old).steady →
            IsSome ((memory_view self.old).file file.0) → IsOk result }
        ensures ok { OnOk result (self.new ≡ called self.old) }
        ensures err { OnErr result (self.new ≡ failed self.old) }
        ensures cause { IsErr result ↔
            (IsFailing self.old ⊎ (file_at self.old.files file.0 ≡ None)) }
    {
        if self.is_failing() {
            return Err(self.fail());
        }
        match length_at(&self.files, file.0 as usize) {
            Some(size) => Ok(size),
            None => Err(self.fail()),
        }
    }

    /// Fills the piece with the bytes of the file with that index, from an offset on. Takes no memory.
    ///
    /// Errors: `Failed` exactly where this call is one that fails, no file has the index, or the
    /// file ends before the piece is full.
    fn read_at(&mut self, file: FileNo, place: u64, piece: &mut [u8]) -> Result<(), Failed>
        ensures bytes { OnOk result
            (IfSome ((memory_view self.old).file file.0) (λ bytes.
            IsPieceAt bytes place piece.new)) }
        ensures follows { IsLaterShelf (memory_view self.old) (memory_view self.new) }
        ensures settled { OnOk result
            ((memory_view self.new).faults ≡ (memory_view self.old).faults) }
        ensures taken { OnOk result
            ((memory_view self.new).taken ≡ counted (memory_view self.old).taken
            (length piece.old)) }
        ensures untaken { OnErr result
            ((memory_view self.new).taken ≡ (memory_view self.old).taken) }
        ensures failed { OnErr result
            (FaultsRose (memory_view self.old).faults (memory_view self.new).faults) }
        ensures steady { IsTrue (memory_view self.old).steady →
            IfSome ((memory_view self.old).file file.0) (λ bytes.
            place + length piece.old ≤ length bytes → IsOk result) }
        ensures ok { OnOk result (self.new ≡ read self.old (length piece.old)) }
        ensures err { OnErr result (self.new ≡ failed self.old) }
        ensures cause { IsErr result ↔
            (IsFailing self.old ⊎
            (has_piece self.old.files file.0 place (length piece.old) ≡ false)) }
    {
        if self.is_failing() {
            return Err(self.fail());
        }
        if !fill(&self.files, file.0 as usize, place, piece) {
            return Err(self.fail());
        }
        self.taken = self.taken.saturating_add(piece.len() as u64);
        Ok(())
    }
}

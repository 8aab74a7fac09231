// Directories are read from a shelf.
ghost use Rattle.std.specs.Prelude.{◌≡◌, ℕ, List, ◌<◌, ◌≤◌, ◌+◌, ◌*◌, length, take, drop, true, position, Ok, All, IfOk};
ghost use Rattle.wad_dir.specs.Rules.{HasCauses, IsLaterShelf, NameFiles, ResultIs, Stands, directory, entry_refusal, file_lumps, file_refusal, header, header_in, header_refusal, is_wad, listing_size, listing_sizes, lump_in, lumps_in, passes_end, unless_refused, whole_header_refusal};
ghost use Rattle.wad_dir.specs.Faults.{dir_fault};

use crate::DirFault;
use byteorder::{ByteOrder, LittleEndian};
use lump_rules::{
    COUNT_AT, DirRefusal, ENTRY_SIZE, HEADER_SIZE, Header, IWAD, LETTER_COUNT, Lump, MAX_LUMPS,
    NAME_AT, NAME_SIZE, Name8, PLACE_AT, PWAD, SIZE_AT,
};
use outside::{FileNo, OutOfMemory, Shelf};
use std::alloc::Global;

// The lumps of files, in order, or the first refusal.
pub fn read_lumps<S: Shelf>(
    alloc: Global,
    shelf: &mut S,
    files: &[FileNo],
) -> Result<Vec<Lump>, DirFault>
    ensures answers { (contents : List (List ℕ)) → NameFiles (S.view shelf.old) files.now contents →
        ResultIs dir_fault (S.view shelf.old).steady (λ lumps.
        lumps.items) (directory contents) result }
    ensures few { IfOk result (λ lumps. length lumps.items ≤ MAX_LUMPS) }
    ensures owned { IfOk result (λ lumps. All (λ lump. lump.file < length files.now) lumps.items) }
    ensures follows { IsLaterShelf (S.view shelf.old) (S.view shelf.new) }
    ensures causes { HasCauses dir_fault (S.view shelf.old).faults (S.view shelf.new).faults
        result }
    ensures taken { (contents : List (List ℕ)) → NameFiles (S.view shelf.old) files.now contents →
        (S.view shelf.new).taken ≤ (S.view shelf.old).taken + listing_sizes contents }
    ensures taken_by_count { IfOk result (λ lumps.
        (S.view shelf.new).taken ≤ (S.view shelf.old).taken +
        (HEADER_SIZE * length files.now + ENTRY_SIZE * length lumps.items)) }
{
    let mut lumps = Vec::new(alloc);
    for (i, file) in files.iter().enumerate() {
        let found = read_file(alloc, shelf, i as u64, lumps.len() as u64, *file)?;
        lumps.extend_from_slice(&found)?;
    }
    Ok(lumps)
}

// The lumps of a file, or its first refusal, where so many lumps stand before it.
fn read_file<S: Shelf>(
    alloc: Global,
    shelf: &mut S,
    number: u64,
    before: u64,
    file: FileNo,
) -> Result<Vec<Lump>, DirFault>
    requires { before ≤ MAX_LUMPS }
    ensures answers { (bytes : List ℕ) → Stands (S.view shelf.old) file.0 bytes →
        ResultIs dir_fault (S.view shelf.old).steady (λ lumps.
        lumps.items) (unless_refused (file_refusal number before bytes)
        (file_lumps number bytes)) result }
    ensures few { IfOk result (λ lumps. before + length lumps.items ≤ MAX_LUMPS) }
    ensures owned { IfOk result (λ lumps. All (λ lump. lump.file ≡ number) lumps.items) }
    ensures follows { IsLaterShelf (S.view shelf.old) (S.view shelf.new) }
    ensures causes { HasCauses dir_fault (S.view shelf.old).faults (S.view shelf.new).faults
        result }
    ensures taken { (bytes : List ℕ) → Stands (S.view shelf.old) file.0 bytes →
        (S.view shelf.new).taken ≤ (S.view shelf.old).taken + listing_size bytes }
    ensures taken_by_count { IfOk result (λ lumps.
        (S.view shelf.new).taken ≤ (S.view shelf.old).taken +
        (HEADER_SIZE + ENTRY_SIZE * length lumps.items)) }
{
    let head = read_header(shelf, number, before, file)?;
    let size = ENTRY_SIZE * head.count as usize;
    let entries = read_piece(alloc, shelf, file, head.place as u64, size)?;
    lumps_of(alloc, number, head, &entries)
}

// Reads and checks the header of a file.
fn read_header<S: Shelf>(
    shelf: &mut S,
    number: u64,
    before: u64,
    file: FileNo,
) -> Result<Header, DirFault>
    requires { before ≤ MAX_LUMPS }
    ensures answers { (bytes : List ℕ) → Stands (S.view shelf.old) file.0 bytes →
        ResultIs dir_fault (S.view shelf.old).steady (λ head.
        head) (unless_refused (header_refusal number before bytes)
        (header_in (length bytes) (header bytes))) result }
    ensures within { IfOk result (λ head. head.place + ENTRY_SIZE * head.count ≤ head.size) }
    ensures few { IfOk result (λ head. before + head.count ≤ MAX_LUMPS) }
    ensures follows { IsLaterShelf (S.view shelf.old) (S.view shelf.new) }
    ensures causes { HasCauses dir_fault (S.view shelf.old).faults (S.view shelf.new).faults
        result }
    ensures taken { (S.view shelf.new).taken ≤ (S.view shelf.old).taken + HEADER_SIZE }
{
    let size = shelf.size_of(file)?;
    if size < HEADER_SIZE as u64 {
        return Err(DirFault::Refused(DirRefusal::Short { file: number }));
    }
    let mut head = [0; HEADER_SIZE];
    shelf.read_at(file, 0, &mut head)?;
    Ok(check_header(number, before, size, &head)?)
}

// What a whole header says of a file of that size, or its first refusal.
#[tactic(auto, unfolding(lump_rules::specs::Wads::whole_header_refusal, word_rules::specs::Bytes::word_at))]
fn check_header(number: u64, before: u64, size: u64, head: &[u8]) -> Result<Header, DirRefusal>
    requires whole { length head.now ≡ HEADER_SIZE }
    requires before { before ≤ MAX_LUMPS }
    ensures header { result ≡ unless_refused (whole_header_refusal number before size head.now)
        (header_in size head.now) }
    ensures within { IfOk result (λ head. head.place + ENTRY_SIZE * head.count ≤ size) }
    ensures size { IfOk result (λ head. head.size ≡ size) }
    ensures few { IfOk result (λ head. before + head.count ≤ MAX_LUMPS) }
{
    if !is_wad(&head[..LETTER_COUNT]) {
        return Err(DirRefusal::NotWad { file: number });
    }
    let count = LittleEndian::read_u32(&head[COUNT_AT..]);
    let place = LittleEndian::read_u32(&head[PLACE_AT..]);
    if size < place as u64 + ENTRY_SIZE as u64 * count as u64 {
        return Err(DirRefusal::Short { file: number });
    }
    if (MAX_LUMPS as u64) < before + count as u64 {
        return Err(DirRefusal::TooMany);
    }
    Ok(Header { size, count, place })
}

// The letters of a WAD.
fn is_wad(letters: &[u8]) -> bool
    ensures { result ≡ is_wad letters.now }
{
    letters == IWAD.as_slice() || letters == PWAD.as_slice()
}

// Reads so many bytes of a file from an offset on.
fn read_piece<S: Shelf>(
    alloc: Global,
    shelf: &mut S,
    file: FileNo,
    place: u64,
    size: usize,
) -> Result<Vec<u8>, DirFault>
    ensures answers { (bytes : List ℕ) → Stands (S.view shelf.old) file.0 bytes →
        place + size ≤ length bytes →
        ResultIs dir_fault (S.view shelf.old).steady (λ piece.
        piece.items) (Ok (take size (drop place bytes))) result }
    ensures size { IfOk result (λ piece. length piece.items ≡ size) }
    ensures follows { IsLaterShelf (S.view shelf.old) (S.view shelf.new) }
    ensures causes { HasCauses dir_fault (S.view shelf.old).faults (S.view shelf.new).faults
        result }
    ensures taken { (S.view shelf.new).taken ≤ (S.view shelf.old).taken + size }
{
    let mut bytes = vec![in alloc; 0; size]?;
    shelf.read_at(file, place, &mut bytes)?;
    Ok(bytes)
}

// The lumps of a file's entries, or the first that passes the file's end.
fn lumps_of(alloc: Global, number: u64, head: Header, entries: &[u8]) -> Result<Vec<Lump>, DirFault>
    requires { length entries.now ≡ ENTRY_SIZE * head.count }
    ensures answers { let lumps = lumps_in number head.count entries.now in
        ResultIs dir_fault true (λ found.
        found.items) (unless_refused (entry_refusal number head.size lumps) lumps) result }
    ensures count { IfOk result (λ lumps. length lumps.items ≡ head.count) }
    ensures owned { IfOk result (λ lumps. All (λ lump. lump.file ≡ number) lumps.items) }
    ensures causes { (faults : ℕ) → HasCauses dir_fault faults faults result }
{
    let lumps = read_entries(alloc, number, head.count as usize, entries)?;
    check_entries(number, head.size, &lumps)?;
    Ok(lumps)
}

// The lumps of so many entries.
fn read_entries(
    alloc: Global,
    number: u64,
    count: usize,
    entries: &[u8],
) -> Result<Vec<Lump>, OutOfMemory>
    requires { length entries.now ≡ ENTRY_SIZE * count }
    ensures lumps { IfOk result (λ lumps. lumps.items ≡ lumps_in number count entries.now) }
    ensures count { IfOk result (λ lumps. length lumps.items ≡ count) }
    ensures owned { IfOk result (λ lumps. All (λ lump. lump.file ≡ number) lumps.items) }
{
    let mut lumps = Vec::new(alloc);
    for index in 0..count {
        let place = ENTRY_SIZE * index;
        lumps.push(read_entry(number, &entries[place..place + ENTRY_SIZE]))?;
    }
    Ok(lumps)
}

// The lump of an entry.
#[tactic(auto, unfolding(word_rules::specs::Bytes::word_at))]
fn read_entry(number: u64, entry: &[u8]) -> Lump
    requires { length entry.now ≡ ENTRY_SIZE }
    ensures { result ≡ lump_in number entry.now }
{
    let mut name = [0; NAME_SIZE];
    name.copy_from_slice(&entry[NAME_AT..]);
    Lump {
        file: number,
        place: LittleEndian::read_u32(entry),
        size: LittleEndian::read_u32(&entry[SIZE_AT..]),
        name: Name8::from_bytes(name),
    }
}

// Finds the first lump that passes the file's end.
#[tactic(auto, unfolding(lump_rules::specs::Wads::entry_refusal))]
fn check_entries(number: u64, size: u64, lumps: &[Lump]) -> Result<(), DirRefusal>
    ensures { result ≡ unless_refused (entry_refusal number size lumps.now) tt }
{
    match first_past_end(size, lumps) {
        None => Ok(()),
        Some(index) => Err(DirRefusal::Entry {
            file: number,
            index: index as u64,
        }),
    }
}

fn first_past_end(size: u64, lumps: &[Lump]) -> Option<usize>
    ensures { result ≡ position (passes_end size) lumps.now }
{
    lumps.iter().position(|lump| lump.size != 0 && size < lump.place as u64 + lump.size as u64)
}

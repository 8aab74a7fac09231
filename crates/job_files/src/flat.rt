// The job `flat`: one PPM of a flat that is tiled over the frame.
ghost use Rattle.std.specs.Prelude.{◌≡◌, ◌<◌, ◌≤◌, ◌+◌, ◌∷◌, [], ℕ, List, length, IfOk};
ghost use Rattle.art_rules.specs.Words.{AllWithin, FaultsRose, File, HasCauses, Holds, IsLaterShelf, itself, NameFiles, ResultIs, ResultIsOrAbsent, Stands};
ghost use Rattle.frame_writer.specs.Ppm.{ppm};
ghost use Rattle.job_files.specs.Flats.{palette_in, flat_in, picture_in, flat_picture, flat_verdict};
ghost use Rattle.job_files.specs.Statuses.{DeliversBytes};
ghost use Rattle.job_files.specs.Files.{IsNeverFull};
ghost use Rattle.job_files.specs.Sizes.{flat_reads, flat_size, flat_sizes};

use crate::colours::find_playpal;
use crate::fault::LoadFault;
use crate::lumps::{read_front, read_lump};
use crate::picture::Picture;
use crate::status::Status;
use crate::tiling::tile;
use crate::wads::load_dir;
use art_rules::{Fault, FileNo, Shelf, Sink};
use frame_writer::{FRAME_BYTES, PALETTE_BYTES, put_ppm};
use lump_cache::{Directory, Name8};
use refusals::{AuditRefusal, Refusal, SceneRefusal};
use std::alloc::Global;

/// The picture of a flat in the first file of that name. Takes all memory of the job. Reads at most
/// the header and the directory of the file, its first palette and the flat, each once (`taken`).
///
/// Errors: `Refused` with the first refusal of the file's bytes, of its palette and of the flat;
/// `ReadFault` where no file has that name, or where the shelf counted a fault; `OutOfMemory`.
///
/// This project's own: the job.
pub fn prepare_flat<S: Shelf>(
    alloc: Global,
    shelf: &mut S,
    name: &Name8,
    file: &str,
) -> Result<Picture, LoadFault>
    ensures answers { (files : List File) → Holds (S.view shelf.old) files →
        ResultIsOrAbsent itself (S.view shelf.old).steady (λ picture. picture)
        (flat_verdict name.now file.now files) result }
    ensures full { IsNeverFull result }
    ensures follows { IsLaterShelf (S.view shelf.old) (S.view shelf.new) }
    ensures causes { HasCauses itself
        (S.view shelf.old).faults (S.view shelf.new).faults result }
    ensures taken { (files : List File) → Holds (S.view shelf.old) files →
        (S.view shelf.new).taken ≤ (S.view shelf.old).taken
        + flat_reads name.now file.now files }
{
    let number = shelf.find(file)?;
    load_flat(alloc, shelf, name, number)
}

/// Writes the picture of a flat, as PPM. Takes no memory.
///
/// `Done`, or `WriteFault` where the count of faults of `out` rose; then a prefix was appended.
///
/// This project's own: the job.
pub fn deliver_flat<K: Sink>(picture: &Picture, out: &mut K) -> Status
    ensures ends { DeliversBytes (ppm picture.now.frame picture.now.palette)
        (K.written out.old) (K.written out.new) result }
    ensures write_fault { result ≡ Status.WriteFault →
        FaultsRose (K.faults out.old) (K.faults out.new) }
    ensures write_settled { (result ≡ Status.WriteFault → ⊥) →
        K.faults out.new ≡ K.faults out.old }
{
    match put_ppm(out, picture.frame(), picture.playpal()) {
        Ok(()) => Status::Done,
        Err(_) => Status::WriteFault,
    }
}

// The picture of a flat in a file.
fn load_flat<S: Shelf>(
    alloc: Global,
    shelf: &mut S,
    name: &Name8,
    number: FileNo,
) -> Result<Picture, LoadFault>
    ensures answers { (bytes : List ℕ) → Stands (S.view shelf.old) number.0 bytes →
        ResultIs itself (S.view shelf.old).steady (λ picture. picture)
        (flat_picture name.now (bytes ∷ [])) result }
    ensures full { IsNeverFull result }
    ensures follows { IsLaterShelf (S.view shelf.old) (S.view shelf.new) }
    ensures causes { HasCauses itself
        (S.view shelf.old).faults (S.view shelf.new).faults result }
    ensures taken { (bytes : List ℕ) → Stands (S.view shelf.old) number.0 bytes →
        (S.view shelf.new).taken ≤ (S.view shelf.old).taken + flat_sizes name.now bytes }
{
    let dir = load_dir(alloc, shelf, &[number])?;
    draw_flat(alloc, shelf, &dir, name)
}

// The picture of a flat in a directory: first its palette, and then the flat.
fn draw_flat<S: Shelf>(
    alloc: Global,
    shelf: &mut S,
    dir: &Directory,
    name: &Name8,
) -> Result<Picture, LoadFault>
    ensures answers { (contents : List (List ℕ)) →
        NameFiles (S.view shelf.old) dir.now.files contents → AllWithin contents dir.now.lumps →
        ResultIs itself (S.view shelf.old).steady (λ picture. picture)
        (picture_in contents name.now dir.now.lumps) result }
    ensures full { IsNeverFull result }
    ensures follows { IsLaterShelf (S.view shelf.old) (S.view shelf.new) }
    ensures causes { HasCauses itself
        (S.view shelf.old).faults (S.view shelf.new).faults result }
    ensures taken { (S.view shelf.new).taken
        ≤ (S.view shelf.old).taken + (PALETTE_BYTES + flat_size dir.now.lumps name.now) }
{
    let playpal = read_palette(alloc, shelf, dir)?;
    let flat = read_flat(alloc, shelf, dir, name)?;
    Ok(Picture::new(tile(alloc, &flat, FRAME_BYTES)?, playpal))
}

// The first palette of a directory.
fn read_palette<S: Shelf>(
    alloc: Global,
    shelf: &mut S,
    dir: &Directory,
) -> Result<Vec<u8>, LoadFault>
    ensures answers { (contents : List (List ℕ)) →
        NameFiles (S.view shelf.old) dir.now.files contents → AllWithin contents dir.now.lumps →
        ResultIs itself (S.view shelf.old).steady (λ palette. palette.items)
        (palette_in contents dir.now.lumps) result }
    ensures size { IfOk result (λ palette. length palette.items ≡ PALETTE_BYTES) }
    ensures full { IsNeverFull result }
    ensures follows { IsLaterShelf (S.view shelf.old) (S.view shelf.new) }
    ensures causes { HasCauses itself
        (S.view shelf.old).faults (S.view shelf.new).faults result }
    ensures taken { (S.view shelf.new).taken ≤ (S.view shelf.old).taken + PALETTE_BYTES }
{
    match find_playpal(dir) {
        Ok(lump) => read_front(alloc, shelf, dir, lump, PALETTE_BYTES),
        Err(refusal) => Err(Fault::Refused(Refusal::Level(AuditRefusal::Art(refusal)))),
    }
}

// The bytes of the last flat of a name.
fn read_flat<S: Shelf>(
    alloc: Global,
    shelf: &mut S,
    dir: &Directory,
    name: &Name8,
) -> Result<Vec<u8>, LoadFault>
    ensures answers { (contents : List (List ℕ)) →
        NameFiles (S.view shelf.old) dir.now.files contents → AllWithin contents dir.now.lumps →
        ResultIs itself (S.view shelf.old).steady (λ flat. flat.items)
        (flat_in contents dir.now.lumps name.now) result }
    ensures full { IsNeverFull result }
    ensures follows { IsLaterShelf (S.view shelf.old) (S.view shelf.new) }
    ensures causes { HasCauses itself
        (S.view shelf.old).faults (S.view shelf.new).faults result }
    ensures taken { (S.view shelf.new).taken
        ≤ (S.view shelf.old).taken + flat_size dir.now.lumps name.now }
{
    match dir.flat(name) {
        Some(lump) => read_lump(alloc, shelf, dir, lump),
        None => Err(Fault::Refused(Refusal::Level(AuditRefusal::Scene(SceneRefusal::FlatName)))),
    }
}

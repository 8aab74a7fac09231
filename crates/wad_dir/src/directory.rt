// A directory, and what it finds.
ghost use Rattle.std.specs.Prelude.{◌≡◌, ℕ, List, ◌<◌, ◌≤◌, ◌+◌, ◌*◌, ◌^◌, length, map, All, IfOk, IfSome, slice_get};
ghost use Rattle.std.specs.Option.{option_map};
ghost use Rattle.wad_dir.specs.Rules.{AllWithin, HasCauses, IsLaterShelf, NameFiles, ResultIs, Sprites, directory, flat_of, last_of, listing_sizes, lump_at, map_of, members};
ghost use Rattle.wad_dir.specs.Faults.{dir_fault};

use crate::DirFault;
use crate::index::{NameIndex, index_flats, index_names, list_sprites, look_up};
use crate::load::read_lumps;
use crate::map::label_at;
use lump_rules::{ENTRY_SIZE, HEADER_SIZE, Lump, LumpNo, MAP_LUMPS, Name8};
use outside::{FileNo, OutOfMemory, Shelf};
use std::alloc::Global;
use std::marker::Model;

/// The directory of some WAD files. Contracts see the numbers of the files and the list of lumps.
///
/// It keeps an index by name, so no look-up by name goes over the lumps.
///
/// The original: `lumpinfo`, w_wad.c.
pub struct Directory {
    numbers: Vec<FileNo>,
    list: Vec<Lump>,
    // the last lump and the last flat of each name
    last: NameIndex,
    flats: NameIndex,
    sprites: Vec<LumpNo>,
}

// By hand, so that a drop of one is one call.
impl Drop for Directory {
    fn drop(self) {
        let Directory {
            numbers: _,
            list: _,
            last: _,
            flats: _,
            sprites: _,
        } = self;
    }
}

impl Model for Directory {
    ghost use Rattle.std.specs.Prelude.{◌≡◌, ◌<◌, ◌^◌, ℕ, List, length, map, All};
    ghost use Rattle.wad_dir.specs.Rules.{Sprites, flat_of, last_of, members};
    ghost use Rattle.wad_dir.specs.DirectoryView.{DirectoryView};
    ghost use Rattle.wad_dir.specs.Indexes.{indexed};

    ghost Value = { DirectoryView };

    ghost view = { λ dir. record { files = dir.numbers.items; lumps = dir.list.items } };

    ghost invariant = { λ dir.
        (length dir.list.items < 2 ^ 16)
        × All (λ lump. lump.file < length dir.numbers.items) dir.list.items
        × ((name : List ℕ) → indexed dir.last name ≡ last_of dir.list.items name)
        × ((name : List ℕ) → indexed dir.flats name ≡ flat_of dir.list.items name)
        × (map (λ lump. lump.0) dir.sprites.items ≡ members Sprites dir.list.items) };
}

impl Directory {
    /// Reads the directories of WAD files, in the order given.
    ///
    /// A file that is given twice counts as two. Each file is read at most twice: its header of 12
    /// bytes, and its whole directory. Takes memory for the lumps of all files, for their indexes by
    /// name, and for one file's directory at a time.
    ///
    /// Errors: `Refused` with the first refusal of the files' bytes. `ReadFault` only where a call
    /// of the shelf failed. `OutOfMemory`. The shelf goes on to stand for what it stood for.
    ///
    /// The original: `W_InitMultipleFiles` and `W_AddFile`, w_wad.c, which end the program there.
    pub fn load<S: Shelf>(
        alloc: Global,
        shelf: &mut S,
        files: &[FileNo],
    ) -> Result<Directory, DirFault>
        ensures answers { (contents : List (List ℕ)) →
            NameFiles (S.view shelf.old) files.now contents →
            ResultIs dir_fault (S.view shelf.old).steady (λ dir.
            dir.lumps) (directory contents) result }
        ensures files { IfOk result (λ dir. dir.files ≡ files.now) }
        ensures within { (contents : List (List ℕ)) →
            NameFiles (S.view shelf.old) files.now contents →
            IfOk result (λ dir. AllWithin contents dir.lumps) }
        ensures count { IfOk result (λ dir. length dir.lumps < 2 ^ 16) }
        ensures follows { IsLaterShelf (S.view shelf.old) (S.view shelf.new) }
        ensures causes { HasCauses dir_fault (S.view shelf.old).faults (S.view shelf.new).faults
            result }
        ensures taken { (contents : List (List ℕ)) →
            NameFiles (S.view shelf.old) files.now contents →
            (S.view shelf.new).taken ≤ (S.view shelf.old).taken + listing_sizes contents }
        ensures taken_by_count { IfOk result (λ dir.
            (S.view shelf.new).taken ≤ (S.view shelf.old).taken +
            (HEADER_SIZE * length dir.files + ENTRY_SIZE * length dir.lumps)) }
    {
        let list = read_lumps(alloc, shelf, files)?;
        Ok(Directory::new(alloc, files, list)?)
    }

    // The directory of lumps that were read, with its indexes.
    fn new(alloc: Global, files: &[FileNo], list: Vec<Lump>) -> Result<Directory, OutOfMemory>
        requires few { length list.items < 2 ^ 16 }
        requires owned { All (λ lump. lump.file < length files.now) list.items }
        ensures { IfOk result (λ dir. (dir.files ≡ files.now) × (dir.lumps ≡ list.items)) }
    {
        let numbers = files.to_vec(alloc)?;
        let last = index_names(alloc, &list)?;
        let flats = index_flats(alloc, &list)?;
        let sprites = list_sprites(alloc, &list)?;
        Ok(Directory {
            numbers,
            list,
            last,
            flats,
            sprites,
        })
    }

    /// The last lump of a name, which is the one with the greatest number, or `None` where no lump
    /// has that name.
    ///
    /// The original: `W_CheckNumForName`, w_wad.c.
    pub fn last(&self, name: &Name8) -> Option<LumpNo>
        ensures found { option_map (λ lump. lump.0) result ≡ last_of self.now.lumps name.now }
        ensures there { IfSome result (λ lump. lump.0 < length self.now.lumps) }
    {
        look_up(&self.last, name)
    }

    /// The last flat of a name, or `None` where no flat has that name.
    ///
    /// A flat stands after a mark `F_START` or `FF_START` and before the next `F_END` or `FF_END` of
    /// the same file.
    ///
    /// The original: `R_FlatNumForName`, r_data.c, with `R_InitFlats`.
    ///
    /// This project's own: each file has flats of its own, the marks `FF_START` and `FF_END`, and
    /// flats of later files stand for those of earlier ones.
    pub fn flat(&self, name: &Name8) -> Option<LumpNo>
        ensures found { option_map (λ lump. lump.0) result ≡ flat_of self.now.lumps name.now }
        ensures there { IfSome result (λ lump. lump.0 < length self.now.lumps) }
    {
        look_up(&self.flats, name)
    }

    /// The label of a map: the last lump of its name. `None` where no lump has that name, where it
    /// is not followed by the eight lumps of a map, by name and in order, in the same file, or where
    /// the eleventh lump after it stands in the same file and has the name `BEHAVIOR`. Each of the
    /// eight has a `LumpNo`.
    ///
    /// The original: `P_SetupLevel`, p_setup.c, which takes the lumps after the label as they come.
    ///
    /// This project's own: the names are looked at, and maps of another format are refused.
    pub fn map(&self, name: &Name8) -> Option<LumpNo>
        ensures found { option_map (λ lump. lump.0) result ≡ map_of self.now.lumps name.now }
        ensures there { IfSome result (λ lump. lump.0 + length MAP_LUMPS < length self.now.lumps) }
        ensures number { IfSome result (λ lump. lump.0 + length MAP_LUMPS < 2 ^ 16) }
    {
        let label = self.last(name)?;
        label_at(&self.list, label)
    }

    /// The sprite lumps of all files, in order: those after a mark `S_START` or `SS_START` and
    /// before the next `S_END` or `SS_END` of the same file.
    ///
    /// The original: `R_InitSpriteLumps`, r_data.c.
    ///
    /// This project's own: each file has sprite lumps of its own, and the marks `SS_START` and
    /// `SS_END`.
    pub fn sprite_lumps(&self) -> &[LumpNo]
        ensures { map (λ lump. lump.0) result.now ≡ members Sprites self.now.lumps }
    {
        &self.sprites
    }

    /// How many lumps there are, at most 65535.
    ///
    /// The original: `W_NumLumps`, w_wad.c.
    pub fn count(&self) -> u32
        ensures count { result ≡ length self.now.lumps }
        ensures few { result < 2 ^ 16 }
    {
        self.list.len() as u32
    }

    /// The name of a lump.
    pub fn name(&self, lump: LumpNo) -> Name8
        requires { lump.0 < length self.now.lumps }
        ensures { result ≡ (lump_at self.now.lumps lump.0).name }
    {
        self.list[lump.0 as usize].name
    }

    /// The size of a lump, in bytes.
    ///
    /// The original: `W_LumpLength`, w_wad.c.
    pub fn size(&self, lump: LumpNo) -> u32
        requires { lump.0 < length self.now.lumps }
        ensures { result ≡ (lump_at self.now.lumps lump.0).size }
    {
        self.list[lump.0 as usize].size
    }

    /// The number by which the shelf knows the lump's file.
    pub fn file(&self, lump: LumpNo) -> FileNo
        requires { lump.0 < length self.now.lumps }
        ensures { slice_get self.now.files (lump_at self.now.lumps lump.0).file ≡ Some result }
    {
        let file = self.list[lump.0 as usize].file;
        self.numbers[file as usize]
    }

    /// The offset of a lump in its file, in bytes. It says nothing where the lump's size is 0.
    pub fn place(&self, lump: LumpNo) -> u32
        requires { lump.0 < length self.now.lumps }
        ensures { result ≡ (lump_at self.now.lumps lump.0).place }
    {
        self.list[lump.0 as usize].place
    }
}

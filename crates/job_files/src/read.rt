// All files of a job over a level, in their order.
ghost use Rattle.std.specs.Prelude.{◌≡◌, ◌<◌, ◌≤◌, ◌+◌, ◌*◌, ◌^◌, ℕ, List, length, map, Some, IfOk};
ghost use Rattle.job_files.specs.Rules.{AllWithin, File, HasCauses, Holds, IsLaterShelf, MAX_SIZE, MIN_SIZE, NameFiles, ResultIsOrAbsent, file_names, itself, listing_sizes};
ghost use Rattle.job_files.specs.Files.{IsNeverFull, files_in, files_named, value_of};
ghost use Rattle.job_files.specs.Sizes.{files_size};

use crate::fault::LoadFault;
use crate::tables::load_tables;
use crate::texts::{TextTables, load_texts};
use crate::wads::load_wads;
use angle_tables::Tables;
use art_rules::{HEADER_SIZE, Shelf};
use csv_tables::{MAX_TABLE_BYTES, PathTable, ThingTable, WeaponTable};
use job_rules::{Files, Settings};
use lump_cache::{Directory, ENTRY_SIZE};
use picture_rules::TABLES_BYTES;
use std::alloc::Global;

/// What the files of a job over a level give: the tables of angles, how things look, the views of
/// the path, the weapon layers where a file of them is named, and the directory of the WADs.
pub struct SceneFiles {
    pub tables: Tables,
    pub things: ThingTable,
    pub path: PathTable,
    pub weapons: Option<WeaponTable>,
    pub dir: Directory,
}

// By hand, so that a drop of one is one call.
impl Drop for SceneFiles {
    fn drop(self) {
        let SceneFiles {
            tables: _,
            things: _,
            path: _,
            weapons: _,
            dir: _,
        } = self;
    }
}

/// The files of these names, for views of the size that is set, 3 to 11, whose spans are stepped as
/// is set, with the WADs in the order given.
///
/// Each file is asked for and read in its turn: tables of angles, things, path, and the weapon
/// layers where they are named. Then all WADs are asked for, and after that their directories are
/// read; the lumps are not. The length of a table's file is looked at first, so that however long
/// it is, no more is read of it than a table may have. No more bytes are read than these files
/// have, and the header and the directory of each WAD, each once (`taken_of`). Takes memory for
/// each table's file while it is checked, for what the tables hold, and for the directory.
///
/// Errors: `Refused` with the first refusal, by the step at which it came. `ReadFault` only where a
/// call of the shelf failed; over a steady shelf only where the step's file is not held.
/// `OutOfMemory`. The shelf goes on to stand for what it stood for.
///
/// The original: `W_InitMultipleFiles`, w_wad.c, which leaves out files that are not there. This
/// project's own: the files beside the WADs, and that a file that is not there ends the reading.
pub fn read_files<S: Shelf>(
    alloc: Global,
    names: &Files<'_>,
    wads: &[&str],
    settings: &Settings,
    shelf: &mut S,
) -> Result<SceneFiles, LoadFault>
    requires least { MIN_SIZE ≤ settings.now.size }
    requires greatest { settings.now.size ≤ MAX_SIZE }
    ensures answers { (files : List File) → Holds (S.view shelf.old) files →
        ResultIsOrAbsent itself (S.view shelf.old).steady value_of
        (files_in (file_names names.now) (map (λ wad. wad.now) wads.now) settings.now files)
        result }
    ensures contents { (files : List File) (contents : List (List ℕ)) →
        Holds (S.view shelf.old) files →
        files_named (map (λ wad. wad.now) wads.now) files ≡ Some contents →
        IfOk result (λ found. NameFiles (S.view shelf.new) found.dir.files contents
        × AllWithin contents found.dir.lumps) }
    ensures files { IfOk result (λ found. length found.dir.files ≡ length wads.now) }
    ensures count { IfOk result (λ found. length found.dir.lumps < 2 ^ 16) }
    ensures size { IfOk result (λ found. found.tables.size ≡ settings.now.size) }
    ensures full { IsNeverFull result }
    ensures follows { IsLaterShelf (S.view shelf.old) (S.view shelf.new) }
    ensures causes { HasCauses itself
        (S.view shelf.old).faults (S.view shelf.new).faults result }
    ensures taken { (files : List File) (contents : List (List ℕ)) →
        Holds (S.view shelf.old) files →
        files_named (map (λ wad. wad.now) wads.now) files ≡ Some contents →
        (S.view shelf.new).taken ≤ (S.view shelf.old).taken
        + (TABLES_BYTES + 3 * MAX_TABLE_BYTES + listing_sizes contents) }
    ensures taken_by_count { IfOk result (λ found.
        (S.view shelf.new).taken ≤ (S.view shelf.old).taken
        + (TABLES_BYTES + 3 * MAX_TABLE_BYTES
        + HEADER_SIZE * length found.dir.files + ENTRY_SIZE * length found.dir.lumps)) }
    ensures taken_of { (files : List File) (contents : List (List ℕ)) →
        Holds (S.view shelf.old) files →
        files_named (map (λ wad. wad.now) wads.now) files ≡ Some contents →
        (S.view shelf.new).taken ≤ (S.view shelf.old).taken
        + files_size (file_names names.now) (map (λ wad. wad.now) wads.now) files }
{
    let tables = load_tables(alloc, shelf, names.tables, settings)?;
    let texts = load_texts(alloc, shelf, names)?;
    let dir = load_wads(alloc, shelf, wads)?;
    let TextTables {
        things,
        path,
        weapons,
    } = texts;
    Ok(SceneFiles {
        tables,
        things,
        path,
        weapons,
        dir,
    })
}

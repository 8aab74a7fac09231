// The tables of angles: their file is asked for by name, read whole and then checked.
ghost use Rattle.std.specs.Prelude.{◌≡◌, ◌≤◌, ◌+◌, ℕ, List, true, IfOk};
ghost use Rattle.job_files.specs.Rules.{File, HasCauses, Holds, IsLaterShelf, MAX_SIZE, MIN_SIZE, ResultIs, ResultIsOrAbsent, itself};
ghost use Rattle.job_files.specs.Files.{IsNeverFull, in_file, tables_file, tables_in};
ghost use Rattle.job_files.specs.Sizes.{named_size};

use crate::fault::LoadFault;
use crate::whole_files::{FileKind, read_named};
use angle_tables::{Tables, TablesFault};
use art_rules::{Fault, Shelf};
use job_rules::Settings;
use picture_rules::{Spans, TABLES_BYTES};
use refusals::Refusal;
use std::alloc::Global;

// The tables of angles in a file, for views of a size whose spans are stepped so.
pub fn load_tables<S: Shelf>(
    alloc: Global,
    shelf: &mut S,
    name: &str,
    settings: &Settings,
) -> Result<Tables, LoadFault>
    requires least { MIN_SIZE ≤ settings.now.size }
    requires greatest { settings.now.size ≤ MAX_SIZE }
    ensures answers { (files : List File) → Holds (S.view shelf.old) files →
        ResultIsOrAbsent itself (S.view shelf.old).steady (λ tables. tables)
        (in_file (tables_file settings.now) name.now files) result }
    ensures full { IsNeverFull result }
    ensures follows { IsLaterShelf (S.view shelf.old) (S.view shelf.new) }
    ensures causes { HasCauses itself
        (S.view shelf.old).faults (S.view shelf.new).faults result }
    ensures size { IfOk result (λ tables. tables.size ≡ settings.now.size) }
    ensures taken { (S.view shelf.new).taken ≤ (S.view shelf.old).taken + TABLES_BYTES }
    ensures taken_of { (files : List File) → Holds (S.view shelf.old) files →
        (S.view shelf.new).taken ≤ (S.view shelf.old).taken + named_size name.now files }
{
    let bytes = read_named(alloc, shelf, name, FileKind::Tables)?;
    check_tables(alloc, &bytes, settings)
}

#[tactic(auto, unfolding(crate::specs::Files::tables_in))]
fn check_tables(alloc: Global, bytes: &[u8], settings: &Settings) -> Result<Tables, LoadFault>
    requires least { MIN_SIZE ≤ settings.now.size }
    requires greatest { settings.now.size ≤ MAX_SIZE }
    ensures answers { ResultIs itself true (λ tables. tables)
        (tables_file settings.now bytes.now) result }
    ensures causes { (faults : ℕ) → HasCauses itself faults faults result }
    ensures full { IsNeverFull result }
    ensures size { IfOk result (λ tables. tables.size ≡ settings.now.size) }
{
    match Tables::from_bytes(alloc, bytes, settings.size) {
        Ok(tables) => Ok(with_spans(tables, settings.spans)),
        Err(TablesFault::Refused(refusal)) => Err(Fault::Refused(Refusal::Tables(refusal))),
        Err(TablesFault::OutOfMemory) => Err(Fault::OutOfMemory),
    }
}

// The tables, by which spans are stepped so.
fn with_spans(tables: Tables, spans: Spans) -> Tables
    ensures { result ≡ record tables { spans = spans } }
{
    let mut tables = tables;
    tables.set_spans(spans);
    tables
}

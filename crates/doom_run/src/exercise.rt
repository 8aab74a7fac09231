// The job `exercise`: the made files of a number, rendered in memory and counted.
ghost use Rattle.std.specs.Prelude.{◌≡◌, ◌*◌, ◌/◌, [], ◌∷◌, IfOk};
ghost use Rattle.doom_run.specs.Rules.{FaultsRose, IsCount, IsZoneSize, ShelfView, Writes, exercise, level_job_value};
ghost use Rattle.job_files.specs.Statuses.{DeliversBytes};
ghost use Rattle.doom_run.specs.Exercises.{frame_size, made_files, made_level, summary_line};
ghost use Rattle.doom_run.specs.Jobs.{job_of};
ghost use Rattle.doom_run.specs.Performs.{Performs};

use crate::level::perform_level;
use crate::summary::Summary;
use art_rules::{Failed, MemoryFile, MemoryShelf, Name8, OutOfMemory, Sink, TallySink};
use command_line::{DEFAULT_OPENINGS, DEFAULT_PLANES, DEFAULT_SIZE, DEFAULT_SKILL};
use frame_writer::{FRAME_BYTES, PPM_BYTES};
use job_files::Status;
use job_rules::{Files, Format, LevelJob, LevelTask, Settings};
use level_maker::{make_path, make_tables, make_things, make_wad};
use picture_rules::Spans;
use refusals::Line;
use std::alloc::Global;

// The made files of a number, by name.
#[tactic(auto, unfolding(crate::specs::Exercises::made_files))]
fn made_files(alloc: Global, n: u32) -> Result<Vec<MemoryFile>, OutOfMemory>
    requires { IsCount n }
    ensures { IfOk result (λ files. files.items ≡ made_files n) }
{
    let wad = MemoryFile {
        name: "wad".to_string(alloc)?,
        bytes: make_wad(alloc, n)?,
    };
    let tables = MemoryFile {
        name: "tables".to_string(alloc)?,
        bytes: make_tables(alloc)?,
    };
    let things = MemoryFile {
        name: "things".to_string(alloc)?,
        bytes: make_things(alloc)?,
    };
    let path = MemoryFile {
        name: "path".to_string(alloc)?,
        bytes: make_path(alloc, n)?,
    };
    Ok(vec![in alloc; wad, tables, things, path]?)
}

// The name of the made level.
fn made_map() -> Name8
    ensures { result ≡ 77 ∷ 65 ∷ 80 ∷ 48 ∷ 49 ∷ 0 ∷ 0 ∷ 0 ∷ [] }
{
    Name8::from_bytes(*b"MAP01\0\0\0")
}

// The job over the made level in a zone of that size.
fn made_level(zone: u32) -> LevelJob<'static>
    ensures { level_job_value result ≡ made_level zone }
{
    LevelJob {
        map: made_map(),
        files: Files {
            tables: "tables",
            things: "things",
            path: "path",
            weapon: None,
        },
        settings: Settings {
            zone,
            skill: DEFAULT_SKILL as u8,
            size: DEFAULT_SIZE as u8,
            planes: DEFAULT_PLANES,
            openings: DEFAULT_OPENINGS,
            spans: Spans::Full,
        },
    }
}

// The job `exercise`: the made files of a number, rendered in memory and counted. It asks for no
// file.
pub fn perform_exercise<K: Sink>(
    alloc: Global,
    count: u8,
    zone: u32,
    format: Format,
    out: &mut K,
) -> Status
    requires count { IsCount count }
    requires zone { IsZoneSize zone }
    ensures { (view : ShelfView) → Performs (job_of (exercise count zone format)) view view
        (K.written out.old) (K.written out.new) (K.faults out.old) (K.faults out.new) result }
{
    match made_files(alloc, count as u32) {
        Ok(files) => exercise_files(alloc, files, count as u32, zone, format, out),
        Err(_) => Status::OutOfMemory,
    }
}

// The made files of number `n`, rendered into a tally, whose line is written if all frames were.
fn exercise_files<K: Sink>(
    alloc: Global,
    files: Vec<MemoryFile>,
    n: u32,
    zone: u32,
    format: Format,
    out: &mut K,
) -> Status
    requires files { files.items ≡ made_files n }
    requires count { IsCount n }
    requires zone { IsZoneSize zone }
    ensures { (view : ShelfView) → Performs (job_of (exercise n zone format)) view view
        (K.written out.old) (K.written out.new) (K.faults out.old) (K.faults out.new) result }
{
    let mut shelf = MemoryShelf::new(files, Vec::new(alloc));
    let mut tally = TallySink::new();
    let level = made_level(zone);
    let task = LevelTask::Render(format);
    match perform_level(alloc, task, &level, &["wad"], &mut shelf, &mut tally) {
        Status::Done => deliver_exercise(&summary_of(n, format, &tally), out),
        status => status,
    }
}

// The bytes of a frame as it is written.
fn frame_size(format: Format) -> u64
    ensures { result ≡ frame_size format }
{
    match format {
        Format::Index => FRAME_BYTES as u64,
        Format::Ppm => PPM_BYTES as u64,
    }
}

// What was counted of all the views' frames.
fn summary_of(n: u32, format: Format, tally: &TallySink) -> Summary
    requires { IsCount n }
    ensures { result ≡ record {
      sectors = 4 * n * n;
      views = 3 * n;
      frames = tally.now.count / frame_size format;
      bytes = tally.now.count;
      sum = tally.now.sum;
    } }
{
    Summary {
        sectors: 4 * n as u64 * n as u64,
        views: 3 * n as u64,
        frames: tally.count() / frame_size(format),
        bytes: tally.count(),
        sum: tally.sum(),
    }
}

// Appends the line of an exercise.
fn put_summary<K: Sink>(out: &mut K, summary: &Summary) -> Result<(), Failed>
    ensures { Writes (K.written out.old) (K.written out.new) (K.faults out.old)
        (K.faults out.new) (summary_line summary.now) result }
{
    let mut line = Line::new();
    line.add_number(b"sectors ", summary.sectors);
    line.add_number(b" views ", summary.views);
    line.add_number(b" frames ", summary.frames);
    line.add_number(b" bytes ", summary.bytes);
    line.add_number(b" sum ", summary.sum);
    line.add(b"\n");
    line.put(out)
}

// Writes the line of an exercise. Takes no memory.
fn deliver_exercise<K: Sink>(summary: &Summary, out: &mut K) -> Status
    ensures ends { DeliversBytes (summary_line summary.now) (K.written out.old)
        (K.written out.new) result }
    ensures write_fault { result ≡ Status.WriteFault →
        FaultsRose (K.faults out.old) (K.faults out.new) }
    ensures write_settled { (result ≡ Status.WriteFault → ⊥) →
        K.faults out.new ≡ K.faults out.old }
{
    match put_summary(out, summary) {
        Ok(()) => Status::Done,
        Err(_) => Status::WriteFault,
    }
}

// A run, from its words to its status.
ghost use Rattle.std.specs.Prelude.{◌≡◌, ◌≤◌, ◌⊎◌, ℕ, false, List, [], Some, Ok, Err, IsTrue, IfSome};
ghost use Rattle.doom_run.specs.Rules.{FaultsRose, File, Grew, GrewByPrefix, Holds, IsCountedMake, LevelJobValue, ShelfView, Trim, flat, level_job, make};
ghost use Rattle.command_line.specs.Commands.{command_of};
ghost use Rattle.job_files.specs.Lines.{line_of};
ghost use Rattle.doom_run.specs.Alike.{RendersAlike};
ghost use Rattle.doom_run.specs.Ends.{EndsWith, IsEnd, IsReadOrFull, IsUnwritten};
ghost use Rattle.doom_run.specs.Fulls.{HasRoom, IsFullRun};
ghost use Rattle.doom_run.specs.Jobs.{job_of};
ghost use Rattle.doom_run.specs.Leasts.{command_least, command_zone};
ghost use Rattle.doom_run.specs.Performs.{Performs, RunsAs};
ghost use Rattle.doom_run.specs.Steps.{RunStop, usage, absent, refused};
ghost use Rattle.doom_run.specs.Takes.{CommandTakes};
ghost use Rattle.doom_run.specs.Verdict.{Accepted, verdict};
ghost use Rattle.doom_run.specs.Words.{WhereAsked, ask_for_files, have_zone, read_on, texts};

use crate::Refusal;
use crate::exercise::perform_exercise;
use crate::level::perform_level;
use art_rules::{Shelf, Sink};
use command_line::{CommandFault, command_of};
use job_files::{Status, deliver_flat, deliver_make, prepare_flat, prepare_make, put_note};
use job_rules::{Command, MakeJob};
use std::alloc::Global;
use texture_build::Name8;

/// Runs the command that the words give: reads the files that it names from the shelf, appends its
/// output to `out`, and one line for a status other than `Done` to `notes`.
///
/// `words` are those after the program's name. All memory is taken before the first byte of the
/// output is written; the line takes none. A fault of `notes` changes no status. Where the words
/// ask for no file, the shelf stays as it was and may be any.
///
/// Errors: the status says which step ended the run, and why.
///
/// This project's own: the words, the statuses and their lines.
pub fn run<S: Shelf, K: Sink, N: Sink>(
    alloc: Global,
    words: &[String],
    shelf: &mut S,
    out: &mut K,
    notes: &mut N,
) -> Status
    // Done: the whole output was written, and nothing else.
    ensures ends { (files : List File) → IsEnd result →
        WhereAsked (texts words.now) (Holds (S.view shelf.old) files) →
        EndsWith (verdict (texts words.now) files) (K.written out.old) (K.written out.new) result }

    // Another status: a prefix of the output, and nothing where none is due or memory ran out.
    // Frames, traces and trimmed files alone are written before all is read.
    ensures prefix { (files : List File) (accepted : Accepted) →
        WhereAsked (texts words.now) (Holds (S.view shelf.old) files) →
        verdict (texts words.now) files ≡ Ok accepted →
        GrewByPrefix (K.written out.old) (K.written out.new) accepted.output }
    ensures unwritten { IsUnwritten result → Grew (K.written out.old) (K.written out.new) [] }
    ensures before { read_on (texts words.now) ≡ false → IsReadOrFull result →
        Grew (K.written out.old) (K.written out.new) [] }
    ensures stopped { (files : List File) (stop : RunStop) →
        WhereAsked (texts words.now) (Holds (S.view shelf.old) files) →
        verdict (texts words.now) files ≡ Err stop →
        Grew (K.written out.old) (K.written out.new) [] }

    // The words alone decide Usage, over every shelf and whatever files there are.
    ensures usage { (files : List File) → result ≡ Status.Usage →
        verdict (texts words.now) files ≡ Err usage }
    ensures wrong_words { (files : List File) → verdict (texts words.now) files ≡ Err usage →
        (result ≡ Status.Usage) ⊎ (result ≡ Status.OutOfMemory) }

    // A refusal is the verdict's, and where the verdict has one it comes, but for the faults.
    ensures refused { (files : List File) (refusal : Refusal) → result ≡ Status.Refused refusal →
        WhereAsked (texts words.now) (Holds (S.view shelf.old) files) →
        verdict (texts words.now) files ≡ Err (refused refusal) }
    ensures refusal { (files : List File) (refusal : Refusal) →
        WhereAsked (texts words.now) (Holds (S.view shelf.old) files) →
        verdict (texts words.now) files ≡ Err (refused refusal) →
        (result ≡ Status.Refused refusal) ⊎ (result ≡ Status.ReadFault)
        ⊎ ((wanted : ℕ) × (widest : ℕ) × (result ≡ Status.ZoneFull wanted widest))
        ⊎ (result ≡ Status.OutOfMemory) }

    // A fault comes only from the object that counted it.
    ensures read_fault { result ≡ Status.ReadFault →
        FaultsRose (S.view shelf.old).faults (S.view shelf.new).faults }
    ensures steady { (files : List File) → result ≡ Status.ReadFault →
        WhereAsked (texts words.now) (Holds (S.view shelf.old) files) →
        IsTrue (S.view shelf.old).steady → verdict (texts words.now) files ≡ Err absent }
    ensures absent { (files : List File) →
        WhereAsked (texts words.now) (Holds (S.view shelf.old) files) →
        verdict (texts words.now) files ≡ Err absent →
        (result ≡ Status.ReadFault) ⊎ (result ≡ Status.OutOfMemory) }
    ensures write_fault { result ≡ Status.WriteFault →
        FaultsRose (K.faults out.old) (K.faults out.new) }

    // And a fault that was counted is told: after every other status the count of the shelf, and
    // that of the output, is as it was. So no call that failed is tried again or passed over, and
    // what is said below of a run without a fault is said of every run that does not end in one.
    ensures read_settled { (result ≡ Status.ReadFault → ⊥) →
        (S.view shelf.new).faults ≡ (S.view shelf.old).faults }
    ensures write_settled { (result ≡ Status.WriteFault → ⊥) →
        K.faults out.new ≡ K.faults out.old }

    // A full zone comes only for a job whose files are in order, and the zone is small.
    ensures zone_full { (files : List File) (wanted widest : ℕ) →
        result ≡ Status.ZoneFull wanted widest →
        WhereAsked (texts words.now) (Holds (S.view shelf.old) files) →
        IfSome (command_of (texts words.now)) (λ command. IsFullRun command files wanted widest) }

    // Over every shelf it comes only for words of a job that has a zone: never for flat or make.
    ensures zoned { (wanted widest : ℕ) → result ≡ Status.ZoneFull wanted widest →
        IsTrue (have_zone (texts words.now)) }

    // In a zone that is smaller than the least, no run comes to its end.
    ensures least { (files : List File) → IsEnd result →
        WhereAsked (texts words.now) (Holds (S.view shelf.old) files) →
        IfSome (command_of (texts words.now)) (λ command.
        command_least command files ≤ command_zone command) }

    // In a zone with room for all that a level needs, no more is read than the files and each lump
    // of it once; for a flat no more than its file's directory, one palette and the flat. So it is
    // whatever the run ends with, unless that is a read fault.
    ensures taken { (files : List File) →
        WhereAsked (texts words.now) (Holds (S.view shelf.old) files) →
        (result ≡ Status.ReadFault → ⊥) →
        IfSome (command_of (texts words.now)) (λ command. CommandTakes command files
        (S.view shelf.old).taken (S.view shelf.new).taken) }

    // Words that ask for no file leave the shelf alone.
    ensures asked { result ≡ Status.ReadFault → IsTrue (ask_for_files (texts words.now)) }
    ensures untouched { ask_for_files (texts words.now) ≡ false → shelf.new ≡ shelf.old }

    // In a zone that is large enough an accepted run comes to its end, unless it tells a read fault
    // or a write fault; over a steady shelf it tells no read fault.
    ensures complete { (files : List File) (accepted : Accepted) →
        WhereAsked (texts words.now) (Holds (S.view shelf.old) files) →
        verdict (texts words.now) files ≡ Ok accepted →
        HasRoom (texts words.now) accepted →
        (result ≡ Status.ReadFault → ⊥) → (result ≡ Status.WriteFault → ⊥) →
        (result ≡ accepted.end) ⊎ (result ≡ Status.OutOfMemory) }
    ensures complete_steady { (files : List File) (accepted : Accepted) →
        WhereAsked (texts words.now) (Holds (S.view shelf.old) files) →
        verdict (texts words.now) files ≡ Ok accepted →
        HasRoom (texts words.now) accepted →
        WhereAsked (texts words.now) (IsTrue (S.view shelf.old).steady) →
        (result ≡ Status.WriteFault → ⊥) →
        (result ≡ accepted.end) ⊎ (result ≡ Status.OutOfMemory) }

    // A trimmed file renders as the WADs do that it was made of.
    ensures trimmed { (files : List File) (level : LevelJobValue) (wads : List (List ℕ))
        (accepted : Accepted) → result ≡ Status.Done →
        WhereAsked (texts words.now) (Holds (S.view shelf.old) files) →
        command_of (texts words.now) ≡ Some (level_job Trim level wads) →
        verdict (texts words.now) files ≡ Ok accepted →
        RendersAlike level wads files accepted.output }

    // The line of the status is noted, unless the notes fail. Their count of faults never falls.
    ensures noted { (FaultsRose (N.faults notes.old) (N.faults notes.new) → ⊥) →
        Grew (N.written notes.old) (N.written notes.new) (line_of result) }
    ensures noted_prefix { GrewByPrefix (N.written notes.old) (N.written notes.new)
        (line_of result) }
    ensures note_faults { N.faults notes.old ≤ N.faults notes.new }

    // What the command of the words determines, said at once.
    ensures runs { RunsAs (command_of (texts words.now)) (S.view shelf.old) (S.view shelf.new)
        (K.written out.old) (K.written out.new) (K.faults out.old) (K.faults out.new) result }
{
    let status = perform(alloc, words, shelf, out);
    let _ = put_note(notes, &status);
    status
}

// The run without its line.
fn perform<S: Shelf, K: Sink>(alloc: Global, words: &[String], shelf: &mut S, out: &mut K) -> Status
    ensures runs { RunsAs (command_of (texts words.now)) (S.view shelf.old) (S.view shelf.new)
        (K.written out.old) (K.written out.new) (K.faults out.old) (K.faults out.new) result }
    ensures untouched { ask_for_files (texts words.now) ≡ false → shelf.new ≡ shelf.old }
{
    match command_of(alloc, words) {
        Ok(command) => match &command {
            Command::Flat { name, file } => perform_flat(alloc, name, file, shelf, out),
            Command::Make(job) => perform_make(alloc, *job, out),
            Command::Level { task, level, wads } => {
                perform_level(alloc, *task, level, wads, shelf, out)
            }
            Command::Exercise {
                count,
                zone,
                format,
            } => perform_exercise(alloc, *count, *zone, *format, out),
        },
        Err(CommandFault::Usage) => Status::Usage,
        Err(CommandFault::OutOfMemory) => Status::OutOfMemory,
    }
}

fn perform_flat<S: Shelf, K: Sink>(
    alloc: Global,
    name: &Name8,
    file: &str,
    shelf: &mut S,
    out: &mut K,
) -> Status
    ensures { Performs (job_of (flat name.now file.now)) (S.view shelf.old) (S.view shelf.new)
        (K.written out.old) (K.written out.new) (K.faults out.old) (K.faults out.new) result }
{
    match prepare_flat(alloc, shelf, name, file) {
        Ok(picture) => deliver_flat(&picture, out),
        Err(fault) => Status::of(fault),
    }
}

fn perform_make<K: Sink>(alloc: Global, job: MakeJob, out: &mut K) -> Status
    requires { IsCountedMake job }
    ensures { (view : ShelfView) → Performs (job_of (make job)) view view
        (K.written out.old) (K.written out.new) (K.faults out.old) (K.faults out.new) result }
{
    match prepare_make(alloc, job) {
        Ok(bytes) => deliver_make(&bytes, out),
        Err(_) => Status::OutOfMemory,
    }
}

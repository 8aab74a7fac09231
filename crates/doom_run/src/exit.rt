// How the program ends: by the number of the status of its run.
//
// Rules: `specs/Exits`; `job_files`, Statuses (the numbers). This project's own.
ghost use Rattle.std.specs.Prelude.{◌≡◌, false};
ghost use Rattle.std.specs.Process.{exit_status};
ghost use Rattle.command_line.specs.Commands.{command_of};
ghost use Rattle.doom_run.specs.Exits.{ExitsAs};
ghost use Rattle.job_files.specs.Statuses.{code_of};
ghost use Rattle.doom_run.specs.Words.{ask_for_files, texts};

use crate::top::run;
use art_rules::{Shelf, Sink};
use job_files::Status;
use std::alloc::Global;
use std::process::ExitCode;

/// Runs the command that the words give, as `run` does, and ends with the number of its status.
///
/// The number is that of a status for which everything holds that `run` says of it, whatever the
/// shelf and the outputs are.
pub fn run_to_exit<S: Shelf, K: Sink, N: Sink>(
    alloc: Global,
    words: &[String],
    shelf: &mut S,
    out: &mut K,
    notes: &mut N,
) -> ExitCode
    ensures exits { ExitsAs (command_of (texts words.now)) (S.view shelf.old) (S.view shelf.new)
        (K.written out.old) (K.written out.new) (K.faults out.old) (K.faults out.new)
        (N.written notes.old) (N.written notes.new) (N.faults notes.old) (N.faults notes.new)
        (exit_status result) }
    ensures untouched { ask_for_files (texts words.now) ≡ false → shelf.new ≡ shelf.old }
{
    let status = run(alloc, words, shelf, out, notes);
    exit_of(&status)
}

/// The number of a status, as the program ends with it.
pub fn exit_of(status: &Status) -> ExitCode
    ensures { exit_status result ≡ code_of status.now }
{
    ExitCode::from(status.code())
}

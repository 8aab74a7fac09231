//! The program: the words of its command line, the files of the system, and its streams.
//!
//! All that it does is `doom_run::run_to_exit`. Proved: that it is safe and ends, that words which are no
//! command end with the number of that status, which status stands for words that cannot be had, and
//! the number of each status. Tested only, by its stored run: that the words and the files come from
//! the system, and that the output goes there.
#![tactic(auto)]

ghost use Rattle.std.specs.Prelude.{◌≡◌, ◌⊎◌, None};
ghost use Rattle.std.specs.Process.{exit_status};
ghost use Rattle.std.specs.IoError.{error_kind};
ghost use Rattle.doom_run.specs.Rules.{code_of, command_of};
ghost use Rattle.doom_run.specs.Words.{texts};

use doom_run::{Status, exit_of, put_note, run_to_exit};
use outside::{HostShelf, HostSink};
use std::alloc::Global;
use std::io::ErrorKind;
use std::process::ExitCode;
use std::{env, io};

fn main(rt: HostRuntime) -> ExitCode {
    match read_words(&rt, rt.alloc()) {
        Ok(words) => run_here(&rt, &words),
        Err(error) => end(&rt, status_of(error)),
    }
}

// The run on the files and the streams of the system.
fn run_here(rt: &HostRuntime, words: &[String]) -> ExitCode
    ensures { command_of (texts words.now) ≡ None → (exit_status result ≡ code_of Status.Usage)
        ⊎ (exit_status result ≡ code_of Status.OutOfMemory) }
{
    let alloc = rt.alloc();
    let Ok(mut shelf) = HostShelf::new(rt, alloc) else {
        return end(rt, Status::OutOfMemory);
    };
    let mut out = HostSink::new_out(rt);
    let mut notes = HostSink::new_err(rt);
    run_to_exit(alloc, words, &mut shelf, &mut out, &mut notes)
}

// The words after the program's name.
fn read_words(rt: &HostRuntime, alloc: Global) -> io::Result<Vec<String>> {
    let mut words = Vec::new(alloc);
    for word in env::args(rt)?.skip(1) {
        words.push(word)?;
    }
    Ok(words)
}

// The status of a run whose words cannot be had: they are no texts, or no memory was found for them.
fn status_of(error: io::Error) -> Status
    ensures memory { error_kind error ≡ ErrorKind.OutOfMemory → result ≡ Status.OutOfMemory }
    ensures words { (error_kind error ≡ ErrorKind.OutOfMemory → ⊥) → result ≡ Status.Usage }
{
    if error.kind() == ErrorKind::OutOfMemory {
        Status::OutOfMemory
    } else {
        Status::Usage
    }
}

// Ends before the run with a status and its line.
fn end(rt: &HostRuntime, status: Status) -> ExitCode
    ensures { exit_status result ≡ code_of status }
{
    let mut notes = HostSink::new_err(rt);
    let _ = put_note(&mut notes, &status);
    exit_of(&status)
}

// The job of the words, by its name and the words after it.

ghost use Rattle.std.specs.Prelude.{◌≡◌, ◌==◌, Err, IfOk, IfSome, Some, None, map, string_bytes};
ghost use Rattle.clap.specs.Words.{found_of, rows_of};
ghost use Rattle.job_rules.specs.Commands.{IsCount, IsCounted, IsCountedMake, IsExercise, command_value};
ghost use Rattle.command_line.specs.Commands.{IsCommandOf, IsDecidedBy, command_in, command_of, count_of, exercise_command, flat_command, job_named, job_taken, make_job_of, make_command, numbered_make, plain_make, level_command, level_with, exercise_numbers};

use crate::choices::{format_in, number_within, zone_in};
use crate::fault::CommandFault;
use crate::level_jobs::{are_wads, copied, level_job_of, level_task_in};
use crate::options::takes_given;
use crate::simple::{matches, rest, value};
use clap::ArgMatches;
use job_rules::{Command, Format, LevelTask, MAX_COUNT, MIN_COUNT, MakeJob};
use lump_rules::Name8;
use std::alloc::Global;

/// The command of the words after the program's name. The number of made files, the size of their
/// zone in an exercise, and the numbers of a job over a level are in their ranges.
///
/// Takes memory for what `clap` finds and for the list of WADs.
///
/// Errors: `Usage` exactly where the words are no command, if memory is found. `OutOfMemory`.
///
/// The original: `M_CheckParm`, m_argv.c, and `D_DoomMain`, d_main.c.
#[tactic(auto, unfolding(crate::specs::Commands::command_of))]
pub fn command_of<'a>(alloc: Global, words: &'a [String]) -> Result<Command<'a>, CommandFault>
    ensures ok { IfOk result (λ command.
        command_of (map string_bytes words.now) ≡ Some
        (command_value command)) }
    ensures counted { IfOk result (λ command. IsCounted (command_value command)) }
    ensures usage { result ≡ Err CommandFault.Usage →
        command_of (map string_bytes words.now) ≡ None }
{
    match matches(alloc, words) {
        Ok(found) => command_in(alloc, &found),
        Err(fault) => Err(fault),
    }
}

// A command, or why there is none.
type Taken<'a> = Result<Command<'a>, CommandFault>;

// The command of what clap found.
#[tactic(auto, unfolding(crate::specs::Commands::command_in))]
fn command_in<'a>(alloc: Global, found: &ArgMatches<'a>) -> Taken<'a>
    ensures { IsCommandOf (command_in (rows_of (found_of found.now))) result }
{
    match value(found, "job") {
        None => Err(CommandFault::Usage),
        Some(job) => match rest(found) {
            None => Err(CommandFault::Usage),
            Some(rest) => job_taken(alloc, found, job, rest),
        },
    }
}

// The command of the job of that name, where it takes each option that is given.
#[tactic(auto, unfolding(crate::specs::Commands::job_taken))]
fn job_taken<'a>(alloc: Global, found: &ArgMatches<'a>, job: &str, rest: &[&'a str]) -> Taken<'a>
    ensures { IsCommandOf (job_taken (rows_of (found_of found.now)) job.now (map (λ w. w.now)
        rest.now)) result }
{
    if takes_given(found, job) {
        job_named(alloc, found, job, rest)
    } else {
        Err(CommandFault::Usage)
    }
}

// The command of the job of that name.
#[tactic(auto, unfolding(crate::specs::Commands::job_named))]
fn job_named<'a>(alloc: Global, found: &ArgMatches<'a>, job: &str, rest: &[&'a str]) -> Taken<'a>
    ensures { IsCommandOf (job_named (rows_of (found_of found.now)) job.now (map (λ w. w.now)
        rest.now)) result }
{
    if job == "flat" {
        flat_command(rest)
    } else if job == "make" {
        make_command(rest)
    } else if job == "exercise" {
        exercise_command(found, rest)
    } else {
        level_command(alloc, found, job, rest)
    }
}

// The command flat NAME FILE.
#[tactic(auto, unfolding(crate::specs::Commands::flat_command))]
fn flat_command<'a>(rest: &[&'a str]) -> Taken<'a>
    ensures { IsDecidedBy (flat_command (map (λ w. w.now) rest.now)) result }
{
    match rest {
        [name, file] => match Name8::from_text(name) {
            Some(name) => Ok(Command::Flat { name, file }),
            None => Err(CommandFault::Usage),
        },
        _ => Err(CommandFault::Usage),
    }
}

// The command make wad N, make path N, make tables or make things.
#[tactic(auto, unfolding(crate::specs::Commands::make_command))]
fn make_command<'a>(rest: &[&'a str]) -> Taken<'a>
    ensures { IsDecidedBy (make_command (map (λ w. w.now) rest.now)) result }
{
    match make_job_of(rest) {
        Some(job) => Ok(Command::Make(job)),
        None => Err(CommandFault::Usage),
    }
}

// What is to be made.
#[tactic(auto, unfolding(crate::specs::Commands::make_job_of))]
fn make_job_of(rest: &[&str]) -> Option<MakeJob>
    ensures value { result ≡ make_job_of (map (λ w. w.now) rest.now) }
    ensures counted { IfSome result (λ job. IsCountedMake job) }
{
    match rest {
        [what] => plain_make(what),
        [what, count] => numbered_make(what, count),
        _ => None,
    }
}

// A file that is made without a number.
#[tactic(auto, unfolding(crate::specs::Commands::plain_make))]
fn plain_make(what: &str) -> Option<MakeJob>
    ensures value { result ≡ plain_make what.now }
    ensures counted { IfSome result (λ job. IsCountedMake job) }
{
    match what {
        "tables" => Some(MakeJob::Tables),
        "things" => Some(MakeJob::Things),
        _ => None,
    }
}

// A file that is made with a number.
#[tactic(auto, unfolding(crate::specs::Commands::numbered_make))]
fn numbered_make(what: &str, count: &str) -> Option<MakeJob>
    ensures value { result ≡ numbered_make what.now count.now }
    ensures counted { IfSome result (λ job. IsCountedMake job) }
{
    let count = count_of(count)?;
    if what == "wad" {
        Some(MakeJob::Wad(count))
    } else if what == "path" {
        Some(MakeJob::Path(count))
    } else {
        None
    }
}

// The number of made files.
#[tactic(auto, unfolding(crate::specs::Commands::count_of))]
fn count_of(text: &str) -> Option<u8>
    ensures value { result ≡ count_of text.now }
    ensures counted { IfSome result (λ n. IsCount n) }
{
    let count = number_within(MIN_COUNT, MAX_COUNT, text)?;
    Some(count as u8)
}

// The command exercise N.
#[tactic(auto, unfolding(crate::specs::Commands::exercise_command))]
fn exercise_command<'a>(found: &ArgMatches<'a>, rest: &[&'a str]) -> Taken<'a>
    ensures { IsDecidedBy (exercise_command (rows_of (found_of found.now)) (map (λ w. w.now)
        rest.now)) result }
{
    match rest {
        [count] => match exercise_numbers(found, count) {
            Some((count, zone, format)) => Ok(Command::Exercise {
                count,
                zone,
                format,
            }),
            None => Err(CommandFault::Usage),
        },
        _ => Err(CommandFault::Usage),
    }
}

// The number of an exercise, the size of its zone and its format.
#[tactic(auto, unfolding(crate::specs::Commands::exercise_numbers))]
fn exercise_numbers(found: &ArgMatches<'_>, count: &str) -> Option<(u8, u32, Format)>
    ensures value { result ≡ exercise_numbers (rows_of (found_of found.now)) count.now }
    ensures counted { IfSome result (λ numbers. IsExercise numbers.0 numbers.1) }
{
    let count = count_of(count)?;
    let zone = zone_in(found)?;
    let format = format_in(found)?;
    Some((count, zone, format))
}

// The command of a job over a level.
#[tactic(auto, unfolding(crate::specs::Commands::level_command))]
fn level_command<'a>(
    alloc: Global,
    found: &ArgMatches<'a>,
    job: &str,
    rest: &[&'a str],
) -> Taken<'a>
    ensures { IsCommandOf (level_command (rows_of (found_of found.now)) job.now (map (λ w. w.now)
        rest.now)) result }
{
    match rest.split_first() {
        None => Err(CommandFault::Usage),
        Some((level, wads)) => match level_task_in(found, job) {
            None => Err(CommandFault::Usage),
            Some(task) => level_with(alloc, found, task, level, wads),
        },
    }
}

// The command of a job over the level of that name in these WADs.
#[tactic(auto, unfolding(crate::specs::Commands::level_with))]
fn level_with<'a>(
    alloc: Global,
    found: &ArgMatches<'a>,
    task: LevelTask,
    name: &str,
    wads: &[&'a str],
) -> Taken<'a>
    ensures { IsCommandOf (level_with (rows_of (found_of found.now)) task name.now (map (λ w.
        w.now) wads.now)) result }
{
    if !are_wads(wads) {
        return Err(CommandFault::Usage);
    }
    match level_job_of(found, name) {
        None => Err(CommandFault::Usage),
        Some(level) => match copied(alloc, wads) {
            Ok(wads) => Ok(Command::Level { task, level, wads }),
            Err(_) => Err(CommandFault::OutOfMemory),
        },
    }
}

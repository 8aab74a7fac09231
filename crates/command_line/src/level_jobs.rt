// The jobs over a level: the level's name, the files, the numbers and the WADs.

ghost use Rattle.std.specs.Prelude.{◌≡◌, IsTrue, length, IfOk, IfSome, Some, None, map, option_map};
ghost use Rattle.clap.specs.Words.{found_of, rows_of};
ghost use Rattle.command_line.specs.Rules.{AreSettings, IsWithin, file_names, level_job_value};
ghost use Rattle.command_line.specs.LevelJobs.{are_wads, file_names_in, level_task_in, level_job_of};

use crate::choices::{format_in, settings_in};
use crate::simple::value;
use clap::ArgMatches;
use job_rules::{Files, LevelJob, LevelTask, MAX_WADS};
use lump_rules::Name8;
use std::alloc::{AllocError, Global};

// The job over a level of that name; `render` may have a format.
#[tactic(auto, unfolding(crate::specs::LevelJobs::level_task_in))]
pub(crate) fn level_task_in(found: &ArgMatches<'_>, job: &str) -> Option<LevelTask>
    ensures { result ≡ level_task_in (rows_of (found_of found.now)) job.now }
{
    match job {
        "render" => Some(LevelTask::Render(format_in(found)?)),
        "trace" => Some(LevelTask::Trace),
        "list" => Some(LevelTask::List),
        "audit" => Some(LevelTask::Audit),
        "limits" => Some(LevelTask::Limits),
        "trim" => Some(LevelTask::Trim),
        _ => None,
    }
}

// The names of the files, where the three that are needed are there.
#[tactic(auto, unfolding(crate::specs::LevelJobs::file_names_in))]
fn file_names_in<'a>(found: &ArgMatches<'a>) -> Option<Files<'a>>
    ensures { option_map file_names result ≡ file_names_in (rows_of (found_of found.now)) }
{
    let tables = value(found, "tables")?;
    let things = value(found, "things")?;
    let path = value(found, "path")?;
    let weapon = value(found, "weapon");
    Some(Files {
        tables,
        things,
        path,
        weapon,
    })
}

// The level of that name, its files and its numbers.
#[tactic(auto, unfolding(crate::specs::LevelJobs::level_job_of))]
pub(crate) fn level_job_of<'a>(found: &ArgMatches<'a>, map: &str) -> Option<LevelJob<'a>>
    ensures value { option_map level_job_value result
        ≡ level_job_of (rows_of (found_of found.now)) map.now }
    ensures within { IfSome result (λ level. AreSettings level.settings) }
{
    let map = Name8::from_text(map)?;
    let files = file_names_in(found)?;
    let settings = settings_in(found)?;
    Some(LevelJob {
        map,
        files,
        settings,
    })
}

// Whether there are 1 to 16 WADs.
#[tactic(auto, unfolding(crate::specs::LevelJobs::are_wads))]
pub(crate) fn are_wads(wads: &[&str]) -> bool
    ensures value { result ≡ are_wads (map (λ w. w.now) wads.now) }
    ensures within { IsTrue result → IsWithin 1 MAX_WADS (length (map (λ w. w.now) wads.now)) }
{
    wads.len() > 0 && wads.len() <= MAX_WADS
}

// These words in a list of their own.
pub(crate) fn copied<'a>(alloc: Global, words: &[&'a str]) -> Result<Vec<&'a str>, AllocError>
    ensures { IfOk result (λ v. v.items ≡ words.now) }
{
    let mut list = Vec::new(alloc);
    list.extend_from_slice(words)?;
    Ok(list)
}

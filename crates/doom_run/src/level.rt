// A job over a level: its scene is loaded, and then what the task says is done with it.
//
// Rules: specs, Jobs (the table) and Performs.
ghost use Rattle.std.specs.Prelude.{map};
ghost use Rattle.doom_run.specs.Rules.{AreSettings, level_job_value};
ghost use Rattle.doom_run.specs.Jobs.{delivery_of, job_over};
ghost use Rattle.doom_run.specs.Performs.{Performs};

use crate::audit::perform_audit;
use crate::form::ViewForm;
use crate::limits::CountLines;
use crate::lines::perform_lines;
use crate::render::perform_views;
use crate::trim::perform_trim;
use art_rules::{Shelf, Sink};
use frame_core::ViewList;
use job_files::Status;
use job_rules::{LevelJob, LevelTask};
use level_audit::load_scene;
use std::alloc::Global;

// A job over a level in these WADs.
pub fn perform_level<S: Shelf, K: Sink>(
    alloc: Global,
    task: LevelTask,
    level: &LevelJob<'_>,
    wads: &[&str],
    shelf: &mut S,
    out: &mut K,
) -> Status
    requires { AreSettings level.now.settings }
    ensures { Performs (job_over (level_job_value level.now) (map (λ wad. wad.now) wads.now)
        (delivery_of task (level_job_value level.now))) (S.view shelf.old) (S.view shelf.new)
        (K.written out.old) (K.written out.new) (K.faults out.old) (K.faults out.new) result }
{
    match load_scene(alloc, level, wads, shelf) {
        Ok(loaded) => match task {
            LevelTask::Render(format) => {
                perform_views(alloc, ViewForm::Frame(format), level, loaded, shelf, out)
            }
            LevelTask::Trace => perform_views(alloc, ViewForm::Trace, level, loaded, shelf, out),
            LevelTask::Audit => perform_audit(&loaded, out),
            LevelTask::Limits => perform_lines(alloc, &mut CountLines, level, loaded, out),
            LevelTask::List => match ViewList::new(alloc) {
                Ok(mut list) => perform_lines(alloc, &mut list, level, loaded, out),
                Err(_) => Status::OutOfMemory,
            },
            LevelTask::Trim => perform_trim(alloc, level, loaded, shelf, out),
        },
        Err(fault) => Status::of(fault),
    }
}

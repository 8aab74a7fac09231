// The lines that a job puts out about the views of a path, one view after the other.
//
// Rules: `specs/Views`.
ghost use Rattle.std.specs.Prelude.{◌<◌, ℕ, List, length};
ghost use Rattle.doom_run.specs.Rules.{AreSettings, Scene, ShelfView, level_job_value};
ghost use Rattle.frame_core.specs.Views.{CanCount};
ghost use Rattle.level_audit.specs.scene_load.Calls.{IsLoadedScene};
ghost use Rattle.doom_run.specs.Ends.{WritesDue};
ghost use Rattle.doom_run.specs.Jobs.{done, telling};
ghost use Rattle.doom_run.specs.Layers.{SeenView};
ghost use Rattle.doom_run.specs.Performs.{Delivers};
ghost use Rattle.doom_run.specs.Renders.{PutsLines, ready_views};
ghost use Rattle.doom_run.specs.Views.{lines_at, view_lines, views_of};

use crate::render::{ReadyViews, prepare_views, view_count};
use art_rules::{Failed, Sink};
use job_files::Status;
use job_rules::LevelJob;
use level_audit::LoadedScene;
use std::alloc::Global;

// What a job says of a view that is within its limits.
pub trait ViewLines {
    ghost lines: { Scene → ℕ → SeenView → List ℕ };

    // Appends the lines of view number `number`; a view over a limit has the line of that.
    fn put<K: Sink>(
        &mut self,
        ready: &mut ReadyViews,
        number: u32,
        out: &mut K,
    ) -> Result<(), Failed>
        requires number { number < length ready.old.loaded.files.path }
        requires scene { CanCount ready.old.loaded.scene.scene }
        ensures { PutsLines (λ r. lines_at lines r number) ready.old ready.new (K.written out.old)
            (K.written out.new) (K.faults out.old) (K.faults out.new) result };
}

// Writes the lines of each view; after a view over a limit comes the next. Takes no memory.
fn put_views<L: ViewLines, K: Sink>(lines: &mut L, ready: &mut ReadyViews, out: &mut K) -> Status
    requires { CanCount ready.old.loaded.scene.scene }
    ensures { (bytes : ℕ → List ℕ) → WritesDue (done (view_lines L.lines
        (ready_views bytes ready.old)))
        (K.written out.old) (K.written out.new) (K.faults out.old) (K.faults out.new) result }
{
    let count = view_count(&ready.loaded.files.path);
    for number in 0..count {
        match lines.put(ready, number, out) {
            Ok(()) => {}
            Err(_) => return Status::WriteFault,
        }
    }
    Status::Done
}

// A job that puts out lines about each view of a level that is loaded.
pub fn perform_lines<L: ViewLines, K: Sink>(
    alloc: Global,
    lines: &mut L,
    level: &LevelJob<'_>,
    loaded: LoadedScene,
    out: &mut K,
) -> Status
    requires settings { AreSettings level.now.settings }
    requires loaded { IsLoadedScene (level_job_value level.now) loaded }
    ensures { (view : ShelfView) → Delivers (level_job_value level.now)
        (telling (λ bytes loaded. done (view_lines L.lines
        (views_of bytes (level_job_value level.now).settings loaded)))) view view loaded
        (K.written out.old) (K.written out.new) (K.faults out.old) (K.faults out.new) result }
{
    match prepare_views(alloc, &level.settings, loaded) {
        Ok(mut ready) => put_views(lines, &mut ready, out),
        Err(_) => Status::OutOfMemory,
    }
}

// The job `trim`: one WAD that holds only what the frames of a level need.
//
// Rules: `specs/Trims`; `trim_rules`, Parts and Files.
ghost use Rattle.doom_run.specs.Rules.{Trim, level_job_value};
ghost use Rattle.doom_run.specs.Jobs.{delivery_of};
ghost use Rattle.doom_run.specs.Performs.{Delivers};
ghost use Rattle.doom_run.specs.Trims.{IsPlanFault, plan_in, status_of_written};
ghost use Rattle.level_audit.specs.scene_load.Calls.{IsLoadedScene};
ghost use Rattle.level_audit.specs.scene_load.Loads.{loaded_value};
ghost use Rattle.std.specs.Prelude.{◌≡◌, length, All, Ok, IfErr, IfOk};
ghost use Rattle.wad_trim.specs.Plans.{FitsFile};
ghost use Rattle.wad_trim.specs.Writes.{IsPartThere};

use art_rules::{Fault, Shelf, Sink};
use job_files::{LoadFault, Status};
use job_rules::LevelJob;
use level_audit::LoadedScene;
use refusals::Refusal;
use std::alloc::Global;
use wad_trim::{TrimFault, TrimPlan, TrimWrite};

// The parts of the trimmed file of a loaded level, with the faults of loading.
fn plan_of(alloc: Global, level: &LevelJob<'_>, loaded: &LoadedScene) -> Result<TrimPlan, LoadFault>
    ensures plan { IfOk result (λ plan.
        plan_in (level_job_value level.now) (loaded_value loaded.now) ≡ Ok plan) }
    ensures fault { IfErr result
        (IsPlanFault (plan_in (level_job_value level.now) (loaded_value loaded.now))) }
    ensures there { IfOk result (All (IsPartThere (length loaded.now.files.dir.lumps))) }
    ensures file { IfOk result (FitsFile loaded.now.files.dir.lumps) }
{
    let weapons = loaded.weapons.as_ref();
    match TrimPlan::new(alloc, &loaded.scene, weapons, &loaded.files.dir, &level.map) {
        Ok(plan) => Ok(plan),
        Err(TrimFault::Refused(refusal)) => Err(Fault::Refused(Refusal::Trim(refusal))),
        Err(TrimFault::OutOfMemory) => Err(Fault::OutOfMemory),
    }
}

// The status of what writing came to.
fn status_of_written(written: Result<(), TrimWrite>) -> Status
    ensures { result ≡ status_of_written written }
{
    match written {
        Ok(()) => Status::Done,
        Err(TrimWrite::ReadFault) => Status::ReadFault,
        Err(TrimWrite::WriteFault) => Status::WriteFault,
        Err(TrimWrite::ZoneFull { wanted, widest }) => Status::ZoneFull { wanted, widest },
    }
}

// The job `trim` over a level that is loaded: each lump is written as it is read.
pub fn perform_trim<S: Shelf, K: Sink>(
    alloc: Global,
    level: &LevelJob<'_>,
    loaded: LoadedScene,
    shelf: &mut S,
    out: &mut K,
) -> Status
    requires { IsLoadedScene (level_job_value level.now) loaded }
    ensures { Delivers (level_job_value level.now) (delivery_of Trim (level_job_value level.now))
        (S.view shelf.old) (S.view shelf.new) loaded
        (K.written out.old) (K.written out.new) (K.faults out.old) (K.faults out.new) result }
{
    let mut loaded = loaded;
    match plan_of(alloc, level, &loaded) {
        Ok(plan) => {
            status_of_written(plan.write(&loaded.files.dir, &mut loaded.cache, shelf, out))
        }
        Err(fault) => Status::of(fault),
    }
}

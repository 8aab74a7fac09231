// The job `audit`: how large a zone has to be for a level that is accepted.
ghost use Rattle.doom_run.specs.Rules.{Audit, LevelJobValue, ShelfView, Writes};
ghost use Rattle.level_audit.specs.scene_load.Calls.{IsLoadedScene};
ghost use Rattle.job_files.specs.Lines.{pair_line};
ghost use Rattle.std.specs.Prelude.{codes};
ghost use Rattle.doom_run.specs.Ends.{WritesDue};
ghost use Rattle.doom_run.specs.Jobs.{audited, delivery_of};
ghost use Rattle.doom_run.specs.Performs.{Delivers};

use art_rules::{Failed, Sink};
use job_files::Status;
use level_audit::LoadedScene;
use refusals::Line;
use scene_rules::ZoneSizes;

// Appends the line of an accepted level.
fn put_sizes<K: Sink>(out: &mut K, sizes: ZoneSizes) -> Result<(), Failed>
    ensures { Writes (K.written out.old) (K.written out.new) (K.faults out.old)
        (K.faults out.new) (pair_line (codes "accepted enough ") sizes.enough
        (codes " roomy ") sizes.roomy) result }
{
    let mut line = Line::new();
    line.add_number(b"accepted enough ", sizes.enough);
    line.add_number(b" roomy ", sizes.roomy);
    line.add(b"\n");
    line.put(out)
}

// Writes the line of an accepted level. Takes no memory.
fn deliver_audit<K: Sink>(sizes: ZoneSizes, out: &mut K) -> Status
    ensures { WritesDue (audited sizes) (K.written out.old) (K.written out.new)
        (K.faults out.old) (K.faults out.new) result }
{
    match put_sizes(out, sizes) {
        Ok(()) => Status::Done,
        Err(_) => Status::WriteFault,
    }
}

// The job `audit` over a level that is loaded.
pub fn perform_audit<K: Sink>(loaded: &LoadedScene, out: &mut K) -> Status
    ensures { (level : LevelJobValue) (view : ShelfView) → IsLoadedScene level loaded.now →
        Delivers level (delivery_of Audit level) view view loaded.now
        (K.written out.old) (K.written out.new) (K.faults out.old) (K.faults out.new) result }
{
    deliver_audit(loaded.scene.sizes(), out)
}

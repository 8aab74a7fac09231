// The job `limits`: the counts of the views of a path.
ghost use Rattle.doom_run.specs.Rules.{Writes};
ghost use Rattle.doom_run.specs.Views.{counts_line, over_line, view_line};

use crate::lines::ViewLines;
use crate::render::{ReadyViews, eye_at};
use art_rules::{Failed, Sink};
use frame_core::{Counts, OverLimit, count_view};
use job_files::limit_label;
use refusals::Line;

// Appends the line of a view's counts.
fn put_counts<K: Sink>(out: &mut K, view: u64, counts: &Counts) -> Result<(), Failed>
    ensures { Writes (K.written out.old) (K.written out.new) (K.faults out.old)
        (K.faults out.new) (counts_line view counts.now) result }
{
    let mut line = Line::new();
    line.add_number(b"view ", view);
    line.add_number(b" planes ", counts.planes as u64);
    line.add_number(b" openings ", counts.openings as u64);
    line.add_number(b" fragments ", counts.fragments as u64);
    line.add_number(b" sprites ", counts.sprites as u64);
    line.add(b"\n");
    line.put(out)
}

// Appends the line of a view that is over a limit.
pub(crate) fn put_over<K: Sink>(out: &mut K, view: u64, over: &OverLimit) -> Result<(), Failed>
    ensures { Writes (K.written out.old) (K.written out.new) (K.faults out.old)
        (K.faults out.new) (over_line view over.now) result }
{
    let mut line = Line::new();
    line.add_number(b"view ", view);
    line.add(b" over");
    line.add_number(limit_label(over.kind), over.count as u64);
    line.add(b"\n");
    line.put(out)
}

// The line of a view's counts.
#[derive(Drop)]
pub struct CountLines;

impl ViewLines for CountLines {
    ghost lines = { view_line };

    fn put<K: Sink>(
        &mut self,
        ready: &mut ReadyViews,
        number: u32,
        out: &mut K,
    ) -> Result<(), Failed> {
        let loaded = &ready.loaded;
        let eye = eye_at(&loaded.files.path, number);
        match count_view(&loaded.scene, &loaded.files.tables, &mut ready.shop, eye) {
            Ok(counts) => put_counts(out, number as u64, &counts),
            Err(over) => put_over(out, number as u64, &over),
        }
    }
}

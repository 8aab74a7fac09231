// The job `list`: what each view of a path is made of, item by item.
//
// Rules: `specs/Lists`. This project's own.
ghost use Rattle.std.specs.Prelude.{◌≡◌, ◌+◌, ◌++◌, ◌≤◌, ℕ, List, length};
ghost use Rattle.doom_run.specs.Rules.{Writes};
ghost use Rattle.refusals.specs.declared.line.TheConstants.{LINE_ROOM};
ghost use Rattle.doom_run.specs.Lists.{flat_part, fragment_line, item_start, items_lines, lines_from, list_lines, maker_part, plane_line, sprite_line, sums_line};

use crate::limits::put_over;
use crate::lines::ViewLines;
use crate::render::{ReadyViews, eye_at};
use art_rules::{Failed, Sink};
use frame_core::{Counts, ViewList, list_view};
use picture_rules::{Flat4, ListedFragment, ListedPlane, ListedSprite, PlaneMaker};
use refusals::Line;

// A line that begins with item number `number` of a view.
fn start_item(view: u64, label: &[u8], number: u64) -> Line
    requires { length label.now ≤ 10 }
    ensures text { result ≡ item_start label.now view number }
    ensures length { length result ≤ 55 }
{
    let mut line = Line::new();
    line.add_number(b"view ", view);
    line.add_number(label, number);
    line
}

// Appends the flat of a plane.
fn add_flat(line: &mut Line, flat: Flat4)
    requires room { length line.old + 26 ≤ LINE_ROOM }
    ensures text { line.new ≡ line.old ++ flat_part flat }
    ensures length { length line.new ≤ length line.old + 26 }
{
    match flat {
        Flat4::Sky => line.add(b" flat sky"),
        Flat4::Lump(lump) => line.add_number(b" flat ", lump as u64),
    }
}

// Appends what made a plane.
fn add_maker(line: &mut Line, maker: PlaneMaker)
    requires room { length line.old + 30 ≤ LINE_ROOM }
    ensures text { line.new ≡ line.old ++ maker_part maker }
    ensures length { length line.new ≤ length line.old + 30 }
{
    match maker {
        PlaneMaker::Leaf(leaf) => line.add_number(b" leaf ", leaf as u64),
        PlaneMaker::Fragment(fragment) => line.add_number(b" fragment ", fragment as u64),
    }
}

// An item of a view, which has a line.
trait Listed {
    ghost line_of: { ℕ → ℕ → Self → List ℕ };

    // Appends the line of item number `number` of its kind.
    fn put<K: Sink>(&self, out: &mut K, view: u64, number: u64) -> Result<(), Failed>
        ensures { Writes (K.written out.old) (K.written out.new) (K.faults out.old)
            (K.faults out.new) (line_of view number self.now) result };
}

// A drawn fragment.
impl Listed for ListedFragment {
    ghost line_of = { fragment_line };

    fn put<K: Sink>(&self, out: &mut K, view: u64, number: u64) -> Result<(), Failed> {
        let mut line = start_item(view, b" fragment ", number);
        line.add_number(b" seg ", self.seg as u64);
        line.add_number(b" first ", self.first as u64);
        line.add_number(b" last ", self.last as u64);
        line.add(b"\n");
        line.put(out)
    }
}

// A plane.
impl Listed for ListedPlane {
    ghost line_of = { plane_line };

    fn put<K: Sink>(&self, out: &mut K, view: u64, number: u64) -> Result<(), Failed> {
        let mut line = start_item(view, b" plane ", number);
        line.add_signed(b" height ", self.key.height);
        add_flat(&mut line, self.key.flat);
        line.add_signed(b" light ", self.key.light as i32);
        add_maker(&mut line, self.maker);
        line.add_number(b" columns ", self.columns as u64);
        line.add(b"\n");
        line.put(out)
    }
}

// A vissprite.
impl Listed for ListedSprite {
    ghost line_of = { sprite_line };

    fn put<K: Sink>(&self, out: &mut K, view: u64, number: u64) -> Result<(), Failed> {
        let mut line = start_item(view, b" sprite ", number);
        line.add_number(b" thing ", self.thing as u64);
        line.add_number(b" lump ", self.lump as u64);
        line.add_number(b" first ", self.first as u64);
        line.add_number(b" last ", self.last as u64);
        line.add(b"\n");
        line.put(out)
    }
}

// Appends the line of a view's sums.
fn put_sums<K: Sink>(out: &mut K, view: u64, counts: &Counts, list: &ViewList) -> Result<(), Failed>
    ensures { Writes (K.written out.old) (K.written out.new) (K.faults out.old)
        (K.faults out.new) (sums_line view counts.now list.now) result }
{
    let mut line = Line::new();
    line.add_number(b"view ", view);
    line.add_number(b" fragments ", counts.fragments as u64);
    line.add_number(b" of ", list.all_fragments());
    line.add_number(b" planes ", counts.planes as u64);
    line.add_number(b" openings ", counts.openings as u64);
    line.add_number(b" sprites ", counts.sprites as u64);
    line.add_number(b" of ", list.all_sprites());
    line.add(b"\n");
    line.put(out)
}

// Appends the lines of the items of one kind of a view.
fn put_each<K: Sink, T: Listed>(out: &mut K, view: u64, items: &[T]) -> Result<(), Failed>
    ensures { Writes (K.written out.old) (K.written out.new) (K.faults out.old)
        (K.faults out.new) (lines_from (T.line_of view) 0 items.now) result }
{
    for number in 0..items.len() {
        items[number].put(out, view, number as u64)?;
    }
    Ok(())
}

// Appends the lines of all items of a view, and that of its sums.
fn put_items<K: Sink>(
    out: &mut K,
    view: u64,
    counts: &Counts,
    list: &ViewList,
) -> Result<(), Failed>
    ensures { Writes (K.written out.old) (K.written out.new) (K.faults out.old)
        (K.faults out.new) (items_lines view counts.now list.now) result }
{
    put_each(out, view, list.fragments())?;
    put_each(out, view, list.planes())?;
    put_each(out, view, list.sprites())?;
    put_sums(out, view, counts, list)
}

impl ViewLines for ViewList {
    ghost lines = { list_lines };

    fn put<K: Sink>(
        &mut self,
        ready: &mut ReadyViews,
        number: u32,
        out: &mut K,
    ) -> Result<(), Failed> {
        let (scene, tables) = (&ready.loaded.scene, &ready.loaded.files.tables);
        let eye = eye_at(&ready.loaded.files.path, number);
        match list_view(scene, tables, &mut ready.shop, self, eye) {
            Ok(counts) => put_items(out, number as u64, &counts, self),
            Err(over) => put_over(out, number as u64, &over),
        }
    }
}

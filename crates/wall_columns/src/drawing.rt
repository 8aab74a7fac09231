// The columns of a fragment, drawn from left to right: this crate's Columns and Strips.
ghost use Rattle.std.specs.Prelude.{◌≡◌, OnOk};
ghost use Rattle.receiver_rules.specs.Receivers.{Receives, TakesEach};
ghost use Rattle.wall_columns.specs.Windows.{window_at};
ghost use Rattle.wall_columns.specs.Columns.{columns_of, AreLeafPlanes, HasMarked};
ghost use Rattle.wall_columns.specs.Strips.{CanShow, fragment_strips};

use crate::clips::{has_part, has_texture};
use crate::column_state::ColumnState;
use crate::paint::paint_plan;
use brush::Brush;
use picture_rules::FragmentNumbers;
use view_frame::View;
use visplanes::Planes;
use wall_edges::{Fragment, Stepper};

impl ColumnState {
    /// Marks the columns of fragment `number` from left to right, and asks a brush for its strips.
    /// One without a texture has none.
    pub fn draw_columns<B: Brush>(
        &mut self,
        view: &View<'_>,
        planes: &mut Planes,
        brush: &mut B,
        number: u16,
        fragment: &Fragment,
        numbers: &FragmentNumbers,
    ) -> Result<(), B::Stop>
        requires numbers { numbers.now ≡ fragment.now.numbers }
        requires height { self.old.windows.height ≡ view.now.shape.height }
        requires show { CanShow view.now fragment.now }
        requires leaf { AreLeafPlanes planes.old.planes self.old }
        requires takes { TakesEach B.takes brush.old (fragment_strips view.now number fragment.now
            (window_at self.old.windows)) }
        ensures marked { OnOk result (HasMarked fragment.now (columns_of fragment.now) self.old
            self.new planes.old planes.new) }
        ensures asks { Receives B.takes B.stands B.stopped brush.old brush.new
            (fragment_strips view.now number fragment.now (window_at self.old.windows)) result }
        ensures openings { self.new.openings ≡ self.old.openings }
        ensures height { self.new.windows.height ≡ self.old.windows.height }
        ensures planes_room { planes.new.room ≡ planes.old.room }
    {
        // Copied: behind each write to a cell they would be read again.
        let numbers = *numbers;
        if !has_part(&numbers) {
            self.count_columns(planes, fragment, &numbers);
            return Ok(());
        }
        // A loop for each kind of fragment, without what the kind has not.
        if has_texture(numbers.middle_part) {
            return self.draw_each(view, planes, brush, number, fragment, &numbers);
        }
        if !has_texture(numbers.bottom_part) {
            return self.draw_each(view, planes, brush, number, fragment, &numbers);
        }
        if !has_texture(numbers.top_part) {
            return self.draw_each(view, planes, brush, number, fragment, &numbers);
        }
        self.draw_each(view, planes, brush, number, fragment, &numbers)
    }

    // Marks the columns of fragment `number` from left to right, and asks for its strips. Inlined,
    // so that each call is a loop of its own.
    #[inline(always)]
    fn draw_each<B: Brush>(
        &mut self,
        view: &View<'_>,
        planes: &mut Planes,
        brush: &mut B,
        number: u16,
        fragment: &Fragment,
        numbers: &FragmentNumbers,
    ) -> Result<(), B::Stop>
        requires numbers { numbers.now ≡ fragment.now.numbers }
        requires height { self.old.windows.height ≡ view.now.shape.height }
        requires show { CanShow view.now fragment.now }
        requires leaf { AreLeafPlanes planes.old.planes self.old }
        requires takes { TakesEach B.takes brush.old (fragment_strips view.now number fragment.now
            (window_at self.old.windows)) }
        ensures marked { OnOk result (HasMarked fragment.now (columns_of fragment.now) self.old
            self.new planes.old planes.new) }
        ensures asks { Receives B.takes B.stands B.stopped brush.old brush.new
            (fragment_strips view.now number fragment.now (window_at self.old.windows)) result }
        ensures openings { self.new.openings ≡ self.old.openings }
        ensures height { self.new.windows.height ≡ self.old.windows.height }
        ensures planes_room { planes.new.room ≡ planes.old.room }
    {
        let marked = self.marked_planes(numbers);
        let mut stepper = Stepper::new(fragment);
        while let Some(edges) = stepper.next() {
            let x = stepper.x - 1;
            let plan = self.pass_column(planes, numbers, marked, x, &edges);
            paint_plan(view, brush, fragment, numbers, number, x, &edges, &plan)?;
        }
        Ok(())
    }
}

// What a fragment is drawn among: the windows, the openings, and the planes of the leaf.
//
// Rules: this crate's Columns, Leaves and Saved.
ghost use Rattle.std.specs.Prelude.{◌≡◌, ◌≢◌, ◌<◌, ◌≤◌, ◌+◌, ◌-◌, ℕ, [], None, Some, IfOk, IfErr, OnOk, length};
ghost use Rattle.wall_columns.specs.Rules.{FRAME_HEIGHT, FRAME_WIDTH, MOST_OPENINGS, PlanesNow, ceiling_found, ceiling_rows, floor_found, floor_rows, marked_rows, open_clip, set_run};
ghost use Rattle.visplanes.specs.Planes.{with_planes};
ghost use Rattle.picture_rules.specs.declared.LimitKind.{LimitKind};
ghost use Rattle.wall_columns.specs.Faults.{over_of};
ghost use Rattle.wall_columns.specs.Windows.{window_at, with_window, IsClipIn};
ghost use Rattle.wall_columns.specs.Plans.{plan_of, AreEdgeWords};
ghost use Rattle.wall_columns.specs.Places.{places_of};
ghost use Rattle.wall_columns.specs.Columns.{marked_planes, plane_number, columns_of, AreLeafPlanes, HasMarked, HasSaved, HasTaken, ArePlacesIn};
ghost use Rattle.wall_columns.specs.Leaves.{now_of, both_checks, openings_over, leaf_over, checks_over};

use crate::clips::{ColumnPlan, column_plan};
use crate::columns::{MarkedPlanes, mark_rows, marked_plane};
use crate::leaf::{LeafPlanes, check_plane, find_plane};
use crate::notes::{SavePlaces, save_places};
use crate::openings::Openings;
use crate::windows::Windows;
use picture_rules::{Edges, FragmentNumbers, OverLimit};
use std::alloc::{AllocError, Global};
use view_frame::View;
use visplanes::{PlaneNo, Planes};
use wall_edges::{Fragment, Stepper};

/// What a fragment is drawn among: what is open of each column, the openings that are saved, and
/// the planes of the leaf that is entered.
#[derive(Drop)]
pub struct ColumnState {
    pub windows: Windows,
    pub openings: Openings,
    pub floor: Option<PlaneNo>,
    pub ceiling: Option<PlaneNo>,
}

impl ColumnState {
    /// No opening, no leaf, and room for `room` openings. Takes all the memory.
    pub fn new(alloc: Global, room: u32) -> Result<ColumnState, AllocError>
        requires { room ≤ MOST_OPENINGS }
        ensures openings { IfOk result (λ state.
            state.openings ≡ record { saved = []; room = room }) }
        ensures floor { IfOk result (λ state. state.floor ≡ None) }
        ensures ceiling { IfOk result (λ state. state.ceiling ≡ None) }
    {
        Ok(ColumnState {
            windows: Windows::new(),
            openings: Openings::new(alloc, room)?,
            floor: None,
            ceiling: None,
        })
    }

    /// Opens each column of a view of `height` rows, and leaves no opening and no leaf.
    pub fn start(&mut self, height: u16)
        requires { height ≤ FRAME_HEIGHT }
        ensures height { self.new.windows.height ≡ height }
        ensures windows { (x : ℕ) → x < FRAME_WIDTH →
            window_at self.new.windows x ≡ open_clip height }
        ensures openings { self.new.openings ≡ record self.old.openings { saved = [] } }
        ensures floor { self.new.floor ≡ None }
        ensures ceiling { self.new.ceiling ≡ None }
    {
        self.windows.open(height);
        self.openings.clear();
        self.floor = None;
        self.ceiling = None;
    }

    /// Finds the planes of a leaf, first its floor's.
    ///
    /// Errors: the count of planes, exactly where one of the two is a new plane past the room.
    pub fn enter(&mut self, planes: &mut Planes, leaf: LeafPlanes) -> Result<(), OverLimit>
        ensures ok { (s : PlanesNow) → s ≡ now_of self.old planes.old →
            OnOk result (now_of self.new planes.new
            ≡ ceiling_found leaf.ceiling (floor_found leaf.floor s)) }
        ensures limit { (s : PlanesNow) → s ≡ now_of self.old planes.old →
            over_of result ≡ leaf_over planes.old.room s leaf.floor leaf.ceiling }
        ensures kind { IfErr result (λ over. over.kind ≡ LimitKind.Planes) }
        ensures leaf { OnOk result (AreLeafPlanes planes.new.planes self.new) }
        ensures windows { self.new.windows ≡ self.old.windows }
        ensures openings { self.new.openings ≡ self.old.openings }
        ensures room { planes.new.room ≡ planes.old.room }
    {
        self.floor = find_plane(planes, leaf.floor)?;
        self.ceiling = find_plane(planes, leaf.ceiling)?;
        Ok(())
    }

    /// Takes the openings of a fragment's lists.
    ///
    /// Errors: the count of openings, exactly where they pass the room.
    pub fn take_openings(
        &mut self,
        numbers: &FragmentNumbers,
        first: u16,
        last: u16,
    ) -> Result<SavePlaces, OverLimit>
        requires { first ≤ last }
        ensures taken { IfOk result
            (HasTaken numbers.now (last + 1 - first) self.old.openings self.new.openings) }
        ensures limit { over_of result ≡ openings_over self.old.openings.room
            (places_of numbers.now (length self.old.openings.saved) (last + 1 - first)).end None }
        ensures room { self.new.openings.room ≡ self.old.openings.room }
        ensures windows { self.new.windows ≡ self.old.windows }
        ensures floor { self.new.floor ≡ self.old.floor }
        ensures ceiling { self.new.ceiling ≡ self.old.ceiling }
    {
        let columns = last as u32 + 1 - first as u32;
        let places = save_places(numbers, self.openings.count(), columns);
        self.openings.extend(places.end)?;
        Ok(places)
    }

    /// Checks the planes of the leaf that the fragment marks, first the ceiling's.
    ///
    /// Errors: the count of planes, exactly where a check makes a new plane past the room.
    pub fn check_planes(
        &mut self,
        planes: &mut Planes,
        numbers: &FragmentNumbers,
        first: u16,
        last: u16,
    ) -> Result<(), OverLimit>
        requires ordered { first ≤ last }
        requires within { last < FRAME_WIDTH }
        requires leaf { AreLeafPlanes planes.old.planes self.old }
        ensures ok { (s : PlanesNow) → s ≡ now_of self.old planes.old →
            OnOk result (now_of self.new planes.new ≡ both_checks numbers.now first last s) }
        ensures limit { (s : PlanesNow) → s ≡ now_of self.old planes.old →
            over_of result ≡ checks_over planes.old.room numbers.now first last s }
        ensures leaf { OnOk result (AreLeafPlanes planes.new.planes self.new) }
        ensures windows { self.new.windows ≡ self.old.windows }
        ensures openings { self.new.openings ≡ self.old.openings }
        ensures room { planes.new.room ≡ planes.old.room }
    {
        self.ceiling = check_plane(planes, self.ceiling, numbers.ceiling_mark, first, last)?;
        self.floor = check_plane(planes, self.floor, numbers.floor_mark, first, last)?;
        Ok(())
    }

    /// Takes the openings of a fragment's lists, and then checks the planes of the leaf.
    ///
    /// Errors: that of the openings, and else that of the planes.
    pub fn begin(
        &mut self,
        planes: &mut Planes,
        numbers: &FragmentNumbers,
        first: u16,
        last: u16,
    ) -> Result<SavePlaces, OverLimit>
        requires ordered { first ≤ last }
        requires within { last < FRAME_WIDTH }
        requires leaf { AreLeafPlanes planes.old.planes self.old }
        ensures ok { (s : PlanesNow) → s ≡ now_of self.old planes.old →
            OnOk result (now_of self.new planes.new ≡ both_checks numbers.now first last s) }
        ensures taken { IfOk result
            (HasTaken numbers.now (last + 1 - first) self.old.openings self.new.openings) }
        ensures limit { (s : PlanesNow) → s ≡ now_of self.old planes.old →
            over_of result ≡ openings_over self.old.openings.room
            (places_of numbers.now (length self.old.openings.saved) (last + 1 - first)).end
            (checks_over planes.old.room numbers.now first last s) }
        ensures leaf { OnOk result (AreLeafPlanes planes.new.planes self.new) }
        ensures windows { self.new.windows ≡ self.old.windows }
        ensures openings_room { self.new.openings.room ≡ self.old.openings.room }
        ensures room { planes.new.room ≡ planes.old.room }
    {
        let places = self.take_openings(numbers, first, last)?;
        self.check_planes(planes, numbers, first, last)?;
        Ok(places)
    }

    /// The planes of the leaf that a fragment marks.
    pub fn marked_planes(&self, numbers: &FragmentNumbers) -> MarkedPlanes
        ensures { result ≡ marked_planes numbers.now self.now.ceiling self.now.floor }
    {
        MarkedPlanes {
            ceiling: marked_plane(numbers.ceiling_mark, self.ceiling),
            floor: marked_plane(numbers.floor_mark, self.floor),
        }
    }

    /// Marks the planes in a column of a fragment, and narrows its window.
    #[inline(always)]
    #[tactic(auto, using(crate::proofs::ClipLemmas::column_rows), unfolding(crate::specs::Plans::plan_of))]
    pub fn pass_column(
        &mut self,
        planes: &mut Planes,
        numbers: &FragmentNumbers,
        marked: MarkedPlanes,
        x: u16,
        edges: &Edges,
    ) -> ColumnPlan
        requires marked { marked ≡ marked_planes numbers.now self.old.ceiling self.old.floor }
        requires column { x < FRAME_WIDTH }
        requires edges { AreEdgeWords edges.now }
        requires leaf { AreLeafPlanes planes.old.planes self.old }
        ensures plan { result ≡ plan_of self.old.windows.height numbers.now
            (window_at self.old.windows x) edges.now }
        ensures rows { IsClipIn self.old.windows.height (window_at self.old.windows x) }
        ensures most { self.old.windows.height ≤ FRAME_HEIGHT }
        ensures windows { self.new.windows ≡ with_window self.old.windows x result.after }
        ensures own { window_at self.new.windows x ≡ result.after }
        ensures other { (y : ℕ) → y ≢ x →
            window_at self.new.windows y ≡ window_at self.old.windows y }
        ensures planes { planes.new ≡ with_planes (set_run (set_run planes.old.planes
            (plane_number self.old.ceiling) x (marked_rows numbers.now.ceiling_mark
            (ceiling_rows (window_at self.old.windows x) edges.now)))
            (plane_number self.old.floor) x (marked_rows numbers.now.floor_mark
            (floor_rows (window_at self.old.windows x) edges.now))) planes.old }
        ensures count { length planes.new.planes ≡ length planes.old.planes }
        ensures openings { self.new.openings ≡ self.old.openings }
        ensures same_floor { self.new.floor ≡ self.old.floor }
        ensures same_ceiling { self.new.ceiling ≡ self.old.ceiling }
    {
        let clip = self.windows.clip(x);
        let plan = column_plan(self.windows.height(), numbers, clip, edges);
        mark_rows(planes, marked.ceiling, x, plan.ceiling);
        mark_rows(planes, marked.floor, x, plan.floor);
        self.windows.narrow(x, plan.after);
        plan
    }

    /// Marks the columns of a fragment, from left to right.
    #[inline(always)]
    pub fn count_columns(
        &mut self,
        planes: &mut Planes,
        fragment: &Fragment,
        numbers: &FragmentNumbers,
    )
        requires numbers { numbers.now ≡ fragment.now.numbers }
        requires leaf { AreLeafPlanes planes.old.planes self.old }
        ensures marked { HasMarked fragment.now (columns_of fragment.now) self.old self.new
            planes.old planes.new }
        ensures openings { self.new.openings ≡ self.old.openings }
    {
        let marked = self.marked_planes(numbers);
        let mut stepper = Stepper::new(fragment);
        while let Some(edges) = stepper.next() {
            let x = stepper.x - 1;
            self.pass_column(planes, numbers, marked, x, &edges);
        }
    }

    /// Saves the lists of a fragment whose columns `first` to `last` are marked: its texture columns,
    /// and the clips that it left there.
    ///
    /// The original: `maskedtexturecol` in `R_RenderSegLoop`, and the copies at the end of
    /// `R_StoreWallRange`, r_segs.c.
    pub fn save_columns(
        &mut self,
        view: &View<'_>,
        fragment: &Fragment,
        first: u16,
        last: u16,
        places: SavePlaces,
    )
        requires ordered { first ≤ last }
        requires within { last < FRAME_WIDTH }
        requires seen { last < view.now.shape.width }
        requires places { ArePlacesIn (last + 1 - first) (length self.old.openings.saved) places }
        ensures saved { HasSaved view.now fragment.now first last places self.old self.new }
    {
        self.openings
            .save_columns(places.masked, view, fragment, first, last);
        let ceilings = self.windows.ceilings(first, last);
        self.openings.save_clips(places.top, ceilings);
        let floors = self.windows.floors(first, last);
        self.openings.save_clips(places.bottom, floors);
    }
}

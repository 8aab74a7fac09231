// The walls of a view as far as they are drawn.
//
// Rules: `specs/Walls`, `specs/Built`. The original: r_segs.c, and `R_Subsector` of r_bsp.c.
ghost use Rattle.std.specs.Prelude.{◌≡◌, ◌<◌, ◌≤◌, ◌+◌, ◌↔◌, ℕ, [], List, None, Ok, IfOk, IfErr, OnOk, IsTrue, length};
ghost use Rattle.wall_columns.specs.Rules.{AreNoted, FRAME_HEIGHT, FRAME_WIDTH, IsAmongPlanes, MAX_DRAWSEGS, MOST_OPENINGS, PlanesNow, ViewValue, Wall, after_event, no_planes, wall_of};
ghost use Rattle.picture_rules.specs.declared.LimitKind.{LimitKind};
ghost use Rattle.texture_build.specs.Draws.{CanDraw};
ghost use Rattle.texture_build.specs.Paints.{Paints};
ghost use Rattle.wall_columns.specs.Walls.{WallsView};
ghost use Rattle.wall_columns.specs.Built.{AreBehind, IsBuilt, with_wall, step_of_wall, step_of_leaf, limits_of, step_over};
ghost use Rattle.receiver_rules.specs.Receivers.{TakesEach};
ghost use Rattle.wall_columns.specs.Faults.{draw_fault, limit_of_result, over_of, over_of_stop, IsPlanesFault, IsLimitFault, ReceivesUnlessOver};
ghost use Rattle.pixel_strips.specs.Standing.{StandsInFrame};
ghost use Rattle.wall_columns.specs.Draws.{IsNoPicture, IsPast, IsSeenOf, IsUntouched, IsWallTexture};
ghost use Rattle.wall_columns.specs.Strips.{AreOpenIn, range_strips};
ghost use Rattle.wall_columns.specs.Noted.{HaveBacks};
ghost use Rattle.wall_columns.specs.Tools.{AreSameWallTools, range_dots, wall_state, wall_tools};

use crate::column_state::ColumnState;
use crate::fault::{DrawFault, WallStop};
use crate::leaf::LeafPlanes;
use crate::notes::note_of;
use crate::tools::WallTools;
use art_rules::Shelf;
use brush::{Brush, DryBrush, LiveBrush};
use picture_rules::{FragmentNote, MAX_DRAWSEGS, OverLimit, WallFacts};
use pixel_strips::Canvas;
use std::alloc::{AllocError, Global};
use std::marker::Model;
use texture_build::TextureArt;
use view_frame::View;
use visplanes::Planes;
use wall_edges::Fragment;

/// The walls of a view as far as they are drawn: the notes of the drawn fragments, the openings
/// that they saved, the clips of each column, and the planes of the leaf that is entered. Contracts
/// see `WallsView`.
///
/// The original: `drawsegs`, `openings`, `ceilingclip`, `floorclip`, `floorplane` and
/// `ceilingplane`, r_bsp.c and r_plane.c.
pub struct WallState {
    notes: Vec<FragmentNote>,
    columns: ColumnState,
}

// By hand, so that a drop of one is one call.
impl Drop for WallState {
    fn drop(self) {
        let WallState {
            notes: _,
            columns: _,
        } = self;
    }
}

impl Model for WallState {
    ghost use Rattle.std.specs.Prelude.{◌≤◌, length, vec_capacity};
    ghost use Rattle.picture_rules.specs.Words.{MAX_DRAWSEGS};
    ghost use Rattle.wall_columns.specs.Walls.{WallsView};
    ghost use Rattle.wall_columns.specs.States.{walls_view};

    ghost Value = { WallsView };

    ghost view = { λ w. walls_view w.notes.items w.columns };

    ghost invariant = { λ w. (length w.notes.items ≤ MAX_DRAWSEGS)
        × (MAX_DRAWSEGS ≤ vec_capacity w.notes) };
}

impl WallState {
    /// No fragment, and room for `room` openings, at most 245760. Takes all the memory of the
    /// walls.
    ///
    /// Errors: `AllocError`, out of memory.
    ///
    /// The original: the arrays of r_bsp.c and r_plane.c. This project's own: the room.
    pub fn new(alloc: Global, room: u32) -> Result<WallState, AllocError>
        requires { room ≤ MOST_OPENINGS }
        ensures notes { IfOk result (λ walls. walls.notes ≡ []) }
        ensures openings { IfOk result (λ walls. walls.openings ≡ []) }
        ensures room { IfOk result (λ walls. walls.room ≡ room) }
        ensures floor { IfOk result (λ walls. walls.floor ≡ None) }
        ensures ceiling { IfOk result (λ walls. walls.ceiling ≡ None) }
    {
        Ok(WallState {
            notes: Vec::with_capacity(alloc, MAX_DRAWSEGS as usize)?,
            columns: ColumnState::new(alloc, room)?,
        })
    }

    /// Leaves no fragment and no leaf: each column of a view of `height` rows is open.
    ///
    /// The original: `R_ClearDrawSegs`, r_bsp.c, and `R_ClearPlanes`, r_plane.c.
    pub fn start_view(&mut self, height: u16)
        requires { height ≤ FRAME_HEIGHT }
        ensures built { (v : ViewValue) → v.shape.height ≡ height → v.shape.width ≤ FRAME_WIDTH →
            IsBuilt v [] no_planes self.new [] }
        ensures height { self.new.height ≡ height }
        ensures room { self.new.room ≡ self.old.room }
    {
        self.notes.clear();
        self.columns.start(height);
    }

    /// The notes of the drawn fragments, in order, at most 256.
    ///
    /// `noted` has all that the masked pass asks of them: their lists lie whole and apart among the
    /// openings, their scales are above 0, and their clips are rows of the view.
    ///
    /// The original: `drawsegs`, r_bsp.c.
    pub fn notes(&self) -> &[FragmentNote]
        ensures value { result.now ≡ self.now.notes }
        ensures noted { (v : ViewValue) (walls : List Wall) (s : PlanesNow) →
            v.shape.width ≤ FRAME_WIDTH → v.shape.height ≤ FRAME_HEIGHT →
            IsBuilt v walls s self.now s.planes →
            AreNoted v.shape self.now.notes self.now.openings }
        ensures backs { (v : ViewValue) (walls : List Wall) (s : PlanesNow) →
            IsBuilt v walls s self.now s.planes → HaveBacks walls self.now.notes }
    {
        &self.notes
    }

    /// The openings that they saved: texture columns and clips, one for each column of a fragment.
    ///
    /// The original: `openings`, r_plane.c.
    pub fn openings(&self) -> &[i32]
        ensures value { result.now ≡ self.now.openings }
        ensures room { length self.now.openings ≤ self.now.room }
        ensures most { self.now.room ≤ MOST_OPENINGS }
    {
        self.columns.openings.list()
    }

    // Whether there is no room for a further note.
    fn is_full(&self) -> bool
        ensures { IsTrue result ↔ (MAX_DRAWSEGS ≤ length self.now.notes) }
    {
        self.notes.len() >= MAX_DRAWSEGS as usize
    }

    /// Enters a leaf: finds its floor, and then its ceiling, among the planes.
    ///
    /// Errors: `Planes` exactly where one of the two is a new plane past the room; the count is the
    /// room and one. After it `start_view` comes before the next leaf or fragment.
    ///
    /// The original: the calls of `R_FindPlane` in `R_Subsector`, r_bsp.c.
    pub fn start_leaf(&mut self, planes: &mut Planes, leaf: LeafPlanes) -> Result<(), DrawFault>
        ensures built { (v : ViewValue) (walls : List Wall) (s : PlanesNow) →
            IsBuilt v walls s self.old planes.old.planes →
            OnOk result (IsBuilt v walls
            (after_event s (step_of_leaf leaf.floor leaf.ceiling).event)
            self.new planes.new.planes) }
        ensures limit { (v : ViewValue) (walls : List Wall) (s : PlanesNow) →
            IsBuilt v walls s self.old planes.old.planes →
            limit_of_result result ≡ step_over (limits_of self.old planes.old) s
            (length self.old.openings) (step_of_leaf leaf.floor leaf.ceiling) }
        ensures faults { IfErr result IsPlanesFault }
        ensures floor { OnOk result (IsAmongPlanes planes.new.planes self.new.floor) }
        ensures ceiling { OnOk result (IsAmongPlanes planes.new.planes self.new.ceiling) }
        ensures stays { self.new ≡ record self.old
            { floor = self.new.floor; ceiling = self.new.ceiling } }
        ensures room { planes.new.room ≡ planes.old.room }
    {
        self.enter_leaf(planes, leaf)?;
        Ok(())
    }

    /// Enters a leaf: what `start_leaf` does, with the count that passes its limit in place of a
    /// fault.
    ///
    /// Errors: the count of planes, exactly where one of the two is a new plane past the room.
    ///
    /// The original: the calls of `R_FindPlane` in `R_Subsector`, r_bsp.c.
    pub fn enter_leaf(&mut self, planes: &mut Planes, leaf: LeafPlanes) -> Result<(), OverLimit>
        ensures built { (v : ViewValue) (walls : List Wall) (s : PlanesNow) →
            IsBuilt v walls s self.old planes.old.planes →
            OnOk result (IsBuilt v walls
            (after_event s (step_of_leaf leaf.floor leaf.ceiling).event)
            self.new planes.new.planes) }
        ensures limit { (v : ViewValue) (walls : List Wall) (s : PlanesNow) →
            IsBuilt v walls s self.old planes.old.planes →
            over_of result ≡ step_over (limits_of self.old planes.old) s
            (length self.old.openings) (step_of_leaf leaf.floor leaf.ceiling) }
        ensures kind { IfErr result (λ over. over.kind ≡ LimitKind.Planes) }
        ensures floor { OnOk result (IsAmongPlanes planes.new.planes self.new.floor) }
        ensures ceiling { OnOk result (IsAmongPlanes planes.new.planes self.new.ceiling) }
        ensures stays { self.new ≡ record self.old
            { floor = self.new.floor; ceiling = self.new.ceiling } }
        ensures room { planes.new.room ≡ planes.old.room }
    {
        self.columns.enter(planes, leaf)
    }

    /// Draws the fragment of a seg in columns `first` to `last` of the view: takes its openings,
    /// checks the planes that it marks, first the ceiling, then marks and paints its columns from
    /// left to right and saves their clips, and notes it. With 256 notes it does nothing.
    ///
    /// The view is the one that `start_view` was called for. Each texture of the facts that is not
    /// number 0 is prepared. The canvas stands where the view lies in the frame.
    ///
    /// Errors: `Openings` exactly where the openings that it takes pass the room, with their sum;
    /// else `Planes` exactly where a check makes a new plane past the room. `ZoneFull` and
    /// `ReadFault` as for `Textures::ready`. After any of them `start_view` comes before the next
    /// leaf or fragment.
    ///
    /// The original: `R_StoreWallRange` and `R_RenderSegLoop`, r_segs.c.
    pub fn store_range<S: Shelf, C: Canvas>(
        &mut self,
        tools: &mut WallTools<'_, S, C>,
        facts: &WallFacts,
        first: u16,
        last: u16,
    ) -> Result<(), DrawFault>
        requires ordered { first ≤ last }
        requires within { last < tools.old.view.now.shape.width }
        requires height { self.old.height ≡ tools.old.view.now.shape.height }
        requires placed { StandsInFrame tools.old.view.now.shape (C.view tools.old.canvas.now) }
        requires slots { length tools.old.dir.now.lumps ≤ tools.old.cache.now.lumps }
        requires colormap { tools.old.colormap.0 < length tools.old.dir.now.lumps }
        requires textures { (number : ℕ) → IsWallTexture facts.now number →
            CanDraw tools.old.dir.now.lumps tools.old.textures.now tools.old.cache.now number }
        requires floor { IsAmongPlanes tools.old.planes.now.planes self.old.floor }
        requires ceiling { IsAmongPlanes tools.old.planes.now.planes self.old.ceiling }
        ensures same { AreSameWallTools tools.old tools.new }
        ensures built { (walls : List Wall) (s : PlanesNow) →
            IsBuilt tools.old.view.now walls s self.old tools.old.planes.now.planes →
            length walls < MAX_DRAWSEGS →
            let w = wall_of tools.old.view.now facts.now first last in
            OnOk result (IsBuilt tools.old.view.now (with_wall walls w)
            (after_event s (step_of_wall tools.old.view.now walls w).event)
            self.new tools.new.planes.now.planes) }
        ensures limit { (walls : List Wall) (s : PlanesNow) →
            IsBuilt tools.old.view.now walls s self.old tools.old.planes.now.planes →
            length walls < MAX_DRAWSEGS →
            limit_of_result result ≡ step_over (limits_of self.old tools.old.planes.now) s
            (length self.old.openings) (step_of_wall tools.old.view.now walls
            (wall_of tools.old.view.now facts.now first last)) }
        ensures paints { Paints draw_fault C.mark (wall_tools tools.old)
            (IsSeenOf tools.old.view.now self.old facts.now first last) IsNoPicture
            (AreBehind tools.old.view.now self.old tools.old.planes.now.planes)
            (λ contents behind. range_dots tools.old facts.now first last behind.0 contents)
            (wall_state S.view C.view tools.old) (wall_state S.view C.view tools.new) result }
        ensures past { length self.old.notes ≡ MAX_DRAWSEGS → result ≡ Ok tt }
        ensures past_state { length self.old.notes ≡ MAX_DRAWSEGS → self.new ≡ self.old }
        ensures past_tools { length self.old.notes ≡ MAX_DRAWSEGS →
            IsUntouched tools.old.planes.now tools.new.planes.now tools.old.cache.now
            tools.new.cache.now (S.view tools.old.shelf.now) (S.view tools.new.shelf.now)
            (C.view tools.old.canvas.now) (C.view tools.new.canvas.now) }
        ensures floor { OnOk result
            (IsAmongPlanes tools.new.planes.now.planes self.new.floor) }
        ensures ceiling { OnOk result
            (IsAmongPlanes tools.new.planes.now.planes self.new.ceiling) }
        ensures stays { self.new.height ≡ self.old.height }
        ensures room { self.new.room ≡ self.old.room }
        ensures planes_room { tools.new.planes.now.room ≡ tools.old.planes.now.room }
    {
        let mut brush = LiveBrush {
            art: TextureArt {
                textures: tools.textures,
                dir: tools.dir,
                colormap: tools.colormap,
            },
            cache: &mut *tools.cache,
            shelf: &mut *tools.shelf,
            canvas: &mut *tools.canvas,
        };
        self.draw_range(tools.view, tools.planes, &mut brush, facts, first, last)?;
        Ok(())
    }

    /// Does to the state and the planes what `store_range` does where no fault comes, without a
    /// paint: for a count of the planes and openings of a view.
    ///
    /// Errors: `Openings` and `Planes`, exactly where `store_range` answers them.
    ///
    /// This project's own.
    pub fn count_range(
        &mut self,
        view: &View<'_>,
        planes: &mut Planes,
        facts: &WallFacts,
        first: u16,
        last: u16,
    ) -> Result<(), DrawFault>
        requires ordered { first ≤ last }
        requires within { last < view.now.shape.width }
        requires height { self.old.height ≡ view.now.shape.height }
        requires floor { IsAmongPlanes planes.old.planes self.old.floor }
        requires ceiling { IsAmongPlanes planes.old.planes self.old.ceiling }
        ensures built { (walls : List Wall) (s : PlanesNow) →
            IsBuilt view.now walls s self.old planes.old.planes → length walls < MAX_DRAWSEGS →
            let w = wall_of view.now facts.now first last in
            OnOk result (IsBuilt view.now (with_wall walls w)
            (after_event s (step_of_wall view.now walls w).event) self.new planes.new.planes) }
        ensures limit { (walls : List Wall) (s : PlanesNow) →
            IsBuilt view.now walls s self.old planes.old.planes → length walls < MAX_DRAWSEGS →
            limit_of_result result ≡ step_over (limits_of self.old planes.old) s
            (length self.old.openings)
            (step_of_wall view.now walls (wall_of view.now facts.now first last)) }
        ensures faults { IfErr result IsLimitFault }
        ensures past { length self.old.notes ≡ MAX_DRAWSEGS → result ≡ Ok tt }
        ensures past_state { length self.old.notes ≡ MAX_DRAWSEGS → self.new ≡ self.old }
        ensures past_planes { length self.old.notes ≡ MAX_DRAWSEGS → planes.new ≡ planes.old }
        ensures floor { OnOk result (IsAmongPlanes planes.new.planes self.new.floor) }
        ensures ceiling { OnOk result (IsAmongPlanes planes.new.planes self.new.ceiling) }
        ensures stays { self.new.height ≡ self.old.height }
        ensures room { self.new.room ≡ self.old.room }
        ensures planes_room { planes.new.room ≡ planes.old.room }
    {
        match self.draw_range(view, planes, &mut DryBrush, facts, first, last) {
            Ok(()) => Ok(()),
            Err(WallStop::Over(over)) => Err(DrawFault::from(over)),
            Err(WallStop::Brush(never)) => match never {},
        }
    }

    /// Draws the fragment of a seg by a brush: what `store_range` and `count_range` do. The brush is
    /// asked for its strips in order, for nothing where the openings or the planes pass their room.
    ///
    /// Errors: `Over` exactly where the openings, or else the planes, pass their room, with the
    /// count; `Brush` with the Stop of the brush, at the strip where it was asked for, at once.
    ///
    /// The original: `R_StoreWallRange` and `R_RenderSegLoop`, r_segs.c.
    pub fn draw_range<B: Brush>(
        &mut self,
        view: &View<'_>,
        planes: &mut Planes,
        brush: &mut B,
        facts: &WallFacts,
        first: u16,
        last: u16,
    ) -> Result<(), WallStop<B::Stop>>
        requires ordered { first ≤ last }
        requires within { last < view.now.shape.width }
        requires height { self.old.height ≡ view.now.shape.height }
        requires floor { IsAmongPlanes planes.old.planes self.old.floor }
        requires ceiling { IsAmongPlanes planes.old.planes self.old.ceiling }
        requires takes { AreOpenIn self.old → TakesEach B.takes brush.old
            (range_strips view.now self.old facts.now first last) }
        ensures built { (walls : List Wall) (s : PlanesNow) →
            IsBuilt view.now walls s self.old planes.old.planes → length walls < MAX_DRAWSEGS →
            let w = wall_of view.now facts.now first last in
            OnOk result (IsBuilt view.now (with_wall walls w)
            (after_event s (step_of_wall view.now walls w).event) self.new planes.new.planes) }
        ensures limit { (walls : List Wall) (s : PlanesNow) →
            IsBuilt view.now walls s self.old planes.old.planes → length walls < MAX_DRAWSEGS →
            over_of_stop result ≡ step_over (limits_of self.old planes.old) s
            (length self.old.openings)
            (step_of_wall view.now walls (wall_of view.now facts.now first last)) }
        ensures asks { ReceivesUnlessOver B.takes B.stands B.stopped brush.old brush.new
            (range_strips view.now self.old facts.now first last) result }
        ensures past { length self.old.notes ≡ MAX_DRAWSEGS →
            IsPast self.old self.new planes.old planes.new brush.old brush.new result }
        ensures floor { OnOk result (IsAmongPlanes planes.new.planes self.new.floor) }
        ensures ceiling { OnOk result (IsAmongPlanes planes.new.planes self.new.ceiling) }
        ensures stays { self.new.height ≡ self.old.height }
        ensures room { self.new.room ≡ self.old.room }
        ensures planes_room { planes.new.room ≡ planes.old.room }
    {
        if self.is_full() {
            return Ok(());
        }
        let (shape, height) = (view.shape(), self.columns.windows.height());
        prove!(height == shape.height);
        let fragment = Fragment::new(view, facts, first, last);
        let numbers = fragment.numbers();
        let places = self.columns.begin(planes, &numbers, first, last)?;
        let number = self.notes.len() as u16;
        if let Err(stop) = self
            .columns
            .draw_columns(view, planes, brush, number, &fragment, &numbers)
        {
            return Err(WallStop::Brush(stop));
        }
        self.columns
            .save_columns(view, &fragment, first, last, places);
        let note = note_of(facts.seg_no, &fragment, first, last, places, shape.height);
        self.notes.push_reserved(note);
        Ok(())
    }
}

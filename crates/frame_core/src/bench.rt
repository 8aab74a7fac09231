// What a view is built in: its walls, planes and vissprites, the sectors that are entered, and the
// sector of the leaf.
//
// Rules: `specs/Walked`; `picture_rules`, Walls, Planes, Things and Counts. The original:
// `R_Subsector`, r_bsp.c.
ghost use Rattle.std.specs.Prelude.{◌≡◌, ◌≤◌, ◌<◌, ◌+◌, ◌++◌, ◌∷◌, ◌==◌, ℕ, true, false, List, [], All, IfOk, OnOk, length};
ghost use Rattle.std.specs.List.{AllPass};
ghost use Rattle.frame_core.specs.Rules.{Event, FragmentEvent, IsSound, LeafEvent, Limits, MAX_DRAWSEGS, MOST_OPENINGS, MOST_VISPLANES, book_lumps, ceiling_key, floor_key, leaf_at, steps_over, surface_at, view_steps};
ghost use Rattle.receiver_rules.specs.Receivers.{StillTakes};
ghost use Rattle.vissprites.specs.Bounds.{lies_within, has_lump_below};
ghost use Rattle.wall_columns.specs.Built.{limits_of};
ghost use Rattle.wall_columns.specs.Faults.{ReceivesUnlessOver, over_of, over_of_stop};
ghost use Rattle.frame_core.specs.Entered.{has_entered};
ghost use Rattle.sound_scene.specs.Pictures.{lists_of, scene_of};
ghost use Rattle.frame_core.specs.Views.{CanCount};
ghost use Rattle.frame_core.specs.Painters.{HasWalkedNothing, TakesWalls, counts_in};
ghost use Rattle.frame_core.specs.ViewStrips.{event_strips};
ghost use Rattle.frame_core.specs.Walked.{CanTake, HasWalked, IsEventIn, with_sector};

use crate::entered::Entered;
use crate::facts::{facts_of, surface_at};
use crate::keys::{ceiling_key, floor_key};
use crate::things::add_things;
use brush::Brush;
use picture_rules::{Counts, FRAME_HEIGHT, Limits, OverLimit};
use sound_scene::SoundScene;
use std::alloc::{AllocError, Global};
use view_frame::View;
use visplanes::Planes;
use vissprites::Sprites;
use wall_columns::{LeafPlanes, WallState, WallStop};

/// What a view is built in. `sector` is that of the leaf that was entered last.
pub(crate) struct Bench {
    pub planes: Planes,
    pub walls: WallState,
    pub sprites: Sprites,
    pub entered: Entered,
    pub sector: u16,
}

// By hand, so that a drop of one is one call.
impl Drop for Bench {
    fn drop(self) {
        let Bench {
            planes: _,
            walls: _,
            sprites: _,
            entered: _,
            sector: _,
        } = self;
    }
}

impl Bench {
    /// All the memory of walls, planes and vissprites, for these limits.
    pub fn new(alloc: Global, limits: Limits) -> Result<Bench, AllocError>
        requires planes { limits.planes ≤ MOST_VISPLANES }
        requires openings { limits.openings ≤ MOST_OPENINGS }
        ensures { IfOk result (λ bench. limits_of bench.walls bench.planes ≡ limits) }
    {
        Ok(Bench {
            planes: Planes::new(alloc, limits.planes)?,
            walls: WallState::new(alloc, limits.openings)?,
            sprites: Sprites::new(alloc)?,
            entered: Entered::new(alloc)?,
            sector: 0,
        })
    }

    /// What it counts.
    pub fn counts(&self) -> Counts
        requires { length self.now.walls.notes ≤ MAX_DRAWSEGS }
        ensures value { result ≡ counts_in self.now }
        ensures most { length self.now.planes.planes ≤ MOST_VISPLANES }
    {
        Counts {
            planes: self.planes.count(),
            openings: self.walls.openings().len() as u32,
            fragments: self.walls.notes().len() as u32,
            sprites: self.sprites.count(),
        }
    }

    /// Leaves nothing of the last view: no event has come.
    ///
    /// The original: `R_RenderPlayerView`, r_main.c.
    pub fn start(&mut self, scene: &SoundScene, view: &View<'_>)
        requires { CanCount scene.now.scene }
        ensures walked { HasWalkedNothing view.now scene.now.scene self.new }
        ensures takes { CanTake view.now scene.now.scene self.new }
        ensures limits { limits_of self.new.walls self.new.planes
            ≡ limits_of self.old.walls self.old.planes }
        ensures sound { IsSound scene.now.scene.base.level }
    {
        self.planes.clear();
        self.walls.start_view(view.shape().height);
        self.sprites.clear();
        self.entered.clear(scene.level().sectors().len());
        self.sector = first_sector(scene);
    }

    /// Enters a leaf: its floor and its ceiling are found among the planes, and where its sector is
    /// entered for the first time its things become vissprites.
    ///
    /// Errors: the count of planes, exactly where the floor or the ceiling is a plane past the limit.
    ///
    /// The original: `R_Subsector`, r_bsp.c.
    pub fn enter_leaf(
        &mut self,
        scene: &SoundScene,
        view: &View<'_>,
        leaf: u16,
    ) -> Result<(), OverLimit>
        requires scene { CanCount scene.now.scene }
        requires there { leaf < length scene.now.scene.base.level.leaves }
        requires takes { CanTake view.now scene.now.scene self.old }
        ensures walked { (bytes : ℕ → List ℕ) (limits : Limits) (events : List Event) →
            HasWalked view.now bytes scene.now.scene limits events self.old →
            OnOk result (HasWalked view.now bytes scene.now.scene limits
            (events ++ LeafEvent leaf ∷ []) self.new) }
        ensures over { (bytes : ℕ → List ℕ) (limits : Limits) (events : List Event) →
            HasWalked view.now bytes scene.now.scene limits events self.old →
            over_of result ≡ steps_over limits
            (view_steps view.now (scene_of bytes scene.now.scene) (events ++ LeafEvent leaf ∷ [])) }
        ensures takes { OnOk result (CanTake view.now scene.now.scene self.new) }
        ensures limits { limits_of self.new.walls self.new.planes
            ≡ limits_of self.old.walls self.old.planes }
    {
        let sector = sector_of(scene, leaf);
        self.sector = sector;
        let planes = planes_of(scene, view, sector);
        self.walls.enter_leaf(&mut self.planes, planes)?;
        self.enter_sector(scene, view, sector);
        Ok(())
    }

    // Adds the things of a sector that is entered for the first time.
    fn enter_sector(&mut self, scene: &SoundScene, view: &View<'_>, sector: u16)
        requires flats { length scene.now.scene.faces.flats
            ≡ length scene.now.scene.base.level.sectors }
        requires sector { sector < length scene.now.scene.base.level.sectors }
        ensures sprites { (bytes : ℕ → List ℕ) → self.new.sprites
            ≡ with_sector view.now (scene_of bytes scene.now.scene)
            (has_entered self.old.entered sector) sector self.old.sprites }
        ensures columns { AllPass (lies_within view.now.shape.width) self.old.sprites →
            AllPass (lies_within view.now.shape.width) self.new.sprites }
        ensures lumps { (n : ℕ) → All (λ lump. lump < n) (book_lumps scene.now.scene.book) →
            AllPass (has_lump_below n) self.old.sprites →
            AllPass (has_lump_below n) self.new.sprites }
        ensures own { has_entered self.new.entered sector ≡ true }
        ensures others { (other : ℕ) → (sector == other) ≡ false →
            has_entered self.new.entered other ≡ has_entered self.old.entered other }
        ensures walls { self.new.walls ≡ self.old.walls }
        ensures planes { self.new.planes ≡ self.old.planes }
        ensures sector { self.new.sector ≡ self.old.sector }
    {
        if self.entered.enter(sector) {
            add_things(scene, view, &mut self.sprites, sector);
        }
    }

    /// Asks a brush for the fragment of a seg in columns `first` to `last` of the view, and keeps what
    /// planes and the masked pass need of it. Past 256 fragments it does nothing.
    ///
    /// Errors: `Over` exactly where the fragment's openings or planes pass a limit; the brush is asked
    /// for nothing then. `Brush` with what the brush answered, at once.
    ///
    /// The original: `R_StoreWallRange`, r_segs.c.
    pub fn paint_fragment<B: Brush>(
        &mut self,
        scene: &SoundScene,
        view: &View<'_>,
        brush: &mut B,
        seg: u16,
        first: u16,
        last: u16,
    ) -> Result<(), WallStop<B::Stop>>
        requires scene { CanCount scene.now.scene }
        requires there { IsEventIn view.now scene.now.scene (FragmentEvent seg first last) }
        requires takes { CanTake view.now scene.now.scene self.old }
        requires strips { IsSound scene.now.scene.base.level →
            TakesWalls B.takes brush.old view.now scene.now.scene }
        ensures walked { (bytes : ℕ → List ℕ) (limits : Limits) (events : List Event) →
            HasWalked view.now bytes scene.now.scene limits events self.old →
            OnOk result (HasWalked view.now bytes scene.now.scene limits
            (events ++ FragmentEvent seg first last ∷ []) self.new) }
        ensures over { (bytes : ℕ → List ℕ) (limits : Limits) (events : List Event) →
            HasWalked view.now bytes scene.now.scene limits events self.old →
            over_of_stop result ≡ steps_over limits
            (view_steps view.now (scene_of bytes scene.now.scene)
            (events ++ FragmentEvent seg first last ∷ [])) }
        ensures asks { (limits : Limits) (events : List Event) →
            ((bytes : ℕ → List ℕ) →
            HasWalked view.now bytes scene.now.scene limits events self.old) →
            ReceivesUnlessOver B.takes B.stands B.stopped brush.old brush.new
            (event_strips view.now scene.now.scene events (FragmentEvent seg first last)) result }
        ensures still { OnOk result (StillTakes B.takes brush.old brush.new) }
        ensures takes { OnOk result (CanTake view.now scene.now.scene self.new) }
        ensures limits { limits_of self.new.walls self.new.planes
            ≡ limits_of self.old.walls self.old.planes }
    {
        let rows = view.shape().height;
        prove!(rows <= FRAME_HEIGHT);
        let facts = facts_of(scene, self.sector, seg);
        self.walls
            .draw_range(view, &mut self.planes, brush, &facts, first, last)
    }
}

// The sector of a leaf.
#[tactic(auto, unfolding(picture_rules::specs::Words::leaf_at))]
pub(crate) fn sector_of(scene: &SoundScene, leaf: u16) -> u16
    requires { leaf < length scene.now.scene.base.level.leaves }
    ensures value { result ≡ (leaf_at (lists_of scene.now.scene) leaf).sector }
    ensures there { result < length scene.now.scene.base.level.sectors }
{
    scene.level().leaves()[leaf as usize].sector
}

// The sector of the first leaf.
#[tactic(auto, unfolding(picture_rules::specs::Words::leaf_at))]
fn first_sector(scene: &SoundScene) -> u16
    ensures value { result ≡ (leaf_at (lists_of scene.now.scene) 0).sector }
    ensures there { 0 < length scene.now.scene.base.level.segs →
        result < length scene.now.scene.base.level.sectors }
    ensures sound { IsSound scene.now.scene.base.level }
{
    match scene.level().leaves().first() {
        Some(leaf) => leaf.sector,
        None => 0,
    }
}

// The planes that a leaf of a sector finds.
fn planes_of(scene: &SoundScene, view: &View<'_>, sector: u16) -> LeafPlanes
    requires scene { CanCount scene.now.scene }
    requires sector { sector < length scene.now.scene.base.level.sectors }
    ensures floor { result.floor
        ≡ floor_key view.now.eye.z (surface_at (lists_of scene.now.scene) sector) }
    ensures ceiling { result.ceiling
        ≡ ceiling_key view.now.eye.z (surface_at (lists_of scene.now.scene) sector) }
{
    let surface = surface_at(scene, sector);
    let height = view.eye().z;
    LeafPlanes {
        floor: floor_key(height, &surface),
        ceiling: ceiling_key(height, &surface),
    }
}

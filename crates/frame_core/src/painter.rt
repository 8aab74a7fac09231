// The walls of a view, asked of a brush as they are walked.
//
// Rules: `picture_rules`, Walls; `specs/Painters`. The original: `R_RenderBSPNode`, r_bsp.c.
ghost use Rattle.std.specs.Prelude.{◌≡◌, ◌≤◌, ℕ, List, IfErr, IfSome, OnOk, Some, length};
ghost use Rattle.frame_core.specs.Entered.{has_entered};
ghost use Rattle.frame_core.specs.Painters.{AsksWalls, HasCountedView, HasWalkedNothing, HasWalkedView, TakesWalls, limits_in};
ghost use Rattle.frame_core.specs.Rules.{IsSound, MOST_VISPLANES, view_over};
ghost use Rattle.frame_core.specs.Views.{CanCount};
ghost use Rattle.frame_core.specs.Walked.{CanTake};
ghost use Rattle.sound_scene.specs.Pictures.{scene_of};
ghost use Rattle.wall_columns.specs.Faults.{over_in};

use crate::bench::Bench;
use crate::fault::over_limit;
use crate::walked::walk_view;
use brush::{Brush, DryBrush};
use node_walk::Visitor;
use picture_rules::OverLimit;
use sound_scene::SoundScene;
use view_frame::View;
use wall_columns::WallStop;

/// Asks a brush for each fragment of a view as it comes, in what the view is built in: a brush that
/// paints draws the walls, one that leaves nothing counts them.
#[derive(Drop)]
pub(crate) struct ViewPainter<'b, 'a, B: Brush> {
    pub bench: &'b mut Bench,
    pub scene: &'a SoundScene,
    pub view: &'a View<'a>,
    pub brush: &'b mut B,
}

impl<'b, 'a, B: Brush> ViewPainter<'b, 'a, B> {
    /// Whether a sector is entered.
    pub fn has_entered(&self, sector: u16) -> bool
        ensures { result ≡ has_entered self.now.bench.now.entered sector }
    {
        self.bench.entered.has(sector)
    }

    /// How many planes there are.
    pub fn planes(&self) -> u32
        ensures value { result ≡ length self.now.bench.now.planes.planes }
        ensures most { result ≤ MOST_VISPLANES }
    {
        self.bench.planes.count()
    }
}

impl<'b, 'a, B: Brush> Visitor for ViewPainter<'b, 'a, B> {
    ghost use Rattle.std.specs.Prelude.{Ok, Err};
    ghost use Rattle.frame_core.specs.Painters.{CanPaintNext, HasPainted, PainterValue, painter_now};

    ghost Start = { PainterValue B };

    ghost stands = { λ p start events. HasPainted B.takes B.stands B.stopped start (painter_now p)
        events (Ok tt) };

    ghost stopped = { λ p start events stop. HasPainted B.takes B.stands B.stopped start
        (painter_now p) events (Err stop) };

    ghost takes = { λ p event. CanPaintNext B.takes (painter_now p) event };

    type Stop = WallStop<B::Stop>;

    fn leaf(&mut self, leaf: u16) -> Result<(), WallStop<B::Stop>> {
        self.bench.enter_leaf(self.scene, self.view, leaf)?;
        Ok(())
    }

    fn fragment(&mut self, seg: u16, first: u16, last: u16) -> Result<(), WallStop<B::Stop>> {
        self.bench
            .paint_fragment(self.scene, self.view, &mut *self.brush, seg, first, last)
    }
}

/// Asks a brush for the walls of a view, in a bench that was started for it.
///
/// Errors: `Over` with the first count of the view that passes its limit; `Brush` with what the
/// brush answered, at once.
pub(crate) fn paint_walls<B: Brush>(
    scene: &SoundScene,
    view: &View<'_>,
    bench: &mut Bench,
    brush: &mut B,
) -> Result<(), WallStop<B::Stop>>
    requires scene { CanCount scene.now.scene }
    requires takes { CanTake view.now scene.now.scene bench.old }
    requires walked { HasWalkedNothing view.now scene.now.scene bench.old }
    requires strips { IsSound scene.now.scene.base.level →
        TakesWalls B.takes brush.old view.now scene.now.scene }
    ensures walked { OnOk result (HasWalkedView view.now scene.now.scene bench.new) }
    ensures over { (bytes : ℕ → List ℕ) → IfErr result (λ stop. IfSome (over_in stop) (λ over.
        view_over view.now (scene_of bytes scene.now.scene) (limits_in bench.old) ≡ Some over)) }
    ensures limits { limits_in bench.new ≡ limits_in bench.old }
    ensures asks { AsksWalls B.takes B.stands B.stopped view.now scene.now.scene brush.old
        brush.new result }
{
    let mut painter = ViewPainter {
        bench,
        scene,
        view,
        brush,
    };
    walk_view(scene, view, &mut painter)
}

/// Counts the walls of a view, in a bench that was started for it.
///
/// Errors: the first count of the view that passes its limit.
pub(crate) fn count_walls(
    scene: &SoundScene,
    view: &View<'_>,
    bench: &mut Bench,
) -> Result<(), OverLimit>
    requires scene { CanCount scene.now.scene }
    requires takes { CanTake view.now scene.now.scene bench.old }
    requires walked { HasWalkedNothing view.now scene.now.scene bench.old }
    ensures { HasCountedView view.now scene.now.scene bench.old bench.new result }
{
    match paint_walls(scene, view, bench, &mut DryBrush) {
        Ok(()) => Ok(()),
        Err(stop) => Err(over_limit(stop)),
    }
}

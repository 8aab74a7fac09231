// A view, listed as it is walked.
//
// Rules: `picture_rules`, Lists; `specs/Listers`. This project's own.
ghost use Rattle.frame_core.specs.Listers.{IsListedView};
ghost use Rattle.frame_core.specs.Painters.{HasCountedView, HasWalkedNothing};
ghost use Rattle.frame_core.specs.ViewLists.{nothing_listed};
ghost use Rattle.frame_core.specs.Views.{CanCount};
ghost use Rattle.frame_core.specs.Walked.{CanTake};
ghost use Rattle.std.specs.Prelude.{◌≡◌, OnOk};

use crate::bench::{Bench, sector_of};
use crate::fault::over_limit;
use crate::painter::ViewPainter;
use crate::shown::list_entered;
use crate::walk_list::WalkList;
use crate::walked::walk_view;
use brush::DryBrush;
use node_walk::Visitor;
use picture_rules::{ListedFragment, OverLimit, PlaneMaker};
use sound_scene::SoundScene;
use std::convert::Infallible;
use view_frame::View;
use wall_columns::WallStop;

/// Counts each leaf and fragment of a view as it comes, and lists it.
#[derive(Drop)]
pub(crate) struct ViewLister<'b, 'a> {
    pub painter: ViewPainter<'b, 'a, DryBrush>,
    pub list: &'b mut WalkList,
}

impl<'b, 'a> Visitor for ViewLister<'b, 'a> {
    ghost use Rattle.std.specs.Prelude.{Ok, Err};
    ghost use Rattle.frame_core.specs.Listers.{HasGathered, ListerValue, dry_takes, lister_now};
    ghost use Rattle.frame_core.specs.Painters.{CanPaintNext, painter_now};

    ghost Start = { ListerValue };

    ghost stands = { λ p start events. HasGathered start (lister_now p) events (Ok tt) };

    ghost stopped = { λ p start events stop. HasGathered start (lister_now p) events (Err stop) };

    ghost takes = { λ p event. CanPaintNext dry_takes (painter_now p.painter) event };

    type Stop = WallStop<Infallible>;

    fn leaf(&mut self, leaf: u16) -> Result<(), WallStop<Infallible>> {
        let scene = self.painter.scene;
        let view = self.painter.view;
        let sector = sector_of(scene, leaf);
        let is_known = self.painter.has_entered(sector);
        self.painter.leaf(leaf)?;
        let planes = self.painter.planes();
        self.list.add_makers(PlaneMaker::Leaf(leaf), planes);
        list_entered(scene, view, self.list, is_known, sector);
        Ok(())
    }

    fn fragment(&mut self, seg: u16, first: u16, last: u16) -> Result<(), WallStop<Infallible>> {
        self.painter.fragment(seg, first, last)?;
        let planes = self.painter.planes();
        self.list
            .add_fragment(ListedFragment { seg, first, last }, planes);
        Ok(())
    }
}

/// Lists the walls, planes and vissprites of a view, in a bench that was started for it.
///
/// Errors: the first count of the view that passes its limit. The list is not told then.
pub(crate) fn list_walls(
    scene: &SoundScene,
    view: &View<'_>,
    bench: &mut Bench,
    list: &mut WalkList,
) -> Result<(), OverLimit>
    requires scene { CanCount scene.now.scene }
    requires takes { CanTake view.now scene.now.scene bench.old }
    requires walked { HasWalkedNothing view.now scene.now.scene bench.old }
    requires empty { list.old ≡ nothing_listed }
    ensures counted { HasCountedView view.now scene.now.scene bench.old bench.new result }
    ensures listed { OnOk result (IsListedView view.now scene.now.scene list.new) }
{
    let mut brush = DryBrush;
    let painter = ViewPainter {
        bench,
        scene,
        view,
        brush: &mut brush,
    };
    let mut lister = ViewLister { painter, list };
    match walk_view(scene, view, &mut lister) {
        Ok(()) => Ok(()),
        Err(stop) => Err(over_limit(stop)),
    }
}

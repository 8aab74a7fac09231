// What a seg hides and what of it is seen. Rules: `level_rules/walk`, Segs and Walk.
ghost use Rattle.std.specs.Prelude.{◌≡◌, ℕ, ◌≤◌, ◌<◌, ◌-◌, length, map};
ghost use Rattle.node_walk.specs.Rules.{ColumnRange, FragmentEvent, at_columns, at_seg, back_of, faces_differ, fragments, heights_differ, is_closed, is_pass, is_solid, middle_of, seg_at, seg_range};
ghost use Rattle.node_walk.specs.Lists.{IsSegOf, part_start};
ghost use Rattle.node_walk.specs.Visits.{TakesAll, Walks};

use crate::cover::Cover;
use crate::scene::Lists;
use crate::visitor::Visitor;
use level_rules::{Seg, Surface};
use view_frame::{ColumnRange, View, same_word};

// The columns in which a seg is seen.
#[tactic(auto, unfolding(level_rules::specs::walk::Segs::seg_range))]
fn seg_range(view: &View<'_>, seg: &Seg) -> ColumnRange
    ensures value { result ≡ seg_range view.now seg.now }
    ensures order { (x1 x2 : ℕ) → result ≡ ColumnRange.Columns x1 x2 →
        (x1 ≤ x2) × (x2 ≤ view.now.shape.width) }
{
    view.column_range(
        view.point_angle(seg.x1, seg.y1),
        view.point_angle(seg.x2, seg.y2),
    )
}

// Whether nothing is seen between two sectors.
#[tactic(auto, unfolding(level_rules::specs::walk::Segs::is_closed))]
fn is_closed(front: &Surface, back: &Surface) -> bool
    ensures { result ≡ is_closed front.now back.now }
{
    back.ceiling <= front.floor || front.ceiling <= back.floor
}

#[tactic(auto, unfolding(level_rules::specs::walk::Segs::heights_differ))]
fn heights_differ(front: &Surface, back: &Surface) -> bool
    ensures { result ≡ heights_differ front.now back.now }
{
    !same_word(front.ceiling, back.ceiling) || !same_word(front.floor, back.floor)
}

#[tactic(auto, unfolding(level_rules::specs::walk::Segs::faces_differ))]
fn faces_differ(front: &Surface, back: &Surface) -> bool
    ensures { result ≡ faces_differ front.now back.now }
{
    front.ceiling_flat != back.ceiling_flat
        || front.floor_flat != back.floor_flat
        || !same_word(front.light as i32, back.light as i32)
}

// Whether the seg covers what is behind it.
#[tactic(auto, unfolding(level_rules::specs::walk::Segs::is_solid, level_rules::specs::walk::Segs::back_of))]
fn is_solid(lists: &Lists<'_>, front: &Surface, seg: &Seg) -> bool
    requires { IsSegOf lists.now seg.now }
    ensures { result ≡ is_solid front.now (back_of lists.now seg.now) }
{
    match seg.back {
        None => true,
        Some(sector) => is_closed(front, lists.surface(sector)),
    }
}

// Whether the seg shows something where it is not solid.
#[tactic(auto, unfolding(level_rules::specs::walk::Segs::is_pass, level_rules::specs::walk::Segs::back_of, level_rules::specs::walk::Segs::middle_of))]
fn is_pass(lists: &Lists<'_>, front: &Surface, seg: &Seg) -> bool
    requires { IsSegOf lists.now seg.now }
    ensures { result ≡ is_pass front.now (back_of lists.now seg.now) (middle_of lists.now seg.now) }
{
    match seg.back {
        None => false,
        Some(sector) => {
            let back = lists.surface(sector);
            heights_differ(front, back) || faces_differ(front, back) || lists.middle(seg.side) != 0
        }
    }
}

/// Takes a seg of a leaf whose sector is `front`: a solid one is shown and covers, a pass is shown,
/// each in the runs of its columns that are not covered.
///
/// The original: `R_AddLine`, r_bsp.c.
pub(crate) fn visit_seg<V: Visitor>(
    lists: &Lists<'_>,
    view: &View<'_>,
    front: &Surface,
    n: u16,
    cover: &mut Cover,
    visitor: &mut V,
) -> Result<(), V::Stop>
    requires seg { n < length lists.now.segs }
    requires width { length cover.old ≡ view.now.shape.width }
    requires takes { TakesAll (V.takes visitor.old) (length lists.now.leaves)
        (length lists.now.segs) view.now.shape.width }
    ensures walks { Walks V.takes V.stands V.stopped visitor.old visitor.new
        (at_seg view.now lists.now front.now n (part_start cover.old)) cover.new result }
    ensures width { length cover.new ≡ length cover.old }
{
    let seg = lists.seg(n);
    let ColumnRange::Columns { x1, x2 } = seg_range(view, seg) else {
        return Ok(());
    };
    if x1 == x2 {
        return Ok(());
    }
    let last = x2 - 1;
    let solid = is_solid(lists, front, seg);
    if !solid && !is_pass(lists, front, seg) {
        return Ok(());
    }
    for (p, q) in cover.fragments(x1, last) {
        visitor.fragment(n, p, q)?;
    }
    if solid {
        cover.cover(x1, last);
    }
    Ok(())
}

// The walk of the nodes under the root. Rules: `level_rules/walk`, Walk.
ghost use Rattle.std.specs.Prelude.{◌≡◌, ℕ, ◌<◌, ◌+◌, false, length, replicate, OnOk};
ghost use Rattle.level_rules.specs.walk.Walk.{walk_start, walk_child, view_events};
ghost use Rattle.node_walk.specs.Lists.{walk_lists, part_start, IsThere};
ghost use Rattle.node_walk.specs.Visits.{TakesAll, Walks};
ghost use Rattle.receiver_rules.specs.Receivers.{Receives};

use crate::boxes::{box_on, box_passes, child_on, eye_side};
use crate::cover::Cover;
use crate::scene::{Lists, WalkScene};
use crate::segs::visit_seg;
use crate::visitor::Visitor;
use level_rules::{Child, MAX_DEPTH};
use view_frame::View;

/// Gives the visitor the leaves and fragments of a view, in order.
///
/// `cover` has the view's columns, none of them covered; after Ok those that solid segs cover are.
/// Takes no memory. Calls are at most as deep as the level's nodes, and that limit leaves nothing
/// out (`depth`).
///
/// Errors: what the visitor answered, at the event where it was given, at once.
///
/// The original: `R_RenderBSPNode`, r_bsp.c.
pub fn walk<V: Visitor>(
    scene: &WalkScene<'_>,
    view: &View<'_>,
    cover: &mut Cover,
    visitor: &mut V,
) -> Result<(), V::Stop>
    requires surfaces { length scene.now.surfaces.now ≡ length scene.now.level.now.sectors }
    requires middles { length scene.now.middles.now ≡ length scene.now.level.now.sides }
    requires uncovered { cover.old ≡ replicate view.now.shape.width false }
    requires takes { TakesAll (V.takes visitor.old) (length scene.now.level.now.leaves)
        (length scene.now.level.now.segs) view.now.shape.width }
    ensures visits { let lists = walk_lists scene.now.level.now scene.now.surfaces.now
        scene.now.middles.now in
        Receives V.takes V.stands V.stopped visitor.old visitor.new
        (view_events view.now lists) result }
    ensures covered { let lists = walk_lists scene.now.level.now scene.now.surfaces.now
        scene.now.middles.now in
        let start = walk_start view.now.shape.width in
        OnOk result (cover.new ≡ (walk_child view.now lists MAX_DEPTH lists.root start).covered) }
    ensures width { length cover.new ≡ length cover.old }
    ensures depth { (more : ℕ) →
        let lists = walk_lists scene.now.level.now scene.now.surfaces.now scene.now.middles.now in
        let start = walk_start view.now.shape.width in
        walk_child view.now lists (MAX_DEPTH + more) lists.root start
        ≡ walk_child view.now lists MAX_DEPTH lists.root start }
{
    let lists = Lists::new(scene);
    walk_child(&lists, view, lists.root(), MAX_DEPTH, cover, visitor)
}

// Walks a child under which nodes are at most `depth` deep: enters a leaf and takes its segs from
// first to last; of a node the near child, and the far one only if some column of its box is still
// open then.
fn walk_child<V: Visitor>(
    lists: &Lists<'_>,
    view: &View<'_>,
    child: Child,
    depth: u32,
    cover: &mut Cover,
    visitor: &mut V,
) -> Result<(), V::Stop>
    requires there { IsThere lists.now child }
    requires width { length cover.old ≡ view.now.shape.width }
    requires takes { TakesAll (V.takes visitor.old) (length lists.now.leaves)
        (length lists.now.segs) view.now.shape.width }
    ensures walks { Walks V.takes V.stands V.stopped visitor.old visitor.new
        (walk_child view.now lists.now depth child (part_start cover.old)) cover.new result }
    ensures width { length cover.new ≡ length cover.old }
{
    match child {
        Child::Leaf(n) => {
            visitor.leaf(n)?;
            let leaf = lists.leaf(n);
            let front = lists.surface(leaf.sector);
            for k in 0..leaf.count {
                visit_seg(lists, view, front, leaf.first + k, cover, visitor)?;
            }
            Ok(())
        }
        Child::Node(n) => {
            if depth == 0 {
                return Ok(());
            }
            let node = lists.node(n);
            let near = eye_side(view, node);
            let far = 1 - near;
            walk_child(lists, view, child_on(node, near), depth - 1, cover, visitor)?;
            if !box_passes(view, cover, box_on(node, far)) {
                return Ok(());
            }
            walk_child(lists, view, child_on(node, far), depth - 1, cover, visitor)
        }
    }
}

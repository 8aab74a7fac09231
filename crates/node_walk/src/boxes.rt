// Near and far children of a node, and whether a far box is to be entered. Rules: `level_rules/walk`,
// Boxes.
ghost use Rattle.std.specs.Prelude.{◌≡◌, ℕ, ◌≤◌, length};
ghost use Rattle.node_walk.specs.Rules.{ColumnRange, box_column, box_corners, box_on, box_passes, box_row, child_on, corners_range, eye_side, is_within_box, range_is_open};

use crate::cover::Cover;
use level_rules::{Box4, Child, Corners, Node, partition_of};
use view_frame::{ColumnRange, View, side_of};

/// The side of the node's line on which the viewpoint is: 0 in front, 1 behind.
#[tactic(auto, unfolding(level_rules::specs::walk::Boxes::eye_side))]
pub(crate) fn eye_side(view: &View<'_>, node: &Node) -> u8
    ensures value { result ≡ eye_side view.now node.now }
    ensures bound { result ≤ 1 }
{
    let eye = view.eye();
    side_of(partition_of(&node.line), eye.x, eye.y)
}

/// The child of a node on a side of its line.
#[tactic(auto, unfolding(level_rules::specs::Levels::child_on))]
pub(crate) fn child_on(node: &Node, side: u8) -> Child
    requires { side ≤ 1 }
    ensures { result ≡ child_on node.now side }
{
    node.children[side as usize]
}

/// The box of that child.
#[tactic(auto, unfolding(level_rules::specs::walk::Boxes::box_on))]
pub(crate) fn box_on(node: &Node, side: u8) -> &Box4
    requires { side ≤ 1 }
    ensures { result.now ≡ box_on node.now side }
{
    &node.boxes[side as usize]
}

// Left of the box, within its columns, or right of it: 0, 1, 2.
#[tactic(auto, unfolding(level_rules::specs::walk::Boxes::box_column))]
fn box_column(view: &View<'_>, b: &Box4) -> u8
    ensures { result ≡ box_column view.now b.now }
{
    let x = view.eye().x;
    if x <= b.left {
        0
    } else if x < b.right {
        1
    } else {
        2
    }
}

// Above the box, within its rows, or below it: 0, 1, 2.
#[tactic(auto, unfolding(level_rules::specs::walk::Boxes::box_row))]
fn box_row(view: &View<'_>, b: &Box4) -> u8
    ensures { result ≡ box_row view.now b.now }
{
    let y = view.eye().y;
    if y >= b.top {
        0
    } else if y > b.bottom {
        1
    } else {
        2
    }
}

#[tactic(auto, unfolding(level_rules::specs::walk::Boxes::is_within_box))]
fn is_within_box(row: u8, column: u8) -> bool
    ensures { result ≡ is_within_box row column }
{
    row == 1 && column == 1
}

fn corners(x1: i32, y1: i32, x2: i32, y2: i32) -> Corners
    ensures { result ≡ record { x1 = x1; y1 = y1; x2 = x2; y2 = y2 } }
{
    Corners { x1, y1, x2, y2 }
}

// The two corners between which the box is seen: from above it, from within its rows, or from below.
#[tactic(auto, unfolding(level_rules::specs::walk::Boxes::box_corners, level_rules::specs::walk::Boxes::corners_above, level_rules::specs::walk::Boxes::corners_beside, level_rules::specs::walk::Boxes::corners_below))]
fn box_corners(b: &Box4, row: u8, column: u8) -> Corners
    ensures { result ≡ box_corners b.now row column }
{
    match row {
        0 => match column {
            0 => corners(b.right, b.top, b.left, b.bottom),
            1 => corners(b.right, b.top, b.left, b.top),
            _ => corners(b.right, b.bottom, b.left, b.top),
        },
        1 => match column {
            0 => corners(b.left, b.top, b.left, b.bottom),
            _ => corners(b.right, b.bottom, b.right, b.top),
        },
        _ => match column {
            0 => corners(b.left, b.top, b.right, b.bottom),
            1 => corners(b.left, b.bottom, b.right, b.bottom),
            _ => corners(b.left, b.bottom, b.right, b.top),
        },
    }
}

#[tactic(auto, unfolding(level_rules::specs::walk::Boxes::corners_range))]
fn corners_range(view: &View<'_>, c: Corners) -> ColumnRange
    ensures value { result ≡ corners_range view.now c }
    ensures order { (x1 x2 : ℕ) → result ≡ ColumnRange.Columns x1 x2 →
        (x1 ≤ x2) × (x2 ≤ view.now.shape.width) }
{
    view.column_range(view.point_angle(c.x1, c.y1), view.point_angle(c.x2, c.y2))
}

// Whether some column of the range is not covered.
#[tactic(auto, unfolding(level_rules::specs::walk::Boxes::range_is_open))]
fn range_is_open(cover: &Cover, range: ColumnRange) -> bool
    requires { (x1 x2 : ℕ) → range ≡ ColumnRange.Columns x1 x2 →
        (x1 ≤ x2) × (x2 ≤ length cover.now) }
    ensures { result ≡ range_is_open cover.now range }
{
    match range {
        ColumnRange::Behind => true,
        ColumnRange::Outside => false,
        ColumnRange::Columns { x1, x2 } => x1 != x2 && !cover.hides(x1, x2 - 1),
    }
}

/// Whether some column in which the box is seen is not covered.
///
/// The original: `R_CheckBBox`, r_bsp.c.
#[tactic(auto, unfolding(level_rules::specs::walk::Boxes::box_passes))]
pub(crate) fn box_passes(view: &View<'_>, cover: &Cover, b: &Box4) -> bool
    requires { length cover.now ≡ view.now.shape.width }
    ensures { result ≡ box_passes view.now cover.now b.now }
{
    let row = box_row(view, b);
    let column = box_column(view, b);
    if is_within_box(row, column) {
        return true;
    }
    range_is_open(cover, corners_range(view, box_corners(b, row, column)))
}

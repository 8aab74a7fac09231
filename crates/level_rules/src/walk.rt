//! The walk of a level's nodes: covered columns, near and far children, the events of a view.
//!
//! Rules only: a constant, one record and one call, and in `specs/` the columns that solid segs cover and what
//! they leave of a seg (Covered), when a box is entered (Boxes), what a seg is (Segs), the walk
//! (Events, Walk), and which fragments are drawn (Drawsegs). The uncovered runs are the field's
//! wall ranges; a leaf is a subsector. The original: r_bsp.c.

ghost use Rattle.std.specs.Prelude.{◌≡◌};
ghost use Rattle.level_rules.specs.walk.Boxes.{partition_of};

use crate::Partition4;
use view_rules::Partition;

/// The most fragments of a view that are drawn (drawsegs).
pub const MAX_DRAWSEGS: u32 = 256;

/// The two corners between which a box is seen, the left one as seen first, map units 16.16.
#[derive(Clone, Copy)]
pub struct Corners {
    pub x1: i32,
    pub y1: i32,
    pub x2: i32,
    pub y2: i32,
}

/// The line of a node as a view asks for its sides: the same point and direction.
#[tactic(auto, unfolding(crate::specs::walk::Boxes::partition_of))]
pub fn partition_of(line: &Partition4) -> Partition
    ensures { result ≡ partition_of line.now }
{
    Partition {
        x: line.x,
        y: line.y,
        dx: line.dx,
        dy: line.dy,
    }
}

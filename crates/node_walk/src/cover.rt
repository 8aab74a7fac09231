// The covered columns of a view.
ghost use Rattle.std.specs.Prelude.{◌≡◌, ◌<◌, ◌≤◌, false, length, replicate};
ghost use Rattle.level_rules.specs.walk.Covered.{fragments, cover, hides};

use crate::ranges::{MAX_RANGES, Range, add_range, hides_in};
use crate::runs::Runs;
use arrayvec::ArrayVec;
use std::marker::Model;
use view_rules::FRAME_WIDTH;

/// The columns of a view that solid segs cover. Contracts see a truth value for each column.
///
/// It has fixed room, and its number of ranges has no other limit.
///
/// The original: `solidsegs`, r_bsp.c, with room for 32 ranges.
///
/// This project's own: the ranges are never too many.
#[derive(Drop)]
pub struct Cover {
    ranges: ArrayVec<Range, MAX_RANGES>,
    width: u16,
}

impl Model for Cover {
    ghost use Rattle.std.specs.Prelude.{List, Bool, IsTrue, ◌≤◌};
    ghost use Rattle.view_rules.specs.declared.TheConstants.{FRAME_WIDTH};
    ghost use Rattle.node_walk.specs.Ranges.{columns_of, are_apart};

    ghost Value = { List Bool };

    ghost view = { λ c. columns_of c.width c.ranges.items };

    ghost invariant = { λ c. (c.width ≤ FRAME_WIDTH) × IsTrue (are_apart 0 c.width c.ranges.items) };
}

impl Cover {
    /// A view of `width` columns, none of them covered.
    ///
    /// The original: `R_ClearClipSegs`, r_bsp.c.
    pub fn new(width: u16) -> Cover
        requires { width ≤ FRAME_WIDTH }
        ensures { result ≡ replicate width false }
    {
        Cover {
            ranges: ArrayVec::new(),
            width,
        }
    }

    /// Whether every column from `first` to `last` is covered.
    ///
    /// The original: the loop at the end of `R_CheckBBox`, r_bsp.c.
    pub fn hides(&self, first: u16, last: u16) -> bool
        requires ordered { first ≤ last }
        requires within { last < length self.now }
        ensures { result ≡ hides self.now first last }
    {
        hides_in(&self.ranges, first, last)
    }

    /// Covers the columns from `first` to `last`, and no other.
    ///
    /// The original: `R_ClipSolidWallSegment`, r_bsp.c.
    pub fn cover(&mut self, first: u16, last: u16)
        requires ordered { first ≤ last }
        requires within { last < length self.old }
        ensures covered { self.new ≡ cover self.old first last }
        ensures width { length self.new ≡ length self.old }
    {
        add_range(&mut self.ranges, Range { first, last });
    }

    /// The maximal runs of columns from `first` to `last` that are not covered, from left to
    /// right, each by its first and last column.
    ///
    /// The original: `R_ClipPassWallSegment`, r_bsp.c.
    pub fn fragments(&self, first: u16, last: u16) -> Runs<'_>
        requires ordered { first ≤ last }
        requires within { last < length self.now }
        ensures { result ≡ fragments self.now first last }
    {
        Runs::new(&self.ranges, first, last)
    }
}

// The runs of columns that no range covers.
ghost use Rattle.std.specs.Prelude.{◌≡◌, ◌<◌, ◌≤◌, ◌∷◌, IsTrue};
ghost use Rattle.std.specs.Iterator.{YieldsFirst, item_count};
ghost use Rattle.node_walk.specs.Ranges.{range_gaps, is_open, are_apart};

use crate::ranges::Range;
use std::marker::Model;
use view_rules::FRAME_WIDTH;

/// The runs of uncovered columns that are still to come, each by its first and last column.
#[derive(Drop)]
pub struct Runs<'a> {
    rest: &'a [Range],
    at: u16,
    last: u16,
}

impl<'a> Model for Runs<'a> {
    ghost use Rattle.std.specs.Prelude.{List, ℕ, ◌<◌, IsTrue};
    ghost use Rattle.view_rules.specs.declared.TheConstants.{FRAME_WIDTH};
    ghost use Rattle.node_walk.specs.Ranges.{range_gaps, are_apart};

    ghost Value = { List (ℕ × ℕ) };

    ghost view = { λ r. range_gaps r.at r.last r.rest.now };

    ghost invariant = { λ r. (r.last < FRAME_WIDTH) × IsTrue (are_apart 0 FRAME_WIDTH r.rest.now) };
}

impl<'a> Runs<'a> {
    // The range_gaps between ranges, from column `at` to column `last`.
    pub fn new(rest: &'a [Range], at: u16, last: u16) -> Runs<'a>
        requires within { last < FRAME_WIDTH }
        requires apart { IsTrue (are_apart 0 FRAME_WIDTH rest.now) }
        ensures { result ≡ range_gaps at last rest.now }
    {
        Runs { rest, at, last }
    }
}

impl<'a> Iterator for Runs<'a> {
    type Item = (u16, u16);

    ghost next_gives = { YieldsFirst (λ r. r) };

    ghost remaining = { item_count (λ r. r) };

    fn next(&mut self) -> Option<(u16, u16)> {
        let (rest, at) = pass_covered(self.rest, self.at, self.last);
        if self.last < at {
            self.rest = rest;
            self.at = at;
            return None;
        }
        let (end, behind, next) = first_gap(rest, at, self.last);
        self.rest = behind;
        self.at = next;
        Some((at, end))
    }
}

// Passes the ranges that begin at column `at` or before it: what is left of them, and the column
// after them.
fn pass_covered<'a>(ranges: &'a [Range], at: u16, last: u16) -> (&'a [Range], u16)
    requires { IsTrue (are_apart 0 FRAME_WIDTH ranges.now) }
    ensures range_gaps { range_gaps result.1 last result.0.now ≡ range_gaps at last ranges.now }
    ensures open { IsTrue (is_open result.1 last result.0.now) }
    ensures apart { IsTrue (are_apart 0 FRAME_WIDTH result.0.now) }
{
    let mut rest = ranges;
    let mut column = at;
    while let Some(range) = rest.first()
        && column <= last
        && range.first <= column
    {
        column = column.max(range.last + 1);
        rest = &rest[1..];
    }
    (rest, column)
}

// The end of the gap that begins at column `at`, the ranges behind it, and the column after the
// range that ends it.
fn first_gap<'a>(ranges: &'a [Range], at: u16, last: u16) -> (u16, &'a [Range], u16)
    requires ordered { at ≤ last }
    requires within { last < FRAME_WIDTH }
    requires open { IsTrue (is_open at last ranges.now) }
    requires apart { IsTrue (are_apart 0 FRAME_WIDTH ranges.now) }
    ensures range_gaps { range_gaps at last ranges.now ≡ (at, result.0) ∷ range_gaps result.2 last
        result.1.now }
    ensures apart { IsTrue (are_apart 0 FRAME_WIDTH result.1.now) }
{
    match ranges.first() {
        None => (last, ranges, last + 1),
        Some(range) => (last.min(range.first - 1), &ranges[1..], range.last + 1),
    }
}

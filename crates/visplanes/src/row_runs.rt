// The runs of columns that hold a row.
ghost use Rattle.std.specs.Prelude.{◌≡◌, ℕ, ◌+◌, ◌-◌, ◌<◌, ◌≤◌, ◌∷◌, length, true};
ghost use Rattle.std.specs.Iterator.{YieldsFirst, item_count};
ghost use Rattle.picture_rules.specs.Words.{FRAME_WIDTH, holds, row_runs};
ghost use Rattle.visplanes.specs.Spans.{runs_from};

use crate::columns::Visplane;
use crate::rows::holds_row;
use picture_rules::FRAME_WIDTH;
use std::marker::Model;

/// The runs of columns of a plane that hold a row and are still to come, from left to right, each
/// by its first and its last column.
#[derive(Drop)]
pub struct RowRuns<'a> {
    plane: &'a Visplane,
    row: u8,
    at: u16,
}

impl<'a> Model for RowRuns<'a> {
    ghost use Rattle.std.specs.Prelude.{List, ℕ, ◌≤◌, ◌≡◌, length};
    ghost use Rattle.picture_rules.specs.Words.{FRAME_WIDTH};
    ghost use Rattle.visplanes.specs.Spans.{runs_from};

    ghost Value = { List (ℕ × ℕ) };

    ghost view = { λ r. runs_from r.plane.now r.row r.at };

    ghost invariant = { λ r. (r.at ≤ FRAME_WIDTH) × (length r.plane.now.runs ≡ FRAME_WIDTH) };
}

impl<'a> RowRuns<'a> {
    // The runs of a plane that hold the row.
    pub fn new(plane: &'a Visplane, row: u8) -> RowRuns<'a>
        ensures { result ≡ row_runs plane.now row }
    {
        let (at, _) = plane.marked();
        RowRuns { plane, row, at }
    }
}

impl<'a> Iterator for RowRuns<'a> {
    type Item = (u16, u16);

    ghost next_gives = { YieldsFirst (λ r. r) };

    ghost remaining = { item_count (λ r. r) };

    fn next(&mut self) -> Option<(u16, u16)> {
        let first = first_holding(self.plane, self.row, self.at);
        self.at = first;
        if first >= FRAME_WIDTH {
            return None;
        }
        let end = first_not_holding(self.plane, self.row, first);
        self.at = end;
        Some((first, end - 1))
    }
}

// The least column from `at` on that holds the row, or the frame's width where none does.
fn first_holding(plane: &Visplane, row: u8, at: u16) -> u16
    requires wide { length plane.now.runs ≡ FRAME_WIDTH }
    requires within { at ≤ FRAME_WIDTH }
    ensures same { runs_from plane.now row result ≡ runs_from plane.now row at }
    ensures within { result ≤ FRAME_WIDTH }
    ensures holds { result < FRAME_WIDTH → holds plane.now row result ≡ true }
{
    let mut x = at;
    while x < FRAME_WIDTH && !holds_row(plane.column(x), row) {
        x += 1;
    }
    x
}

// The end of the run that begins at column `first`: the column after its last one.
fn first_not_holding(plane: &Visplane, row: u8, first: u16) -> u16
    requires wide { length plane.now.runs ≡ FRAME_WIDTH }
    requires within { first < FRAME_WIDTH }
    requires holds { holds plane.now row first ≡ true }
    ensures run { runs_from plane.now row first ≡
        (first, result - 1) ∷ runs_from plane.now row result }
    ensures after { first < result }
    ensures end { result ≤ FRAME_WIDTH }
{
    let mut x = first + 1;
    while x < FRAME_WIDTH && holds_row(plane.column(x), row) {
        x += 1;
    }
    x
}

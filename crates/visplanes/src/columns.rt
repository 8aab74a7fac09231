// The columns of a plane.
ghost use Rattle.std.specs.Prelude.{◌≡◌, ℕ, ◌+◌, ◌<◌, ◌≤◌, ◌↔◌, IfSome, IsSome, None, true, false, length, slice_index};
ghost use Rattle.picture_rules.specs.Words.{column, empty_plane, FRAME_HEIGHT, FRAME_WIDTH, holds, is_free, with_run};
ghost use Rattle.visplanes.specs.Columns.{HasRun};

use picture_rules::{FRAME_WIDTH, PlaneKey};
use std::marker::Model;

/// The top of a column without a run.
pub const NO_RUN: u8 = 255;

/// A plane: a top and a bottom row for each column of a frame, and the least and the greatest
/// marked column, `FRAME_WIDTH` and 0 where none is. Contracts see its key, and a run of rows or
/// none for each column.
///
/// The original: `visplane_t`, r_defs.h.
#[derive(Drop)]
pub struct Visplane {
    key: PlaneKey,
    tops: [u8; FRAME_WIDTH as usize],
    bottoms: [u8; FRAME_WIDTH as usize],
    first: u16,
    last: u16,
}

impl Model for Visplane {
    ghost use Rattle.picture_rules.specs.Words.{Plane};
    ghost use Rattle.visplanes.specs.Columns.{plane_of, IsKept};

    ghost Value = { Plane };

    ghost view = { λ p. plane_of p.key p.tops p.bottoms };

    ghost invariant = { λ p. IsKept p.tops p.bottoms p.first p.last };
}

impl Visplane {
    /// A plane with no marked column.
    pub fn new(key: PlaneKey) -> Visplane
        ensures { result ≡ empty_plane key }
    {
        Visplane {
            key,
            tops: row_bytes(NO_RUN),
            bottoms: row_bytes(0),
            first: FRAME_WIDTH,
            last: 0,
        }
    }

    /// Makes it a plane of that key with no marked column. The bottoms stay: without its top a
    /// column has no run.
    pub fn reset(&mut self, key: PlaneKey)
        ensures { self.new ≡ empty_plane key }
    {
        self.key = key;
        self.tops.fill(NO_RUN);
        self.first = FRAME_WIDTH;
        self.last = 0;
    }

    /// Whether no column is marked. Looks at no column.
    pub fn is_empty(&self) -> bool
        ensures { (result ≡ true) ↔ ((x : ℕ) → column self.now x ≡ None) }
    {
        self.first == FRAME_WIDTH
    }

    /// The key.
    pub fn key(&self) -> PlaneKey
        ensures value { result ≡ self.now.key }
        ensures frame { (x y : ℕ) → holds self.now y x ≡ true →
            (x < FRAME_WIDTH) × (y < FRAME_HEIGHT) }
    {
        self.key
    }

    /// Whether no column from `first` to `last` is marked.
    pub fn is_free(&self, first: u16, last: u16) -> bool
        requires ordered { first ≤ last }
        requires within { last < FRAME_WIDTH }
        ensures { result ≡ is_free self.now.runs first last }
    {
        are_unmarked(&self.tops, first.max(self.first), last.min(self.last))
    }

    /// Sets the run of column `x`, and no other.
    #[inline(always)]
    pub fn mark(&mut self, x: u16, top: u8, bottom: u8)
        requires column { x < FRAME_WIDTH }
        requires ordered { top ≤ bottom }
        requires row { bottom < FRAME_HEIGHT }
        ensures { self.new ≡ with_run self.old x (top, bottom) }
    {
        self.tops[x as usize] = top;
        self.bottoms[x as usize] = bottom;
        self.first = self.first.min(x);
        self.last = self.last.max(x);
    }

    /// The run of column `x`; right of a frame there is none.
    pub fn column(&self, x: u16) -> Option<(u8, u8)>
        ensures run { result ≡ column self.now x }
        ensures ordered { IfSome result (λ r. (r.0 ≤ r.1) × (r.1 < FRAME_HEIGHT)) }
    {
        let tops = &self.tops;
        if x >= FRAME_WIDTH {
            return None;
        }
        let top = tops[x as usize];
        if top == NO_RUN {
            return None;
        }
        Some((top, self.bottoms[x as usize]))
    }

    /// The least and the greatest marked column, 320 and 0 where none is marked.
    pub fn marked(&self) -> (u16, u16)
        ensures least { result.0 < FRAME_WIDTH → IsSome (column self.now result.0) }
        ensures greatest { result.0 < FRAME_WIDTH → IsSome (column self.now result.1) }
        ensures none { result.0 ≡ FRAME_WIDTH → result.1 ≡ 0 }
        ensures before { (x : ℕ) → x < result.0 → column self.now x ≡ None }
        ensures behind { (x : ℕ) → result.1 < x → column self.now x ≡ None }
        ensures pixels { (x y : ℕ) → holds self.now y x ≡ true → (result.0 ≤ x) × (x ≤ result.1) }
        ensures first { result.0 ≤ FRAME_WIDTH }
        ensures last { result.1 < FRAME_WIDTH }
        ensures wide { length self.now.runs ≡ FRAME_WIDTH }
    {
        (self.first, self.last)
    }
}

// The same byte for each column of a frame.
fn row_bytes(value: u8) -> [u8; FRAME_WIDTH as usize]
    ensures size { length result ≡ FRAME_WIDTH }
    ensures each { (x : ℕ) → x < FRAME_WIDTH → slice_index result x ≡ value }
{
    [value; FRAME_WIDTH as usize]
}

// Whether each of the tops of columns `first` to `last` is that of no run.
fn are_unmarked(tops: &[u8], first: u16, last: u16) -> bool
    requires size { length tops.now ≡ FRAME_WIDTH }
    requires within { last < FRAME_WIDTH }
    ensures free { result ≡ true → (x : ℕ) → first ≤ x → x ≤ last →
        slice_index tops.now x ≡ NO_RUN }
    ensures taken { result ≡ false → HasRun tops.now first last }
{
    for x in first..last + 1 {
        if tops[x as usize] != NO_RUN {
            return false;
        }
    }
    true
}

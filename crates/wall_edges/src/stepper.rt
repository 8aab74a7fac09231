// The edges of a fragment, stepped from column to column.

ghost use Rattle.std.specs.Prelude.{◌≡◌, ℕ, ◌+◌, IfSome, IfNone};
ghost use Rattle.picture_rules.specs.Words.{edges_at};
ghost use Rattle.wall_edges.specs.Fragments.{FragmentValue};
ghost use Rattle.wall_edges.specs.Steppers.{next_edges, next_stepper, IsAt};

use crate::edges::{edges_first, edges_plus, edges_step};
use crate::fragment::Fragment;
use picture_rules::Edges;

/// The columns of a fragment that are still to come, from left to right.
///
/// `x` is the next column of the view and `left` the number of columns; `now` has the scale and
/// the edges at `x`, and `step` what each of them gains a column, in the units of `Edges`.
///
/// The original: rw_x, rw_stopx, topfrac and topstep and their like, r_segs.c.
#[derive(Clone, Copy)]
pub struct Stepper {
    pub x: u16,
    pub left: u16,
    pub now: Edges,
    pub step: Edges,
}

impl Stepper {
    /// A stepper that stands at the first column of the fragment.
    ///
    /// Takes no memory. It multiplies here, and never again.
    ///
    /// The original: the last part of `R_StoreWallRange`, r_segs.c.
    pub fn new(fragment: &Fragment) -> Stepper
        ensures { IsAt fragment.now 0 result }
    {
        Stepper {
            x: fragment.first,
            left: fragment.last - fragment.first + 1,
            now: edges_first(fragment.shape, &fragment.numbers),
            step: edges_step(&fragment.numbers),
        }
    }

    /// The scale and the edges at column `x`, and steps one column on; None where no column is
    /// left, and then nothing changes.
    ///
    /// The sums wrap. A caller that stands at the k-th column of a fragment is given the edges of
    /// that column, and stands at the next one after it.
    ///
    /// The original: the loop of `R_RenderSegLoop`, r_segs.c.
    #[tactic(auto, unfolding(crate::specs::Steppers::next_edges, crate::specs::Steppers::next_stepper))]
    pub fn next(&mut self) -> Option<Edges>
        ensures answer { result ≡ next_edges self.old }
        ensures state { self.new ≡ next_stepper self.old }
        ensures column { (f : FragmentValue) (k : ℕ) → IsAt f k self.old → IfSome result (λ e.
            (e ≡ edges_at f.shape f.numbers k) × IsAt f (k + 1) self.new) }
        ensures end { (f : FragmentValue) (k : ℕ) → IsAt f k self.old →
            IfNone result (f.first + k ≡ f.last + 1) }
    {
        if self.left == 0 {
            return None;
        }
        let now = self.now;
        self.now = edges_plus(now, self.step);
        self.x = self.x.wrapping_add(1);
        self.left -= 1;
        Some(now)
    }
}

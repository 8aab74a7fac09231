// A fragment: a visible piece of a seg, and what it is drawn with.

ghost use Rattle.picture_rules.specs.declared.wall.WallFacts.{WallFacts};
ghost use Rattle.picture_rules.specs.Words.{edges_at, texture_column};
ghost use Rattle.std.specs.Prelude.{◌≡◌, ℕ, ◌-◌, ◌<◌, ◌≤◌};
ghost use Rattle.wall_edges.specs.{Fragments.fragment_of, Lines.column_of_line};

use crate::columns::column_of_line;
use crate::edges::edges_at;
use crate::line::{SegLine, seg_line_of};
use crate::numbers::{fragment_numbers, silhouette_of};
use picture_rules::{Edges, FragmentNumbers, ViewShape, WallFacts};
use std::marker::Model;
use view_frame::View;

/// The columns from a first to a last one in which a seg is seen, and what they are drawn with.
///
/// `floor_mark` and `ceiling_mark` tell whether rows of the leaf's planes are marked; `silhouette`
/// is `SIL_BOTTOM` and `SIL_TOP`, added, and the heights (map units, 16.16) say up to where it
/// clips; the three mids are the texel rows (16.16) of the textures at the view's centre row;
/// `masked` tells whether the middle texture is seen through; the scales of the first and the last
/// column and the step a column are 16.16, pixels a map unit.
///
/// The original: the globals of r_segs.c, as markfloor, ds_p, rw_midtexturemid, rw_scale.
#[derive(Drop)]
pub struct Fragment {
    pub floor_mark: bool,
    pub ceiling_mark: bool,
    pub silhouette: u8,
    pub bottom_height: i32,
    pub top_height: i32,
    pub middle_mid: i32,
    pub top_mid: i32,
    pub bottom_mid: i32,
    pub masked: bool,
    pub scale1: i32,
    pub scale2: i32,
    pub step: i32,
    pub(crate) numbers: FragmentNumbers,
    pub(crate) shape: ViewShape,
    pub(crate) first: u16,
    pub(crate) last: u16,
    line: SegLine,
}

impl Model for Fragment {
    ghost use Rattle.std.specs.Prelude.{◌<◌, ◌≤◌};
    ghost use Rattle.picture_rules.specs.Words.{FRAME_WIDTH};
    ghost use Rattle.wall_edges.specs.Fragments.{FragmentValue};

    ghost Value = { FragmentValue };

    ghost view = { λ f. record {
      fields = record {
        floor_mark = f.floor_mark;
        ceiling_mark = f.ceiling_mark;
        silhouette = f.silhouette;
        bottom_height = f.bottom_height;
        top_height = f.top_height;
        middle_mid = f.middle_mid;
        top_mid = f.top_mid;
        bottom_mid = f.bottom_mid;
        masked = f.masked;
        scale1 = f.scale1;
        scale2 = f.scale2;
        step = f.step;
      };
      numbers = f.numbers;
      shape = f.shape;
      first = f.first;
      last = f.last;
      line = f.line;
    } };

    ghost invariant = { λ f. (f.first ≤ f.last) × (f.last < FRAME_WIDTH) };
}

impl Fragment {
    /// The fragment of a seg from column `first` to column `last` of the view.
    ///
    /// Takes no memory.
    ///
    /// The original: the first part of `R_StoreWallRange`, r_segs.c.
    pub fn new(view: &View<'_>, facts: &WallFacts, first: u16, last: u16) -> Fragment
        requires ordered { first ≤ last }
        requires within { last < view.now.shape.width }
        ensures { result ≡ fragment_of view.now facts.now first last }
    {
        let line = seg_line_of(view, facts);
        let numbers = fragment_numbers(view, facts, line.distance, first, last);
        Fragment {
            floor_mark: numbers.floor_mark,
            ceiling_mark: numbers.ceiling_mark,
            silhouette: silhouette_of(&numbers),
            bottom_height: numbers.bottom.height,
            top_height: numbers.top.height,
            middle_mid: numbers.middle_part.mid,
            top_mid: numbers.top_part.mid,
            bottom_mid: numbers.bottom_part.mid,
            masked: numbers.masked,
            scale1: numbers.scale1,
            scale2: numbers.scale2,
            step: numbers.step,
            numbers,
            shape: view.shape(),
            first,
            last,
            line,
        }
    }

    /// All numbers of the fragment, those of its textures and its light among them.
    ///
    /// This project's own.
    pub fn numbers(&self) -> FragmentNumbers
        ensures { result ≡ self.now.numbers }
    {
        self.numbers
    }

    /// The scale and the edges at column `x` of the view, one of the fragment's.
    ///
    /// The scale is 16.16, pixels a map unit; an edge is a row with 12 bits of fraction.
    ///
    /// The original: `R_RenderSegLoop`, r_segs.c, which steps to them.
    pub fn edges_at(&self, x: u16) -> Edges
        requires { self.now.first ≤ x }
        ensures { result ≡ edges_at self.now.shape self.now.numbers (x - self.now.first) }
    {
        edges_at(self.shape, &self.numbers, x - self.first)
    }

    /// The texture column (texels) at column `x` of the view, which is the one that `new` was
    /// given.
    ///
    /// The original: `texturecolumn`, r_segs.c.
    #[inline(always)]
    #[tactic(auto, unfolding(picture_rules::specs::wall::Columns::texture_column))]
    pub fn column_at(&self, view: &View<'_>, x: u16) -> i32
        requires { x < view.now.shape.width }
        ensures facts { (facts : WallFacts) (first last : ℕ) →
            self.now ≡ fragment_of view.now facts first last →
            result ≡ texture_column view.now facts x }
        ensures line { result ≡ column_of_line view.now self.now.line x }
    {
        column_of_line(view, self.line, x)
    }
}

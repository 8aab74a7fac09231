//! Wall fragments: the numbers of a visible piece of a seg, its edges, and the edges stepped from
//! column to column.
//!
//! A drawn fragment is the field's drawseg; `top`, `bottom`, `high` and `low` are its topfrac,
//! bottomfrac, pixhigh and pixlow, and a mid its texturemid. Rules: `picture_rules/wall`, Scales, Heights,
//! Silhouettes, Marks, Parts, Numbers, Edges and Columns; what a fragment keeps and how a stepper
//! goes on in this crate's Fragments and Steppers. Proved: each number of a fragment, its edges
//! and its texture columns are their definitions, and a stepper answers the edges of each column
//! once, from left to right, and then None. No call takes memory or fails. That `next` adds and
//! never multiplies is shown by the fields of `Stepper` alone. The original: r_segs.c.
#![tactic(auto)]

mod columns;
mod edges;
mod fragment;
mod heights;
mod line;
mod marks;
mod numbers;
mod parts;
mod silhouettes;
mod stepper;

pub use fragment::Fragment;
pub use numbers::seg_light;
pub use picture_rules::{
    Clip, Edges, FragmentNote, FragmentNumbers, Part, Silhouette, WallFacts, WallTexture,
};
pub use stepper::Stepper;

//! The walk of a level's nodes in a view: near child first, far child where its box is seen; and the
//! columns of a view that solid segs cover, with what they leave of a seg (solidsegs).
//!
//! A leaf is the field's subsector; an event that is no leaf is a wall range of a seg, here a
//! fragment. Rules: `level_rules/walk`, Covered, Boxes, Segs, Events and Walk. Proved: each call of
//! `Cover` is its definition over the covered columns, of which alone the contracts speak; it keeps
//! them as ranges, apart and in order (`specs/Ranges`). A visitor is given exactly the events of the
//! view, in order, up to the first that it answers by a Stop, which is returned at once; the columns
//! that are covered after it; that each number is in range and no event is out of the visitor's
//! reach. No call takes memory. The original: r_bsp.c.
#![tactic(auto)]

mod boxes;
mod cover;
mod nodes;
mod ranges;
mod runs;
mod scene;
mod segs;
mod visitor;

pub use cover::Cover;
pub use nodes::walk;
pub use runs::Runs;
pub use scene::WalkScene;
pub use visitor::Visitor;

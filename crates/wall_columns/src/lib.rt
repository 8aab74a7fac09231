//! The walls of a view: fragments drawn column by column, with their clips, planes, openings and
//! notes.
//!
//! A drawn fragment is the field's drawseg. Rules: `picture_rules/wall`, Clips, Walls, Strips, Openings and
//! Notes; `picture_rules/plane`, Built; `picture_rules`, Counts; what a state stands for in this crate's
//! Built; the strips of a fragment in this crate's Strips. Proved: after each call the state and the
//! planes are those of the fragments drawn so far, a brush is asked for exactly a fragment's strips, in
//! order, and planes and openings past a limit are told exactly where they come. Only `new` takes memory. The original: r_segs.c, and R_Subsector of
//! r_bsp.c.
//!
//! `R_RenderSegLoop`, r_segs.c, and where each of its steps is here:
//!
//! ```text
//! for each column x of the fragment              drawing: draw_each (count_columns without paint)
//!     yl, yh: the rows of its edges, clipped     clips: wall_first, wall_last
//!     mark the ceiling above, the floor below    clips: ceiling_rows, floor_rows; columns: mark_rows
//!     the texture's column, light, dc_iscale     wall_edges: column_at; paint: paint_plan
//!     a middle texture: paint yl to yh           clips: solid_plan; paint: first_strip, paint_part
//!         and shut the column                    clips: shut_clip
//!     else an upper texture: paint to pixhigh    clips: top_plan; paint: first_strip
//!         a lower texture: paint from pixlow     clips: bottom_plan; paint: paint_second
//!         and leave these clips                  clips: open_plan; windows: narrow
//!     masked: save the texture's column          behind the loop: openings: put_columns
//!     step scale, top, bottom, high and low      wall_edges: Stepper::next
//! and in R_StoreWallRange: copy the clips        column_state: save_columns; openings: put_list
//! ```
#![tactic(auto)]

mod clips;
mod column_state;
mod columns;
mod drawing;
mod fault;
mod leaf;
mod notes;
mod openings;
mod paint;
mod state;
mod tools;
mod windows;

pub use fault::{DrawFault, WallStop};
pub use leaf::LeafPlanes;
pub use picture_rules::{Clip, FragmentNote, WallFacts};
pub use state::WallState;
pub use tools::WallTools;

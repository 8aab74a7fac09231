//! The zone: one region of bytes, tiled by blocks that slots own, with a rover that looks for room.
//!
//! Rules: `zone_rules`; `specs/Headers`, `specs/Regions` and `specs/Homes` say what stands in the
//! region, `specs/Walks` how a request goes over it. Proved: each call is its definition, which
//! blocks a request purges and where the new block goes among them, and that every other block
//! stays; `ZoneFull` comes exactly where no gap holds what is wanted. The body is one vector of
//! bytes: each block begins with a header of six little-endian words (size, asked length, owner,
//! tag, next, previous), and each slot keeps the place of its block. Tested only: that memory is
//! found. The original: z_zone.c.
#![tactic(auto)]

mod edits;
mod figures;
mod headers;
mod homes;
mod look;
mod pair;
mod request;
mod search;
mod slot;
mod zone;

pub use crate::slot::{CompositeKind, LumpKind, Slot, SlotKind};
pub use crate::zone::{Zone, ZoneFigures, ZoneFull, ZoneMake};
pub use zone_rules::Tag;

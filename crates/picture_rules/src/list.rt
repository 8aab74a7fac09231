//! What a view is made of, item by item, in the order of the numbers by which a trace names them.
//!
//! Rules only: records, and in `specs/` the whole list of a view (Lists). This project's own: the
//! original keeps drawsegs, visplanes and vissprites, and not where they come from.

use crate::plane::PlaneKey;

/// The greatest number of fragments or of vissprites that is told of a view; no level has so many.
pub const MOST_TOLD: u64 = u64::MAX;

/// What made a plane: a leaf that looked for its floor or its ceiling and found no such plane, or a
/// drawn fragment whose columns were taken in the one that was there.
#[derive(Clone, Copy)]
pub enum PlaneMaker {
    /// The number of the leaf among the level's (SSECTORS).
    Leaf(u16),
    /// The number of the fragment among the drawn ones.
    Fragment(u16),
}

/// A drawn fragment: the number of its seg among the level's (SEGS), and its columns.
#[derive(Clone, Copy)]
pub struct ListedFragment {
    pub seg: u16,
    pub first: u16,
    pub last: u16,
}

/// A plane: its key, what made it, and in how many columns it has a run.
#[derive(Clone, Copy)]
pub struct ListedPlane {
    pub key: PlaneKey,
    pub maker: PlaneMaker,
    pub columns: u16,
}

/// A vissprite: the number of its thing among the level's (THINGS), the lump of its picture, and
/// its columns in the view, none where the first is past the last.
#[derive(Clone, Copy)]
pub struct ListedSprite {
    pub thing: u16,
    pub lump: u16,
    pub first: u16,
    pub last: u16,
}

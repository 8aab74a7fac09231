//! The rules of the zone: one region of bytes, tiled by blocks that slots own.
//!
//! Zones: what contracts see of a zone. Requests: gaps, stretches, what a request passes, purges
//! and takes, and where the rover goes. Rooms: where a block may be taken. Frees: `free`,
//! `change_tag`, and bytes that are written. Orders: when no request purges. Rules only: nothing
//! here knows how the blocks are kept. The original: z_zone.c, z_zone.h; the rules are made after
//! it and are this project's own.
#![tactic(auto)]

/// Bytes of a block that its header takes. The original: `sizeof(memblock_t)`.
pub const HEADER_SIZE: u32 = 24;

/// A rest of at most this many bytes stays in the block before it. The original: `MINFRAGMENT`.
pub const MIN_FRAGMENT: u32 = 64;

/// The least size of a zone, in bytes.
pub const MIN_ZONE_SIZE: u32 = 64;

/// The greatest size of a zone, in bytes.
pub const MAX_ZONE_SIZE: u32 = 536_870_912;

/// Slots of one kind are fewer than this.
pub const SLOT_LIMIT: u32 = 16_777_216;

/// How a block may be given up. The original: PU_STATIC, PU_LEVEL and PU_CACHE.
#[derive(Clone, Copy, Debug, PartialEq, Eq)]
pub enum Tag {
    /// Pinned for the whole run. Code 1.
    Static,
    /// Pinned while something is built. Code 50.
    Level,
    /// Purgeable. Code 101.
    Cache,
}

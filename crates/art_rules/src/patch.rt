// What a patch says of itself.
ghost use Rattle.std.specs.Prelude.{◌≡◌};
ghost use Rattle.art_rules.specs.Patches.{is_patch, patch_in, patch_of};

use crate::bytes::{half_at, signed_half_at};
use crate::layout::{COLUMN_PLACE_SIZE, COLUMN_PLACES_AT, LEFT_AT, PATCH_HEADER_SIZE, TOP_AT};

/// What a patch says of itself: its width in columns, and how many texels its picture lies left of
/// and above its point.
///
/// The original: `patch_t`, r_defs.h, but for its height, which nothing reads.
#[derive(Clone, Copy, Debug, PartialEq, Eq)]
pub struct Patch {
    pub width: u16,
    pub left: i16,
    pub top: i16,
}

impl Patch {
    /// What the bytes of a lump say as a patch. Takes no memory.
    ///
    /// `None` exactly where the lump is no patch: it has fewer than 8 bytes, its width is below 1,
    /// or the places of its columns pass its end.
    ///
    /// The original: `patch_t`, r_defs.h. This project's own: lumps that are no patch are refused.
    #[tactic(auto, unfolding(crate::specs::Patches::patch_of))]
    pub fn read(bytes: &[u8]) -> Option<Patch>
        ensures { result ≡ patch_of bytes.now }
    {
        if !is_patch(bytes) {
            return None;
        }
        Some(patch_in(bytes))
    }
}

#[tactic(auto, unfolding(crate::specs::Patches::patch_in))]
fn patch_in(bytes: &[u8]) -> Patch
    ensures { result ≡ patch_in bytes.now }
{
    Patch {
        width: half_at(bytes, 0),
        left: signed_half_at(bytes, LEFT_AT as u64),
        top: signed_half_at(bytes, TOP_AT as u64),
    }
}

#[tactic(auto, unfolding(crate::specs::Patches::is_patch))]
fn is_patch(bytes: &[u8]) -> bool
    ensures { result ≡ is_patch bytes.now }
{
    bytes.len() >= PATCH_HEADER_SIZE
        && signed_half_at(bytes, 0) >= 1
        && bytes.len() >= COLUMN_PLACES_AT + COLUMN_PLACE_SIZE * half_at(bytes, 0) as usize
}

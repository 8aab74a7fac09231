// A slot's block, looked up at the slot's home.
ghost use Rattle.std.specs.Prelude.{◌≡◌, ◌<◌, ◌≤◌, ◌+◌, ◌-◌, ◌==◌, length, slice_index, slice_range, map, Some, IsSome, IfSome, option_map};
ghost use Rattle.zone_heap.specs.Homes.{home_in, composites_in, IsHomed};
ghost use Rattle.zone_heap.specs.Regions.{blocks_in, IsLaid, IsRing};
ghost use Rattle.zone_heap.specs.Rules.{AllFit, Unique, bytes_of, holding_of, owned_block, owner_at, retag_block, word_at};

use crate::headers::{ASKED_AT, TAG_AT, code_tag, set_word, tag_code, word_at};
use crate::homes::{Homes, NO_HOME};
use zone_rules::{HEADER_SIZE, Tag};

/// Where a block's bytes lie in the region.
#[derive(Clone, Copy)]
pub struct Span {
    pub from: usize,
    pub to: usize,
}

/// Where the bytes of the block at a place lie.
#[inline(always)]
pub fn span_at(region: &[u8], at: usize) -> Span
    requires { at + HEADER_SIZE ≤ length region.now }
    ensures from { result.from ≡ at + HEADER_SIZE }
    ensures to { result.to ≡ at + HEADER_SIZE + word_at region.now (at + ASKED_AT) }
{
    let from = at + HEADER_SIZE as usize;
    Span {
        from,
        to: from + word_at(region, at + ASKED_AT) as usize,
    }
}

/// The tag of a slot's block.
#[inline(always)]
pub fn slot_tag(region: &[u8], homes: &Homes, kind: u8, number: u32) -> Option<Tag>
    requires laid { IsLaid region.now }
    requires small { length region.now < NO_HOME }
    requires homed { IsHomed homes.now (owner_at kind number) (blocks_in region.now) }
    ensures { result
        ≡ option_map (λ h. h.tag) (holding_of (owner_at kind number) (blocks_in region.now)) }
{
    let home = homes.of(kind, number);
    if home == NO_HOME {
        None
    } else {
        Some(code_tag(word_at(region, home as usize + TAG_AT)))
    }
}

/// Where the bytes of a slot's block lie.
#[inline(always)]
pub fn slot_span(region: &[u8], homes: &Homes, kind: u8, number: u32) -> Option<Span>
    requires laid { IsLaid region.now }
    requires small { length region.now < NO_HOME }
    requires homed { IsHomed homes.now (owner_at kind number) (blocks_in region.now) }
    requires fits { AllFit homes.now.lumps (composites_in homes.now) (blocks_in region.now) }
    ensures value { bytes_of (owner_at kind number) (blocks_in region.now)
        ≡ option_map (λ s. slice_range region.now s.from s.to) result }
    ensures bound { IfSome result (λ s. (s.from ≤ s.to) × (s.to ≤ length region.now)) }
{
    let home = homes.of(kind, number);
    if home == NO_HOME {
        None
    } else {
        Some(span_at(region, home as usize))
    }
}

/// Where the bytes of a live slot's block lie.
pub fn live_span(region: &[u8], homes: &Homes, kind: u8, number: u32) -> Span
    requires laid { IsLaid region.now }
    requires homed { IsHomed homes.now (owner_at kind number) (blocks_in region.now) }
    requires live { IsSome (owned_block (owner_at kind number) (blocks_in region.now)) }
    ensures from { result.from ≡ home_in homes.now kind number + HEADER_SIZE }
    ensures to { result.to
        ≡ result.from + word_at region.now (home_in homes.now kind number + ASKED_AT) }
{
    let home = homes.of(kind, number);
    span_at(region, home as usize)
}

/// Gives the block of a live slot another tag.
pub fn retag(region: &mut [u8], homes: &Homes, kind: u8, number: u32, tag: Tag)
    requires ring { IsRing region.old }
    requires homed { IsHomed homes.now (owner_at kind number) (blocks_in region.old) }
    requires unique { Unique (blocks_in region.old) }
    requires live { IsSome (owned_block (owner_at kind number) (blocks_in region.old)) }
    ensures ring { IsRing region.new }
    ensures len { length region.new ≡ length region.old }
    ensures blocks { blocks_in region.new
        ≡ map (retag_block (owner_at kind number) tag) (blocks_in region.old) }
{
    let home = homes.of(kind, number);
    set_word(region, home as usize + TAG_AT, tag_code(tag));
}

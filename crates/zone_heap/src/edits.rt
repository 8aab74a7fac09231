// Changes of the blocks: joined, split, and linked into the ring.
ghost use Rattle.std.specs.Prelude.{◌≡◌, ◌<◌, ◌≤◌, ◌^◌, ◌+◌, ◌++◌, ◌&&◌, ◌==◌, ℕ, List, [], ◌∷◌, length, drop, false, nat_lt};
ghost use Rattle.zone_heap.specs.Rules.{RoomAt, free_block, join_free, place_after, place_around, take_at, word_at};
ghost use Rattle.zone_heap.specs.Headers.{header_in, is_free_header, first_part, second_part, used_holding};
ghost use Rattle.zone_heap.specs.Regions.{blocks_in, IsLaid, IsRing, ring_place};

use crate::headers::{
    FREE_OWNER, NEXT_AT, PREVIOUS_AT, Used, header_at, set_free, set_use, set_word, word_at,
};
use zone_rules::{HEADER_SIZE, MIN_FRAGMENT};

/// Joins free neighbours.
pub fn join(region: &mut [u8])
    requires laid { IsLaid region.old }
    requires some { 0 < length region.old }
    requires small { length region.old < 2 ^ 32 }
    ensures laid { IsLaid region.new }
    ensures blocks { blocks_in region.new ≡ join_free (blocks_in region.old) }
    ensures len { length region.new ≡ length region.old }
{
    let mut at: usize = 0;
    let mut next = word_at(region, 0) as usize;
    while next < region.len() {
        let after = next + word_at(region, next) as usize;
        if are_free(region, at, next) {
            set_word(region, at, (after - at) as u32);
        } else {
            at = next;
        }
        next = after;
    }
}

/// Whether the blocks at two places are free.
fn are_free(region: &[u8], at: usize, next: usize) -> bool
    requires first { at + HEADER_SIZE ≤ length region.now }
    requires second { next + HEADER_SIZE ≤ length region.now }
    ensures { result
        ≡ (is_free_header (header_in (drop at region.now)) && is_free_header (header_in (drop
        next region.now))) }
{
    let first = header_at(region, at);
    let second = header_at(region, next);
    first.is_free() && second.is_free()
}

/// Writes the ring: of each block the place of the next and of the previous one.
pub fn link(region: &mut [u8])
    requires laid { IsLaid region.old }
    requires some { 0 < length region.old }
    requires small { length region.old < 2 ^ 32 }
    ensures ring { IsRing region.new }
    ensures blocks { blocks_in region.new ≡ blocks_in region.old }
    ensures len { length region.new ≡ length region.old }
{
    let mut at: usize = 0;
    let mut previous: usize = 0;
    while at < region.len() {
        let next = at + word_at(region, at) as usize;
        let end = region.len();
        set_word(region, at + NEXT_AT, ring_place(next, end) as u32);
        set_word(region, at + PREVIOUS_AT, previous as u32);
        previous = at;
        at = next;
    }
    set_word(region, PREVIOUS_AT, previous as u32);
}

/// A place, or 0 at the region's end.
pub fn ring_place(place: usize, end: usize) -> usize
    ensures value { result ≡ ring_place place end }
    ensures bound { result ≤ place }
{
    if place == end { 0 } else { place }
}

/// The place of the block that a place lies in.
pub fn place_in(region: &[u8], place: usize) -> usize
    requires laid { IsLaid region.now }
    requires small { length region.now < 2 ^ 32 }
    ensures value { result ≡ place_around place 0 (blocks_in region.now) }
    ensures bound { result ≤ length region.now }
{
    let mut at: usize = 0;
    let mut around: usize = 0;
    while at < region.len() {
        if place < at {
            return around;
        }
        around = at;
        at += word_at(region, at) as usize;
    }
    around
}

/// Cuts a free block into one of the wanted size and a free rest.
fn cut(region: &mut [u8], place: usize, wanted: u32)
    requires inside { place + wanted + HEADER_SIZE ≤ length region.old }
    requires large { HEADER_SIZE ≤ wanted }
    requires rest { wanted ≤ word_at region.old place }
    ensures len { length region.new ≡ length region.old }
    ensures parts { (a c b : List ℕ) → region.old ≡ a ++ (c ++ b) → length a ≡ place
        → wanted + HEADER_SIZE ≤ length c → word_at region.old place ≡ length c → region.new ≡ a
        ++ (first_part c wanted ++ (second_part c wanted ++ b)) }
{
    let rest = word_at(region, place) - wanted;
    let next = place + wanted as usize;
    set_word(region, place, wanted);
    set_word(region, next, rest);
    set_free(region, next);
}

/// Whether what is left of a block becomes a free block.
fn is_rest(left: u32) -> bool
    ensures { result ≡ nat_lt MIN_FRAGMENT left }
{
    MIN_FRAGMENT < left
}

/// Gives the free block at a place to a slot, and leaves a rest of more than `MIN_FRAGMENT` bytes
/// free. It answers the place after the new block.
pub fn take(region: &mut [u8], place: usize, wanted: u32, used: Used) -> usize
    requires laid { IsLaid region.old }
    requires small { length region.old < 2 ^ 32 }
    requires room { RoomAt place wanted (blocks_in region.old) }
    requires large { used.asked + HEADER_SIZE ≤ wanted }
    requires live { (used.owner == FREE_OWNER) ≡ false }
    requires owner { used.owner < 2 ^ 32 }
    requires tag { used.tag < 2 ^ 32 }
    ensures laid { IsLaid region.new }
    ensures len { length region.new ≡ length region.old }
    ensures blocks { blocks_in region.new
        ≡ take_at place wanted (used_holding used (drop (place + HEADER_SIZE) region.old))
        (blocks_in region.old) }
    ensures rover { ring_place result (length region.old)
        ≡ place_after place (length region.old) (blocks_in region.new) }
    ensures bound { result ≤ length region.old }
{
    let size = word_at(region, place);
    if is_rest(size - wanted) {
        cut(region, place, wanted);
        set_use(region, place, used.asked, used.owner, used.tag);
        place + wanted as usize
    } else {
        set_use(region, place, used.asked, used.owner, used.tag);
        place + size as usize
    }
}

/// Lays out a region as one free block.
pub fn lay_free(region: &mut [u8], size: u32)
    requires size { length region.old ≡ size }
    requires large { HEADER_SIZE ≤ size }
    requires small { size < 2 ^ 32 }
    ensures ring { IsRing region.new }
    ensures len { length region.new ≡ size }
    ensures blocks { blocks_in region.new ≡ free_block 0 size ∷ [] }
{
    set_word(region, 0, size);
    set_free(region, 0);
    link(region);
}

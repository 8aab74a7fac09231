// The header of a block, as it stands in the region: six little-endian words.
//
// The original: `memblock_t`, z_zone.h, of as many words: size, user, tag, id, next and prev. Here
// the asked length stands in the place of id, and the owner in that of user. The ring, which is the
// places of the next and of the previous block, is written and read by nothing, since a walk adds
// sizes up. It is kept because a header of 24 bytes is a rule of the zone: it is part of the size
// of each request (`block_size`), and so of every size that `ZoneFull` tells and `audit` prints.
ghost use Rattle.std.specs.Prelude.{◌≡◌, ◌≤◌, ◌<◌, ◌+◌, ◌*◌, ◌^◌, length, drop, ◌==◌, ◌&&◌, ◌||◌, nat_le};
ghost use Rattle.zone_heap.specs.Headers.{with_word, header_in, with_use, code_tag, tag_code, owner_word, is_free_header, is_pinned_header, is_purgeable_header};
ghost use Rattle.zone_heap.specs.Rules.{word_at};

use byteorder::{ByteOrder, LittleEndian};
use zone_rules::{HEADER_SIZE, Tag};

/// Bytes from a block's place to the word of how many bytes were asked for. The first word of the
/// header, at the block's place, is its size.
pub const ASKED_AT: usize = 4;

/// Bytes from a block's place to the owner word.
pub const OWNER_AT: usize = 8;

/// Bytes from a block's place to the tag's code.
pub const TAG_AT: usize = 12;

/// Bytes from a block's place to the place of the next block.
pub const NEXT_AT: usize = 16;

/// Bytes from a block's place to the place of the previous block.
pub const PREVIOUS_AT: usize = 20;

/// The owner word of a free block.
pub const FREE_OWNER: u32 = 0xffff_ffff;

/// Owner words of one kind: the kind's code times this, and the slot's number.
pub const KIND_UNIT: u32 = 16_777_216;

/// The code of the tag `Static`. The original: PU_STATIC.
pub const STATIC_CODE: u32 = 1;

/// The code of the tag `Level`. The original: PU_LEVEL.
pub const LEVEL_CODE: u32 = 50;

/// The code of the tag `Cache`. The original: PU_CACHE.
pub const CACHE_CODE: u32 = 101;

/// What a header says of a block but for its place in the ring.
#[derive(Clone, Copy)]
pub struct Header {
    pub size: u32,
    pub asked: u32,
    pub owner: u32,
    pub tag: u32,
}

/// The words of a header that say what a live block is for.
#[derive(Clone, Copy)]
pub struct Used {
    pub asked: u32,
    pub owner: u32,
    pub tag: u32,
}

/// The code of a tag.
pub fn tag_code(tag: Tag) -> u32
    ensures { result ≡ tag_code tag }
{
    match tag {
        Tag::Static => STATIC_CODE,
        Tag::Level => LEVEL_CODE,
        Tag::Cache => CACHE_CODE,
    }
}

/// The tag of a code.
#[inline(always)]
pub fn code_tag(code: u32) -> Tag
    ensures { result ≡ code_tag code }
{
    if code == STATIC_CODE {
        Tag::Static
    } else if code == LEVEL_CODE {
        Tag::Level
    } else {
        Tag::Cache
    }
}

/// The owner word of a slot.
pub fn owner_word(kind: u8, number: u32) -> u32
    requires kind { kind ≤ 1 }
    requires number { number < KIND_UNIT }
    ensures { result ≡ owner_word kind number }
{
    u32::from(kind) * KIND_UNIT + number
}

impl Header {
    /// Whether the block is free.
    pub fn is_free(&self) -> bool
        ensures { result ≡ is_free_header self.now }
    {
        self.owner == FREE_OWNER
    }

    /// Whether a search starts at the block of this header and place, if it did not before.
    pub fn starts_search(&self, at: usize, rover: usize) -> bool
        requires { at + self.now.size < 2 ^ 63 }
        ensures { result
            ≡ (nat_le rover at || (is_free_header self.now && (at + self.now.size == rover))) }
    {
        rover <= at || self.is_free() && at + self.size as usize == rover
    }

    /// Whether the block is live, with a tag that pins it.
    pub fn is_pinned(&self) -> bool
        ensures { result ≡ is_pinned_header self.now }
    {
        self.owner != FREE_OWNER && (self.tag == STATIC_CODE || self.tag == LEVEL_CODE)
    }

    /// Whether the block is live, with a tag that lets it be purged.
    pub fn is_purgeable(&self) -> bool
        ensures { result ≡ is_purgeable_header self.now }
    {
        self.owner != FREE_OWNER && self.tag != STATIC_CODE && self.tag != LEVEL_CODE
    }
}

/// The word at a place of the region.
#[inline(always)]
#[tactic(auto, unfolding(word_rules::specs::Bytes::word_at))]
pub fn word_at(region: &[u8], at: usize) -> u32
    requires { at + 4 ≤ length region.now }
    ensures { result ≡ word_at region.now at }
{
    LittleEndian::read_u32(&region[at..])
}

/// Writes the word at a place of the region.
#[tactic(auto, unfolding(crate::specs::Headers::with_word))]
pub fn set_word(region: &mut [u8], at: usize, word: u32)
    requires { at + 4 ≤ length region.old }
    ensures { region.new ≡ with_word region.old at word }
{
    LittleEndian::write_u32(&mut region[at..], word);
}

/// The header of the block at a place.
pub fn header_at(region: &[u8], at: usize) -> Header
    requires { at + HEADER_SIZE ≤ length region.now }
    ensures { result ≡ header_in (drop at region.now) }
{
    Header {
        size: word_at(region, at),
        asked: word_at(region, at + ASKED_AT),
        owner: word_at(region, at + OWNER_AT),
        tag: word_at(region, at + TAG_AT),
    }
}

/// Writes what the header of the block at a place says of its use.
pub fn set_use(region: &mut [u8], at: usize, asked: u32, owner: u32, tag: u32)
    requires { at + HEADER_SIZE ≤ length region.old }
    ensures { region.new ≡ with_use region.old at asked owner tag }
{
    set_word(region, at + ASKED_AT, asked);
    set_word(region, at + OWNER_AT, owner);
    set_word(region, at + TAG_AT, tag);
}

/// Writes the header of a free block.
pub fn set_free(region: &mut [u8], at: usize)
    requires { at + HEADER_SIZE ≤ length region.old }
    ensures { region.new ≡ with_use region.old at 0 FREE_OWNER 0 }
{
    set_use(region, at, 0, FREE_OWNER, 0);
}

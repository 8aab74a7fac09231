// The records of textures in TEXTURE1 and TEXTURE2. Rules: `art_rules`, Textures.
ghost use Rattle.std.specs.Prelude.{◌≡◌, ◌<◌, ◌≤◌, ◌+◌, ◌*◌, ◌^◌, length, IfOk};
ghost use Rattle.texture_lists.specs.Rules.{entry_at, half_at, is_wrong, listed, mask_of, name_at, patch_count, texture_in};

use art_rules::{
    ENTRY_NUMBER_AT, ENTRY_SIZE, ENTRY_Y_AT, NAME_SIZE, Name8, OutOfMemory, PATCH_COUNT_AT,
    TEXTURE_HEAD_SIZE, TEXTURE_HEIGHT_AT, TEXTURE_WIDTH_AT, TextureEntry, half_at, signed_half_at,
};
use std::alloc::Global;
use std::marker::Model;

// A texture of the lists, with the mask of its columns.
pub(crate) struct ListedTexture {
    name: Name8,
    width: u16,
    height: u16,
    mask: u16,
    patches: Vec<TextureEntry>,
}

// By hand, so that a drop of one is one call.
impl Drop for ListedTexture {
    fn drop(self) {
        let ListedTexture {
            name: _,
            width: _,
            height: _,
            mask: _,
            patches: _,
        } = self;
    }
}

impl Model for ListedTexture {
    ghost use Rattle.std.specs.Prelude.{◌≡◌, ◌<◌};
    ghost use Rattle.art_rules.specs.Words.{mask_of, Texture};

    ghost Value = { Texture };

    ghost view = { λ t. record {
      name = t.name;
      width = t.width;
      height = t.height;
      patches = t.patches.items;
    } };

    ghost invariant = { λ t. (0 < t.width) × (t.mask ≡ mask_of t.width) };
}

impl ListedTexture {
    pub(crate) fn name(&self) -> Name8
        ensures { result ≡ self.now.name }
    {
        self.name
    }

    pub(crate) fn width(&self) -> u16
        ensures width { result ≡ self.now.width }
        ensures some { 0 < result }
    {
        self.width
    }

    pub(crate) fn height(&self) -> u16
        ensures { result ≡ self.now.height }
    {
        self.height
    }

    pub(crate) fn mask(&self) -> u16
        ensures { result ≡ mask_of self.now.width }
    {
        self.mask
    }

    pub(crate) fn patches(&self) -> &[TextureEntry]
        ensures { result.now ≡ self.now.patches }
    {
        &self.patches
    }
}

// The name at `place`.
#[tactic(auto, unfolding(art_rules::specs::Textures::name_at))]
pub(crate) fn name_at(bytes: &[u8], place: usize) -> Name8
    requires { place + NAME_SIZE ≤ length bytes.now }
    ensures { result ≡ name_at bytes.now place }
{
    Name8::read_at(bytes, place)
}

// The texture whose record begins at `place`.
#[tactic(auto, unfolding(art_rules::specs::Textures::texture_in))]
pub(crate) fn read_texture(
    alloc: Global,
    bytes: &[u8],
    place: u64,
) -> Result<ListedTexture, OutOfMemory>
    requires place { place < 2 ^ 32 }
    requires head { place + TEXTURE_HEAD_SIZE ≤ length bytes.now }
    requires wide { 0 < half_at bytes.now (place + TEXTURE_WIDTH_AT) }
    ensures { IfOk result (λ t. t ≡ texture_in bytes.now place) }
{
    let count = patch_count(bytes, place);
    let patches = read_entries(alloc, bytes, place + TEXTURE_HEAD_SIZE as u64, count)?;
    let width = half_at(bytes, place + TEXTURE_WIDTH_AT as u64);
    Ok(ListedTexture {
        name: name_at(bytes, place as usize),
        width,
        height: half_at(bytes, place + TEXTURE_HEIGHT_AT as u64),
        mask: mask_of(width),
        patches,
    })
}

// How many patches the record at `place` has.
#[tactic(auto, unfolding(art_rules::specs::Textures::patch_count))]
fn patch_count(bytes: &[u8], place: u64) -> u16
    requires { place < 2 ^ 32 }
    ensures { result ≡ patch_count bytes.now place }
{
    half_at(bytes, place + PATCH_COUNT_AT as u64)
}

// The `count` patches of a texture, from `place` on.
#[tactic(auto, using(art_rules::proofs::Laws::listing))]
fn read_entries(
    alloc: Global,
    bytes: &[u8],
    place: u64,
    count: u16,
) -> Result<Vec<TextureEntry>, OutOfMemory>
    requires { place < 2 ^ 33 }
    ensures { IfOk result (λ entries. entries.items
        ≡ listed (λ i. entry_at bytes.now (place + ENTRY_SIZE * i)) count) }
{
    let mut entries = Vec::with_capacity(alloc, count as usize)?;
    for i in 0..count as u64 {
        entries.push(entry_at(bytes, place + ENTRY_SIZE as u64 * i))?;
    }
    Ok(entries)
}

// The patch at `place`.
#[tactic(auto, unfolding(art_rules::specs::Textures::entry_at))]
fn entry_at(bytes: &[u8], place: u64) -> TextureEntry
    requires { place < 2 ^ 34 }
    ensures { result ≡ entry_at bytes.now place }
{
    TextureEntry {
        x: signed_half_at(bytes, place),
        y: signed_half_at(bytes, place + ENTRY_Y_AT as u64),
        number: half_at(bytes, place + ENTRY_NUMBER_AT as u64),
    }
}

// The record at `place` passes the lump's end, or the texture has no column or no row.
#[tactic(auto, unfolding(art_rules::specs::Textures::is_wrong))]
pub(crate) fn is_wrong(bytes: &[u8], place: u64) -> bool
    requires { place < 2 ^ 32 }
    ensures { result ≡ is_wrong bytes.now place }
{
    let entries = ENTRY_SIZE as u64 * patch_count(bytes, place) as u64;
    (bytes.len() as u64) < place + TEXTURE_HEAD_SIZE as u64 + entries
        || signed_half_at(bytes, place + TEXTURE_WIDTH_AT as u64) < 1
        || signed_half_at(bytes, place + TEXTURE_HEIGHT_AT as u64) < 1
}

// The mask of a texture of that many columns.
#[tactic(auto, unfolding(art_rules::specs::Textures::mask_of, art_rules::specs::Textures::mask_from))]
fn mask_of(width: u16) -> u16
    ensures { result ≡ mask_of width }
{
    let mut bits = 16u32;
    while bits > 0 {
        bits -= 1;
        if width as u32 >= 1 << bits {
            return ((1u32 << bits) - 1) as u16;
        }
    }
    0
}

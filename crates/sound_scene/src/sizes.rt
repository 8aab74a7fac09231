// How large a zone has to be for a scene.
//
// Rules: `scene_rules`, Sizes. The original: `Z_Init`, z_zone.c, which takes what it gets.
ghost use Rattle.std.specs.Prelude.{◌≡◌, ◌+◌, ◌<◌, ◌≤◌, ◌^◌, All, length, max, sum_by};
ghost use Rattle.std.specs.List.Sorted.{IsStrictlyIncreasing};
ghost use Rattle.sound_scene.specs.Rules.{HEADER_SIZE, WORD_SIZE, block_or_none, block_size, composite_block, greatest_by, lump_block, needed_lumps, zone_sizes};
ghost use Rattle.texture_build.specs.Views.{prepared_at};
ghost use Rattle.sound_scene.specs.Views.{lump_numbers};

use crate::needed::NeededArt;
use scene_rules::{MIN_FRAGMENT, WORD_SIZE, ZoneSizes};
use texture_build::{Directory, LumpNo, TexNo, Textures};
use zone_rules::HEADER_SIZE;

/// How large a zone has to be, in bytes, for a scene that needs these lumps: with `enough` COLORMAP
/// stands beside the greatest composite and two further lumps, each block with up to the 64 bytes that
/// are not split off; with `roomy` all lumps and all composites stand beside each other.
///
/// Looks at each of the lumps and each texture once. Takes no memory.
///
/// The original: `Z_Init`, z_zone.c, which takes what it gets. This project's own.
pub fn zone_sizes(dir: &Directory, art: &NeededArt<'_>, needed: &[LumpNo]) -> ZoneSizes
    requires needed { lump_numbers needed.now ≡ needed_lumps dir.now.lumps art.now }
    requires colormap { art.now.colormap < length dir.now.lumps }
    ensures { result ≡ zone_sizes dir.now.lumps art.now }
{
    let colormap = lump_block(dir, art.colormap);
    let lumps = lump_blocks(dir, needed);
    let composites = composite_blocks(art.textures);
    let fragment = u64::from(MIN_FRAGMENT);
    ZoneSizes {
        enough: colormap + composites.greatest + 2 * lumps.greatest + 2 * fragment,
        roomy: lumps.sum + composites.sum + fragment,
    }
}

// The greatest of some blocks, and their sum, in bytes.
#[derive(Clone, Copy)]
struct Blocks {
    greatest: u64,
    sum: u64,
}

// The same with one block more.
fn with_block(blocks: Blocks, size: u64) -> Blocks
    requires { blocks.sum + size < 2 ^ 64 }
    ensures greatest { result.greatest ≡ max blocks.greatest size }
    ensures sum { result.sum ≡ blocks.sum + size }
{
    Blocks {
        greatest: blocks.greatest.max(size),
        sum: blocks.sum + size,
    }
}

// The blocks of these lumps, which ascend.
fn lump_blocks(dir: &Directory, lumps: &[LumpNo]) -> Blocks
    requires ascending { IsStrictlyIncreasing (lump_numbers lumps.now) }
    requires there { All (λ lump. lump.0 < length dir.now.lumps) lumps.now }
    ensures greatest { result.greatest ≡ greatest_by (lump_block dir.now.lumps)
        (lump_numbers lumps.now) }
    ensures sum { result.sum ≡ sum_by (lump_block dir.now.lumps) (lump_numbers lumps.now) }
    ensures fits { (result.greatest ≤ 2 ^ 33) × (result.sum ≤ 2 ^ 49) }
{
    let mut blocks = Blocks {
        greatest: 0,
        sum: 0,
    };
    for lump in lumps {
        blocks = with_block(blocks, lump_block(dir, *lump));
    }
    blocks
}

// The size of a lump's block.
#[tactic(auto, unfolding(scene_rules::specs::Sizes::lump_block))]
fn lump_block(dir: &Directory, lump: LumpNo) -> u64
    requires { lump.0 < length dir.now.lumps }
    ensures value { result ≡ lump_block dir.now.lumps lump.0 }
    ensures fits { result ≤ 2 ^ 33 }
    ensures number { lump.0 < 2 ^ 16 }
{
    block_size(dir.size(lump))
}

// The blocks of the composites of all prepared textures.
fn composite_blocks(textures: &Textures) -> Blocks
    ensures greatest { result.greatest ≡ greatest_by composite_block textures.now.prepared }
    ensures sum { result.sum ≡ sum_by composite_block textures.now.prepared }
    ensures fits { (result.greatest ≤ 2 ^ 17) × (result.sum ≤ 2 ^ 32) }
{
    let mut blocks = Blocks {
        greatest: 0,
        sum: 0,
    };
    for number in 0..textures.count() {
        blocks = with_block(blocks, composite_block(textures, TexNo(number as u16)));
    }
    blocks
}

// The size of the block of a texture's composite, 0 where it has none.
fn composite_block(textures: &Textures, tex: TexNo) -> u64
    ensures value { result ≡ composite_block (prepared_at textures.now.prepared tex.0) }
    ensures fits { result ≤ 2 ^ 17 }
{
    if !textures.is_prepared(tex) {
        return 0;
    }
    block_or_none(textures.composite_size(tex))
}

// The size of a block for so many bytes, or 0 for none.
#[tactic(auto, unfolding(scene_rules::specs::Sizes::block_or_none))]
fn block_or_none(size: u32) -> u64
    ensures value { result ≡ block_or_none size }
    ensures fits { result < size + WORD_SIZE + HEADER_SIZE }
{
    if size == 0 { 0 } else { block_size(size) }
}

// The size of a block for so many bytes, its header with it.
fn block_size(size: u32) -> u64
    ensures value { result ≡ block_size size }
    ensures fits { result < size + WORD_SIZE + HEADER_SIZE }
{
    let word = WORD_SIZE as u64;
    (u64::from(size) + word - 1) / word * word + u64::from(HEADER_SIZE)
}

// Palette, light maps and flats.
ghost use Rattle.std.specs.Prelude.{◌≡◌, ◌<◌, ◌++◌, ◌*◌, ◌^◌, IfOk, OnOk};
ghost use Rattle.made_rules.specs.Pictures.{colour_bytes, colormap_byte, made_flat_byte, made_palette, made_colormaps, made_flat};

use made_rules::{COLORMAPS, COLOURS, FLAT_SIZE};
use std::alloc::{AllocError, Global};

/// The 256 colours, three bytes each.
#[tactic(auto, using(made_rules::proofs::BytesLemmas::filling), unfolding(made_rules::specs::Pictures::made_palette))]
pub fn palette(alloc: Global) -> Result<Vec<u8>, AllocError>
    ensures { IfOk result (λ lump. lump.items ≡ made_palette) }
{
    let mut lump = Vec::new(alloc);
    for i in 0..COLOURS {
        put_colour(&mut lump, i)?;
    }
    Ok(lump)
}

#[tactic(auto, unfolding(made_rules::specs::Pictures::colour_bytes))]
fn put_colour(lump: &mut Vec<u8>, i: u32) -> Result<(), AllocError>
    requires { i < COLOURS }
    ensures { OnOk result (lump.new.items ≡ lump.old.items ++ colour_bytes i) }
{
    lump.extend_from_slice(&[i as u8, (255 - i) as u8, (7 * i % 256) as u8])
}

/// The 32 light maps, from bright to dark, 256 bytes each.
#[tactic(auto, using(word_rules::proofs::ListedLemmas::listing), unfolding(made_rules::specs::Pictures::made_colormaps))]
pub fn colormaps(alloc: Global) -> Result<Vec<u8>, AllocError>
    ensures { IfOk result (λ lump. lump.items ≡ made_colormaps) }
{
    let mut lump = Vec::new(alloc);
    for k in 0..COLORMAPS * COLOURS {
        lump.push(colormap_byte(k))?;
    }
    Ok(lump)
}

#[tactic(auto, unfolding(made_rules::specs::Pictures::colormap_byte))]
fn colormap_byte(k: u32) -> u8
    requires { k < COLORMAPS * COLOURS }
    ensures { result ≡ colormap_byte k }
{
    (k % COLOURS * (COLORMAPS - k / COLOURS) / COLORMAPS) as u8
}

/// The 4096 bytes of a flat.
#[tactic(auto, using(word_rules::proofs::ListedLemmas::listing), unfolding(made_rules::specs::Pictures::made_flat))]
pub fn flat(alloc: Global, number: u32) -> Result<Vec<u8>, AllocError>
    requires { number < 2 ^ 8 }
    ensures { IfOk result (λ lump. lump.items ≡ made_flat number) }
{
    let mut lump = Vec::new(alloc);
    for k in 0..FLAT_SIZE {
        lump.push(made_flat_byte(number, k))?;
    }
    Ok(lump)
}

#[tactic(auto, unfolding(made_rules::specs::Pictures::made_flat_byte))]
fn made_flat_byte(number: u32, k: u32) -> u8
    requires flat { number < 2 ^ 8 }
    requires byte { k < FLAT_SIZE }
    ensures { result ≡ made_flat_byte number k }
{
    (k * (2 * number + 3) % 256) as u8
}

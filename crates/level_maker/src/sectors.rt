// The sectors of a made level.
ghost use Rattle.std.specs.Prelude.{◌≡◌, ◌<◌, ◌++◌, ◌*◌, ◌+◌, ◌^◌, bit_xor, OnOk};
ghost use Rattle.made_rules.specs.Maps.{sector_bytes, floor_height, ceiling_height, sector_light, floor_flat, has_made_sky, ceiling_name, flat_name};

use crate::bytes::put_halves;
use crate::cells::{made_column, made_row};
use made_rules::FLATS;
use std::alloc::AllocError;

/// A record of SECTORS.
#[tactic(auto, unfolding(made_rules::specs::Maps::sector_bytes))]
pub fn put_sector(lump: &mut Vec<u8>, side: u32, cell: u32) -> Result<(), AllocError>
    requires some { 0 < side }
    requires cell { cell < 2 ^ 16 }
    ensures { OnOk result (lump.new.items ≡ lump.old.items ++ sector_bytes side cell) }
{
    put_halves(
        lump,
        &[floor_height(side, cell), ceiling_height(side, cell)],
    )?;
    lump.extend_from_slice(&flat_name(floor_flat(side, cell)))?;
    lump.extend_from_slice(&ceiling_name(side, cell))?;
    put_halves(lump, &[sector_light(side, cell), 0, 0])
}

#[tactic(auto, unfolding(made_rules::specs::Maps::floor_height))]
fn floor_height(side: u32, cell: u32) -> u32
    requires some { 0 < side }
    requires cell { cell < 2 ^ 16 }
    ensures { result ≡ floor_height side cell }
{
    8 * ((made_column(side, cell) + 2 * made_row(side, cell)) % 4)
}

#[tactic(auto, unfolding(made_rules::specs::Maps::ceiling_height))]
fn ceiling_height(side: u32, cell: u32) -> u32
    requires some { 0 < side }
    requires cell { cell < 2 ^ 16 }
    ensures { result ≡ ceiling_height side cell }
{
    128 + 16 * ((2 * made_column(side, cell) + made_row(side, cell)) % 3)
}

#[tactic(auto, unfolding(made_rules::specs::Maps::sector_light))]
fn sector_light(side: u32, cell: u32) -> u32
    requires some { 0 < side }
    requires cell { cell < 2 ^ 16 }
    ensures { result ≡ sector_light side cell }
{
    96 + 16 * ((made_column(side, cell) + made_row(side, cell)) % 4)
}

// Which of the four flats the floor has.
#[tactic(auto, unfolding(made_rules::specs::Maps::floor_flat))]
fn floor_flat(side: u32, cell: u32) -> u32
    requires some { 0 < side }
    requires cell { cell < 2 ^ 16 }
    ensures value { result ≡ floor_flat side cell }
    ensures within { result < FLATS }
{
    (made_column(side, cell) + made_row(side, cell)) % FLATS
}

#[tactic(auto, unfolding(made_rules::specs::Maps::has_made_sky))]
fn has_made_sky(side: u32, cell: u32) -> bool
    requires some { 0 < side }
    requires cell { cell < 2 ^ 16 }
    ensures { result ≡ has_made_sky side cell }
{
    (made_column(side, cell) / 2 + made_row(side, cell) / 2) % 3 == 2
}

#[tactic(auto, unfolding(made_rules::specs::Maps::ceiling_name))]
fn ceiling_name(side: u32, cell: u32) -> [u8; 8]
    requires some { 0 < side }
    requires cell { cell < 2 ^ 16 }
    ensures { result ≡ ceiling_name side cell }
{
    if has_made_sky(side, cell) {
        *b"F_SKY1\0\0"
    } else {
        flat_name(partner(floor_flat(side, cell)))
    }
}

// The other flat of the pair that a flat is of.
fn partner(flat: u32) -> u32
    requires { flat < FLATS }
    ensures value { result ≡ bit_xor flat 1 }
    ensures within { result < FLATS }
{
    flat ^ 1
}

/// The name of a flat.
#[tactic(auto, unfolding(made_rules::specs::Maps::flat_name))]
pub fn flat_name(flat: u32) -> [u8; 8]
    requires { flat < FLATS }
    ensures { result ≡ flat_name flat }
{
    [b'F', b'L', b'A', b'T', b'0' + flat as u8, 0, 0, 0]
}

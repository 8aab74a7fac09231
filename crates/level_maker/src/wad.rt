// The made WAD file.
ghost use Rattle.std.specs.Prelude.{◌≡◌, ◌<◌, ◌≤◌, ◌*◌, ◌+◌, [], ◌∷◌, IfOk, OnOk};
ghost use Rattle.level_maker.specs.Rules.{WadParts, art_lumps, file_of, flat_lumps, level_lumps, listed, lump_of, made_flat_lump, made_wad, no_lumps, parts_of, patch_lumps, sprite_lumps, table_lumps, thing_lumps, tree_lumps, wall_lumps, with_lumps};

use crate::bytes::{put_size, put_word};
use crate::map::{MadeLump, made_lump};
use crate::nodes::nodes;
use crate::patches::patch;
use crate::pictures::{colormaps, flat, palette};
use crate::sectors::flat_name;
use crate::textures::{patch_names, textures};
use made_rules::{
    CELLS_PER_NUMBER, EDGES, FLATS, GRATE, HEAD_SIZE, LUMPS, MAX_NUMBER, Post, SKY, TREE, WALL,
    WALL_NARROW,
};
use std::alloc::{AllocError, Global};
use std::marker::Model;

// The lumps of a file that is being put together, and its directory.
#[derive(Drop)]
struct Wad {
    lumps: Vec<u8>,
    directory: Vec<u8>,
}

impl Model for Wad {
    ghost Value = { WadParts };

    ghost view = { λ w. parts_of w.lumps.items w.directory.items };
}

impl Wad {
    fn new(alloc: Global) -> Self
        ensures { result ≡ no_lumps }
    {
        Wad {
            lumps: Vec::new(alloc),
            directory: Vec::new(alloc),
        }
    }

    // Puts a lump, and its entry.
    #[tactic(auto, using(made_rules::proofs::WadLemmas::lump_steps))]
    fn add(&mut self, name: &[u8; 8], bytes: &[u8]) -> Result<(), AllocError>
        ensures { OnOk result (self.new ≡ with_lumps self.old (lump_of name.now bytes.now ∷ [])) }
    {
        put_size(&mut self.directory, HEAD_SIZE + self.lumps.len())?;
        put_size(&mut self.directory, bytes.len())?;
        self.directory.extend_from_slice(name)?;
        self.lumps.extend_from_slice(bytes)
    }

    // The whole file.
    #[tactic(auto, unfolding(made_rules::specs::Wads::file_of))]
    fn file(&self, alloc: Global) -> Result<Vec<u8>, AllocError>
        ensures { IfOk result (λ file. file.items ≡ file_of LUMPS self.now) }
    {
        let mut file = Vec::from_slice(alloc, b"IWAD")?;
        put_word(&mut file, LUMPS)?;
        put_size(&mut file, HEAD_SIZE + self.lumps.len())?;
        file.extend_from_slice(&self.lumps)?;
        file.extend_from_slice(&self.directory)?;
        Ok(file)
    }
}

/// The bytes of the made WAD file of number n: pictures, wall textures, and a level, MAP01, of 2 n by
/// 2 n cells.
///
/// Errors: `OutOfMemory` alone.
///
/// This project's own: the original has no such file.
#[tactic(auto, using(made_rules::proofs::WadLemmas::wad_steps))]
pub fn make_wad(alloc: Global, n: u32) -> Result<Vec<u8>, AllocError>
    requires least { 1 ≤ n }
    requires most { n ≤ MAX_NUMBER }
    ensures { IfOk result (λ file. file.items ≡ made_wad n) }
{
    let mut wad = Wad::new(alloc);
    add_art(alloc, &mut wad)?;
    add_level(alloc, &mut wad, CELLS_PER_NUMBER * n)?;
    wad.file(alloc)
}

#[tactic(auto, using(made_rules::proofs::WadLemmas::lump_steps))]
fn add_art(alloc: Global, wad: &mut Wad) -> Result<(), AllocError>
    ensures { OnOk result (wad.new ≡ with_lumps wad.old art_lumps) }
{
    add_tables(alloc, wad)?;
    add_patches(alloc, wad)?;
    add_flats(alloc, wad)?;
    add_sprites(alloc, wad)
}

#[tactic(auto, using(made_rules::proofs::WadLemmas::lump_steps))]
fn add_level(alloc: Global, wad: &mut Wad, side: u32) -> Result<(), AllocError>
    requires some { 0 < side }
    requires square { side ≤ CELLS_PER_NUMBER * MAX_NUMBER }
    ensures { OnOk result (wad.new ≡ with_lumps wad.old (level_lumps side)) }
{
    add_things(alloc, wad, side)?;
    add_walls(alloc, wad, side)?;
    add_tree(alloc, wad, side)
}

#[tactic(auto, using(made_rules::proofs::WadLemmas::lump_steps), unfolding(made_rules::specs::Wads::table_lumps))]
fn add_tables(alloc: Global, wad: &mut Wad) -> Result<(), AllocError>
    ensures { OnOk result (wad.new ≡ with_lumps wad.old table_lumps) }
{
    wad.add(b"PLAYPAL\0", &palette(alloc)?)?;
    wad.add(b"COLORMAP", &colormaps(alloc)?)?;
    wad.add(b"PNAMES\0\0", &patch_names(alloc)?)?;
    wad.add(b"TEXTURE1", &textures(alloc)?)
}

// The bytes of a column with one post of 128 rows, of one with two posts of 32 rows, and of one with
// one post of 64 rows.
const WALL_COLUMN: u32 = 133;

const GRATE_COLUMN: u32 = 73;

const TREE_COLUMN: u32 = 69;

#[tactic(auto, using(made_rules::proofs::WadLemmas::lump_steps), unfolding(made_rules::specs::Wads::patch_lumps, made_rules::specs::Pictures::column_size))]
fn add_patches(alloc: Global, wad: &mut Wad) -> Result<(), AllocError>
    ensures { OnOk result (wad.new ≡ with_lumps wad.old patch_lumps) }
{
    let whole = [Post {
        top: 0,
        length: 128,
    }];
    let grate = [
        Post { top: 0, length: 32 },
        Post {
            top: 96,
            length: 32,
        },
    ];
    wad.add(b"WPATA\0\0\0", &patch(alloc, WALL, &whole, WALL_COLUMN)?)?;
    wad.add(
        b"WPATB\0\0\0",
        &patch(alloc, WALL_NARROW, &whole, WALL_COLUMN)?,
    )?;
    wad.add(b"GRATP\0\0\0", &patch(alloc, GRATE, &grate, GRATE_COLUMN)?)?;
    wad.add(b"SKYP\0\0\0\0", &patch(alloc, SKY, &whole, WALL_COLUMN)?)
}

#[tactic(auto, using(made_rules::proofs::WadLemmas::lump_steps), unfolding(made_rules::specs::Wads::flat_lumps))]
fn add_flats(alloc: Global, wad: &mut Wad) -> Result<(), AllocError>
    ensures { OnOk result (wad.new ≡ with_lumps wad.old flat_lumps) }
{
    wad.add(b"F_START\0", b"")?;
    add_all_flats(alloc, wad)?;
    wad.add(b"F_END\0\0\0", b"")
}

#[tactic(auto, using(made_rules::proofs::WadLemmas::listed_lumps))]
fn add_all_flats(alloc: Global, wad: &mut Wad) -> Result<(), AllocError>
    ensures { OnOk result (wad.new ≡ with_lumps wad.old (listed made_flat_lump FLATS)) }
{
    for number in 0..FLATS {
        add_flat(alloc, wad, number)?;
    }
    Ok(())
}

#[tactic(auto, unfolding(made_rules::specs::Wads::made_flat_lump))]
fn add_flat(alloc: Global, wad: &mut Wad, number: u32) -> Result<(), AllocError>
    requires { number < FLATS }
    ensures { OnOk result (wad.new ≡ with_lumps wad.old (made_flat_lump number ∷ [])) }
{
    wad.add(&flat_name(number), &flat(alloc, number)?)
}

#[tactic(auto, using(made_rules::proofs::WadLemmas::lump_steps), unfolding(made_rules::specs::Wads::sprite_lumps, made_rules::specs::Pictures::column_size))]
fn add_sprites(alloc: Global, wad: &mut Wad) -> Result<(), AllocError>
    ensures { OnOk result (wad.new ≡ with_lumps wad.old sprite_lumps) }
{
    wad.add(b"S_START\0", b"")?;
    wad.add(
        b"TREEA0\0\0",
        &patch(alloc, TREE, &[Post { top: 0, length: 64 }], TREE_COLUMN)?,
    )?;
    wad.add(b"S_END\0\0\0", b"")
}

#[tactic(auto, using(made_rules::proofs::WadLemmas::lump_steps), unfolding(made_rules::specs::Wads::thing_lumps))]
fn add_things(alloc: Global, wad: &mut Wad, side: u32) -> Result<(), AllocError>
    requires some { 0 < side }
    requires square { side ≤ CELLS_PER_NUMBER * MAX_NUMBER }
    ensures { OnOk result (wad.new ≡ with_lumps wad.old (thing_lumps side)) }
{
    wad.add(b"MAP01\0\0\0", b"")?;
    wad.add(
        b"THINGS\0\0",
        &made_lump(alloc, MadeLump::Things, side, square(side))?,
    )
}

#[tactic(auto, using(made_rules::proofs::WadLemmas::lump_steps), unfolding(made_rules::specs::Wads::wall_lumps))]
fn add_walls(alloc: Global, wad: &mut Wad, side: u32) -> Result<(), AllocError>
    requires some { 0 < side }
    requires square { side ≤ CELLS_PER_NUMBER * MAX_NUMBER }
    ensures { OnOk result (wad.new ≡ with_lumps wad.old (wall_lumps side)) }
{
    let edges = EDGES * square(side);
    wad.add(
        b"LINEDEFS",
        &made_lump(alloc, MadeLump::Lines, side, edges)?,
    )?;
    wad.add(
        b"SIDEDEFS",
        &made_lump(alloc, MadeLump::Sides, side, edges)?,
    )?;
    wad.add(
        b"VERTEXES",
        &made_lump(alloc, MadeLump::Vertices, side, square(side + 1))?,
    )
}

#[tactic(auto, using(made_rules::proofs::WadLemmas::lump_steps), unfolding(made_rules::specs::Wads::tree_lumps))]
fn add_tree(alloc: Global, wad: &mut Wad, side: u32) -> Result<(), AllocError>
    requires some { 0 < side }
    requires square { side ≤ CELLS_PER_NUMBER * MAX_NUMBER }
    ensures { OnOk result (wad.new ≡ with_lumps wad.old (tree_lumps side)) }
{
    wad.add(
        b"SEGS\0\0\0\0",
        &made_lump(alloc, MadeLump::Segs, side, EDGES * square(side))?,
    )?;
    wad.add(
        b"SSECTORS",
        &made_lump(alloc, MadeLump::Leaves, side, square(side))?,
    )?;
    wad.add(b"NODES\0\0\0", &nodes(alloc, side)?)?;
    wad.add(
        b"SECTORS\0",
        &made_lump(alloc, MadeLump::Sectors, side, square(side))?,
    )
}

fn square(side: u32) -> u32
    requires { side ≤ 80 }
    ensures value { result ≡ side * side }
    ensures most { result ≤ 6400 }
{
    side * side
}

// The records of a made level.
ghost use Rattle.std.specs.Prelude.{◌≡◌, ◌<◌, ◌++◌, ◌*◌, ◌+◌, ◌^◌, IfOk, OnOk};
ghost use Rattle.level_maker.specs.Rules.{corner, has_grate, inner_name, leaf_bytes, line_bytes, line_flags, middle_name, next_edge, records, seg_bytes, side_bytes, thing_bytes, vertex_bytes, wall_name};
ghost use Rattle.level_maker.specs.Squares.{IsEdge, IsRecord, IsSquare, record_bytes};

use crate::bytes::{put_half, put_halves};
use crate::cells::{corner, edge_angle, is_inner, made_column, made_row, next_edge, side_across};
use crate::sectors::put_sector;
use made_rules::{CELL_SIZE, EDGES, LEVEL_THING, ONE_SIDED, THING_OPTIONS, TWO_SIDED};
use std::alloc::{AllocError, Global};

const UPPER_AND_LOWER: &[u8; 16] = b"WALL1\0\0\0WALL2\0\0\0";

/// The lumps of a made level that list records by number.
#[derive(Clone, Copy)]
pub enum MadeLump {
    /// THINGS: one in the middle of each cell.
    Things,
    /// LINEDEFS: the edges of each cell.
    Lines,
    /// SIDEDEFS: the front sides of the lines.
    Sides,
    /// VERTEXES: the corners of the cells, row by row.
    Vertices,
    /// SEGS: the lines seen from their cells.
    Segs,
    /// SSECTORS: the leaf of each cell.
    Leaves,
    /// SECTORS: the sector of each cell.
    Sectors,
}

/// The first `count` records of a lump.
#[tactic(auto, using(made_rules::proofs::BytesLemmas::filling))]
pub fn made_lump(
    alloc: Global,
    lump: MadeLump,
    side: u32,
    count: u32,
) -> Result<Vec<u8>, AllocError>
    requires square { IsSquare side }
    requires count { count < 2 ^ 16 }
    ensures { IfOk result (λ bytes. bytes.items ≡ records (record_bytes lump side) count) }
{
    let mut bytes = Vec::new(alloc);
    for k in 0..count {
        put_record(&mut bytes, lump, side, k)?;
    }
    Ok(bytes)
}

fn put_record(out: &mut Vec<u8>, lump: MadeLump, side: u32, k: u32) -> Result<(), AllocError>
    requires { IsRecord side k }
    ensures { OnOk result (out.new.items ≡ out.old.items ++ record_bytes lump side k) }
{
    match lump {
        MadeLump::Things => put_thing(out, side, k),
        MadeLump::Lines => put_line(out, side, k),
        MadeLump::Sides => put_side(out, side, k),
        MadeLump::Vertices => put_vertex(out, side, k),
        MadeLump::Segs => put_seg(out, side, k),
        MadeLump::Leaves => put_leaf(out, k),
        MadeLump::Sectors => put_sector(out, side, k),
    }
}

#[tactic(auto, unfolding(made_rules::specs::Maps::thing_bytes))]
fn put_thing(lump: &mut Vec<u8>, side: u32, cell: u32) -> Result<(), AllocError>
    requires some { 0 < side }
    requires cell { cell < 2 ^ 16 }
    ensures { OnOk result (lump.new.items ≡ lump.old.items ++ thing_bytes side cell) }
{
    let x = CELL_SIZE * made_column(side, cell) + CELL_SIZE / 2;
    let y = CELL_SIZE * made_row(side, cell) + CELL_SIZE / 2;
    let angle = 45 * ((made_column(side, cell) + made_row(side, cell)) % 8);
    put_halves(lump, &[x, y, angle, LEVEL_THING, THING_OPTIONS])
}

#[tactic(auto, unfolding(made_rules::specs::Maps::line_bytes))]
fn put_line(lump: &mut Vec<u8>, side: u32, k: u32) -> Result<(), AllocError>
    requires { IsRecord side k }
    ensures { OnOk result (lump.new.items ≡ lump.old.items ++ line_bytes side k) }
{
    let cell = k / EDGES;
    let edge = k % EDGES;
    let (from, to) = ends(side, cell, edge);
    let flags = line_flags(side, cell, edge);
    let back = side_across(side, cell, edge);
    put_halves(lump, &[from, to, flags, 0, 0, k, back])
}

// The vertices where an edge begins and ends.
fn ends(side: u32, cell: u32, edge: u32) -> (u32, u32)
    requires { IsEdge side cell edge }
    ensures from { result.0 ≡ corner side cell edge }
    ensures to { result.1 ≡ corner side cell (next_edge edge) }
{
    (
        corner(side, cell, edge),
        corner(side, cell, next_edge(edge)),
    )
}

#[tactic(auto, unfolding(made_rules::specs::Maps::line_flags))]
fn line_flags(side: u32, cell: u32, edge: u32) -> u32
    requires some { 0 < side }
    requires cell { cell < 2 ^ 16 }
    requires edge { edge < EDGES }
    ensures { result ≡ line_flags side cell edge }
{
    if is_inner(side, cell, edge) {
        TWO_SIDED
    } else {
        ONE_SIDED
    }
}

#[tactic(auto, unfolding(made_rules::specs::Maps::side_bytes))]
fn put_side(lump: &mut Vec<u8>, side: u32, k: u32) -> Result<(), AllocError>
    requires some { 0 < side }
    requires edge { k < 2 ^ 16 }
    ensures { OnOk result (lump.new.items ≡ lump.old.items ++ side_bytes side k) }
{
    let cell = k / EDGES;
    put_halves(lump, &[0, 0])?;
    lump.extend_from_slice(UPPER_AND_LOWER)?;
    lump.extend_from_slice(&middle_name(side, cell, k % EDGES))?;
    put_half(lump, cell)
}

#[tactic(auto, unfolding(made_rules::specs::Maps::middle_name))]
fn middle_name(side: u32, cell: u32, edge: u32) -> [u8; 8]
    requires some { 0 < side }
    requires cell { cell < 2 ^ 16 }
    requires edge { edge < EDGES }
    ensures { result ≡ middle_name side cell edge }
{
    if is_inner(side, cell, edge) {
        inner_name(side, cell, edge)
    } else {
        wall_name(side, cell)
    }
}

#[tactic(auto, unfolding(made_rules::specs::Maps::inner_name))]
fn inner_name(side: u32, cell: u32, edge: u32) -> [u8; 8]
    requires some { 0 < side }
    requires cell { cell < 2 ^ 16 }
    ensures { result ≡ inner_name side cell edge }
{
    if has_grate(side, cell, edge) {
        *b"GRATE\0\0\0"
    } else {
        *b"-\0\0\0\0\0\0\0"
    }
}

#[tactic(auto, unfolding(made_rules::specs::Maps::has_grate))]
fn has_grate(side: u32, cell: u32, edge: u32) -> bool
    requires some { 0 < side }
    requires cell { cell < 2 ^ 16 }
    ensures { result ≡ has_grate side cell edge }
{
    edge % 2 == 1 && (made_column(side, cell) / 2 + made_row(side, cell) / 2) % 2 == 1
}

#[tactic(auto, unfolding(made_rules::specs::Maps::wall_name))]
fn wall_name(side: u32, cell: u32) -> [u8; 8]
    requires some { 0 < side }
    requires cell { cell < 2 ^ 16 }
    ensures { result ≡ wall_name side cell }
{
    let odd = (made_column(side, cell) + made_row(side, cell)) % 2 == 1;
    if odd {
        *b"WALL2\0\0\0"
    } else {
        *b"WALL1\0\0\0"
    }
}

#[tactic(auto, unfolding(made_rules::specs::Maps::vertex_bytes))]
fn put_vertex(lump: &mut Vec<u8>, side: u32, k: u32) -> Result<(), AllocError>
    requires square { side < 2 ^ 8 }
    requires vertex { k < 2 ^ 16 }
    ensures { OnOk result (lump.new.items ≡ lump.old.items ++ vertex_bytes side k) }
{
    put_halves(
        lump,
        &[CELL_SIZE * (k % (side + 1)), CELL_SIZE * (k / (side + 1))],
    )
}

#[tactic(auto, unfolding(made_rules::specs::Maps::seg_bytes))]
fn put_seg(lump: &mut Vec<u8>, side: u32, k: u32) -> Result<(), AllocError>
    requires { IsRecord side k }
    ensures { OnOk result (lump.new.items ≡ lump.old.items ++ seg_bytes side k) }
{
    let edge = k % EDGES;
    let (from, to) = ends(side, k / EDGES, edge);
    put_halves(lump, &[from, to, edge_angle(edge), k, 0, 0])
}

#[tactic(auto, unfolding(made_rules::specs::Maps::leaf_bytes))]
fn put_leaf(lump: &mut Vec<u8>, cell: u32) -> Result<(), AllocError>
    requires { cell < 2 ^ 16 }
    ensures { OnOk result (lump.new.items ≡ lump.old.items ++ leaf_bytes cell) }
{
    put_halves(lump, &[EDGES, EDGES * cell])
}

// The nodes of a made level.
ghost use Rattle.std.specs.Prelude.{◌≡◌, ◌<◌, ◌≤◌, ◌++◌, ◌*◌, ◌+◌, ◌^◌, ◌/◌, true, false, IfOk, OnOk};
ghost use Rattle.made_rules.specs.Nodes.{IsPart, width, height, node_count, is_one_cell, divides_columns, made_middle_column, middle_row, front_part, back_part, line_halves, box_halves, child_number, node_bytes, part_nodes, made_nodes};

use crate::bytes::put_halves;
use made_rules::{CELL_SIZE, LEAF_MARK, Part};
use std::alloc::{AllocError, Global};

/// NODES: those of the whole square of cells.
#[tactic(auto, using(made_rules::proofs::NodeLemmas::node_parts), unfolding(made_rules::specs::Nodes::made_nodes))]
pub fn nodes(alloc: Global, side: u32) -> Result<Vec<u8>, AllocError>
    requires some { 0 < side }
    requires square { side < 2 ^ 8 }
    ensures { IfOk result (λ lump. lump.items ≡ made_nodes side) }
{
    let mut lump = Vec::new(alloc);
    put_nodes(
        &mut lump,
        side,
        0,
        Part {
            west: 0,
            east: side,
            south: 0,
            north: side,
        },
    )?;
    Ok(lump)
}

// Puts the nodes of a part, which begin at number `first`: those in front of its line, those behind
// it, and its own.
#[tactic(auto, using(made_rules::proofs::NodeLemmas::node_parts))]
fn put_nodes(lump: &mut Vec<u8>, side: u32, first: u32, part: Part) -> Result<(), AllocError>
    requires part { IsPart part }
    requires square { side < 2 ^ 8 }
    requires numbers { first + node_count part < 2 ^ 17 }
    ensures { OnOk result (lump.new.items ≡ lump.old.items ++ part_nodes side first part) }
{
    if is_one_cell(part) {
        return Ok(());
    }
    let Halves { front, back } = halves_of(part);
    put_nodes(lump, side, first, front)?;
    put_nodes(lump, side, first + node_count(front), back)?;
    put_node(lump, side, first, part)
}

#[tactic(auto, using(made_rules::proofs::NodeLemmas::node_parts), unfolding(made_rules::specs::Nodes::node_bytes))]
fn put_node(lump: &mut Vec<u8>, side: u32, first: u32, part: Part) -> Result<(), AllocError>
    requires part { IsPart part }
    requires divisible { is_one_cell part ≡ false }
    requires square { side < 2 ^ 8 }
    requires numbers { first + node_count part < 2 ^ 17 }
    ensures { OnOk result (lump.new.items ≡ lump.old.items ++ node_bytes side first part) }
{
    let Halves { front, back } = halves_of(part);
    put_line(lump, part)?;
    put_box(lump, front)?;
    put_box(lump, back)?;
    let front_child = child_number(side, first, front);
    let back_child = child_number(side, first + node_count(front), back);
    put_halves(lump, &[front_child, back_child])
}

#[tactic(auto, unfolding(made_rules::specs::Nodes::line_halves))]
fn put_line(lump: &mut Vec<u8>, part: Part) -> Result<(), AllocError>
    requires { IsPart part }
    ensures { OnOk result (lump.new.items ≡ lump.old.items ++ line_halves part) }
{
    if divides_columns(part) {
        let length = CELL_SIZE * (part.north - part.south);
        put_halves(
            lump,
            &[CELL_SIZE * middle(part), CELL_SIZE * part.south, 0, length],
        )
    } else {
        let length = CELL_SIZE * (part.east - part.west);
        put_halves(
            lump,
            &[CELL_SIZE * part.west, CELL_SIZE * middle(part), length, 0],
        )
    }
}

#[tactic(auto, unfolding(made_rules::specs::Nodes::box_halves))]
fn put_box(lump: &mut Vec<u8>, part: Part) -> Result<(), AllocError>
    requires { IsPart part }
    ensures { OnOk result (lump.new.items ≡ lump.old.items ++ box_halves part) }
{
    let top = CELL_SIZE * part.north;
    let bottom = CELL_SIZE * part.south;
    put_halves(
        lump,
        &[top, bottom, CELL_SIZE * part.west, CELL_SIZE * part.east],
    )
}

// The number of a child whose nodes begin at number `first`.
#[tactic(auto, using(made_rules::proofs::NodeLemmas::node_parts), unfolding(made_rules::specs::Nodes::child_number))]
fn child_number(side: u32, first: u32, part: Part) -> u32
    requires part { IsPart part }
    requires square { side < 2 ^ 8 }
    requires numbers { first + node_count part < 2 ^ 17 }
    ensures { result ≡ child_number side first part }
{
    if is_one_cell(part) {
        LEAF_MARK + (part.south * side + part.west)
    } else {
        first + node_count(part) - 1
    }
}

#[tactic(auto, unfolding(made_rules::specs::Nodes::node_count))]
fn node_count(part: Part) -> u32
    requires { IsPart part }
    ensures { result ≡ node_count part }
{
    (part.east - part.west) * (part.north - part.south) - 1
}

#[tactic(auto, unfolding(made_rules::specs::Nodes::is_one_cell))]
fn is_one_cell(part: Part) -> bool
    requires { IsPart part }
    ensures { result ≡ is_one_cell part }
{
    part.east - part.west == 1 && part.north - part.south == 1
}

#[tactic(auto, unfolding(made_rules::specs::Nodes::divides_columns))]
fn divides_columns(part: Part) -> bool
    requires { IsPart part }
    ensures { result ≡ divides_columns part }
{
    part.north - part.south <= part.east - part.west
}

// The column or the row of the line that divides a part.
#[tactic(auto, unfolding(made_rules::specs::Nodes::made_middle_column, made_rules::specs::Nodes::middle_row))]
fn middle(part: Part) -> u32
    requires { IsPart part }
    ensures column { divides_columns part ≡ true → result ≡ made_middle_column part }
    ensures row { divides_columns part ≡ false → result ≡ middle_row part }
    ensures most { result ≤ 2 ^ 8 }
{
    if divides_columns(part) {
        (part.west + part.east) / 2
    } else {
        (part.south + part.north) / 2
    }
}

// The two parts of a part: in front of its line the east or the south, behind it the west or the
// north.
#[derive(Clone, Copy)]
struct Halves {
    front: Part,
    back: Part,
}

#[tactic(auto, unfolding(made_rules::specs::Nodes::front_part, made_rules::specs::Nodes::back_part))]
fn halves_of(part: Part) -> Halves
    requires part { IsPart part }
    requires divisible { is_one_cell part ≡ false }
    ensures front { result.front ≡ front_part part }
    ensures back { result.back ≡ back_part part }
    ensures front_within { IsPart result.front }
    ensures back_within { IsPart result.back }
    ensures front_smaller { width result.front + height result.front < width part + height part }
    ensures back_smaller { width result.back + height result.back < width part + height part }
{
    let line = middle(part);
    if divides_columns(part) {
        Halves {
            front: Part { west: line, ..part },
            back: Part { east: line, ..part },
        }
    } else {
        Halves {
            front: Part {
                north: line,
                ..part
            },
            back: Part {
                south: line,
                ..part
            },
        }
    }
}

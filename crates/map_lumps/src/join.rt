// The segs and leaves of a level, with what they name by number joined to them. Rules:
// `level_rules/maps`, Levels.
ghost use Rattle.std.specs.Prelude.{◌≡◌, ◌<◌, true, length, map, IfOk, Option, None};
ghost use Rattle.map_lumps.specs.Rules.{back_sector, first_refusal, has_back, has_side, leaf_of, leaf_refusal, line_by, line_field, line_refusal, sector_of, seg_between, seg_field, seg_of, seg_refusal, vertex_by};

use crate::entries::{line_by, side_on};
use level_rules::{Leaf, MapLeaf, MapLine, MapSeg, MapVertex, NO_SIDE, Seg, Side, TWO_SIDED};
use std::alloc::{AllocError, Global};

// The segs of a level, of records that are not refused.
#[tactic(auto, using(level_rules::proofs::maps::JoinLemmas::joining))]
pub(crate) fn join_segs(
    alloc: Global,
    sides: &[Side],
    lines: &[MapLine],
    vertexes: &[MapVertex],
    segs: &[MapSeg],
) -> Result<Vec<Seg>, AllocError>
    requires lines { first_refusal (line_refusal (length sides.now)) 0 lines.now ≡ None }
    requires segs { first_refusal (seg_refusal (length vertexes.now) lines.now) 0 segs.now ≡ None }
    ensures { IfOk result (λ v. v.items ≡ map (seg_of sides.now lines.now vertexes.now) segs.now) }
{
    let mut joined = Vec::new(alloc);
    for seg in segs {
        joined.push(seg_of(sides, lines, vertexes, *seg))?;
    }
    Ok(joined)
}

// The leaves of a level, of records that are not refused, and its segs.
#[tactic(auto, using(level_rules::proofs::maps::JoinLemmas::joining))]
pub(crate) fn join_leaves(
    alloc: Global,
    segs: &[Seg],
    leaves: &[MapLeaf],
) -> Result<Vec<Leaf>, AllocError>
    requires { first_refusal (leaf_refusal (length segs.now)) 0 leaves.now ≡ None }
    ensures { IfOk result (λ v. v.items ≡ map (leaf_of segs.now) leaves.now) }
{
    let mut joined = Vec::new(alloc);
    for leaf in leaves {
        joined.push(leaf_of(segs, *leaf))?;
    }
    Ok(joined)
}

// A seg, whose vertices, line and side are there.
#[tactic(auto, using(level_rules::proofs::maps::RangeLemmas::segs_in_range), unfolding(level_rules::specs::maps::Levels::seg_of))]
fn seg_of(sides: &[Side], lines: &[MapLine], vertexes: &[MapVertex], seg: MapSeg) -> Seg
    requires seg { seg_field (length vertexes.now) lines.now seg ≡ None }
    requires line { line_field (length sides.now) (line_by lines.now seg.line) ≡ None }
    ensures { result ≡ seg_of sides.now lines.now vertexes.now seg }
{
    let line = line_by(lines, seg.line);
    let start = vertex_by(vertexes, seg.start);
    let end = vertex_by(vertexes, seg.end);
    seg_between(sides, line, start, end, seg)
}

// A seg of a line, between two vertices.
#[tactic(auto, using(level_rules::proofs::maps::RangeLemmas::segs_in_range), unfolding(level_rules::specs::maps::Levels::seg_between))]
fn seg_between(sides: &[Side], line: MapLine, v1: MapVertex, v2: MapVertex, seg: MapSeg) -> Seg
    requires line { line_field (length sides.now) line ≡ None }
    requires side { has_side line seg.side ≡ true }
    ensures { result ≡ seg_between sides.now line v1 v2 seg }
{
    let side = side_on(line, seg.side);
    Seg {
        x1: v1.x,
        y1: v1.y,
        x2: v2.x,
        y2: v2.y,
        angle: seg.angle,
        offset: seg.offset,
        flags: line.flags,
        side,
        front: sector_of(sides, side),
        back: back_sector(sides, line, seg.side),
    }
}

// The sector behind side 0 or 1 of a line, where one is seen.
#[tactic(auto, using(level_rules::proofs::maps::RangeLemmas::segs_in_range), unfolding(level_rules::specs::maps::Levels::back_sector))]
fn back_sector(sides: &[Side], line: MapLine, side: u16) -> Option<u16>
    requires line { line_field (length sides.now) line ≡ None }
    requires side { side < 2 }
    ensures { result ≡ back_sector sides.now line side }
{
    if has_back(line, side) {
        Some(sector_of(sides, side_on(line, 1 - side)))
    } else {
        None
    }
}

// Whether a sector is seen behind side 0 or 1 of a line.
#[tactic(auto, unfolding(level_rules::specs::maps::Levels::has_back))]
fn has_back(line: MapLine, side: u16) -> bool
    requires { side < 2 }
    ensures { result ≡ has_back line side }
{
    line.flags & TWO_SIDED != 0 && side_on(line, 1 - side) != NO_SIDE
}

// A leaf, whose first seg is there.
#[tactic(auto, using(level_rules::proofs::maps::RangeLemmas::segs_in_range), unfolding(level_rules::specs::maps::Levels::leaf_of))]
fn leaf_of(segs: &[Seg], leaf: MapLeaf) -> Leaf
    requires { leaf.first < length segs.now }
    ensures { result ≡ leaf_of segs.now leaf }
{
    Leaf {
        first: leaf.first,
        count: leaf.count,
        sector: segs[leaf.first as usize].front,
    }
}

// The number of a side's sector.
#[tactic(auto, unfolding(level_rules::specs::maps::Levels::sector_of))]
fn sector_of(sides: &[Side], n: u16) -> u16
    requires { n < length sides.now }
    ensures { result ≡ sector_of sides.now n }
{
    sides[n as usize].sector
}

// A vertex by its number.
#[tactic(auto, unfolding(level_rules::specs::maps::Levels::vertex_by))]
fn vertex_by(vertexes: &[MapVertex], n: u16) -> MapVertex
    requires { n < length vertexes.now }
    ensures { result ≡ vertex_by vertexes.now n }
{
    vertexes[n as usize]
}

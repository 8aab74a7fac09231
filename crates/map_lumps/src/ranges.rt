// The first number of a map that names nothing that is there. Rules: `level_rules/maps`, Ranges.
ghost use Rattle.std.specs.Prelude.{◌≡◌, ◌+◌, ◌<◌, ℕ, List, Option, Some, None};
ghost use Rattle.map_lumps.specs.Rules.{MapLine, MapRefusal, first_refusal, has_side, index_refusal, is_side, is_there, leaf_field, leaf_refusal, line_field, line_refusal, node_field, node_refusal, seg_field, seg_refusal, side_field, side_refusal};
ghost use Rattle.map_lumps.specs.declared.ranges.Counts.{Counts};

use crate::entries::{child_on, line_by, lump_no, side_on};
use level_rules::maps::layout::{
    LEAF_FIRST_FIELD, LINE_BACK_FIELD, LINE_FRONT_FIELD, NODE_CHILD_0_FIELD, NODE_CHILD_1_FIELD,
    SEG_END_FIELD, SEG_LINE_FIELD, SEG_SIDE_FIELD, SEG_START_FIELD, SIDE_SECTOR_FIELD,
};
use level_rules::{Child, MapLeaf, MapLine, MapLump, MapRefusal, MapSeg, NO_SIDE, Node, Side};

// How many records there are of each kind that others name.
#[derive(Clone, Copy)]
pub(crate) struct Counts {
    pub(crate) sides: usize,
    pub(crate) sectors: usize,
    pub(crate) vertexes: usize,
    pub(crate) segs: usize,
    pub(crate) leaves: usize,
    pub(crate) nodes: usize,
}

// A record that names others by number.
pub(crate) trait RangedRecord: Copy {
    ghost refusal_in: { Counts → List MapLine → ℕ → Self → Option MapRefusal };

    // What it names first that is not there, where it is record n and these are the lines.
    fn refusal(self, counts: Counts, lines: &[MapLine], n: u64) -> Option<MapRefusal>
        ensures { result ≡ refusal_in counts lines.now n self };
}

// The first of these records that names what is not there.
#[tactic(auto, using(level_rules::proofs::maps::FirstLemmas::first_refusals))]
pub(crate) fn first_refusal<R: RangedRecord>(
    counts: Counts,
    lines: &[MapLine],
    records: &[R],
) -> Option<MapRefusal>
    ensures { result ≡ first_refusal (R.refusal_in counts lines.now) 0 records.now }
{
    for (n, record) in records.iter().enumerate() {
        if let Some(refusal) = record.refusal(counts, lines, n as u64) {
            return Some(refusal);
        }
    }
    None
}

impl RangedRecord for MapLine {
    ghost refusal_in = { λ counts lines. line_refusal counts.sides };

    fn refusal(self, counts: Counts, _lines: &[MapLine], n: u64) -> Option<MapRefusal> {
        line_refusal(counts.sides, n, self)
    }
}

impl RangedRecord for Side {
    ghost refusal_in = { λ counts lines. side_refusal counts.sectors };

    fn refusal(self, counts: Counts, _lines: &[MapLine], n: u64) -> Option<MapRefusal> {
        side_refusal(counts.sectors, n, self)
    }
}

impl RangedRecord for MapSeg {
    ghost refusal_in = { λ counts lines. seg_refusal counts.vertexes lines };

    fn refusal(self, counts: Counts, lines: &[MapLine], n: u64) -> Option<MapRefusal> {
        seg_refusal(counts.vertexes, lines, n, self)
    }
}

impl RangedRecord for MapLeaf {
    ghost refusal_in = { λ counts lines. leaf_refusal counts.segs };

    fn refusal(self, counts: Counts, _lines: &[MapLine], n: u64) -> Option<MapRefusal> {
        leaf_refusal(counts.segs, n, self)
    }
}

impl RangedRecord for Node {
    ghost refusal_in = { λ counts lines. node_refusal counts.nodes counts.leaves };

    fn refusal(self, counts: Counts, _lines: &[MapLine], n: u64) -> Option<MapRefusal> {
        node_refusal(counts.nodes, counts.leaves, n, self)
    }
}

// The refusals of one record.

#[tactic(auto, unfolding(level_rules::specs::maps::Ranges::line_refusal))]
fn line_refusal(sides: usize, n: u64, line: MapLine) -> Option<MapRefusal>
    ensures { result ≡ line_refusal sides n line }
{
    index_refusal(MapLump::Linedefs, n, line_field(sides, line))
}

#[tactic(auto, unfolding(level_rules::specs::maps::Ranges::side_refusal))]
fn side_refusal(sectors: usize, n: u64, side: Side) -> Option<MapRefusal>
    ensures { result ≡ side_refusal sectors n side }
{
    index_refusal(MapLump::Sidedefs, n, side_field(sectors, side))
}

#[tactic(auto, unfolding(level_rules::specs::maps::Ranges::seg_refusal))]
fn seg_refusal(vertexes: usize, lines: &[MapLine], n: u64, seg: MapSeg) -> Option<MapRefusal>
    ensures { result ≡ seg_refusal vertexes lines.now n seg }
{
    index_refusal(MapLump::Segs, n, seg_field(vertexes, lines, seg))
}

#[tactic(auto, unfolding(level_rules::specs::maps::Ranges::leaf_refusal))]
fn leaf_refusal(segs: usize, n: u64, leaf: MapLeaf) -> Option<MapRefusal>
    ensures { result ≡ leaf_refusal segs n leaf }
{
    if leaf.count == 0 {
        return Some(MapRefusal::EmptyLeaf { leaf: n });
    }
    index_refusal(MapLump::Ssectors, n, leaf_field(segs, leaf))
}

#[tactic(auto, unfolding(level_rules::specs::maps::Ranges::node_refusal))]
fn node_refusal(nodes: usize, leaves: usize, n: u64, node: Node) -> Option<MapRefusal>
    ensures { result ≡ node_refusal nodes leaves n node }
{
    index_refusal(MapLump::Nodes, n, node_field(nodes, leaves, node))
}

#[tactic(auto, unfolding(level_rules::specs::maps::Ranges::index_refusal))]
fn index_refusal(lump: MapLump, n: u64, field: Option<u64>) -> Option<MapRefusal>
    ensures { result ≡ index_refusal lump n field }
{
    match field {
        Some(field) => Some(MapRefusal::Index {
            lump: lump_no(lump),
            record_no: n,
            field,
        }),
        None => None,
    }
}

// The first field of one record that is out of range.

#[tactic(auto, unfolding(level_rules::specs::maps::Ranges::line_field))]
fn line_field(sides: usize, line: MapLine) -> Option<u64>
    ensures { result ≡ line_field sides line }
{
    if !is_side(sides, line.front) {
        return Some(LINE_FRONT_FIELD);
    }
    if !is_side(sides, line.back) {
        return Some(LINE_BACK_FIELD);
    }
    None
}

#[tactic(auto, unfolding(level_rules::specs::maps::Ranges::is_side))]
fn is_side(sides: usize, number: u16) -> bool
    ensures { result ≡ is_side sides number }
{
    number == NO_SIDE || (number as usize) < sides
}

#[tactic(auto, unfolding(level_rules::specs::maps::Ranges::side_field))]
fn side_field(sectors: usize, side: Side) -> Option<u64>
    ensures { result ≡ side_field sectors side }
{
    if side.sector as usize >= sectors {
        return Some(SIDE_SECTOR_FIELD);
    }
    None
}

#[tactic(auto, unfolding(level_rules::specs::maps::Ranges::seg_field))]
fn seg_field(vertexes: usize, lines: &[MapLine], seg: MapSeg) -> Option<u64>
    ensures { result ≡ seg_field vertexes lines.now seg }
{
    if seg.start as usize >= vertexes {
        return Some(SEG_START_FIELD);
    }
    if seg.end as usize >= vertexes {
        return Some(SEG_END_FIELD);
    }
    if seg.line as usize >= lines.len() {
        return Some(SEG_LINE_FIELD);
    }
    if !has_side(line_by(lines, seg.line), seg.side) {
        return Some(SEG_SIDE_FIELD);
    }
    None
}

#[tactic(auto, unfolding(level_rules::specs::maps::Ranges::has_side))]
fn has_side(line: MapLine, side: u16) -> bool
    ensures { result ≡ has_side line side }
{
    side < 2 && side_on(line, side) != NO_SIDE
}

#[tactic(auto, unfolding(level_rules::specs::maps::Ranges::leaf_field))]
fn leaf_field(segs: usize, leaf: MapLeaf) -> Option<u64>
    ensures { result ≡ leaf_field segs leaf }
{
    if leaf.first as usize + leaf.count as usize > segs {
        return Some(LEAF_FIRST_FIELD);
    }
    None
}

#[tactic(auto, unfolding(level_rules::specs::maps::Ranges::node_field))]
fn node_field(nodes: usize, leaves: usize, node: Node) -> Option<u64>
    ensures { result ≡ node_field nodes leaves node }
{
    if !is_there(nodes, leaves, child_on(node, 0)) {
        return Some(NODE_CHILD_0_FIELD);
    }
    if !is_there(nodes, leaves, child_on(node, 1)) {
        return Some(NODE_CHILD_1_FIELD);
    }
    None
}

#[tactic(auto, unfolding(level_rules::specs::maps::Ranges::is_there))]
fn is_there(nodes: usize, leaves: usize, child: Child) -> bool
    ensures { result ≡ is_there nodes leaves child }
{
    match child {
        Child::Node(n) => (n as usize) < nodes,
        Child::Leaf(n) => (n as usize) < leaves,
    }
}

// The records of a map lump. Rules: `level_rules/maps`, Records.
ghost use Rattle.std.specs.Prelude.{◌≡◌, ◌<◌, ◌≤◌, ◌+◌, ◌*◌, ◌/◌, ℕ, List, length, IfOk};
ghost use Rattle.std.proofs.Common.{rules};
ghost use Rattle.map_lumps.specs.Rules.{LEAF_SIZE, LINE_SIZE, NODE_SIZE, SECTOR_SIZE, SEG_SIZE, SIDE_SIZE, THING_SIZE, VERTEX_SIZE, box_at, child_at, child_of, leaf_in, line_at, line_in, node_in, record_at, records_in, sector_in, seg_in, side_in, thing_in, vertex_in};

use crate::fields::{angle_field, fixed_at, half_at, name_field, signed_half_at};
use level_rules::maps::layout::*;
use level_rules::{
    Box4, Child, LEAF_BIT, MAX_RECORDS, MapLeaf, MapLine, MapSeg, MapVertex, Node, Partition4,
    Sector, Side, Thing,
};
use std::alloc::{AllocError, Global};
use word_rules::HALF_SIZE;

// A record of a map lump, which has `SIZE` bytes.
pub(crate) trait MapRecord: Sized + Drop {
    ghost SIZE: { ℕ };

    const SIZE: usize;

    ghost record_in: { List ℕ → Self };

    // The record in its bytes.
    fn read(entry: &[u8]) -> Self
        requires { length entry.now ≡ SIZE }
        ensures { result ≡ record_in entry.now };

    ghost has_bytes: { 0 < SIZE };
}

// The whole records of a lump. Bytes after the last of them are not read.
#[tactic(auto, using(word_rules::proofs::ListedLemmas::listing), unfolding(level_rules::specs::maps::Fields::records_in))]
pub(crate) fn read_records<R: MapRecord>(alloc: Global, bytes: &[u8]) -> Result<Vec<R>, AllocError>
    requires { length bytes.now / R.SIZE ≤ MAX_RECORDS }
    ensures items { IfOk result (λ v. v.items ≡ records_in R.record_in R.SIZE bytes.now) }
    ensures few { IfOk result (λ v. length v.items ≤ MAX_RECORDS) }
{
    let mut records = Vec::new(alloc);
    for n in 0..bytes.len() / R::SIZE {
        records.push(R::read(entry_at(bytes, R::SIZE, n)))?;
    }
    Ok(records)
}

// The bytes of record n, where each has `size` bytes.
#[tactic(auto, unfolding(level_rules::specs::maps::Fields::record_at))]
fn entry_at(bytes: &[u8], size: usize, n: usize) -> &[u8]
    requires { size * n + size ≤ length bytes.now }
    ensures value { result.now ≡ record_at size bytes.now n }
    ensures len { length result.now ≡ size }
{
    &bytes[size * n..][..size]
}

impl MapRecord for Thing {
    ghost SIZE = { THING_SIZE };

    const SIZE: usize = THING_SIZE;

    ghost record_in = { thing_in };

    #[tactic(auto, unfolding(level_rules::specs::maps::Records::thing_in))]
    fn read(entry: &[u8]) -> Thing {
        Thing {
            x: fixed_at(entry, THING_X),
            y: fixed_at(entry, THING_Y),
            angle: signed_half_at(entry, THING_ANGLE),
            kind: half_at(entry, THING_KIND),
            options: half_at(entry, THING_OPTIONS),
        }
    }

    ghost has_bytes = { Prim.search rules };
}

impl MapRecord for MapLine {
    ghost SIZE = { LINE_SIZE };

    const SIZE: usize = LINE_SIZE;

    ghost record_in = { line_in };

    #[tactic(auto, unfolding(level_rules::specs::maps::Records::line_in))]
    fn read(entry: &[u8]) -> MapLine {
        MapLine {
            flags: half_at(entry, LINE_FLAGS),
            front: half_at(entry, LINE_FRONT),
            back: half_at(entry, LINE_BACK),
        }
    }

    ghost has_bytes = { Prim.search rules };
}

impl MapRecord for Side {
    ghost SIZE = { SIDE_SIZE };

    const SIZE: usize = SIDE_SIZE;

    ghost record_in = { side_in };

    #[tactic(auto, unfolding(level_rules::specs::maps::Records::side_in))]
    fn read(entry: &[u8]) -> Side {
        Side {
            x_offset: fixed_at(entry, SIDE_X_OFFSET),
            y_offset: fixed_at(entry, SIDE_Y_OFFSET),
            top: name_field(entry, SIDE_TOP),
            bottom: name_field(entry, SIDE_BOTTOM),
            middle: name_field(entry, SIDE_MIDDLE),
            sector: half_at(entry, SIDE_SECTOR),
        }
    }

    ghost has_bytes = { Prim.search rules };
}

impl MapRecord for MapVertex {
    ghost SIZE = { VERTEX_SIZE };

    const SIZE: usize = VERTEX_SIZE;

    ghost record_in = { vertex_in };

    #[tactic(auto, unfolding(level_rules::specs::maps::Records::vertex_in))]
    fn read(entry: &[u8]) -> MapVertex {
        MapVertex {
            x: fixed_at(entry, VERTEX_X),
            y: fixed_at(entry, VERTEX_Y),
        }
    }

    ghost has_bytes = { Prim.search rules };
}

impl MapRecord for MapSeg {
    ghost SIZE = { SEG_SIZE };

    const SIZE: usize = SEG_SIZE;

    ghost record_in = { seg_in };

    #[tactic(auto, unfolding(level_rules::specs::maps::Records::seg_in))]
    fn read(entry: &[u8]) -> MapSeg {
        MapSeg {
            start: half_at(entry, SEG_START),
            end: half_at(entry, SEG_END),
            angle: angle_field(entry, SEG_ANGLE),
            line: half_at(entry, SEG_LINE),
            side: half_at(entry, SEG_SIDE),
            offset: fixed_at(entry, SEG_OFFSET),
        }
    }

    ghost has_bytes = { Prim.search rules };
}

impl MapRecord for MapLeaf {
    ghost SIZE = { LEAF_SIZE };

    const SIZE: usize = LEAF_SIZE;

    ghost record_in = { leaf_in };

    #[tactic(auto, unfolding(level_rules::specs::maps::Records::leaf_in))]
    fn read(entry: &[u8]) -> MapLeaf {
        MapLeaf {
            count: half_at(entry, LEAF_COUNT),
            first: half_at(entry, LEAF_FIRST),
        }
    }

    ghost has_bytes = { Prim.search rules };
}

impl MapRecord for Node {
    ghost SIZE = { NODE_SIZE };

    const SIZE: usize = NODE_SIZE;

    ghost record_in = { node_in };

    #[tactic(auto, unfolding(level_rules::specs::maps::Records::node_in))]
    fn read(entry: &[u8]) -> Node {
        Node {
            line: line_at(entry),
            boxes: [box_at(entry, NODE_BOX_0), box_at(entry, NODE_BOX_1)],
            children: [child_at(entry, NODE_CHILD_0), child_at(entry, NODE_CHILD_1)],
        }
    }

    ghost has_bytes = { Prim.search rules };
}

impl MapRecord for Sector {
    ghost SIZE = { SECTOR_SIZE };

    const SIZE: usize = SECTOR_SIZE;

    ghost record_in = { sector_in };

    #[tactic(auto, unfolding(level_rules::specs::maps::Records::sector_in))]
    fn read(entry: &[u8]) -> Sector {
        Sector {
            floor: fixed_at(entry, SECTOR_FLOOR),
            ceiling: fixed_at(entry, SECTOR_CEILING),
            floor_name: name_field(entry, SECTOR_FLOOR_NAME),
            ceiling_name: name_field(entry, SECTOR_CEILING_NAME),
            light: signed_half_at(entry, SECTOR_LIGHT),
        }
    }

    ghost has_bytes = { Prim.search rules };
}

// The partition line in a record of NODES.
#[tactic(auto, unfolding(level_rules::specs::maps::Records::line_at))]
fn line_at(entry: &[u8]) -> Partition4
    requires { length entry.now ≡ NODE_SIZE }
    ensures { result ≡ line_at entry.now }
{
    Partition4 {
        x: fixed_at(entry, NODE_X),
        y: fixed_at(entry, NODE_Y),
        dx: fixed_at(entry, NODE_DX),
        dy: fixed_at(entry, NODE_DY),
    }
}

// The box at `offset`.
#[tactic(auto, unfolding(level_rules::specs::maps::Records::box_at))]
fn box_at(entry: &[u8], offset: usize) -> Box4
    requires { offset + BOX_RIGHT + HALF_SIZE ≤ length entry.now }
    ensures { result ≡ box_at entry.now offset }
{
    Box4 {
        top: fixed_at(entry, offset + BOX_TOP),
        bottom: fixed_at(entry, offset + BOX_BOTTOM),
        left: fixed_at(entry, offset + BOX_LEFT),
        right: fixed_at(entry, offset + BOX_RIGHT),
    }
}

// The child at `offset`.
#[tactic(auto, unfolding(level_rules::specs::maps::Records::child_at))]
fn child_at(entry: &[u8], offset: usize) -> Child
    requires { offset + HALF_SIZE ≤ length entry.now }
    ensures { result ≡ child_at entry.now offset }
{
    child_of(half_at(entry, offset))
}

// The child of a number, in which the leaf bit marks a leaf.
#[tactic(auto, unfolding(level_rules::specs::maps::Records::child_of))]
fn child_of(number: u16) -> Child
    ensures { result ≡ child_of number }
{
    if number < LEAF_BIT {
        Child::Node(number)
    } else {
        Child::Leaf(number - LEAF_BIT)
    }
}

// What is refused of a map.
use crate::{MAX_DEPTH, MAX_RECORDS};
use thiserror::Error;

/// What is wrong with a map, the first of these in their order.
///
/// `lump` is the number of a `MapLump`, 0 to 7; records, leaves, nodes and fields count from 0.
///
/// - `NoMap`: the label or one of the eight lumps behind it is not there.
/// - `Size`: the lump has more than `MAX_RECORDS` whole records.
/// - `NoLeaf`: there is no leaf.
/// - `Index`: the number in that field names nothing that is there.
/// - `EmptyLeaf`: the leaf has no seg.
/// - `NodeTwice`: the node is reached a second time from the root.
/// - `TooDeep`: the node is reached, and more than `MAX_DEPTH` deep.
///
/// This project's own: the original checks none of this.
#[derive(Clone, Copy, Debug, PartialEq, Eq, Error)]
pub enum MapRefusal {
    #[error("no WAD has the map's label with the eight lumps THINGS to SECTORS behind it")]
    NoMap,
    #[error("{name} has more than {most} records", name = lump_name(*.lump), most = MAX_RECORDS)]
    Size {
        lump: u64,
    },
    #[error("SSECTORS has no record")]
    NoLeaf,
    #[error("{name} record {record_no}: field {field} names nothing that is there", name = lump_name(*.lump))]
    Index {
        lump: u64,
        record_no: u64,
        field: u64,
    },
    #[error("SSECTORS record {leaf} has no seg")]
    EmptyLeaf {
        leaf: u64,
    },
    #[error("NODES record {node} is reached a second time from the root")]
    NodeTwice {
        node: u64,
    },
    #[error("NODES record {node} is more than {most} deep", most = MAX_DEPTH)]
    TooDeep {
        node: u64,
    },
}

// The name of the map lump of a number.
fn lump_name(lump: u64) -> &'static str {
    match lump {
        0 => "THINGS",
        1 => "LINEDEFS",
        2 => "SIDEDEFS",
        3 => "VERTEXES",
        4 => "SEGS",
        5 => "SSECTORS",
        6 => "NODES",
        _ => "SECTORS",
    }
}

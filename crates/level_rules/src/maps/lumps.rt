// The eight map lumps, and the marks and limits of their numbers.

/// A map lump; they stand in this order behind the map's label.
///
/// The original: ML_THINGS to ML_SECTORS, doomdata.h.
#[derive(Clone, Copy)]
pub enum MapLump {
    Things,
    Linedefs,
    Sidedefs,
    Vertexes,
    Segs,
    Ssectors,
    Nodes,
    Sectors,
}

/// The most records of a map lump, so that each has a number below `NO_SIDE`.
///
/// This project's own: the original sets no limit.
pub const MAX_RECORDS: usize = 65535;

/// The number of a side that is not there. The original reads it as -1.
pub const NO_SIDE: u16 = 65535;

/// The bit of a child's number that marks a leaf. The original: NF_SUBSECTOR, doomdata.h.
pub const LEAF_BIT: u16 = 32768;

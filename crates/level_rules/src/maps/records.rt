// The records that name others by number, before they are joined to a level.

/// A line: its flags, and the numbers of its sides, `NO_SIDE` where one is not there.
///
/// The original: maplinedef_t, doomdata.h.
#[derive(Clone, Copy)]
pub struct MapLine {
    pub flags: u16,
    pub front: u16,
    pub back: u16,
}

/// A vertex: map units, 16.16 fixed point.
///
/// The original: mapvertex_t, doomdata.h.
#[derive(Clone, Copy)]
pub struct MapVertex {
    pub x: i32,
    pub y: i32,
}

/// A seg: the numbers of its vertices and its line, and which side of the line it is, 0 or 1.
///
/// `angle` is BAM; `offset` is map units, 16.16 fixed point. The original: mapseg_t, doomdata.h.
#[derive(Clone, Copy)]
pub struct MapSeg {
    pub start: u16,
    pub end: u16,
    pub angle: u32,
    pub line: u16,
    pub side: u16,
    pub offset: i32,
}

/// A leaf (subsector): `count` segs from number `first` on.
///
/// The original: mapsubsector_t, doomdata.h.
#[derive(Clone, Copy)]
pub struct MapLeaf {
    pub count: u16,
    pub first: u16,
}

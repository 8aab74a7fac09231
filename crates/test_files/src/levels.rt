// Levels for tests, each a WAD of one map, MAP02, to stand beside the made one. Each leaf has a sector
// of its own, with its ceiling at 128; each wall is a line, a side with WALL1 and a seg.

use crate::wads::{put_halves, wad_of};
use std::alloc::{AllocError, Global};

// Where a line has no second side.
const NO_SIDE: u16 = 65535;

// A child of a node that is a leaf.
const LEAF: u16 = 0x8000;

const MINUS_8: u16 = 0u16.wrapping_sub(8);

const MINUS_128: u16 = 0u16.wrapping_sub(128);

const MINUS_256: u16 = 0u16.wrapping_sub(256);

// The lumps of a level that is put together, record by record, and how many walls and leaves it has.
#[derive(Drop)]
struct Level {
    lines: Vec<u8>,
    sides: Vec<u8>,
    vertices: Vec<u8>,
    segs: Vec<u8>,
    leaves: Vec<u8>,
    nodes: Vec<u8>,
    sectors: Vec<u8>,
    wall_count: u16,
    leaf_count: u16,
}

impl Level {
    fn new(alloc: Global) -> Level {
        Level {
            lines: Vec::new(alloc),
            sides: Vec::new(alloc),
            vertices: Vec::new(alloc),
            segs: Vec::new(alloc),
            leaves: Vec::new(alloc),
            nodes: Vec::new(alloc),
            sectors: Vec::new(alloc),
            wall_count: 0,
            leaf_count: 0,
        }
    }

    // A wall of the next leaf, from one vertex to another.
    fn add_wall(&mut self, from: u16, to: u16, angle: u16) -> Result<(), AllocError> {
        let wall = self.wall_count;
        put_halves(&mut self.lines, &[from, to, 1, 0, 0, wall, NO_SIDE])?;
        self.sides
            .extend_from_slice(b"\0\0\0\0-\0\0\0\0\0\0\0-\0\0\0\0\0\0\0WALL1\0\0\0")?;
        put_halves(&mut self.sides, &[self.leaf_count])?;
        put_halves(&mut self.segs, &[from, to, angle, wall, 0, 0])?;
        self.wall_count = wall.wrapping_add(1);
        Ok(())
    }

    // The leaf of the walls from that one on, with these flats.
    fn add_leaf(
        &mut self,
        first: u16,
        floor: u16,
        flats: &[u8; 16],
        light: u16,
    ) -> Result<(), AllocError> {
        put_halves(
            &mut self.leaves,
            &[self.wall_count.wrapping_sub(first), first],
        )?;
        put_halves(&mut self.sectors, &[floor, 128])?;
        self.sectors.extend_from_slice(flats)?;
        put_halves(&mut self.sectors, &[light, 0, 0])?;
        self.leaf_count = self.leaf_count.wrapping_add(1);
        Ok(())
    }

    // The whole file.
    fn file(&self, alloc: Global) -> Result<Vec<u8>, AllocError> {
        let lumps = [
            ("MAP02", b"".as_slice()),
            ("THINGS", b"".as_slice()),
            ("LINEDEFS", self.lines.as_slice()),
            ("SIDEDEFS", self.sides.as_slice()),
            ("VERTEXES", self.vertices.as_slice()),
            ("SEGS", self.segs.as_slice()),
            ("SSECTORS", self.leaves.as_slice()),
            ("NODES", self.nodes.as_slice()),
            ("SECTORS", self.sectors.as_slice()),
        ];
        wad_of(alloc, &lumps)
    }
}

/// A room of one leaf, from -256 to 256 both ways, its floor at 0 and its ceiling at 128, of light
/// 160. Its east wall comes first. `flats` has the names of its floor's flat and its ceiling's.
pub fn room_wad(alloc: Global, flats: &[u8; 16]) -> Result<Vec<u8>, AllocError> {
    let mut room = Box::new(alloc, Level::new(alloc))?;
    put_halves(&mut room.vertices, &[256, 256, 256, MINUS_256])?;
    put_halves(&mut room.vertices, &[MINUS_256, MINUS_256, MINUS_256, 256])?;
    room.add_wall(0, 1, 49152)?;
    room.add_wall(1, 2, 32768)?;
    room.add_wall(2, 3, 16384)?;
    room.add_wall(3, 0, 0)?;
    room.add_leaf(0, 0, flats, 160)?;
    room.file(alloc)
}

/// A hall of that many leaves in a row to the east, each 128 long, 256 wide and 128 high, its floor
/// at 0. Leaf c has light c; a 65th has light 63, and its floor at -8.
pub fn hall_wad(alloc: Global, leaves: u16) -> Result<Vec<u8>, AllocError> {
    let mut hall = Box::new(alloc, Level::new(alloc))?;
    for leaf in 0..leaves {
        put_hall_leaf(&mut hall, leaf, leaves)?;
    }
    put_end(&mut hall.vertices, leaves)?;
    put_hall_nodes(&mut hall.nodes, leaves)?;
    hall.file(alloc)
}

// Where a leaf of the hall begins: the first at -64.
fn hall_x(leaf: u16) -> u16 {
    leaf.wrapping_mul(128).wrapping_sub(64)
}

// The two vertices in the west of a leaf, to the north and to the south.
fn put_end(vertices: &mut Vec<u8>, leaf: u16) -> Result<(), AllocError> {
    put_halves(vertices, &[hall_x(leaf), 128, hall_x(leaf), MINUS_128])
}

// A leaf with its walls: to the north and the south, and at the ends of the hall.
fn put_hall_leaf(hall: &mut Level, leaf: u16, leaves: u16) -> Result<(), AllocError> {
    put_end(&mut hall.vertices, leaf)?;
    let first = hall.wall_count;
    let north = leaf.wrapping_mul(2);
    let east = north.wrapping_add(2);
    hall.add_wall(north, east, 0)?;
    hall.add_wall(east.wrapping_add(1), north.wrapping_add(1), 32768)?;
    if leaf == 0 {
        hall.add_wall(1, 0, 16384)?;
    }
    if leaf.wrapping_add(1) == leaves {
        hall.add_wall(east, east.wrapping_add(1), 49152)?;
    }
    let (floor, light) = if leaf == 64 { (MINUS_8, 63) } else { (0, leaf) };
    hall.add_leaf(first, floor, b"FLAT0\0\0\0FLAT0\0\0\0", light)
}

// The nodes, the last of them the root: each parts one leaf in the west from all east of it.
fn put_hall_nodes(nodes: &mut Vec<u8>, leaves: u16) -> Result<(), AllocError> {
    for node in 1..leaves {
        let west = leaves.wrapping_sub(node).wrapping_sub(1);
        let x = hall_x(west.wrapping_add(1));
        put_halves(nodes, &[x, MINUS_128, 0, 256])?;
        put_halves(nodes, &[128, MINUS_128, x, hall_x(leaves)])?;
        put_halves(nodes, &[128, MINUS_128, hall_x(west), x])?;
        put_children(nodes, node, west.wrapping_add(1), west)?;
    }
    Ok(())
}

// The children of a node, numbered from 1: the node before, in the first one a leaf; and a leaf.
fn put_children(nodes: &mut Vec<u8>, node: u16, last: u16, leaf: u16) -> Result<(), AllocError> {
    let inner = if node == 1 {
        LEAF | last
    } else {
        node.wrapping_sub(2)
    };
    put_halves(nodes, &[inner, LEAF | leaf])
}

/// A chain of nodes over that many leaves, each of whose boxes goes from -256 to 256 both ways. All
/// leaves have the wall from (256, -256) to (256, 256), which is seen from the east alone; leaf c
/// has light c.
pub fn chain_wad(alloc: Global, leaves: u16) -> Result<Vec<u8>, AllocError> {
    let mut chain = Box::new(alloc, Level::new(alloc))?;
    put_halves(&mut chain.vertices, &[256, MINUS_256, 256, 256])?;
    for leaf in 0..leaves {
        chain.add_wall(0, 1, 16384)?;
        chain.add_leaf(leaf, 0, b"FLAT0\0\0\0FLAT0\0\0\0", leaf)?;
    }
    put_chain_nodes(&mut chain.nodes, leaves)?;
    chain.file(alloc)
}

fn put_chain_nodes(nodes: &mut Vec<u8>, leaves: u16) -> Result<(), AllocError> {
    let around = [256, MINUS_256, MINUS_256, 256];
    for node in 1..leaves {
        put_halves(nodes, &[0, MINUS_256, 0, 512])?;
        put_halves(nodes, &around)?;
        put_halves(nodes, &around)?;
        put_children(nodes, node, 0, node)?;
    }
    Ok(())
}

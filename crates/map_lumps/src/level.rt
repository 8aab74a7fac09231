// A level: its lists, with everything that they name by number in range. Rules: `level_rules/maps`,
// Levels and Sound.
ghost use Rattle.std.specs.Prelude.{◌≡◌};
ghost use Rattle.map_lumps.specs.Rules.{IsSound, LevelValue};
ghost use Rattle.map_lumps.specs.Views.{level_value};

use level_rules::{Child, Leaf, Node, Sector, Seg, Side, Thing};
use std::marker::Model;

/// The things, sides, segs, leaves, nodes and sectors of a level, and the root of its nodes.
///
/// Each number in it names an entry that is there, and its nodes are a tree at most `MAX_DEPTH`
/// deep: that is the clause `sound` of each of its calls. It owns its lists, each of at most
/// `MAX_RECORDS` entries; no call takes memory. The original: the lists of p_setup.c.
pub struct Level {
    pub(crate) things: Vec<Thing>,
    pub(crate) sides: Vec<Side>,
    pub(crate) segs: Vec<Seg>,
    pub(crate) leaves: Vec<Leaf>,
    pub(crate) nodes: Vec<Node>,
    pub(crate) root: Child,
    pub(crate) sectors: Vec<Sector>,
}

// By hand, so that a drop of one is one call.
impl Drop for Level {
    fn drop(self) {
        let Level {
            things: _,
            sides: _,
            segs: _,
            leaves: _,
            nodes: _,
            root: _,
            sectors: _,
        } = self;
    }
}

impl Model for Level {
    ghost Value = { LevelValue };

    ghost view = { level_value };

    ghost invariant = { λ l. IsSound (level_value l) };
}

impl Level {
    /// The things, in the order of their lump.
    pub fn things(&self) -> &[Thing]
        ensures value { result.now ≡ self.now.things }
        ensures sound { IsSound self.now }
    {
        self.things.as_slice()
    }

    /// The sides of all lines.
    ///
    /// Each has a sector that is there.
    pub fn sides(&self) -> &[Side]
        ensures value { result.now ≡ self.now.sides }
        ensures sound { IsSound self.now }
    {
        self.sides.as_slice()
    }

    /// The segs, with the points, flags, side and sectors that belong to them.
    ///
    /// Each has a side and a sector in front that are there, and the sector behind, where it has
    /// one, is there too.
    pub fn segs(&self) -> &[Seg]
        ensures value { result.now ≡ self.now.segs }
        ensures sound { IsSound self.now }
    {
        self.segs.as_slice()
    }

    /// The leaves (subsectors), at least one.
    ///
    /// Each has at least one seg, its segs are there, and so is its sector.
    pub fn leaves(&self) -> &[Leaf]
        ensures value { result.now ≡ self.now.leaves }
        ensures sound { IsSound self.now }
    {
        self.leaves.as_slice()
    }

    /// The nodes.
    ///
    /// The children of each are there, and those under the root are a tree.
    pub fn nodes(&self) -> &[Node]
        ensures value { result.now ≡ self.now.nodes }
        ensures sound { IsSound self.now }
    {
        self.nodes.as_slice()
    }

    /// The sectors.
    pub fn sectors(&self) -> &[Sector]
        ensures value { result.now ≡ self.now.sectors }
        ensures sound { IsSound self.now }
    {
        self.sectors.as_slice()
    }

    /// The root of the nodes: the last of them, or leaf 0 where there is none.
    pub fn root(&self) -> Child
        ensures value { result ≡ self.now.root }
        ensures sound { IsSound self.now }
    {
        self.root
    }
}

// The records of all eight lumps, and the level that they give. Rules: `level_rules/maps`, Levels.
ghost use Rattle.std.specs.Prelude.{◌≡◌, OnOk, IfOk, Option, Some, None, Ok, Err};
ghost use Rattle.map_lumps.specs.Rules.{IsSound, MapRefusal, joined_leaves, joined_level, joined_segs, level_from, no_leaf_refusal, range_refusal, records_refusal, root_of};

use crate::fault::MapFault;
use crate::join::{join_leaves, join_segs};
use crate::level::Level;
use crate::ranges::{Counts, first_refusal};
use crate::tree::{check_tree, root_of};
use level_rules::{
    Child, Leaf, MapLeaf, MapLine, MapRefusal, MapSeg, MapVertex, Node, Sector, Seg, Side, Thing,
};
use std::alloc::{AllocError, Global};
use std::marker::Model;

// The records of each lump, as they are read; of none more than `MAX_RECORDS`.
#[derive(Drop)]
pub(crate) struct MapLists {
    pub(crate) things: Vec<Thing>,
    pub(crate) lines: Vec<MapLine>,
    pub(crate) sides: Vec<Side>,
    pub(crate) vertexes: Vec<MapVertex>,
    pub(crate) segs: Vec<MapSeg>,
    pub(crate) leaves: Vec<MapLeaf>,
    pub(crate) nodes: Vec<Node>,
    pub(crate) sectors: Vec<Sector>,
}

impl Model for MapLists {
    ghost use Rattle.level_rules.specs.maps.Levels.{MapRecords};

    ghost Value = { MapRecords };

    ghost use Rattle.level_rules.specs.maps.Sound.{HasFewRecords};
    ghost use Rattle.map_lumps.specs.Views.{listed_records};

    ghost view = { listed_records };

    ghost invariant = { λ l. HasFewRecords (listed_records l) };
}

impl MapLists {
    // The level, unless something is refused.
    #[tactic(auto, unfolding(level_rules::specs::maps::Levels::level_from, level_rules::specs::maps::Levels::unless))]
    pub(crate) fn level(self, alloc: Global) -> Result<Level, MapFault>
        ensures ok { IfOk result (λ level. level_from self ≡ Ok level) }
        ensures refused { (r : MapRefusal) → result ≡ Err (MapFault.Refused r) →
            level_from self ≡ Err r }
        ensures sound { IfOk result IsSound }
    {
        self.check(alloc)?;
        Ok(self.joined(alloc)?)
    }

    // The level of records that are not refused.
    fn joined(self, alloc: Global) -> Result<Level, AllocError>
        requires { records_refusal self ≡ None }
        ensures value { IfOk result (λ level. level ≡ joined_level self) }
        ensures sound { IfOk result IsSound }
    {
        let segs = self.joined_segs(alloc)?;
        let leaves = self.joined_leaves(alloc, &segs)?;
        let root = self.root();
        let MapLists {
            things,
            lines: _,
            sides,
            vertexes: _,
            segs: _,
            leaves: _,
            nodes,
            sectors,
        } = self;
        Ok(Level {
            things,
            sides,
            segs,
            leaves,
            nodes,
            sectors,
            root,
        })
    }

    // The segs of the level.
    #[tactic(auto, unfolding(level_rules::specs::maps::Levels::joined_segs))]
    fn joined_segs(&self, alloc: Global) -> Result<Vec<Seg>, AllocError>
        requires { records_refusal self.now ≡ None }
        ensures { IfOk result (λ v. v.items ≡ joined_segs self.now) }
    {
        join_segs(alloc, &self.sides, &self.lines, &self.vertexes, &self.segs)
    }

    // The leaves of the level, which has these segs.
    #[tactic(auto, unfolding(level_rules::specs::maps::Levels::joined_leaves))]
    fn joined_leaves(&self, alloc: Global, segs: &[Seg]) -> Result<Vec<Leaf>, AllocError>
        requires right { records_refusal self.now ≡ None }
        requires segs { segs.now ≡ joined_segs self.now }
        ensures { IfOk result (λ v. v.items ≡ joined_leaves self.now) }
    {
        join_leaves(alloc, segs, &self.leaves)
    }

    // The root of the level.
    fn root(&self) -> Child
        ensures { result ≡ root_of self.now.nodes }
    {
        root_of(&self.nodes)
    }

    // Whether nothing is refused, and else what is.
    #[tactic(auto, unfolding(level_rules::specs::maps::Levels::records_refusal))]
    fn check(&self, alloc: Global) -> Result<(), MapFault>
        ensures ok { OnOk result (records_refusal self.now ≡ None) }
        ensures refused { (r : MapRefusal) → result ≡ Err (MapFault.Refused r)
            → records_refusal self.now ≡ Some r }
    {
        if let Some(refusal) = self.no_leaf_refusal() {
            return Err(MapFault::Refused(refusal));
        }
        if let Some(refusal) = self.range_refusal() {
            return Err(MapFault::Refused(refusal));
        }
        check_tree(alloc, &self.nodes)
    }

    // The refusal of a map without a leaf.
    #[tactic(auto, unfolding(level_rules::specs::maps::Levels::no_leaf_refusal))]
    fn no_leaf_refusal(&self) -> Option<MapRefusal>
        ensures { result ≡ no_leaf_refusal self.now.leaves }
    {
        if self.leaves.is_empty() {
            return Some(MapRefusal::NoLeaf);
        }
        None
    }

    // The first number that is out of range.
    #[tactic(auto, unfolding(level_rules::specs::maps::Levels::range_refusal))]
    fn range_refusal(&self) -> Option<MapRefusal>
        ensures { result ≡ range_refusal self.now }
    {
        let counts = Counts {
            sides: self.sides.len(),
            sectors: self.sectors.len(),
            vertexes: self.vertexes.len(),
            segs: self.segs.len(),
            leaves: self.leaves.len(),
            nodes: self.nodes.len(),
        };
        if let Some(refusal) = first_refusal(counts, &self.lines, &self.lines) {
            return Some(refusal);
        }
        if let Some(refusal) = first_refusal(counts, &self.lines, &self.sides) {
            return Some(refusal);
        }
        if let Some(refusal) = first_refusal(counts, &self.lines, &self.segs) {
            return Some(refusal);
        }
        if let Some(refusal) = first_refusal(counts, &self.lines, &self.leaves) {
            return Some(refusal);
        }
        first_refusal(counts, &self.lines, &self.nodes)
    }
}

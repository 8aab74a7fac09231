// A level built from its lumps, one after the other. Rules: `level_rules/maps`, Lumps and Levels.
ghost use Rattle.std.specs.Prelude.{◌≡◌, ◌↔◌, false, OnOk, OnErr, IfOk, Option, Some, None, Ok, Err};
ghost use Rattle.map_lumps.specs.Rules.{IsSound, MapRefusal, level_from, size_refusal};
ghost use Rattle.map_lumps.specs.Builders.{all_added, empty_builder, is_added, with_lump};

use crate::fault::MapFault;
use crate::level::Level;
use crate::lists::MapLists;
use crate::records::read_records;
use crate::sizes::size_refusal;
use level_rules::{
    MapLeaf, MapLine, MapLump, MapRefusal, MapSeg, MapVertex, Node, Sector, Side, Thing,
};
use std::alloc::Global;
use std::marker::Model;

/// The records of the map lumps that were added so far.
///
/// It owns them, and keeps no lump's bytes. The original: P_SetupLevel, p_setup.c, which loads the
/// lumps in a fixed order.
pub struct LevelBuilder {
    things: Option<Vec<Thing>>,
    lines: Option<Vec<MapLine>>,
    sides: Option<Vec<Side>>,
    vertexes: Option<Vec<MapVertex>>,
    segs: Option<Vec<MapSeg>>,
    leaves: Option<Vec<MapLeaf>>,
    nodes: Option<Vec<Node>>,
    sectors: Option<Vec<Sector>>,
}

// By hand, so that a drop of one is one call.
impl Drop for LevelBuilder {
    fn drop(self) {
        let LevelBuilder {
            things: _,
            lines: _,
            sides: _,
            vertexes: _,
            segs: _,
            leaves: _,
            nodes: _,
            sectors: _,
        } = self;
    }
}

impl Model for LevelBuilder {
    ghost use Rattle.map_lumps.specs.Builders.{BuilderValue};

    ghost Value = { BuilderValue };

    ghost use Rattle.level_rules.specs.maps.Sound.{HasFewRecords};
    ghost use Rattle.map_lumps.specs.Views.{added_records, builder_value};

    ghost view = { builder_value };

    ghost invariant = { λ b. HasFewRecords (added_records b) };
}

impl LevelBuilder {
    /// A builder to which nothing is added. Takes no memory.
    #[tactic(auto, unfolding(crate::specs::Builders::empty_builder))]
    pub fn new() -> LevelBuilder
        ensures { result ≡ empty_builder }
    {
        LevelBuilder {
            things: None,
            lines: None,
            sides: None,
            vertexes: None,
            segs: None,
            leaves: None,
            nodes: None,
            sectors: None,
        }
    }

    /// Adds the records of one lump, which was not added yet.
    ///
    /// `bytes` are the whole lump's; those after its last whole record are not read, and no number
    /// in it is checked. Takes memory for the records.
    ///
    /// Errors: `Size` exactly where the lump has more than `MAX_RECORDS` whole records, whatever
    /// else is added, and no other refusal; `OutOfMemory`. After both the builder is as before, so
    /// the lump counts as not added.
    ///
    /// The original: P_LoadThings, P_LoadLineDefs, P_LoadSideDefs, P_LoadVertexes, P_LoadSegs,
    /// P_LoadSubsectors, P_LoadNodes, P_LoadSectors, p_setup.c.
    #[tactic(auto, unfolding(crate::specs::Builders::with_lump, crate::specs::Builders::with_records, level_rules::specs::maps::Lumps::lump_no, level_rules::specs::maps::Lumps::record_size, level_rules::specs::maps::Records::things_in, level_rules::specs::maps::Records::lines_in, level_rules::specs::maps::Records::sides_in, level_rules::specs::maps::Records::vertexes_in, level_rules::specs::maps::Records::segs_in, level_rules::specs::maps::Records::leaves_in, level_rules::specs::maps::Records::nodes_in, level_rules::specs::maps::Records::sectors_in))]
    pub fn add(&mut self, alloc: Global, lump: MapLump, bytes: &[u8]) -> Result<(), MapFault>
        requires { is_added self.old lump ≡ false }
        ensures ok { OnOk result (self.new ≡ with_lump self.old lump bytes.now) }
        ensures size { (r : MapRefusal) → (result ≡ Err (MapFault.Refused r))
            ↔ (size_refusal lump bytes.now ≡ Some r) }
        ensures err { OnErr result (self.new ≡ self.old) }
    {
        if let Some(refusal) = size_refusal(lump, bytes) {
            return Err(MapFault::Refused(refusal));
        }
        match lump {
            MapLump::Things => self.things = Some(read_records(alloc, bytes)?),
            MapLump::Linedefs => self.lines = Some(read_records(alloc, bytes)?),
            MapLump::Sidedefs => self.sides = Some(read_records(alloc, bytes)?),
            MapLump::Vertexes => self.vertexes = Some(read_records(alloc, bytes)?),
            MapLump::Segs => self.segs = Some(read_records(alloc, bytes)?),
            MapLump::Ssectors => self.leaves = Some(read_records(alloc, bytes)?),
            MapLump::Nodes => self.nodes = Some(read_records(alloc, bytes)?),
            MapLump::Sectors => self.sectors = Some(read_records(alloc, bytes)?),
        }
        Ok(())
    }

    /// The level of the eight lumps, which were all added; the builder is given up.
    ///
    /// Takes memory for the segs and leaves, and a mark a node while the tree is walked. The walk
    /// calls itself at most `MAX_DEPTH` deep, and comes to no node twice.
    ///
    /// Errors: `Refused` with the first refusal, in this order: `NoLeaf`; `Index` and `EmptyLeaf`,
    /// over LINEDEFS, SIDEDEFS, SEGS, SSECTORS and NODES, record by record and field by field;
    /// `NodeTwice` and `TooDeep`, in preorder from the root. A level is given only where nothing is
    /// refused. `OutOfMemory` says nothing of the lumps.
    ///
    /// The original: P_SetupLevel and P_GroupLines, p_setup.c. This project's own: all refusals.
    pub fn finish(self, alloc: Global) -> Result<Level, MapFault>
        requires { self.added ≡ all_added }
        ensures ok { IfOk result (λ level. level_from self.map_records ≡ Ok level) }
        ensures refused { (r : MapRefusal) → result ≡ Err (MapFault.Refused r)
            → level_from self.map_records ≡ Err r }
        ensures sound { IfOk result IsSound }
    {
        self.lists().level(alloc)
    }

    // The lists of all eight lumps.
    fn lists(self) -> MapLists
        requires { self.added ≡ all_added }
        ensures { result ≡ self.map_records }
    {
        let LevelBuilder {
            things,
            lines,
            sides,
            vertexes,
            segs,
            leaves,
            nodes,
            sectors,
        } = self;
        MapLists {
            things: things.unwrap(),
            lines: lines.unwrap(),
            sides: sides.unwrap(),
            vertexes: vertexes.unwrap(),
            segs: segs.unwrap(),
            leaves: leaves.unwrap(),
            nodes: nodes.unwrap(),
            sectors: sectors.unwrap(),
        }
    }
}

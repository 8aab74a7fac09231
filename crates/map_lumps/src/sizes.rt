// How many records a lump may have. Rules: `level_rules/maps`, Lumps.
ghost use Rattle.std.specs.Prelude.{◌≡◌, ◌<◌, ◌≤◌, ◌/◌, length, Option, None};
ghost use Rattle.level_rules.specs.maps.Lumps.{record_size, size_refusal};

use crate::entries::lump_no;
use level_rules::maps::layout::{
    LEAF_SIZE, LINE_SIZE, NODE_SIZE, SECTOR_SIZE, SEG_SIZE, SIDE_SIZE, THING_SIZE, VERTEX_SIZE,
};
use level_rules::{MAX_RECORDS, MapLump, MapRefusal};

// The refusal of a lump with too many whole records.
#[tactic(auto, unfolding(level_rules::specs::maps::Lumps::size_refusal))]
pub(crate) fn size_refusal(lump: MapLump, bytes: &[u8]) -> Option<MapRefusal>
    ensures value { result ≡ size_refusal lump bytes.now }
    ensures few { result ≡ None → length bytes.now / record_size lump ≤ MAX_RECORDS }
{
    if bytes.len() / record_size(lump) > MAX_RECORDS {
        return Some(MapRefusal::Size {
            lump: lump_no(lump),
        });
    }
    None
}

// The bytes of a record.
#[tactic(auto, unfolding(level_rules::specs::maps::Lumps::record_size))]
fn record_size(lump: MapLump) -> usize
    ensures value { result ≡ record_size lump }
    ensures some { 0 < result }
{
    match lump {
        MapLump::Things => THING_SIZE,
        MapLump::Linedefs => LINE_SIZE,
        MapLump::Sidedefs => SIDE_SIZE,
        MapLump::Vertexes => VERTEX_SIZE,
        MapLump::Segs => SEG_SIZE,
        MapLump::Ssectors => LEAF_SIZE,
        MapLump::Nodes => NODE_SIZE,
        MapLump::Sectors => SECTOR_SIZE,
    }
}

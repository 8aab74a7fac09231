// A request for a block, and a block given back.
ghost use Rattle.std.specs.Prelude.{◌≡◌, ◌<◌, ◌≤◌, ◌-◌, ◌^◌, ◌==◌, length, IsSome, IsErr, IfOk, IfErr, false};
ghost use Rattle.std.specs.Result.{result_ok};
ghost use Rattle.zone_heap.specs.Rules.{IsSound, Lacks, after_search, block_size, count_among, first_room, free_owner, join_free, owned_block, owner_at, passed_blocks, place_around, stretches};
ghost use Rattle.zone_heap.specs.Headers.{owner_in};
ghost use Rattle.zone_heap.specs.Regions.{blocks_in, IsLaid, IsRing};
ghost use Rattle.zone_heap.specs.Homes.{IsSlot, AreExact, AreHome, AreAlike};
ghost use Rattle.zone_heap.specs.Asks.{heap_at, IsPlaced};
ghost use Rattle.zone_heap.specs.Walks.{widest_from};

use crate::edits::{join, link, place_in, ring_place, take};
use crate::headers::{FREE_OWNER, Used};
use crate::homes::{Homes, free_at};
use crate::search::search;
use crate::zone::ZoneFull;

/// What a slot asks for: the size of its block with the header, and what its header says.
#[derive(Clone, Copy)]
pub struct Request {
    pub wanted: u64,
    pub used: Used,
}

/// What came of a request: the place of the new block, if a gap holds it, the rover, and how many
/// blocks were purged.
#[derive(Clone, Copy)]
pub struct Outcome {
    pub place: Result<usize, ZoneFull>,
    pub rover: usize,
    pub purges: u64,
}

/// Gives a block to an empty slot, where a gap holds it.
pub fn serve(region: &mut [u8], homes: &mut Homes, rover: usize, request: Request) -> Outcome
    requires sound { IsSound (heap_at region.old homes.old rover) }
    requires laid { IsLaid region.old }
    requires some { 0 < length region.old }
    requires small { length region.old < 2 ^ 32 }
    requires few { homes.old.lumps ≤ length homes.old.list.items }
    requires exact { AreExact homes.old (blocks_in region.old) }
    requires wanted { request.wanted ≡ block_size request.used.asked }
    requires live { (request.used.owner == FREE_OWNER) ≡ false }
    requires owner { request.used.owner < 2 ^ 32 }
    requires tag { request.used.tag < 2 ^ 32 }
    requires slot { IsSlot homes.old (owner_in request.used.owner) }
    requires empty { Lacks (owner_in request.used.owner) (blocks_in region.old) }
    ensures ring { IsRing region.new }
    ensures len { length region.new ≡ length region.old }
    ensures slots { AreAlike homes.old homes.new }
    ensures exact { AreExact homes.new (blocks_in region.new) }
    ensures place { first_room request.wanted (stretches rover (blocks_in region.old))
        ≡ result_ok result.place }
    ensures full { IfErr result.place (λ full. (full.wanted ≡ request.wanted)
        × (full.widest ≡ widest_from 0 0 (blocks_in region.old))) }
    ensures purges { result.purges
        ≡ count_among (passed_blocks request.wanted (stretches rover (blocks_in region.old)))
        (blocks_in region.old) }
    ensures none { IsErr result.place → (blocks_in region.new
        ≡ after_search request.wanted (heap_at region.old homes.old rover))
        × (result.rover ≡ place_around rover 0 (blocks_in region.new)) }
    ensures some { IfOk result.place (λ p. IsPlaced (heap_at region.old homes.old rover)
        request.wanted request.used p (blocks_in region.new) result.rover) }
    ensures bound { result.rover ≤ length region.old }
{
    let room = search(region, homes, rover, request.wanted);
    match room.place {
        Err(full) => {
            link(region);
            Outcome {
                place: Err(full),
                rover: place_in(region, rover),
                purges: room.purges,
            }
        }
        Ok(place) => {
            let next = take(region, place, request.wanted as u32, request.used);
            link(region);
            homes.set(request.used.owner, place as u32);
            Outcome {
                place: Ok(place),
                rover: ring_place(next, region.len()),
                purges: room.purges,
            }
        }
    }
}

/// Frees the block of a live slot, and joins it with its free neighbours.
pub fn release(region: &mut [u8], homes: &mut Homes, kind: u8, number: u32)
    requires laid { IsLaid region.old }
    requires some { 0 < length region.old }
    requires small { length region.old < 2 ^ 32 }
    requires home { AreHome homes.old (blocks_in region.old) }
    requires slot { IsSlot homes.old (owner_at kind number) }
    requires live { IsSome (owned_block (owner_at kind number) (blocks_in region.old)) }
    ensures ring { IsRing region.new }
    ensures len { length region.new ≡ length region.old }
    ensures slots { AreAlike homes.old homes.new }
    ensures home { AreHome homes.new (blocks_in region.new) }
    ensures blocks { blocks_in region.new
        ≡ join_free (free_owner (owner_at kind number) (blocks_in region.old)) }
{
    let home = homes.of(kind, number);
    free_at(region, homes, home as usize);
    join(region);
    link(region);
}

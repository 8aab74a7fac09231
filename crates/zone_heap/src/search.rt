// Where a request finds room, and which blocks it purges.
ghost use Rattle.std.specs.Prelude.{◌≡◌, ◌<◌, ◌+◌, ◌++◌, ◌^◌, length, IfOk, IfErr, option_map, drop, take, map, count_by};
ghost use Rattle.std.specs.Result.{result_ok};
ghost use Rattle.zone_heap.specs.Rules.{RoomAt, count_among, first_room, is_purgeable, join_free, passed_blocks, purge_among, purge_block, stretches};
ghost use Rattle.zone_heap.specs.Homes.{AreHome, AreAlike};
ghost use Rattle.std.specs.List.{position_or_len};
ghost use Rattle.zone_heap.specs.Walks.{CanSearch, fit_from, widest_from, starts_at, SearchIs};
ghost use Rattle.zone_heap.specs.Regions.{blocks_in, blocks_from, IsLaid, IsSplit};

use crate::edits::join;
use crate::headers::header_at;
use crate::homes::{Homes, free_at};
use crate::zone::ZoneFull;

/// A run of blocks that holds a request: the place of its first block, and how many blocks from the
/// start of the search end with its least front.
#[derive(Clone, Copy)]
pub struct Fit {
    pub place: usize,
    pub end: usize,
}

/// The first run of blocks without a pinned one whose sizes add up to what is wanted, from a block
/// on.
pub fn first_fit(region: &[u8], from: usize, wanted: u64) -> Option<Fit>
    requires split { IsSplit region.now from }
    requires small { length region.now < 2 ^ 32 }
    ensures value { (s : IsSplit region.now from) → option_map (λ f. (f.place, f.end)) result
        ≡ fit_from wanted 0 0 0 (blocks_from from s.rest) }
{
    let mut at = from;
    let mut place: usize = 0;
    let mut sum: u64 = 0;
    let mut end: usize = 0;
    while at < region.len() {
        let header = header_at(region, at);
        end += 1;
        if header.is_pinned() {
            sum = 0;
        } else {
            if sum == 0 {
                place = at;
            }
            sum += u64::from(header.size);
            if wanted <= sum {
                return Some(Fit { place, end });
            }
        }
        at += header.size as usize;
    }
    None
}

/// The block at which a search starts: the free block before the rover, or the rover's.
pub fn start_place(region: &[u8], rover: usize) -> usize
    requires laid { IsLaid region.now }
    requires small { length region.now < 2 ^ 32 }
    ensures split { (s : IsSplit region.now result) × (length s.front
        ≡ position_or_len (starts_at rover) (blocks_in region.now)) }
{
    let mut at: usize = 0;
    while at < region.len() {
        let header = header_at(region, at);
        if header.starts_search(at, rover) {
            return at;
        }
        at += header.size as usize;
    }
    at
}

/// The size of the widest gap.
fn widest_gap(region: &[u8]) -> u64
    requires laid { IsLaid region.now }
    requires small { length region.now < 2 ^ 32 }
    ensures { result ≡ widest_from 0 0 (blocks_in region.now) }
{
    let mut at: usize = 0;
    let mut best: u64 = 0;
    let mut run: u64 = 0;
    while at < region.len() {
        let header = header_at(region, at);
        if header.is_pinned() {
            run = 0;
        } else {
            run += u64::from(header.size);
            best = best.max(run);
        }
        at += header.size as usize;
    }
    best
}

/// Frees the purgeable blocks among so many from a block on, and says how many they were.
pub fn purge(region: &mut [u8], homes: &mut Homes, from: usize, most: usize) -> u64
    requires split { IsSplit region.old from }
    requires small { length region.old < 2 ^ 32 }
    requires home { AreHome homes.old (blocks_in region.old) }
    ensures laid { IsLaid region.new }
    ensures len { length region.new ≡ length region.old }
    ensures slots { AreAlike homes.old homes.new }
    ensures home { AreHome homes.new (blocks_in region.new) }
    ensures blocks { (s : IsSplit region.old from) → blocks_in region.new
        ≡ blocks_from 0 s.front
        ++ (map purge_block (take most (blocks_from from s.rest))
        ++ drop most (blocks_from from s.rest)) }
    ensures count { (s : IsSplit region.old from) → result
        ≡ count_by is_purgeable (take most (blocks_from from s.rest)) }
    ensures bound { result < 2 ^ 32 }
{
    let mut at = from;
    let mut passed: usize = 0;
    let mut count: u64 = 0;
    while at < region.len() && passed < most {
        let header = header_at(region, at);
        if header.is_purgeable() {
            free_at(region, homes, at);
            count += 1;
        }
        at += header.size as usize;
        passed += 1;
    }
    count
}

/// What a search came to: where a run begins that holds, if there is one, and how many blocks were
/// purged.
#[derive(Clone, Copy)]
pub struct Room {
    pub place: Result<usize, ZoneFull>,
    pub purges: u64,
}

/// Looks for a run of blocks that holds what is wanted, from the rover on and then from the front,
/// and purges what it goes over.
fn clear_way(region: &mut [u8], homes: &mut Homes, rover: usize, wanted: u64) -> Room
    requires { CanSearch homes.old rover wanted region.old }
    ensures laid { IsLaid region.new }
    ensures len { length region.new ≡ length region.old }
    ensures slots { AreAlike homes.old homes.new }
    ensures home { AreHome homes.new (blocks_in region.new) }
    ensures search { SearchIs wanted rover (blocks_in region.old) (result_ok result.place)
        (blocks_in region.new) result.purges }
    ensures room { IfOk result.place (λ p. RoomAt p wanted (join_free (blocks_in region.new))) }
    ensures full { IfErr result.place (λ full. (full.wanted ≡ wanted)
        × (full.widest ≡ widest_from 0 0 (blocks_in region.old))) }
{
    let start = start_place(region, rover);
    let all = region.len();
    if let Some(fit) = first_fit(region, start, wanted) {
        let purges = purge(region, homes, start, fit.end);
        return Room {
            place: Ok(fit.place),
            purges,
        };
    }
    if let Some(fit) = first_fit(region, 0, wanted) {
        let later = purge(region, homes, start, all);
        let earlier = purge(region, homes, 0, fit.end);
        return Room {
            place: Ok(fit.place),
            purges: later + earlier,
        };
    }
    let widest = widest_gap(region);
    let purges = purge(region, homes, 0, all);
    Room {
        place: Err(ZoneFull { wanted, widest }),
        purges,
    }
}

/// Looks for room, purges what it goes over, and joins free neighbours.
pub fn search(region: &mut [u8], homes: &mut Homes, rover: usize, wanted: u64) -> Room
    requires { CanSearch homes.old rover wanted region.old }
    ensures laid { IsLaid region.new }
    ensures len { length region.new ≡ length region.old }
    ensures slots { AreAlike homes.old homes.new }
    ensures home { AreHome homes.new (blocks_in region.new) }
    ensures place { first_room wanted (stretches rover (blocks_in region.old))
        ≡ result_ok result.place }
    ensures blocks { blocks_in region.new
        ≡ join_free (purge_among (passed_blocks wanted (stretches rover (blocks_in
        region.old))) (blocks_in region.old)) }
    ensures purges { result.purges
        ≡ count_among (passed_blocks wanted (stretches rover (blocks_in region.old)))
        (blocks_in region.old) }
    ensures room { IfOk result.place (λ p. RoomAt p wanted (blocks_in region.new)) }
    ensures full { IfErr result.place (λ full. (full.wanted ≡ wanted)
        × (full.widest ≡ widest_from 0 0 (blocks_in region.old))) }
{
    let room = clear_way(region, homes, rover, wanted);
    join(region);
    room
}

// What the blocks of each sort add up to.
ghost use Rattle.std.specs.Prelude.{◌≡◌, ◌<◌, ◌≤◌, ◌^◌, length, if◌then◌else◌};
ghost use Rattle.zone_rules.specs.Zones.{used_size, purgeable_size, free_size};
ghost use Rattle.zone_heap.specs.Regions.{blocks_in, IsLaid};

use crate::headers::header_at;

/// Bytes of the pinned, of the purgeable and of the free blocks.
#[derive(Clone, Copy)]
pub struct Sums {
    pub pinned: u32,
    pub purgeable: u32,
    pub free: u32,
}

/// The size of a block that counts, or 0.
fn size_if(counts: bool, size: u32) -> u32
    ensures value { result ≡ (if counts then size else 0) }
    ensures most { result ≤ size }
{
    if counts { size } else { 0 }
}

/// What the blocks of each sort add up to.
pub fn add_up(region: &[u8]) -> Sums
    requires laid { IsLaid region.now }
    requires small { length region.now < 2 ^ 32 }
    ensures pinned { result.pinned ≡ used_size (blocks_in region.now) }
    ensures purgeable { result.purgeable ≡ purgeable_size (blocks_in region.now) }
    ensures free { result.free ≡ free_size (blocks_in region.now) }
{
    let mut at: usize = 0;
    let mut pinned: u32 = 0;
    let mut purgeable: u32 = 0;
    let mut free: u32 = 0;
    while at < region.len() {
        let header = header_at(region, at);
        pinned += size_if(header.is_pinned(), header.size);
        purgeable += size_if(header.is_purgeable(), header.size);
        free += size_if(header.is_free(), header.size);
        at += header.size as usize;
    }
    Sums {
        pinned,
        purgeable,
        free,
    }
}

// Requests of a small zone, and what they purge.
ghost use Rattle.std.specs.Prelude.{◌≡◌};

use std::alloc::Global;
use zone_heap::*;

// Whether a zone of that size is made, or refused for its size.
fn is_made(alloc: Global, size: u32) -> Option<bool> {
    match Zone::new(alloc, size, 2, 2) {
        Ok(_) => Some(true),
        Err(ZoneMake::BadSize) => Some(false),
        Err(ZoneMake::OutOfMemory) => None,
    }
}

#[test]
fn a_zone_has_a_size_in_range_and_of_whole_words(rt: HostRuntime) {
    let alloc = rt.alloc();
    let made = [is_made(alloc, 60), is_made(alloc, 64), is_made(alloc, 4098)];
    assert_eq!(rt; made, [Some(false), Some(true), Some(false)]);
}

// What a zone answers, once blocks for 100 and for 3900 bytes were taken, to a request: the
// two numbers where it is full, which of the two blocks stand, and the figures.
#[derive(Clone, Copy, Debug, PartialEq, Eq)]
struct Answer {
    full: Option<(u64, u64)>,
    stand: (bool, bool),
    figures: ZoneFigures,
}

fn asked(alloc: Global, first: Tag, second: Tag, size: u32) -> Option<Answer> {
    let zone = Zone::new(alloc, 4096, 2, 2).ok()?;
    let mut zone = Box::new(alloc, zone).ok()?;
    asked_in(&mut zone, first, second, size)
}

// The same, of this zone, which is empty.
fn asked_in(zone: &mut Zone, first: Tag, second: Tag, size: u32) -> Option<Answer>
    requires { (zone.old.lumps ≡ 2) × (zone.old.composites ≡ 2) }
{
    let one: Slot<LumpKind> = Slot::new(0);
    let two: Slot<LumpKind> = Slot::new(1);
    let third: Slot<CompositeKind> = Slot::new(0);
    if zone.is_live(one) || zone.malloc(one, 100, first).is_err() || zone.is_live(two) {
        return None;
    }
    if zone.malloc(two, 3900, second).is_err() || zone.is_live(third) {
        return None;
    }
    let full = match zone.malloc(third, size, Tag::Static) {
        Ok(()) => None,
        Err(full) => Some((full.wanted, full.widest)),
    };
    Some(Answer {
        full,
        stand: (zone.is_live(one), zone.is_live(two)),
        figures: zone.figures(),
    })
}

// Used, purgeable and free bytes, and purges.
fn figures(counts: [u32; 4]) -> ZoneFigures {
    let [used, purgeable, free, purges] = counts;
    ZoneFigures {
        used,
        purgeable,
        free,
        purges: purges as u64,
    }
}

#[test]
fn a_request_purges_what_it_passes_and_no_more(rt: HostRuntime) {
    let (cache, level, fixed) = (Tag::Cache, Tag::Level, Tag::Static);
    let no_gap = Some((32, 0));
    let one_gap = Some((5024, 4096));
    for (first, second, size, full, stand, counts) in [
        (cache, fixed, 8, None, (false, true), [4004, 0, 92, 1]),
        (fixed, level, 8, no_gap, (true, true), [4096, 0, 0, 0]),
        (cache, cache, 8, None, (false, true), [32, 3972, 92, 1]),
        (cache, cache, 200, None, (false, false), [224, 0, 3872, 2]),
        (cache, cache, 5000, one_gap, (false, false), [0, 0, 4096, 2]),
    ] {
        let answer = Answer {
            full,
            stand,
            figures: figures(counts),
        };
        assert_eq!(rt; asked(rt.alloc(), first, second, size), Some(answer));
    }
}

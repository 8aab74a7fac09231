// Two parts of the region at once: one to be read, one to be written.
ghost use Rattle.std.specs.Prelude.{◌≡◌, ◌≤◌, ◌-◌, ◌++◌, ◌⊎◌, ℕ, List, length, vec_len, take, drop, slice_range};
ghost use Rattle.std.specs.Fn.{FnOnceReturnsAtMut};
ghost use Rattle.zone_heap.specs.Calls.{ReturnsAtBoth, ReturnsAtPair};

use crate::look::Span;

/// Calls `f` with one part.
pub fn with_part<R, F: FnOnce(&mut [u8]) -> R>(region: &mut Vec<u8>, part: Span, f: F) -> R
    requires callable { F.IsAlwaysCallable f }
    requires order { part.from ≤ part.to }
    requires bound { part.to ≤ vec_len region.old }
    ensures part { (w : List ℕ) × (length w ≡ part.to - part.from)
        × FnOnceReturnsAtMut F.FnOnce f (slice_range region.old.items part.from part.to) result
        w
        × (region.new.items ≡ take part.from region.old.items ++ (w
        ++ drop part.to region.old.items)) }
    ensures len { vec_len region.new ≡ vec_len region.old }
{
    let (_low, high) = region.split_at_mut(part.from);
    f(&mut high[..part.to - part.from])
}

/// Calls `f` with one part, and with `context`.
pub fn with_part_and<C, R, F: FnOnce(&mut [u8], &mut C) -> R>(
    region: &mut Vec<u8>,
    part: Span,
    context: &mut C,
    f: F,
) -> R
    requires callable { F.IsAlwaysCallable f }
    requires order { part.from ≤ part.to }
    requires bound { part.to ≤ vec_len region.old }
    ensures part { (w : List ℕ) × (length w ≡ part.to - part.from)
        × ReturnsAtBoth F.FnOnce f (slice_range region.old.items part.from part.to) context.old
        result w context.new
        × (region.new.items ≡ take part.from region.old.items ++ (w
        ++ drop part.to region.old.items)) }
    ensures len { vec_len region.new ≡ vec_len region.old }
{
    let (_low, high) = region.split_at_mut(part.from);
    f(&mut high[..part.to - part.from], context)
}

/// Calls `f` with two parts that lie apart.
pub fn with_parts<R, F: FnOnce(&[u8], &mut [u8]) -> R>(
    region: &mut Vec<u8>,
    read: Span,
    write: Span,
    f: F,
) -> R
    requires callable { F.IsAlwaysCallable f }
    requires read { read.from ≤ read.to }
    requires read_bound { read.to ≤ vec_len region.old }
    requires write { write.from ≤ write.to }
    requires write_bound { write.to ≤ vec_len region.old }
    requires apart { (read.to ≤ write.from) ⊎ (write.to ≤ read.from) }
    ensures parts { (w : List ℕ) × (length w ≡ write.to - write.from)
        × ReturnsAtPair F.FnOnce f (slice_range region.old.items read.from read.to)
        (slice_range region.old.items write.from write.to) result w
        × (region.new.items ≡ take write.from region.old.items ++ (w
        ++ drop write.to region.old.items)) }
    ensures len { vec_len region.new ≡ vec_len region.old }
{
    if read.to <= write.from {
        let (low, high) = region.split_at_mut(write.from);
        f(&low[read.from..read.to], &mut high[..write.to - write.from])
    } else {
        let (low, high) = region.split_at_mut(read.from);
        f(&high[..read.to - read.from], &mut low[write.from..write.to])
    }
}

// Ranges of covered columns, apart and in order.
ghost use Rattle.std.specs.Prelude.{◌≡◌, ◌+◌, ◌<◌, ◌≤◌, ◌∷◌, length, take, drop};
ghost use Rattle.arrayvec.specs.ArrayVec.{array_vec_len};
ghost use Rattle.node_walk.specs.Ranges.{ends_before, starts_after, ranges_before, union, joined, with_range, hides_in};

use arrayvec::ArrayVec;

/// Room for the separate ranges of covered columns that a view has at most, and for one more while
/// it is joined with those that it touches.
pub const MAX_RANGES: usize = 161;

/// A range of covered columns, both ends among them.
#[derive(Clone, Copy, Debug, Default, PartialEq, Eq)]
pub struct Range {
    pub first: u16,
    pub last: u16,
}

/// Whether the first range that ends at column `first` or later has all columns to `last`.
pub fn hides_in(ranges: &[Range], first: u16, last: u16) -> bool
    ensures { result ≡ hides_in first last ranges.now }
{
    for range in ranges {
        if first <= range.last {
            return range.first <= first && last <= range.last;
        }
    }
    false
}

/// Adds a range, joined with those that it touches.
pub fn add_range(ranges: &mut ArrayVec<Range, MAX_RANGES>, range: Range)
    requires { array_vec_len ranges.old < MAX_RANGES }
    ensures { ranges.new.items ≡ with_range range ranges.old.items }
{
    let index = ranges_before(ranges, range.first);
    let joined = absorb(ranges, index, range);
    ranges.insert(index, joined);
}

// The range ends before column `first`, and at least one column lies between.
fn ends_before(range: Range, first: u16) -> bool
    ensures { result ≡ ends_before first range }
{
    u32::from(range.last) + 1 < u32::from(first)
}

// The range begins after column `last`, and at least one column lies between.
fn starts_after(range: Range, last: u16) -> bool
    ensures { result ≡ starts_after last range }
{
    u32::from(last) + 1 < u32::from(range.first)
}

// How many ranges at the front end before column `first`.
fn ranges_before(ranges: &[Range], first: u16) -> usize
    ensures count { result ≡ ranges_before first ranges.now }
    ensures within { result ≤ length ranges.now }
{
    for (index, range) in ranges.iter().enumerate() {
        if !ends_before(*range, first) {
            return index;
        }
    }
    ranges.len()
}

// The least range that holds both.
fn union(a: Range, b: Range) -> Range
    ensures { result ≡ union a b }
{
    Range {
        first: a.first.min(b.first),
        last: a.last.max(b.last),
    }
}

// Takes out the ranges from an index on that a range touches, and gives the range joined with them.
fn absorb(ranges: &mut ArrayVec<Range, MAX_RANGES>, index: usize, range: Range) -> Range
    requires { index ≤ array_vec_len ranges.old }
    ensures joined { joined range (drop index ranges.old.items) ≡ result ∷ drop index
        ranges.new.items }
    ensures front { take index ranges.new.items ≡ take index ranges.old.items }
    ensures within { index ≤ array_vec_len ranges.new }
    ensures shorter { array_vec_len ranges.new ≤ array_vec_len ranges.old }
{
    let mut joined = range;
    while index < ranges.len() && !starts_after(ranges[index], joined.last) {
        joined = union(joined, ranges[index]);
        ranges.remove(index);
    }
    joined
}

// Fractions as the loops of a frame step them: in the highest bits of a word, so that the texel is
// one shift away, and a step is one sum.
ghost use Rattle.std.specs.Prelude.{◌≡◌, ◌+◌, ◌<◌, ℕ, ℤ};
ghost use Rattle.pixel_strips.specs.Rules.{Spans, TEXEL_ROWS, pack, packed_half, span_place, step_at, texel_row};
ghost use Rattle.pixel_strips.specs.declared.texels.TheConstants.{FLAT_BYTES};
ghost use Rattle.pixel_strips.specs.Places.{IsTexelPlace, IsFlatPlace, IsPackedPlace, IsFirstPlace, IsSpanPlace};

use pixel_rules::FLAT_SIDE;
use view_rules::Spans;
use word_rules::FRACTION_BITS;

/// The bits of a 16.16 fraction above its texel row.
pub const ROW_LIFT: u32 = 9;

/// The bits of a place below its texel row.
pub const ROW_SHIFT: u32 = FRACTION_BITS + ROW_LIFT;

/// The bits of a 16.16 fraction above its texel of a flat.
pub const FLAT_LIFT: u32 = 10;

/// The bits of a place below its texel of a flat.
pub const FLAT_SHIFT: u32 = FRACTION_BITS + FLAT_LIFT;

/// So many carries out of x reach the fraction of y; fewer do no harm.
pub const CARRIES: u64 = 1 << FLAT_LIFT;

/// A product that brings both texels of a place together, that of y above that of x, in the highest
/// bits. The middle one of its three bits adds nothing: with two, the product is made of shifts.
const GATHER: u64 = (1 << FLAT_SHIFT) + (1 << 10) + 1;

/// The bits of such a product below the texels.
const GATHER_SHIFT: u32 = 2 * FLAT_SHIFT;

/// The place of a fraction, or of a step, in a column of 128 texels.
#[tactic(auto, using(crate::proofs::PlaceLemmas::texel_place_is))]
#[inline(always)]
pub fn texel_place(fraction: i32) -> u32
    ensures { IsTexelPlace fraction result }
{
    fraction.cast_unsigned() << ROW_LIFT
}

/// The place after `count` steps.
#[inline(always)]
pub fn places_after(place: u32, step: u32, count: u32) -> u32
    ensures { (a b : ℤ) → IsTexelPlace a place → IsTexelPlace b step →
        IsTexelPlace (step_at a b count) result }
{
    place.wrapping_add(step.wrapping_mul(count))
}

/// The texel row of a place, 0 to 127.
#[tactic(auto, using(crate::proofs::PlaceLemmas::row_of_place))]
#[inline(always)]
pub fn row_at(place: u32) -> usize
    ensures row { (a : ℤ) → IsTexelPlace a place → result ≡ texel_row a }
    ensures within { result < TEXEL_ROWS }
{
    (place >> ROW_SHIFT) as usize
}

/// The bits of a fraction below what is packed of it.
pub const PACKED_SHIFT: u32 = 6;

/// The packed fractions, in bits.
pub const PACKED_BITS: u32 = 16;

/// The place of two fractions, or of two steps, in a flat, as spans are stepped: no carry yet.
#[inline(always)]
pub fn first_place(spans: Spans, x_fraction: i32, y_fraction: i32) -> u64
    ensures { IsFirstPlace spans x_fraction y_fraction result }
{
    match spans {
        Spans::Full => full_place(x_fraction, y_fraction),
        Spans::Packed => packed_place(x_fraction, y_fraction),
    }
}

// The same of full fractions.
#[tactic(auto, using(crate::proofs::PlaceLemmas::flat_place_is))]
#[inline(always)]
fn full_place(x_fraction: i32, y_fraction: i32) -> u64
    ensures { IsFlatPlace x_fraction y_fraction 0 result }
{
    let x = x_fraction.cast_unsigned() << FLAT_LIFT;
    let y = y_fraction.cast_unsigned() << FLAT_LIFT;
    ((y as u64) << u32::BITS) + x as u64
}

// The same of packed ones. The shift keeps the lower half alone.
#[tactic(auto, using(crate::proofs::PlaceLemmas::packed_place_is))]
#[inline(always)]
fn packed_place(x_fraction: i32, y_fraction: i32) -> u64
    ensures { IsPackedPlace (pack x_fraction y_fraction) 0 result }
{
    let word = pack(x_fraction, y_fraction) as u64;
    (word << (u32::BITS + PACKED_BITS)) + word
}

// Two fractions in one word.
#[tactic(auto, unfolding(pixel_rules::specs::Strips::pack))]
#[inline(always)]
fn pack(x_fraction: i32, y_fraction: i32) -> u32
    ensures { result ≡ pack x_fraction y_fraction }
{
    (packed_half(x_fraction) << PACKED_BITS) + packed_half(y_fraction)
}

// What is packed of a fraction.
#[tactic(auto, unfolding(pixel_rules::specs::Strips::packed_half))]
#[inline(always)]
fn packed_half(fraction: i32) -> u32
    ensures value { result ≡ packed_half fraction }
    ensures within { result < 65536 }
{
    (fraction.cast_unsigned() >> PACKED_SHIFT) % (1 << PACKED_BITS)
}

/// The place after `count` steps, with one carry a step more at most.
#[inline(always)]
pub fn place_after(place: u64, step: u64, count: u64) -> u64
    ensures { (spans : Spans) (x y a b : ℤ) (n : ℕ) → n + count < CARRIES →
        IsSpanPlace spans x y a b n place → IsFirstPlace spans a b step →
        IsSpanPlace spans x y a b (n + count) result }
{
    place.wrapping_add(step.wrapping_mul(count))
}

/// The texel of a flat, 0 to 4095, row by row, that a place stands for, however spans are stepped.
#[inline(always)]
pub fn flat_place_at(place: u64) -> usize
    ensures place { (spans : Spans) (x y a b : ℤ) (n : ℕ) → n < CARRIES →
        IsSpanPlace spans x y a b n place → result ≡ span_place spans x y a b n }
    ensures within { result < FLAT_BYTES }
{
    let row = place >> (u32::BITS + FLAT_SHIFT);
    let column = (place >> FLAT_SHIFT) % FLAT_SIDE as u64;
    let bits = (row << (u32::BITS + FLAT_SHIFT)) + (column << FLAT_SHIFT);
    (bits.wrapping_mul(GATHER) >> GATHER_SHIFT) as usize
}

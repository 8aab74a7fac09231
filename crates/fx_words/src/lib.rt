//! Arithmetic on 32-bit words: 16.16 fixed point, slopes, and the wrapping operations.
//!
//! Rules: `word_rules`, Words. Proved: each call is its definition, for all words. No call takes
//! memory or fails. The original: m_fixed.c (`FixedMul`, `FixedDiv`), tables.c (`SlopeDiv`).
#![tactic(auto)]

ghost use Rattle.std.specs.Prelude.{◌≡◌, ◌<◌, ◌≤◌, ◌≤ℤ◌};
ghost use Rattle.word_rules.specs.declared.TheConstants.{FINE_ANGLES};
ghost use Rattle.word_rules.specs.Words.{word, mul, div, slope_div, abs_word, clamp_word, plus, minus, times, neg_word, shl_word, shr_word, fixed, greater_word, lesser_word, signs_differ, same_word, inverse_word, signed_of, turn, turn_back, fine_angle};

use word_rules::{
    FINE_SHIFT, FRACTION_BITS, FRACTION_UNIT, MIN_SLOPE_DIVISOR, QUOTIENT_BITS,
    SLOPE_DIVIDEND_SHIFT, SLOPE_DIVISOR_SHIFT, SLOPE_STEPS,
};

/// The product of two 16.16 numbers, cut toward the lesser number; it wraps.
///
/// The original: `FixedMul`, m_fixed.c.
#[tactic(auto, using(word_rules::proofs::WordLemmas::signed_steps), unfolding(word_rules::specs::Words::mul))]
pub fn mul(a: i32, b: i32) -> i32
    ensures { result ≡ mul a b }
{
    low_word((a as i64 * b as i64) >> FRACTION_BITS)
}

/// The low 32 bits of `z`, as a signed word.
#[tactic(auto, using(word_rules::proofs::WordLemmas::signed_steps))]
fn low_word(z: i64) -> i32
    ensures { result ≡ word z }
{
    ((z.cast_unsigned() & 0xffff_ffff) as u32).cast_signed()
}

/// The quotient of two 16.16 numbers, cut toward zero; the greatest or the least word, by the two
/// signs, where it is too large or `b` is 0.
///
/// The original: `FixedDiv`, m_fixed.c. This project's own: the quotient is whole arithmetic.
#[tactic(auto, using(word_rules::proofs::WordLemmas::signed_steps, word_rules::proofs::WordLemmas::quotient_fits), unfolding(word_rules::specs::Words::div))]
pub fn div(a: i32, b: i32) -> i32
    ensures { result ≡ div a b }
{
    if a.unsigned_abs() >> QUOTIENT_BITS >= b.unsigned_abs() {
        if signs_differ(a, b) {
            i32::MIN
        } else {
            i32::MAX
        }
    } else {
        ((a as i64 * FRACTION_UNIT as i64) / b as i64) as i32
    }
}

/// The slope `num / den` in steps of which `SLOPE_STEPS` are the eighth of a turn, no more than
/// these.
///
/// The original: `SlopeDiv`, tables.c.
#[tactic(auto, unfolding(word_rules::specs::Words::slope_div))]
pub fn slope_div(num: u32, den: u32) -> u32
    ensures value { result ≡ slope_div num den }
    ensures bound { result ≤ SLOPE_STEPS }
{
    if den < MIN_SLOPE_DIVISOR {
        return SLOPE_STEPS;
    }
    ((num << SLOPE_DIVIDEND_SHIFT) / (den >> SLOPE_DIVISOR_SHIFT)).min(SLOPE_STEPS)
}

/// The absolute value, the greatest word for the least.
///
/// The original: `abs`. This project's own: the absolute value of the least word.
#[tactic(auto, unfolding(word_rules::specs::Words::abs_word))]
pub fn abs_word(a: i32) -> i32
    ensures { result ≡ abs_word a }
{
    a.saturating_abs()
}

/// The number nearest to `z` from `low` to `high`.
#[tactic(auto, unfolding(word_rules::specs::Words::clamp_word))]
pub fn clamp_word(low: i32, high: i32, z: i32) -> i32
    requires { low ≤ℤ high }
    ensures value { result ≡ clamp_word low high z }
    ensures least { low ≤ℤ result }
    ensures greatest { result ≤ℤ high }
{
    z.clamp(low, high)
}

/// `a + b`; it wraps.
#[tactic(auto, using(std::proofs::lemmas::Int::wraps), unfolding(word_rules::specs::Words::plus))]
pub fn plus(a: i32, b: i32) -> i32
    ensures { result ≡ plus a b }
{
    a.wrapping_add(b)
}

/// `a - b`; it wraps.
#[tactic(auto, using(std::proofs::lemmas::Int::wraps), unfolding(word_rules::specs::Words::minus))]
pub fn minus(a: i32, b: i32) -> i32
    ensures { result ≡ minus a b }
{
    a.wrapping_sub(b)
}

/// `a * b`; it wraps.
#[tactic(auto, using(std::proofs::lemmas::Int::wraps), unfolding(word_rules::specs::Words::times))]
pub fn times(a: i32, b: i32) -> i32
    ensures { result ≡ times a b }
{
    a.wrapping_mul(b)
}

/// `-a`; it wraps.
#[tactic(auto, using(std::proofs::lemmas::Int::wraps), unfolding(word_rules::specs::Words::neg_word))]
pub fn neg_word(a: i32) -> i32
    ensures { result ≡ neg_word a }
{
    a.wrapping_neg()
}

/// `a` shifted left by `bits`; it wraps.
#[tactic(auto, using(word_rules::proofs::WordLemmas::shl_of_bits))]
pub fn shl_word(a: i32, bits: u32) -> i32
    requires { bits < 32 }
    ensures { result ≡ shl_word a bits }
{
    a << bits
}

/// `a` shifted right by `bits`; it keeps the sign.
#[tactic(auto, using(word_rules::proofs::WordLemmas::signed_steps), unfolding(word_rules::specs::Words::shr_word))]
pub fn shr_word(a: i32, bits: u32) -> i32
    requires { bits < 32 }
    ensures { result ≡ shr_word a bits }
{
    a >> bits
}

/// A whole number in 16.16 fixed point; it wraps.
#[tactic(auto, unfolding(word_rules::specs::Words::fixed))]
pub fn fixed(a: i32) -> i32
    ensures { result ≡ fixed a }
{
    shl_word(a, FRACTION_BITS)
}

/// The greater of `a` and `b`.
#[tactic(auto, unfolding(word_rules::specs::Words::greater_word))]
pub fn greater_word(a: i32, b: i32) -> i32
    ensures { result ≡ greater_word a b }
{
    a.max(b)
}

/// The lesser of `a` and `b`.
#[tactic(auto, unfolding(word_rules::specs::Words::lesser_word))]
pub fn lesser_word(a: i32, b: i32) -> i32
    ensures { result ≡ lesser_word a b }
{
    a.min(b)
}

/// Whether exactly one of `a` and `b` is below 0.
#[tactic(auto, unfolding(word_rules::specs::Words::signs_differ))]
pub fn signs_differ(a: i32, b: i32) -> bool
    ensures { result ≡ signs_differ a b }
{
    (a < 0) != (b < 0)
}

/// Whether `a` and `b` are equal.
#[tactic(auto, unfolding(word_rules::specs::Words::same_word))]
pub fn same_word(a: i32, b: i32) -> bool
    ensures { result ≡ same_word a b }
{
    a == b
}

/// The greatest unsigned word over `scale`, read as unsigned; 0 for 0.
///
/// The original: `dc_iscale = 0xffffffffu / scale`, r_segs.c. This project's own: 0 for 0.
#[tactic(auto, unfolding(word_rules::specs::Words::inverse_word))]
pub fn inverse_word(scale: i32) -> i32
    ensures { result ≡ inverse_word scale }
{
    let bits = scale.cast_unsigned();
    if bits == 0 {
        return 0;
    }
    (u32::MAX / bits).cast_signed()
}

/// The bits of `n`, read with a sign.
#[tactic(auto, unfolding(word_rules::specs::Words::signed_of))]
pub fn signed_of(n: u32) -> i32
    ensures { result ≡ signed_of n }
{
    n.cast_signed()
}

/// The sum of two angles (BAM); it wraps at a full turn.
pub fn turn(a: u32, b: u32) -> u32
    ensures { result ≡ turn a b }
{
    a.wrapping_add(b)
}

/// The difference of two angles (BAM); it wraps at a full turn.
pub fn turn_back(a: u32, b: u32) -> u32
    ensures { result ≡ turn_back a b }
{
    a.wrapping_sub(b)
}

/// The fine angle of an angle (BAM): 0 to 8191.
pub fn fine_angle(angle: u32) -> usize
    ensures value { result ≡ fine_angle angle }
    ensures bound { result < FINE_ANGLES }
{
    (angle >> FINE_SHIFT) as usize
}

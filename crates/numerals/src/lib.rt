//! Whole numbers as the project's words and tables write them: 1 to 10 decimal digits.
//!
//! Rules: `specs/`. Proved: the number is that of the digits, and there is none exactly where the
//! text is anything else. This project's own: the original reads its numbers by `atoi`.
#![tactic(auto)]

ghost use Rattle.std.specs.Prelude.{◌≡◌, ◌<◌, ◌≤◌, ◌^◌, true, length, IfSome};
ghost use Rattle.std.specs.Str.{all_ascii_digits};
ghost use Rattle.numerals.specs.Numerals.{digits_after, is_numeral, numeral};

/// The most digits of a number.
pub const MAX_DIGITS: usize = 10;

/// The number that these bytes write, where they are 1 to 10 digits and nothing else.
///
/// Leading zeros are taken. Takes no memory.
#[tactic(auto, unfolding(crate::specs::Numerals::numeral))]
pub fn numeral(text: &[u8]) -> Option<u64>
    ensures value { result ≡ numeral text.now }
    ensures limit { IfSome result (λ n. n < 10 ^ 10) }
{
    if is_numeral(text) {
        Some(value_of(text))
    } else {
        None
    }
}

// Whether this is 1 to 10 digits and nothing else.
#[tactic(auto, unfolding(crate::specs::Numerals::is_numeral))]
fn is_numeral(text: &[u8]) -> bool
    ensures value { result ≡ is_numeral text.now }
    ensures digits { result ≡ true → all_ascii_digits text.now ≡ true }
    ensures room { result ≡ true → length text.now ≤ MAX_DIGITS }
{
    text.len() > 0 && text.len() <= MAX_DIGITS && are_digits(text)
}

// Whether each byte is a digit.
#[tactic(auto, using(crate::proofs::NumeralLemmas::digit_steps))]
fn are_digits(text: &[u8]) -> bool
    ensures { result ≡ all_ascii_digits text.now }
{
    for digit in text {
        if !digit.is_ascii_digit() {
            return false;
        }
    }
    true
}

// The number that 1 to 10 digits write.
#[tactic(auto, using(crate::proofs::NumeralLemmas::digit_steps))]
fn value_of(digits: &[u8]) -> u64
    requires digits { all_ascii_digits digits.now ≡ true }
    requires room { length digits.now ≤ MAX_DIGITS }
    ensures value { result ≡ digits_after 0 digits.now }
    ensures limit { result < 10 ^ 10 }
{
    let mut value = 0;
    for digit in digits {
        value = value * 10 + (*digit - b'0') as u64;
    }
    value
}

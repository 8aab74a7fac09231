// The number that a field writes: an optional minus, and 1 to 10 decimal digits.

ghost use Rattle.std.specs.Prelude.{◌≡◌, ◌<◌, true, length};
ghost use Rattle.csv_tables.specs.Numbers.{is_negative, number};

use numerals::numeral;

// The number of a field.
#[tactic(auto, unfolding(crate::specs::Numbers::number))]
pub(crate) fn number(text: &[u8]) -> Option<i64>
    ensures { result ≡ number text.now }
{
    if is_negative(text) {
        match numeral(&text[1..]) {
            Some(n) => Some(-(n as i64)),
            None => None,
        }
    } else {
        match numeral(text) {
            Some(n) => Some(n as i64),
            None => None,
        }
    }
}

// Whether a minus stands first.
#[tactic(auto, unfolding(crate::specs::Numbers::is_negative))]
fn is_negative(text: &[u8]) -> bool
    ensures value { result ≡ is_negative text.now }
    ensures some { result ≡ true → 0 < length text.now }
{
    text.len() > 0 && text[0] == b'-'
}

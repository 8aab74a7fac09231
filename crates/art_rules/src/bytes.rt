// Bytes and numbers of a lump; a byte past its end is 0.
ghost use Rattle.std.specs.Prelude.{◌≡◌, ◌<◌, ◌+◌, ◌^◌};
ghost use Rattle.word_rules.specs.Bytes.{byte_at, half_at, signed_half_at, word_at};

/// The byte at `place`, 0 past the lump's end.
///
/// This project's own: the original reads what lies behind a lump.
#[tactic(auto, unfolding(word_rules::specs::Bytes::byte_at))]
pub fn byte_at(bytes: &[u8], place: u64) -> u8
    ensures { result ≡ byte_at bytes.now place }
{
    match bytes.get(place as usize) {
        Some(byte) => *byte,
        None => 0,
    }
}

/// The number of the two bytes from `place` on, the low one first.
///
/// The original: `SHORT`, m_swap.h.
#[tactic(auto, using(word_rules::proofs::ByteLemmas::number_parts))]
pub fn half_at(bytes: &[u8], place: u64) -> u16
    requires { place + 1 < 2 ^ 64 }
    ensures { result ≡ half_at bytes.now place }
{
    u16::from(byte_at(bytes, place)) + 256 * u16::from(byte_at(bytes, place + 1))
}

/// The number with a sign of the two bytes from `place` on.
///
/// The original: `SHORT`, m_swap.h.
#[tactic(auto, unfolding(word_rules::specs::Bytes::signed_half_at))]
pub fn signed_half_at(bytes: &[u8], place: u64) -> i16
    requires { place + 1 < 2 ^ 64 }
    ensures { result ≡ signed_half_at bytes.now place }
{
    half_at(bytes, place).cast_signed()
}

/// The number of the four bytes from `place` on.
///
/// The original: `LONG`, m_swap.h.
#[tactic(auto, using(word_rules::proofs::ByteLemmas::number_parts))]
pub fn word_at(bytes: &[u8], place: u64) -> u32
    requires { place < 2 ^ 63 }
    ensures { result ≡ word_at bytes.now place }
{
    u32::from(half_at(bytes, place)) + 65536 * u32::from(half_at(bytes, place + 2))
}

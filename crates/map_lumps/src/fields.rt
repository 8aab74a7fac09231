// The fields of a record, read from its bytes. Rules: `level_rules/maps`, Fields; `word_rules`, Bytes.
ghost use Rattle.std.specs.Prelude.{◌≡◌, ◌≤◌, ◌+◌, length};
ghost use Rattle.map_lumps.specs.Rules.{angle_field, fixed, fixed_at, half_at, name_field, signed_half_at};

use byteorder::{ByteOrder, LittleEndian};
use level_rules::maps::layout::NAME_SIZE;
use lump_rules::Name8;
use word_rules::{FRACTION_BITS, FRACTION_UNIT, HALF_SIZE};

// The unsigned number at `offset`.
#[tactic(auto, unfolding(word_rules::specs::Bytes::half_at))]
pub(crate) fn half_at(entry: &[u8], offset: usize) -> u16
    requires { offset + HALF_SIZE ≤ length entry.now }
    ensures { result ≡ half_at entry.now offset }
{
    LittleEndian::read_u16(&entry[offset..])
}

// The number with a sign at `offset`.
#[tactic(auto, unfolding(word_rules::specs::Bytes::signed_half_at))]
pub(crate) fn signed_half_at(entry: &[u8], offset: usize) -> i16
    requires { offset + HALF_SIZE ≤ length entry.now }
    ensures { result ≡ signed_half_at entry.now offset }
{
    half_at(entry, offset).cast_signed()
}

// A whole number in 16.16 fixed point.
#[tactic(auto, unfolding(word_rules::specs::Words::fixed, word_rules::specs::Words::shl_word))]
fn fixed(whole: i16) -> i32
    ensures { result ≡ fixed whole }
{
    i32::from(whole).wrapping_mul(FRACTION_UNIT)
}

// Whole map units at `offset`, in 16.16 fixed point.
#[tactic(auto, unfolding(level_rules::specs::maps::Fields::fixed_at))]
pub(crate) fn fixed_at(entry: &[u8], offset: usize) -> i32
    requires { offset + HALF_SIZE ≤ length entry.now }
    ensures { result ≡ fixed_at entry.now offset }
{
    fixed(signed_half_at(entry, offset))
}

// The upper half of an angle at `offset`, as BAM.
#[tactic(auto, unfolding(level_rules::specs::maps::Fields::angle_field))]
pub(crate) fn angle_field(entry: &[u8], offset: usize) -> u32
    requires { offset + HALF_SIZE ≤ length entry.now }
    ensures { result ≡ angle_field entry.now offset }
{
    u32::from(half_at(entry, offset)) << FRACTION_BITS
}

// The name at `offset`.
#[tactic(auto, unfolding(level_rules::specs::maps::Fields::name_field))]
pub(crate) fn name_field(entry: &[u8], offset: usize) -> Name8
    requires { offset + NAME_SIZE ≤ length entry.now }
    ensures { result ≡ name_field entry.now offset }
{
    Name8::read_at(entry, offset)
}

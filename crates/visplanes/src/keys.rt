// The keys of planes, compared.
ghost use Rattle.std.specs.Prelude.{◌≡◌};
ghost use Rattle.picture_rules.specs.Words.{same_flat, same_key};
ghost use Rattle.visplanes.specs.Planes.{flat_lump};

use picture_rules::{Flat4, PlaneKey};
use view_frame::same_word;

/// Whether two keys are equal.
#[tactic(auto, unfolding(picture_rules::specs::plane::Keys::same_key))]
pub fn same_key(a: PlaneKey, b: PlaneKey) -> bool
    ensures { result ≡ same_key a b }
{
    same_word(a.height, b.height)
        && same_flat(a.flat, b.flat)
        && same_word(a.light as i32, b.light as i32)
}

#[tactic(auto, unfolding(picture_rules::specs::plane::Keys::same_flat))]
fn same_flat(a: Flat4, b: Flat4) -> bool
    ensures { result ≡ same_flat a b }
{
    match a {
        Flat4::Sky => is_sky(b),
        Flat4::Lump(n) => is_lump(b, n),
    }
}

#[tactic(auto, unfolding(picture_rules::specs::plane::Keys::same_flat))]
fn is_sky(flat: Flat4) -> bool
    ensures { result ≡ same_flat Flat4.Sky flat }
{
    match flat {
        Flat4::Sky => true,
        Flat4::Lump(_) => false,
    }
}

#[tactic(auto, unfolding(picture_rules::specs::plane::Keys::same_flat))]
fn is_lump(flat: Flat4, n: u16) -> bool
    ensures { result ≡ same_flat (Flat4.Lump n) flat }
{
    match flat {
        Flat4::Sky => false,
        Flat4::Lump(m) => n == m,
    }
}

/// The lump of a flat, 0 where it is the sky.
pub fn flat_lump(flat: Flat4) -> u16
    ensures { result ≡ flat_lump flat }
{
    match flat {
        Flat4::Sky => 0,
        Flat4::Lump(n) => n,
    }
}

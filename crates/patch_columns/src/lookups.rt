// What each column of a texture is read from.
//
// Rules: `art_rules`, Lookups, and `specs/Seen`. The original: `R_GenerateLookup`, r_data.c.
ghost use Rattle.std.specs.Prelude.{◌≡◌, ◌<◌, ◌^◌, ◌++◌, ◌∷◌, [], ℕ, List, length, true};
ghost use Rattle.patch_columns.specs.Rules.{AreColumnsOf, PlacedPatch, column_lookups, composite_size, own_column, stands_in};
ghost use Rattle.patch_columns.specs.Seen.{AreSeen, columns_with, composed_bytes, lookup_behind, lookup_with, placed_lookup, seen_lookups};

use crate::column_place;
use art_rules::{ColumnLookup, PlacedPatch};

/// Adds a patch to the columns of its texture, behind the patches that were added before: a column
/// in which no other stands is read from it, one in which another stands is composed. `lump` is the
/// bytes of the patch's lump, which may be others each time that a lump is a patch of the texture.
///
/// The original: `R_GenerateLookup`, r_data.c.
pub fn add_patch(columns: &mut [ColumnLookup], lump: &[u8], patch: &PlacedPatch)
    requires { length columns.old < 2 ^ 16 }
    ensures value { columns.new ≡ columns_with lump.now patch.now columns.old }
    ensures added { (bytes : ℕ → List ℕ) (patches : List PlacedPatch) →
        bytes patch.now.lump ≡ lump.now →
        columns.old ≡ seen_lookups bytes patches (length columns.old) →
        columns.new ≡ seen_lookups bytes (patches ++ patch.now ∷ []) (length columns.old) }
    ensures count { length columns.new ≡ length columns.old }
{
    for (x, column) in columns.iter_mut().enumerate() {
        *column = lookup_with(*column, lump, patch, x as u16);
    }
}

/// Gives the composed columns of a texture of `height` rows their places in its composite, from
/// left to right, once all patches are added. Returns the composite's size in bytes.
///
/// The original: `R_GenerateLookup`, r_data.c.
pub fn place_columns(columns: &mut [ColumnLookup], height: u16) -> u64
    requires { length columns.old < 2 ^ 16 }
    ensures placed { (bytes : ℕ → List ℕ) (patches : List PlacedPatch) →
        columns.old ≡ seen_lookups bytes patches (length columns.old) →
        columns.new ≡ column_lookups bytes patches (length columns.old) height }
    ensures columns { (patches : List PlacedPatch) → AreSeen patches columns.old →
        AreColumnsOf patches height columns.new }
    ensures size { (patches : List PlacedPatch) → AreSeen patches columns.old →
        result ≡ composite_size patches (length columns.old) height }
    ensures count { length columns.new ≡ length columns.old }
{
    let mut place: u64 = 0;
    for column in columns.iter_mut() {
        let size = composed_bytes(*column, height);
        *column = placed_lookup(*column, place as u32);
        place += u64::from(size);
    }
    place
}

// Column `x` of a texture once a patch is added.
#[tactic(auto, unfolding(crate::specs::Seen::lookup_with))]
fn lookup_with(lookup: ColumnLookup, lump: &[u8], patch: &PlacedPatch, x: u16) -> ColumnLookup
    ensures { result ≡ lookup_with lump.now patch.now x lookup }
{
    if stands_in(x, *patch) {
        lookup_behind(lookup, lump, patch, x)
    } else {
        lookup
    }
}

// Column `x` of a texture once a patch is added that stands in it.
#[tactic(auto, unfolding(crate::specs::Seen::lookup_behind))]
fn lookup_behind(lookup: ColumnLookup, lump: &[u8], patch: &PlacedPatch, x: u16) -> ColumnLookup
    requires { stands_in x patch.now ≡ true }
    ensures { result ≡ lookup_behind lump.now patch.now x lookup }
{
    match lookup {
        ColumnLookup::Empty => ColumnLookup::Single {
            lump: patch.lump,
            place: column_place(lump, own_column(x, *patch)) as u32,
        },
        _ => ColumnLookup::Composed { place: 0 },
    }
}

// A patch stands in column `x` of its texture.
#[tactic(auto, unfolding(art_rules::specs::Columns::stands_in))]
pub fn stands_in(x: u16, patch: PlacedPatch) -> bool
    ensures { result ≡ stands_in x patch }
{
    let left = i32::from(patch.x);
    left <= i32::from(x) && i32::from(x) < left + i32::from(patch.width)
}

// Which column of the patch stands in column `x` of the texture.
#[tactic(auto, unfolding(art_rules::specs::Columns::own_column, art_rules::specs::Columns::stands_in, art_rules::specs::Words::natural))]
pub fn own_column(x: u16, patch: PlacedPatch) -> u16
    requires { stands_in x patch ≡ true }
    ensures { result ≡ own_column x patch }
{
    (i32::from(x) - i32::from(patch.x)) as u16
}

// A column once its place in the composite is known.
#[tactic(auto, unfolding(crate::specs::Seen::placed_lookup))]
fn placed_lookup(lookup: ColumnLookup, start: u32) -> ColumnLookup
    ensures { result ≡ placed_lookup start lookup }
{
    match lookup {
        ColumnLookup::Composed { .. } => ColumnLookup::Composed { place: start },
        _ => lookup,
    }
}

// The bytes of a column in the composite of a texture of `height` rows.
#[tactic(auto, unfolding(crate::specs::Seen::composed_bytes))]
fn composed_bytes(lookup: ColumnLookup, height: u16) -> u16
    ensures { result ≡ composed_bytes height lookup }
{
    match lookup {
        ColumnLookup::Composed { .. } => height,
        _ => 0,
    }
}

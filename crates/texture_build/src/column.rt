// The texels of a texture column.
//
// Rules: `specs/Sources`. The original: `R_GetColumn`, r_data.c.
ghost use Rattle.std.specs.Prelude.{◌≡◌, ◌<◌, ◌+◌, ◌^◌, ℕ, Some, IfSome, length, option_map};
ghost use Rattle.std.specs.Option.{option_copied};
ghost use Rattle.art_rules.specs.Words.{byte_at, single_place};
ghost use Rattle.lump_cache.specs.Caches.{IsAtRest};
ghost use Rattle.texture_build.specs.Sources.{IsLentBeside, column_from, column_view};

use art_rules::{ColumnLookup, POST_BYTES_AT, byte_at};
use lump_cache::{LumpCache, LumpNo};
use std::marker::Model;

/// A texture column, as the bytes that it is read from and the place of its first texel in them.
///
/// The original: `R_GetColumn`, r_data.c.
#[derive(Drop)]
pub struct Column<'c> {
    pub bytes: &'c [u8],
    pub first: u64,
}

impl<'c> Model for Column<'c> {
    ghost use Rattle.texture_build.specs.Sources.{ColumnView};

    ghost Value = { ColumnView };

    ghost view = { λ column. record { bytes = column.bytes.now; first = column.first } };
}

impl<'c> Column<'c> {
    /// Texel `r` of the column, counted from its first one down, 0 past the end of its bytes. One
    /// read.
    ///
    /// The original: `R_DrawColumn`, r_draw.c.
    pub fn texel(&self, r: u8) -> u8
        requires { self.now.first + r < 2 ^ 64 }
        ensures { result ≡ byte_at self.now.bytes (self.now.first + r) }
    {
        byte_at(self.bytes, self.first + r as u64)
    }
}

// The texels of a column of the texture of that number, by what it is read from; `None` exactly
// where those bytes are not live. Takes no memory.
#[inline(always)]
#[tactic(auto, unfolding(art_rules::specs::Lookups::single_place))]
pub(crate) fn lend_lookup<'c>(
    lookup: ColumnLookup,
    number: u32,
    cache: &'c LumpCache,
) -> Option<Column<'c>>
    requires lumps { IfSome (single_place lookup) (λ s. s.0 < cache.now.lumps) }
    requires composite { number < cache.now.composites }
    ensures column { result ≡ column_view number cache.now lookup }
    ensures first { IfSome result (λ column. column.first < 2 ^ 33) }
    ensures fits { (colormap count : ℕ) → IsAtRest colormap count cache.now →
        IfSome result (λ column.
        IsLentBeside cache.now.size colormap count lookup (length column.bytes)) }
{
    match lookup {
        ColumnLookup::Empty => column_from(Some(&[]), 0),
        ColumnLookup::Single { lump, place } => column_from(
            cache.bytes(LumpNo(lump)),
            u64::from(place) + POST_BYTES_AT as u64,
        ),
        ColumnLookup::Composed { place } => {
            column_from(cache.composite(number), u64::from(place))
        }
    }
}

// A column of these bytes, if there are any.
fn column_from(bytes: Option<&[u8]>, first: u64) -> Option<Column>
    ensures column { result ≡ option_map (column_from first) (option_copied bytes.entry) }
    ensures first { IfSome result (λ column. column.first ≡ first) }
{
    match bytes {
        Some(bytes) => Some(Column { bytes, first }),
        None => None,
    }
}

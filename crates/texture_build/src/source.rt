// What a texture column is read from.
//
// Rules: `specs/Sources`. The original: `texturecolumnlump`, r_data.c.
ghost use Rattle.std.specs.Prelude.{◌≡◌, IsSome, Some};
ghost use Rattle.art_rules.specs.Words.{painter_of, single_place};
ghost use Rattle.texture_build.specs.Arts.{lookup_source};
ghost use Rattle.texture_build.specs.Sources.{source_of};

use art_rules::{COMPOSITE, ColumnLookup, LUMP, NO_SOURCE, Painter};
use lump_cache::LumpNo;
use texture_lists::TexNo;

/// Whose bytes a texture column has: of no patch, of one patch lump, or of the texture's composite.
///
/// The original: `texturecolumnlump`, r_data.c.
#[derive(Clone, Copy)]
pub enum ColumnSource {
    Empty,
    Lump(LumpNo),
    Composite(TexNo),
}

#[tactic(auto, unfolding(crate::specs::Sources::source_of))]
pub(crate) fn source_of(tex: TexNo, lookup: ColumnLookup) -> ColumnSource
    ensures { result ≡ source_of tex.0 lookup }
{
    match lookup {
        ColumnLookup::Empty => ColumnSource::Empty,
        ColumnLookup::Single { lump, place: _ } => ColumnSource::Lump(LumpNo(lump)),
        ColumnLookup::Composed { place: _ } => ColumnSource::Composite(tex),
    }
}

// Who paints with a column's bytes, as a painter of that kind and number.
#[inline(always)]
#[tactic(auto, unfolding(art_rules::specs::Words::painter_of))]
pub(crate) fn painter_of(kind: u8, number: u16, tex: TexNo, lookup: ColumnLookup) -> Painter
    ensures { result ≡ painter_of kind number (lookup_source tex.0 lookup) }
{
    let (source_kind, source) = match lookup {
        ColumnLookup::Empty => (NO_SOURCE, 0),
        ColumnLookup::Single { lump, place: _ } => (LUMP, lump),
        ColumnLookup::Composed { place: _ } => (COMPOSITE, tex.0),
    };
    Painter {
        kind,
        number,
        source_kind,
        source,
    }
}

// The one lump that a column is read from, and where its posts begin there.
#[tactic(auto, unfolding(art_rules::specs::Lookups::single_place))]
pub(crate) fn posts_place(lookup: ColumnLookup) -> (LumpNo, u64)
    requires { IsSome (single_place lookup) }
    ensures { single_place lookup ≡ Some (result.0.0, result.1) }
{
    match lookup {
        ColumnLookup::Single { lump, place } => (LumpNo(lump), u64::from(place)),
        _ => (LumpNo(0), 0),
    }
}

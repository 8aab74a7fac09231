// A prepared texture.
//
// Rules: `art_rules`, Lookups and Wanted. The original: `R_GenerateLookup`, r_data.c.
ghost use Rattle.std.specs.Prelude.{◌≡◌, ◌<◌, ◌≤◌, ◌^◌, ◌↔◌, ℕ, List, length, IfSome, IsNone, is_some, slice_index_or};
ghost use Rattle.texture_build.specs.Rules.{AreColumnsOf, Empty, Lump, column_lookups, composite_size, is_single, is_single_lookup, mask_of, masked_column, single_place};
ghost use Rattle.patch_columns.specs.Seen.{AreSeen, seen_lookups};
ghost use Rattle.texture_build.specs.Asked.{size_of};
ghost use Rattle.texture_build.specs.Sources.{IsColumnThere, column_in, own_lookup};
ghost use Rattle.texture_build.specs.Views.{ArePatchesThere};

use art_rules::{ColumnLookup, MAX_COMPOSITE, PlacedPatch};
use patch_columns::place_columns;
use std::marker::Model;

// A texture with its patches as lumps, and what each of its columns is read from.
pub(crate) struct PreparedTexture {
    patches: Vec<PlacedPatch>,
    columns: Vec<ColumnLookup>,
    height: u16,
    // the mask of its columns, and the bytes of its composite
    mask: u16,
    size: u32,
}

// By hand, so that a drop of one is one call.
impl Drop for PreparedTexture {
    fn drop(self) {
        let PreparedTexture {
            patches: _,
            columns: _,
            height: _,
            mask: _,
            size: _,
        } = self;
    }
}

impl Model for PreparedTexture {
    ghost use Rattle.std.specs.Prelude.{◌≡◌, ◌<◌, ◌≤◌, ◌^◌, ℕ, List, length};
    ghost use Rattle.texture_build.specs.Rules.{AreColumnsOf, MAX_COMPOSITE, PreparedTexture, composite_size, mask_of};

    ghost Value = { PreparedTexture };

    ghost view = { λ t. record {
      patches = t.patches.items;
      height = t.height;
      columns = t.columns.items;
    } };

    ghost invariant = { λ t.
        AreColumnsOf t.patches.items t.height t.columns.items
        × (t.mask ≡ mask_of (length t.columns.items))
        × (t.size ≡ composite_size t.patches.items (length t.columns.items) t.height)
        × (t.size ≤ MAX_COMPOSITE)
        × (0 < length t.columns.items)
        × (length t.columns.items < 2 ^ 16) };
}

impl PreparedTexture {
    // The texture of these patches and rows, whose columns are what was seen while its patches
    // came; `None` exactly where its composite has more than `MAX_COMPOSITE` bytes. `mask` is that
    // of its columns.
    pub(crate) fn new(
        patches: Vec<PlacedPatch>,
        mut columns: Vec<ColumnLookup>,
        height: u16,
        mask: u16,
    ) -> Option<PreparedTexture>
        requires some { 0 < length columns.items }
        requires width { length columns.items < 2 ^ 16 }
        requires seen { AreSeen patches.items columns.items }
        requires mask { mask ≡ mask_of (length columns.items) }
        ensures big { IsNone result ↔
            (MAX_COMPOSITE < composite_size patches.items (length columns.items) height) }
        ensures columns { (bytes : ℕ → List ℕ) →
            columns.items ≡ seen_lookups bytes patches.items (length columns.items) →
            IfSome result (λ t. t
            ≡ record {
              patches = patches.items;
              height = height;
              columns = column_lookups bytes patches.items (length columns.items) height;
            }) }
        ensures patches { IfSome result (λ t. t.patches ≡ patches.items) }
        ensures listed { IfSome result
            (λ t. (length t.columns ≡ length columns.items) × (t.height ≡ height)) }
    {
        let size = place_columns(&mut columns, height);
        if size > MAX_COMPOSITE as u64 {
            return None;
        }
        Some(PreparedTexture {
            patches,
            columns,
            height,
            mask,
            size: size as u32,
        })
    }

    // Its patches, in order.
    pub(crate) fn patches(&self) -> &[PlacedPatch]
        ensures { result.now ≡ self.now.patches }
    {
        &self.patches
    }

    // What each of its columns is read from.
    pub(crate) fn columns(&self) -> &[ColumnLookup]
        ensures value { result.now ≡ self.now.columns }
        ensures are { AreColumnsOf self.now.patches self.now.height self.now.columns }
        ensures count { length self.now.columns < 2 ^ 16 }
    {
        &self.columns
    }

    // Its rows.
    pub(crate) fn height(&self) -> u16
        ensures { result ≡ self.now.height }
    {
        self.height
    }

    // The mask of its columns, which is one of them.
    pub(crate) fn mask(&self) -> u16
        ensures value { result ≡ mask_of (length self.now.columns) }
        ensures within { result < length self.now.columns }
    {
        self.mask
    }

    // The bytes of its composite.
    pub(crate) fn size(&self) -> u32
        ensures value { result ≡ size_of self.now }
        ensures limit { result ≤ MAX_COMPOSITE }
    {
        self.size
    }

    // What a texture column is read from.
    pub(crate) fn lookup(&self, col: i32) -> ColumnLookup
        ensures column { result ≡ column_in self.now col }
        ensures there { (lumps : List Lump) → ArePatchesThere lumps self.now →
            IsColumnThere lumps result }
    {
        lookup_at(&self.columns, masked_column(self.mask, col))
    }

    // Whether exactly one patch stands in a column.
    pub(crate) fn is_single(&self, col: u16) -> bool
        requires { col < length self.now.columns }
        ensures value { result ≡ is_single self.now.patches col }
        ensures place { result ≡ is_some (single_place (own_lookup self.now col)) }
    {
        is_single_lookup(self.columns[col as usize])
    }
}

// The column of a texture that a texture column stands for.
#[tactic(auto, unfolding(art_rules::specs::Lookups::masked_column))]
fn masked_column(mask: u16, col: i32) -> u32
    ensures { result ≡ masked_column mask col }
{
    col.cast_unsigned() & u32::from(mask)
}

fn lookup_at(columns: &[ColumnLookup], column: u32) -> ColumnLookup
    ensures { result ≡ slice_index_or columns.now column Empty }
{
    match columns.get(column as usize) {
        Some(lookup) => *lookup,
        None => ColumnLookup::Empty,
    }
}

// Whether a column is read from one patch.
#[tactic(auto, unfolding(art_rules::specs::Lookups::is_single_lookup, art_rules::specs::Lookups::single_place))]
fn is_single_lookup(lookup: ColumnLookup) -> bool
    ensures { result ≡ is_single_lookup lookup }
{
    matches!(lookup, ColumnLookup::Single { .. })
}

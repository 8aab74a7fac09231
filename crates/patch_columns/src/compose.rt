// The posts of a patch, put into the composite of its texture.
//
// Rules: `art_rules`, Columns and Lookups, and `specs/Composites`. The original:
// `R_GenerateComposite`, `R_DrawColumnInCache`, r_data.c.
ghost use Rattle.std.specs.Prelude.{◌≡◌, ◌<◌, ◌+◌, ◌^◌, ◌+ℤ◌, pos, ◌++◌, ◌∷◌, [], ℕ, List, length, Some, slice_get};
ghost use Rattle.patch_columns.specs.Rules.{AreColumnsOf, Composed, composite_of_first, first_row, next_place, post_at, put_count, rows_above};
ghost use Rattle.patch_columns.specs.Composites.{placed_post, posts_at, posts_in, with_posts};

use crate::lookups::{own_column, stands_in};
use crate::{Post, column_place, next_place, post_at};
use art_rules::{ColumnLookup, PlacedPatch, byte_at};

/// Puts a patch of a texture of `height` rows into the texture's composite, over the patches before
/// it: its posts in each composed column in which it stands. `lump` is the bytes of its lump,
/// `columns` what each column of the texture is read from.
///
/// A post that begins above the first row loses as many bytes at its end; one that passes the last
/// row is cut there.
///
/// The original: `R_GenerateComposite`, r_data.c.
pub fn put_patch(
    lump: &[u8],
    patch: &PlacedPatch,
    columns: &[ColumnLookup],
    height: u16,
    composite: &mut [u8],
)
    requires width { length columns.now < 2 ^ 16 }
    ensures count { length composite.new ≡ length composite.old }
    ensures put { (bytes : ℕ → List ℕ) (patches : List PlacedPatch) (n : ℕ) → n < length patches →
        slice_get patches n ≡ Some patch.now → bytes patch.now.lump ≡ lump.now →
        AreColumnsOf patches height columns.now →
        composite.old ≡ composite_of_first bytes patches n (length columns.now) height →
        composite.new ≡ composite_of_first bytes patches (n + 1) (length columns.now) height }
{
    for (x, lookup) in columns.iter().enumerate() {
        put_in_composite(lump, *patch, x as u16, *lookup, height, composite);
    }
}

// Puts a patch into column `x` of its texture, which is read from `lookup`: into its rows of the
// composite where it is composed, else nowhere.
fn put_in_composite(
    lump: &[u8],
    patch: PlacedPatch,
    x: u16,
    lookup: ColumnLookup,
    height: u16,
    composite: &mut [u8],
)
    ensures count { length composite.new ≡ length composite.old }
    ensures other { ((place : ℕ) → lookup ≡ Composed place → ⊥) → composite.new ≡ composite.old }
    ensures put { (place : ℕ) (before column after : List ℕ) → lookup ≡ Composed place →
        composite.old ≡ before ++ (column ++ after) →
        length before ≡ place → length column ≡ height →
        composite.new ≡ before ++ (with_posts column (posts_in lump.now patch x) ++ after) }
{
    if let ColumnLookup::Composed { place } = lookup {
        let begin = place as usize;
        let end = begin + usize::from(height);
        if end <= composite.len() {
            put_in_column(lump, patch, x, &mut composite[begin..end]);
        }
    }
}

// Puts a patch into column `x` of its texture, if it stands there.
fn put_in_column(lump: &[u8], patch: PlacedPatch, x: u16, column: &mut [u8])
    ensures { column.new ≡ with_posts column.old (posts_in lump.now patch x) }
{
    if stands_in(x, patch) {
        let place = column_place(lump, own_column(x, patch));
        put_posts(lump, place, patch.y, column);
    }
}

// Puts the posts from a place of a patch on, each over those before it. The patch's top row is `y`.
fn put_posts(lump: &[u8], mut place: u64, y: i16, column: &mut [u8])
    ensures { column.new ≡ with_posts column.old (posts_at lump.now place y) }
{
    while let Some(post) = post_from(lump, place) {
        put_post(lump, post_row(y, post), post, column);
        if lump.len() as u64 <= post.first {
            return; // the lump ends in this post
        }
        place = next_place(post);
    }
}

// The post that begins at a place, none at any place past the lump's end.
fn post_from(lump: &[u8], place: u64) -> Option<Post>
    ensures { result ≡ post_at lump.now place }
{
    if lump.len() as u64 <= place {
        return None;
    }
    post_at(lump, place)
}

// The row of a post's first byte in a texture where its patch's top row is `y`.
fn post_row(y: i16, post: Post) -> i32
    ensures { result ≡ y +ℤ pos post.topdelta }
{
    i32::from(y) + i32::from(post.topdelta)
}

// Puts a post over what its rows have; its first byte stands at row `row`.
fn put_post(lump: &[u8], row: i32, post: Post, column: &mut [u8])
    requires { post.first + 2 ^ 8 < 2 ^ 64 }
    ensures { column.new ≡ with_posts column.old (placed_post row post lump.now ∷ []) }
{
    let first = first_row(row);
    let count = put_count(column.len(), row, post.length);
    for k in 0..count {
        column[first + k] = byte_at(lump, post.first + k as u64);
    }
}

// The row from which a post is put.
#[tactic(auto, unfolding(art_rules::specs::Columns::first_row, art_rules::specs::Words::natural))]
fn first_row(row: i32) -> usize
    ensures { result ≡ first_row row }
{
    row.max(0) as usize
}

// How many bytes of a post lie above the first row.
#[tactic(auto, unfolding(art_rules::specs::Columns::rows_above, art_rules::specs::Words::natural))]
fn rows_above(row: i32) -> usize
    ensures { result ≡ rows_above row }
{
    row.min(0).unsigned_abs() as usize
}

// How many bytes of a post are put; those above the first row are taken off its end.
#[tactic(auto, unfolding(art_rules::specs::Columns::put_count))]
fn put_count(height: usize, row: i32, length: u8) -> usize
    ensures { result ≡ put_count height row length }
{
    let below = usize::from(length).saturating_sub(rows_above(row));
    below.min(height.saturating_sub(first_row(row)))
}

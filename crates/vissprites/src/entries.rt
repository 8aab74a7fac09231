// The vissprite of a thing that is seen with a picture.

ghost use Rattle.std.specs.Prelude.{◌≡◌, ◌<◌, ◌≤ℤ◌, pos, Some};
ghost use Rattle.picture_rules.specs.Words.{edge_column, entry_for, entry_of, left_edge, LIGHT_LEVELS, misses_view, picture_first, picture_height, picture_last, project, right_edge, sprite_map};

use picture_rules::{FRACTION_BITS, FRACTION_UNIT, Placed, Seen, Shape5, SpriteEntry};
use view_frame::{
    View, div, fixed, greater_word, lesser_word, minus, mul, plus, projection, shr_word,
};

/// The entry of this number of a thing that is seen, None where its picture misses the view.
#[tactic(auto, unfolding(picture_rules::specs::sprite::Entries::entry_for, picture_rules::specs::sprite::Entries::entry_within))]
pub fn entry_for(
    view: &View<'_>,
    number: u16,
    thing: &Placed,
    seen: Seen,
    shape: Shape5,
) -> Option<SpriteEntry>
    requires light { thing.now.light < LIGHT_LEVELS }
    requires seen { project view.now thing.now ≡ Some seen }
    ensures { result ≡ entry_for view.now number thing.now seen shape }
{
    let first = picture_first(view, seen, shape);
    let last = picture_last(view, seen, shape);
    if misses_view(view, first, last) {
        return None;
    }
    Some(entry_of(view, number, thing, seen, shape, first, last))
}

// The entry of a thing whose picture is seen, from column `first` to column `last`.

#[tactic(auto, unfolding(picture_rules::specs::sprite::Entries::entry_of))]
fn entry_of(
    view: &View<'_>,
    number: u16,
    thing: &Placed,
    seen: Seen,
    shape: Shape5,
    first: i32,
    last: i32,
) -> SpriteEntry
    requires light { thing.now.light < LIGHT_LEVELS }
    requires seen { project view.now thing.now ≡ Some seen }
    ensures { result ≡ entry_of view.now number thing.now seen shape first last }
{
    let gzt = picture_height(thing, shape);
    SpriteEntry {
        number,
        first: greater_word(first, 0),
        last: lesser_word(last, minus(view.shape().width as i32, 1)),
        a1: first,
        x: thing.x,
        y: thing.y,
        gz: thing.z,
        gzt,
        mid: minus(gzt, view.eye().z),
        scale: seen.scale,
        iscale: div(FRACTION_UNIT, seen.scale),
        flip: shape.flip,
        width: shape.width,
        lump: shape.lump,
        map: sprite_map(view, thing, seen.scale),
    }
}

/// The colormap of a thing at a scale.
#[tactic(auto, unfolding(picture_rules::specs::sprite::Entries::sprite_map))]
fn sprite_map(view: &View<'_>, thing: &Placed, scale: i32) -> u8
    requires light { thing.now.light < LIGHT_LEVELS }
    requires scale { pos 0 ≤ℤ scale }
    ensures { result ≡ sprite_map view.now thing.now scale }
{
    if thing.bright {
        view.bright_map()
    } else {
        view.scale_map(thing.light, scale)
    }
}

/// The top of the picture (map units, 16.16).
#[tactic(auto, unfolding(picture_rules::specs::sprite::Entries::picture_height))]
fn picture_height(thing: &Placed, shape: Shape5) -> i32
    ensures { result ≡ picture_height thing.now shape }
{
    plus(thing.z, fixed(shape.top as i32))
}

/// Whether the picture lies right of the view, or left of it.
#[tactic(auto, unfolding(picture_rules::specs::sprite::Entries::misses_view))]
pub fn misses_view(view: &View<'_>, first: i32, last: i32) -> bool
    ensures { result ≡ misses_view view.now first last }
{
    (view.shape().width as i32) < first || last < 0
}

/// The picture's first column, which may lie outside the view.
#[tactic(auto, unfolding(picture_rules::specs::sprite::Entries::picture_first))]
fn picture_first(view: &View<'_>, seen: Seen, shape: Shape5) -> i32
    ensures { result ≡ picture_first view.now seen shape }
{
    edge_column(view, left_edge(seen.side, shape), seen.scale)
}

/// The picture's last column.
#[tactic(auto, unfolding(picture_rules::specs::sprite::Entries::picture_last))]
fn picture_last(view: &View<'_>, seen: Seen, shape: Shape5) -> i32
    ensures { result ≡ picture_last view.now seen shape }
{
    minus(
        edge_column(view, right_edge(seen.side, shape), seen.scale),
        1,
    )
}

/// The column of an edge (map units 16.16, to the right) at a scale; it may lie outside the view.
#[inline(always)]
#[tactic(auto, unfolding(picture_rules::specs::sprite::Entries::edge_column))]
pub fn edge_column(view: &View<'_>, edge: i32, scale: i32) -> i32
    ensures { result ≡ edge_column view.now edge scale }
{
    let column = plus(projection(view.shape()), mul(edge, scale));
    shr_word(column, FRACTION_BITS)
}

/// The left edge of the picture of a thing that is seen so far to the right.
#[inline(always)]
#[tactic(auto, unfolding(picture_rules::specs::sprite::Entries::left_edge))]
fn left_edge(side: i32, shape: Shape5) -> i32
    ensures { result ≡ left_edge side shape }
{
    minus(side, fixed(shape.left as i32))
}

/// The right edge.
#[inline(always)]
#[tactic(auto, unfolding(picture_rules::specs::sprite::Entries::right_edge))]
fn right_edge(side: i32, shape: Shape5) -> i32
    ensures { result ≡ right_edge side shape }
{
    plus(left_edge(side, shape), fixed(shape.width as i32))
}

// Where a thing is seen, before its picture is known.

ghost use Rattle.std.specs.Prelude.{◌≡◌, ◌<◌, IfSome};
ghost use Rattle.picture_rules.specs.Words.{depth, project, rotation, seen_at, seen_within, side, sprite_scale, view_cosine, view_sine};

use picture_rules::{MIN_DEPTH, Placed, ROTATION_SHIFT, ROTATION_TURN, SIDE_SHIFT, Seen};
use view_frame::{
    View, abs_word, div, fine_angle, minus, mul, neg_word, plus, projection, shl_word, turn,
    turn_back,
};

/// The pictures of a thing by its turn to the viewpoint.
pub const ROTATIONS: u8 = 8;

/// Where the viewpoint sees a thing: its scale (16.16, pixels a map unit), its place across the
/// view (map units 16.16, to the right) and its rotation; None where it is nearer than `MIN_DEPTH`
/// or more than four times as far to the side as ahead.
///
/// Takes no memory.
///
/// The original: the first half of `R_ProjectSprite`, r_things.c.
#[tactic(auto, unfolding(picture_rules::specs::sprite::Projection::project))]
pub fn project(view: &View<'_>, thing: &Placed) -> Option<Seen>
    ensures value { result ≡ project view.now thing.now }
    ensures rotation { IfSome result (λ seen. seen.rotation < ROTATIONS) }
{
    let depth = depth(view, thing.x, thing.y);
    let side = side(view, thing.x, thing.y);
    seen_within(view, thing, depth, side)
}

#[tactic(auto, unfolding(picture_rules::specs::sprite::Projection::seen_within))]
fn seen_within(view: &View<'_>, thing: &Placed, depth: i32, side: i32) -> Option<Seen>
    ensures value { result ≡ seen_within view.now thing.now depth side }
    ensures rotation { IfSome result (λ seen. seen.rotation < ROTATIONS) }
{
    if depth < MIN_DEPTH {
        return None;
    }
    if shl_word(depth, SIDE_SHIFT) < abs_word(side) {
        return None;
    }
    Some(seen_at(view, thing, depth, side))
}

#[tactic(auto, unfolding(picture_rules::specs::sprite::Projection::seen_at))]
fn seen_at(view: &View<'_>, thing: &Placed, depth: i32, side: i32) -> Seen
    ensures value { result ≡ seen_at view.now thing.now depth side }
    ensures rotation { result.rotation < ROTATIONS }
{
    Seen {
        scale: sprite_scale(view, depth),
        side,
        rotation: rotation(view, thing),
    }
}

#[inline(always)]
#[tactic(auto, unfolding(picture_rules::specs::sprite::Projection::sprite_scale))]
fn sprite_scale(view: &View<'_>, depth: i32) -> i32
    ensures { result ≡ sprite_scale view.now depth }
{
    div(projection(view.shape()), depth)
}

#[tactic(auto, unfolding(picture_rules::specs::sprite::Projection::rotation))]
fn rotation(view: &View<'_>, thing: &Placed) -> u8
    ensures value { result ≡ rotation view.now thing.now }
    ensures bound { result < ROTATIONS }
{
    let turned = turn_back(view.point_angle(thing.x, thing.y), thing.angle);
    (turn(turned, ROTATION_TURN) >> ROTATION_SHIFT) as u8
}

/// How far a place is along the view's direction.
#[inline(always)]
#[tactic(auto, unfolding(picture_rules::specs::sprite::Projection::depth))]
fn depth(view: &View<'_>, x: i32, y: i32) -> i32
    ensures { result ≡ depth view.now x y }
{
    let eye = view.eye();
    plus(
        mul(minus(x, eye.x), view_cosine(view)),
        mul(minus(y, eye.y), view_sine(view)),
    )
}

/// And across it, to the right.
#[inline(always)]
#[tactic(auto, unfolding(picture_rules::specs::sprite::Projection::side))]
fn side(view: &View<'_>, x: i32, y: i32) -> i32
    ensures { result ≡ side view.now x y }
{
    let eye = view.eye();
    neg_word(minus(
        mul(minus(y, eye.y), view_cosine(view)),
        mul(minus(x, eye.x), view_sine(view)),
    ))
}

#[inline(always)]
#[tactic(auto, unfolding(picture_rules::specs::sprite::Projection::view_sine))]
fn view_sine(view: &View<'_>) -> i32
    ensures { result ≡ view_sine view.now }
{
    view.tables().sine(fine_angle(view.eye().angle))
}

#[inline(always)]
#[tactic(auto, unfolding(picture_rules::specs::sprite::Projection::view_cosine))]
fn view_cosine(view: &View<'_>) -> i32
    ensures { result ≡ view_cosine view.now }
{
    view.tables().cosine(fine_angle(view.eye().angle))
}

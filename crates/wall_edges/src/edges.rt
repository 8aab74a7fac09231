// The edges of a fragment at a column: rules `picture_rules/wall`, Edges.

ghost use Rattle.std.specs.Prelude.{◌≡◌};
ghost use Rattle.picture_rules.specs.Words.{centre_edge, edge_at, edge_first, edge_step, edges_at, edges_first, edges_plus, edges_step, shr_word, step_at};
ghost use Rattle.picture_rules.specs.declared.wall.TheConstants.{HEIGHT_SHIFT};

use picture_rules::{Edges, FragmentNumbers, HEIGHT_SHIFT, ViewShape};
use view_frame::{fixed, minus, mul, neg_word, plus, shr_word, times};

// The value after `k` steps.
#[tactic(auto, unfolding(picture_rules::specs::Words::step_at))]
fn step_at(first: i32, step: i32, k: u16) -> i32
    ensures { result ≡ step_at first step k }
{
    plus(first, times(k as i32, step))
}

// The centre row.
#[tactic(auto, unfolding(picture_rules::specs::wall::Edges::centre_edge))]
fn centre_edge(shape: ViewShape) -> i32
    ensures { result ≡ centre_edge shape }
{
    shr_word(fixed(shape.centre_y as i32), HEIGHT_SHIFT)
}

// The edge of a shifted height at a scale.
#[tactic(auto, unfolding(picture_rules::specs::wall::Edges::edge_first))]
fn edge_first(shape: ViewShape, w: i32, scale: i32) -> i32
    ensures { result ≡ edge_first shape w scale }
{
    minus(centre_edge(shape), mul(w, scale))
}

// What that edge gains a column.
#[tactic(auto, unfolding(picture_rules::specs::wall::Edges::edge_step))]
fn edge_step(w: i32, step: i32) -> i32
    ensures { result ≡ edge_step w step }
{
    neg_word(mul(step, w))
}

// The edge of a height above the viewpoint at the column number `k` of a fragment.
#[tactic(auto, unfolding(picture_rules::specs::wall::Edges::edge_at))]
fn edge_at(shape: ViewShape, height: i32, scale: i32, step: i32, k: u16) -> i32
    ensures { result ≡ edge_at shape height scale step k }
{
    let w = shr_word(height, HEIGHT_SHIFT);
    step_at(edge_first(shape, w, scale), edge_step(w, step), k)
}

/// The edges at the column number `k` of a fragment.
#[tactic(auto, unfolding(picture_rules::specs::wall::Edges::edges_at))]
pub fn edges_at(shape: ViewShape, numbers: &FragmentNumbers, k: u16) -> Edges
    ensures { result ≡ edges_at shape numbers.now k }
{
    let scale = numbers.scale1;
    let step = numbers.step;
    Edges {
        scale: step_at(scale, step, k),
        top: edge_at(shape, numbers.world_top, scale, step, k),
        bottom: edge_at(shape, numbers.world_bottom, scale, step, k),
        high: edge_at(shape, numbers.world_high, scale, step, k),
        low: edge_at(shape, numbers.world_low, scale, step, k),
    }
}

// The edge of a height above the viewpoint at a scale.
fn height_edge(shape: ViewShape, height: i32, scale: i32) -> i32
    ensures { result ≡ edge_first shape (shr_word height HEIGHT_SHIFT) scale }
{
    edge_first(shape, shr_word(height, HEIGHT_SHIFT), scale)
}

// What the edge of a height gains a column.
fn height_step(height: i32, step: i32) -> i32
    ensures { result ≡ edge_step (shr_word height HEIGHT_SHIFT) step }
{
    edge_step(shr_word(height, HEIGHT_SHIFT), step)
}

/// The edges at the first column.
#[tactic(auto, unfolding(picture_rules::specs::wall::Edges::edges_first))]
pub fn edges_first(shape: ViewShape, numbers: &FragmentNumbers) -> Edges
    ensures { result ≡ edges_first shape numbers.now }
{
    let scale = numbers.scale1;
    Edges {
        scale,
        top: height_edge(shape, numbers.world_top, scale),
        bottom: height_edge(shape, numbers.world_bottom, scale),
        high: height_edge(shape, numbers.world_high, scale),
        low: height_edge(shape, numbers.world_low, scale),
    }
}

/// What the edges gain a column.
#[tactic(auto, unfolding(picture_rules::specs::wall::Edges::edges_step))]
pub fn edges_step(numbers: &FragmentNumbers) -> Edges
    ensures { result ≡ edges_step numbers.now }
{
    let step = numbers.step;
    Edges {
        scale: step,
        top: height_step(numbers.world_top, step),
        bottom: height_step(numbers.world_bottom, step),
        high: height_step(numbers.world_high, step),
        low: height_step(numbers.world_low, step),
    }
}

/// The sums of the edges and what they gain.
#[tactic(auto, unfolding(picture_rules::specs::wall::Edges::edges_plus))]
pub fn edges_plus(a: Edges, b: Edges) -> Edges
    ensures { result ≡ edges_plus a b }
{
    Edges {
        scale: plus(a.scale, b.scale),
        top: plus(a.top, b.top),
        bottom: plus(a.bottom, b.bottom),
        high: plus(a.high, b.high),
        low: plus(a.low, b.low),
    }
}

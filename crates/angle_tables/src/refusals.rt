// What is wrong with tables: rule `angles_refusal`, the first wrong entry of each table in turn.
// This project's own: the original trusts the tables it is built with.

ghost use Rattle.std.specs.Prelude.{◌≡◌, ◌<◌, Option, length};
ghost use Rattle.angle_tables.specs.Rules.{angles_refusal, is_wrong_angle, is_wrong_edge, is_wrong_left, is_wrong_sine, is_wrong_tangent, is_wrong_view, least, refused_at, view_refusal};
ghost use Rattle.angle_tables.specs.Lists.{is_wrong_in, length_in, refusal_in};

use crate::columns::first_seen_by;
use crate::lists::{AngleList, AngleLists};
use thiserror::Error;
use view_rules::{
    EDGE_TANGENT, FINE_AHEAD, MAX_EDGE_TANGENT, MAX_SINE, MAX_SLOPE_ANGLE, MIN_EDGE_TANGENT, SINES,
    SLOPE_ANGLES, TANGENTS, TablesRefusal, ViewShape,
};

/// Why there are no tables: the file is refused, or out of memory.
#[derive(Debug, Drop, Error)]
pub enum TablesFault {
    #[error("{0}")]
    Refused(TablesRefusal),
    #[error("out of memory")]
    OutOfMemory,
}

/// The first thing that is wrong with the tables for views of `shape`.
#[tactic(auto, unfolding(view_rules::specs::Refusals::angles_refusal, view_rules::specs::Refusals::sine_refusal, view_rules::specs::Refusals::tangent_refusal, view_rules::specs::Refusals::angle_refusal))]
pub(crate) fn angles_refusal(t: &AngleLists, shape: ViewShape) -> Option<TablesRefusal>
    ensures { result ≡ angles_refusal t.now shape }
{
    if let Some(refusal) = entry_refusal(t, AngleList::Sines) {
        return Some(refusal);
    }
    if let Some(refusal) = entry_refusal(t, AngleList::Tangents) {
        return Some(refusal);
    }
    if let Some(refusal) = entry_refusal(t, AngleList::SlopeAngles) {
        return Some(refusal);
    }
    view_refusal(t, shape)
}

// The refusal of the first wrong entry of a table.
fn entry_refusal(t: &AngleLists, list: AngleList) -> Option<TablesRefusal>
    ensures { result ≡ refused_at (refusal_in list)
        (least (is_wrong_in t.now list) (length_in list)) }
{
    match first_wrong(t, list) {
        Some(i) => Some(refusal_of(list, i as u64)),
        None => None,
    }
}

fn refusal_of(list: AngleList, index: u64) -> TablesRefusal
    ensures { result ≡ refusal_in list index }
{
    match list {
        AngleList::Sines => TablesRefusal::Sine { index },
        AngleList::Tangents => TablesRefusal::Tangent { index },
        AngleList::SlopeAngles => TablesRefusal::Angle { index },
    }
}

fn first_wrong(t: &AngleLists, list: AngleList) -> Option<usize>
    ensures { result ≡ least (is_wrong_in t.now list) (length_in list) }
{
    for i in 0..length_of(list) {
        if is_wrong(t, list, i) {
            return Some(i);
        }
    }
    None
}

fn length_of(list: AngleList) -> usize
    ensures { result ≡ length_in list }
{
    match list {
        AngleList::Sines => SINES,
        AngleList::Tangents => TANGENTS,
        AngleList::SlopeAngles => SLOPE_ANGLES,
    }
}

fn is_wrong(t: &AngleLists, list: AngleList, i: usize) -> bool
    requires { i < length_in list }
    ensures { result ≡ is_wrong_in t.now list i }
{
    match list {
        AngleList::Sines => is_wrong_sine(t.sines(), i),
        AngleList::Tangents => is_wrong_tangent(t.tangents(), i),
        AngleList::SlopeAngles => is_wrong_angle(t.slope_angles(), i),
    }
}

#[tactic(auto, unfolding(view_rules::specs::Refusals::is_wrong_sine))]
fn is_wrong_sine(sine: &[i32], i: usize) -> bool
    requires { i < length sine.now }
    ensures { result ≡ is_wrong_sine sine.now i }
{
    sine[i] < -MAX_SINE || sine[i] > MAX_SINE
}

#[tactic(auto, unfolding(view_rules::specs::Refusals::is_wrong_tangent))]
fn is_wrong_tangent(tangent: &[i32], i: usize) -> bool
    requires { i < length tangent.now }
    ensures { result ≡ is_wrong_tangent tangent.now i }
{
    i > 0 && tangent[i] < tangent[i - 1]
}

#[tactic(auto, unfolding(view_rules::specs::Refusals::is_wrong_angle))]
fn is_wrong_angle(angle: &[u32], i: usize) -> bool
    requires { i < length angle.now }
    ensures { result ≡ is_wrong_angle angle.now i }
{
    angle[i] > MAX_SLOPE_ANGLE || i > 0 && angle[i] < angle[i - 1]
}

#[tactic(auto, unfolding(view_rules::specs::Refusals::view_refusal))]
fn view_refusal(t: &AngleLists, shape: ViewShape) -> Option<TablesRefusal>
    ensures { result ≡ view_refusal t.now shape }
{
    if is_wrong_view(t, shape) {
        return Some(TablesRefusal::FieldOfView);
    }
    None
}

#[tactic(auto, unfolding(view_rules::specs::Refusals::is_wrong_view))]
fn is_wrong_view(t: &AngleLists, shape: ViewShape) -> bool
    ensures { result ≡ is_wrong_view t.now shape }
{
    is_wrong_edge(t) || is_wrong_left(first_seen_by(t, shape, 0, 0))
}

#[tactic(auto, unfolding(view_rules::specs::Refusals::is_wrong_edge))]
fn is_wrong_edge(t: &AngleLists) -> bool
    ensures { result ≡ is_wrong_edge t.now }
{
    let tangent = t.tangent(EDGE_TANGENT);
    tangent < MIN_EDGE_TANGENT || tangent > MAX_EDGE_TANGENT
}

fn is_wrong_left(edge: Option<usize>) -> bool
    ensures { result ≡ is_wrong_left edge }
{
    match edge {
        Some(i) => i < FINE_AHEAD + 1,
        None => true,
    }
}

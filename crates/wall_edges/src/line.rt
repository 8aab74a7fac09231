// The line of a seg as a view sees it: rules `picture_rules/wall`, Scales and Columns.

ghost use Rattle.std.specs.Prelude.{◌≡◌, ◌<◌, min, cond, nat_lt, unsigned_abs};
ghost use Rattle.picture_rules.specs.Words.{abs_word, ang180, ang90, fine_angle, FINE_ANGLES, mul, neg_word, normal_turn, quarter_of, seg_normal, signed_of, sine_at, texture_offset, turn_back, vertex_angle, vertex_dist};
ghost use Rattle.wall_edges.specs.Lines.{seg_line_of};

use picture_rules::{ANG90, ANG180, Seg, WallFacts};
use view_frame::{View, abs_word, fine_angle, mul, neg_word, plus, signed_of, turn, turn_back};

/// The line of a seg as a view sees it: the angle of its normal (BAM), its distance (map units,
/// 16.16), and the texture column (16.16) where the viewpoint stands straight before it.
#[derive(Clone, Copy)]
pub struct SegLine {
    pub normal: u32,
    pub distance: i32,
    pub offset: i32,
}

/// The line of the seg of `facts`.
#[tactic(auto, unfolding(picture_rules::specs::wall::Scales::offset_angle, picture_rules::specs::wall::Scales::seg_distance))]
pub fn seg_line_of(view: &View<'_>, facts: &WallFacts) -> SegLine
    ensures { result ≡ seg_line_of view.now facts.now }
{
    let off = normal_turn(view, &facts.seg);
    let dist = vertex_dist(view, &facts.seg);
    SegLine {
        normal: seg_normal(&facts.seg),
        distance: distance_by(view, off, dist),
        offset: texture_offset(view, facts, off, dist),
    }
}

/// The angle at which the seg's front looks.
#[tactic(auto, unfolding(picture_rules::specs::wall::Scales::seg_normal))]
pub fn seg_normal(seg: &Seg) -> u32
    ensures { result ≡ seg_normal seg.now }
{
    turn(seg.angle, ANG90)
}

/// The angle of the first vertex.
#[tactic(auto, unfolding(picture_rules::specs::wall::Scales::vertex_angle))]
fn vertex_angle(view: &View<'_>, seg: &Seg) -> u32
    ensures { result ≡ vertex_angle view.now seg.now }
{
    view.point_angle(seg.x1, seg.y1)
}

/// The distance of the first vertex.
#[tactic(auto, unfolding(picture_rules::specs::wall::Scales::vertex_dist))]
fn vertex_dist(view: &View<'_>, seg: &Seg) -> i32
    ensures { result ≡ vertex_dist view.now seg.now }
{
    view.point_dist(seg.x1, seg.y1)
}

/// How far the first vertex is from the normal, as an angle with wrap.
#[tactic(auto, unfolding(picture_rules::specs::wall::Scales::normal_turn))]
fn normal_turn(view: &View<'_>, seg: &Seg) -> u32
    ensures { result ≡ normal_turn view.now seg.now }
{
    turn_back(seg_normal(seg), vertex_angle(view, seg))
}

/// The sine of a fine angle.
fn sine(view: &View<'_>, fine: usize) -> i32
    requires { fine < FINE_ANGLES }
    ensures { result ≡ sine_at view.now.tables fine }
{
    view.tables().sine(fine)
}

/// An angle without its sign, at most a quarter turn.
fn unsigned_quarter(off: u32) -> u32
    ensures { result ≡ min (unsigned_abs (abs_word (signed_of off))) ang90 }
{
    abs_word(signed_of(off)).unsigned_abs().min(ANG90)
}

/// The distance of the line, by that of a point of it which is seen `off` the normal.
fn distance_by(view: &View<'_>, off: u32, dist: i32) -> i32
    ensures { result ≡ mul dist (sine_at view.now.tables (fine_angle
        (turn_back ang90 (min (unsigned_abs (abs_word (signed_of off))) ang90)))) }
{
    mul(
        dist,
        sine(view, fine_angle(turn_back(ANG90, unsigned_quarter(off)))),
    )
}

/// A turn without its sign, at most a quarter turn.
#[tactic(auto, unfolding(picture_rules::specs::wall::Columns::quarter_of))]
fn quarter_of(off: u32) -> u32
    ensures { result ≡ quarter_of off }
{
    let turned = if ANG180 < off { turn_back(0, off) } else { off };
    turned.min(ANG90)
}

/// How far along the line from the foot of the viewpoint a point of it is.
fn foot_by(view: &View<'_>, off: u32, dist: i32) -> i32
    ensures { result ≡ mul dist (sine_at view.now.tables (fine_angle (quarter_of off))) }
{
    mul(dist, sine(view, fine_angle(quarter_of(off))))
}

/// That length with the sign of a texture column.
fn signed_by(off: u32, foot: i32) -> i32
    ensures { result ≡ cond (nat_lt off ang180) (neg_word foot) foot }
{
    if off < ANG180 { neg_word(foot) } else { foot }
}

/// The texture column at the foot, by the first vertex's distance and its turn off the normal.
#[tactic(auto, unfolding(picture_rules::specs::wall::Columns::foot_offset, picture_rules::specs::wall::Columns::signed_foot, picture_rules::specs::wall::Columns::texture_offset))]
fn texture_offset(view: &View<'_>, facts: &WallFacts, off: u32, dist: i32) -> i32
    requires off { off ≡ normal_turn view.now facts.now.seg }
    requires dist { dist ≡ vertex_dist view.now facts.now.seg }
    ensures { result ≡ texture_offset view.now facts.now }
{
    let foot = signed_by(off, foot_by(view, off, dist));
    plus(plus(foot, facts.x_offset), facts.seg.offset)
}

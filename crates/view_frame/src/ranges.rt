// The ends of a column range: rules `clipped_left`, `clipped_right`.

ghost use Rattle.std.specs.Prelude.{◌≡◌};
ghost use Rattle.view_rules.specs.Ranges.{clipped_end, clipped_left, clipped_right};

use fx_words::{turn, turn_back};

/// One end of a range, or None where the range ends before the view begins.
#[tactic(auto, unfolding(view_rules::specs::Ranges::clipped_end))]
fn clipped_end(clip: u32, span: u32, past: u32, angle: u32, edge: u32) -> Option<u32>
    ensures { result ≡ clipped_end clip span past angle edge }
{
    let twice = turn(clip, clip);
    if past > twice {
        if turn_back(past, twice) >= span {
            return None;
        }
        return Some(edge);
    }
    Some(angle)
}

/// The left end of a range.
#[tactic(auto, unfolding(view_rules::specs::Ranges::clipped_left))]
pub(crate) fn clipped_left(clip: u32, span: u32, angle: u32) -> Option<u32>
    ensures { result ≡ clipped_left clip span angle }
{
    clipped_end(clip, span, turn(angle, clip), angle, clip)
}

/// The right end of a range.
#[tactic(auto, unfolding(view_rules::specs::Ranges::clipped_right))]
pub(crate) fn clipped_right(clip: u32, span: u32, angle: u32) -> Option<u32>
    ensures { result ≡ clipped_right clip span angle }
{
    clipped_end(
        clip,
        span,
        turn_back(clip, angle),
        angle,
        turn_back(0, clip),
    )
}

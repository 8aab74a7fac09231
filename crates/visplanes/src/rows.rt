// The rows of a column, and those that one column has and another has not.
ghost use Rattle.std.specs.Prelude.{◌≡◌, ◌+◌, ◌<◌, ◌≤◌, IfSome};
ghost use Rattle.picture_rules.specs.Words.{FRAME_HEIGHT, holds_row};
ghost use Rattle.visplanes.specs.Spans.{rows_of};

/// The rows from `begin` on, before `end`.
#[derive(Clone, Copy)]
pub struct Rows {
    pub begin: u16,
    pub end: u16,
}

/// No row.
pub const NO_ROWS: Rows = Rows { begin: 0, end: 0 };

/// The rows of a run.
pub fn rows_of(run: Option<(u8, u8)>) -> Rows
    requires { IfSome run (λ r. (r.0 ≤ r.1) × (r.1 < FRAME_HEIGHT)) }
    ensures rows { result ≡ rows_of run }
    ensures ordered { result.begin ≤ result.end }
    ensures within { result.end ≤ FRAME_HEIGHT }
{
    match run {
        Some((top, bottom)) => Rows {
            begin: top as u16,
            end: bottom as u16 + 1,
        },
        None => NO_ROWS,
    }
}

/// Whether a run holds row `y`.
#[tactic(auto, unfolding(picture_rules::specs::plane::Spans::holds_row))]
pub fn holds_row(run: Option<(u8, u8)>, y: u8) -> bool
    ensures { result ≡ holds_row run y }
{
    match run {
        Some((top, bottom)) => top <= y && y <= bottom,
        None => false,
    }
}

// The numbers of the sines and tangents by formula.
use word_rules::FRACTION_BITS;

/// The fine angles of a half turn.
pub const HALF_TURN: u32 = 4096;

/// A half turn in half steps of a fine angle.
pub const HALF_STEPS: u32 = 8192;

/// The fine angles of a quarter of a turn.
pub const QUARTER: u32 = 2048;

/// One whole in 16.16 fixed point.
pub const ONE: u32 = 1 << FRACTION_BITS;

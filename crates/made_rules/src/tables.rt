// The sizes of the angle tables.
use view_rules::ONE;
use word_rules::SLOPE_STEPS;

/// The entries of the table of sines: a full turn and a quarter of fine angles.
pub const SINES: u32 = 10240;

/// The entries of the table of tangents: half a turn of fine angles.
pub const TANGENTS: u32 = 4096;

/// The size of a slope's step, 16.16 fixed point.
pub const SLOPE_STEP: u32 = ONE / SLOPE_STEPS;

/// The entries of the table of slope angles, one for each slope from 0 to 2048.
pub const SLOPES: u32 = SLOPE_STEPS + 1;

//! Files for tests: WADs that are put together, small levels, the made files in memory, and the sum
//! of bytes.
//!
//! Errors: `AllocError` alone. Proved: that the calls are safe. Tested only: what they give, by the
//! tests that read it.
#![tactic(auto)]

mod files;
mod levels;
mod wads;

pub use files::{file_of, made_files, sum_of};
pub use levels::{chain_wad, hall_wad, room_wad};
pub use wads::{put_halves, put_over, wad_of};

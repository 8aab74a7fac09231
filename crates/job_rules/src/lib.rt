//! What a job is: the records of a command, the ranges of its numbers, and why a level is not
//! trimmed.
//!
//! Rules: records and constants, and in `specs/` the ranges (Ranges), which options a job takes
//! (Options), a job over a level as text and numbers (LevelJobs) and a command as such (Commands).
//! Nothing here is code. How the words of the command line give a command is in `command_line`.
//! This project's own.
#![tactic(auto)]

mod command;
mod options;
mod ranges;
mod trim;

pub use command::{Command, Files, Format, LevelJob, LevelTask, MakeJob, Settings};
pub use options::{OPTION_COUNT, OPTIONS};
pub use ranges::{
    MAX_COUNT, MAX_PLANES, MAX_SIZE, MAX_SKILL, MAX_WADS, MAX_ZONE, MIN_COUNT, MIN_OPENINGS,
    MIN_PLANES, MIN_SIZE, MIN_SKILL, MIN_ZONE, MOST_OPENINGS, ZONE_STEP,
};
pub use trim::{MAX_FILE_BYTES, TrimRefusal};

//! The words of the command line, as a command: a job with its names, numbers and files.
//!
//! Rules: `specs/`, over `clap`'s own words for a simple command. Proved: the words are a command
//! exactly where clap finds no fault in them and the table of jobs and options takes what it
//! finds, and the command is that one, with its numbers in their ranges. The records of a command
//! and their ranges are in `job_rules`. Tested only: that memory is found. This project's own: the
//! original reads its words by `M_CheckParm`, m_argv.c.
#![tactic(auto)]

mod choices;
mod fault;
mod jobs;
mod level_jobs;
mod options;
mod simple;

pub use choices::{DEFAULT_OPENINGS, DEFAULT_PLANES, DEFAULT_SIZE, DEFAULT_SKILL, DEFAULT_ZONE};
pub use fault::CommandFault;
pub use jobs::command_of;

//! A run of the program, from the words of its command line to its status.
//!
//! A run has a command, which its words give (`command_line`). What each command determines is said
//! once, in one table (`specs/Jobs`); no other definition has a case a job. A job over a level loads
//! its scene, and then does with it what its task says. All memory is taken, and all that can be
//! refused is refused, before the first byte is written: `render`, `trace` and `trim` alone read on
//! while they write, each view as it is drawn, each lump as it is copied. The jobs `flat` and
//! `make`, the statuses and their lines are in `job_files`.
//!
//! Rules: specs. What a run determines, which names nothing of how a view is drawn: Jobs (the table
//! of jobs), Verdict (what a run determines), Performs (what a status says of a run), Ends (what was
//! written by then), Fulls (when a zone is full), Leasts (the smallest zone in which a run ends),
//! Takes (how many bytes are read), Words (what the words ask for), Steps (where a run stops), Views
//! (the frames and the counts of a path, and the first view over a limit), Lists (what each view is
//! made of, item by item), Layers (weapons), Exercises (the made files, rendered), Trims (the parts
//! of a trimmed file), Alike (what a trimmed file is for), Exits (the number with which the program
//! ends). How it is drawn: Renders (a scene that is ready to be drawn), Frames (one view, drawn and
//! written), Drawn (a view with its weapon layers).
//! Proved: what `run` writes, each status and its cause, the line for each status, and
//! (`proofs/alike`) that a trimmed file renders as its WADs do. Tested only: that memory is found.
//! The original: none; `D_DoomMain`, d_main.c, stands in its place there.
#![tactic(auto)]

mod audit;
mod canvas;
mod exercise;
mod exit;
mod form;
mod layers;
mod level;
mod limits;
mod lines;
mod list;
mod render;
mod summary;
mod top;
mod trim;

pub use exit::{exit_of, run_to_exit};
pub use job_files::{Status, put_note};
pub use picture_rules::LimitKind;
pub use refusals::{ArtRefusal, Refusal, SceneRefusal};
pub use top::run;

//! What a job reads straight from the shelf, without a zone; the two jobs that need no more, `flat`
//! and `make`; and how a job ends: statuses and their lines.
//!
//! A job has two halves: `prepare_..` reads and checks all that it needs and takes all memory,
//! `deliver_..` writes. The jobs over levels, and a run of any job, are in `doom_run`.
//!
//! Rules: specs, Files (what the files of a job over a level give), Found and Lengths (which file a
//! name finds, and what is refused of it before it is read), Sizes (how many bytes are read), Flats
//! (the picture of a flat), Made (the bytes of a made file), Statuses (the status of a fault, the
//! number of each, and what was written by it), Lines (what is noted). Proved: what `read_files`
//! answers over any shelf and how many bytes it reads at most; the picture and the bytes of the two
//! jobs, what is written of them; each line. Tested only: that memory is found. The original:
//! `D_DoomMain` and `D_AddFile`, d_main.c, with `W_InitMultipleFiles`, w_wad.c; the files beside the
//! WADs, the jobs and the statuses are this project's own.
#![tactic(auto)]

mod colours;
mod fault;
mod flat;
mod lumps;
mod make;
mod notes;
mod picture;
mod read;
mod status;
mod tables;
mod texts;
mod tiling;
mod wads;
mod whole_files;

pub use colours::{find_colormap, find_playpal};
pub use fault::LoadFault;
pub use flat::{deliver_flat, prepare_flat};
pub use make::{deliver_make, prepare_make};
pub use notes::{limit_label, put_note};
pub use picture::Picture;
pub use read::{SceneFiles, read_files};
pub use status::Status;

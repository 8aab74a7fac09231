//! Why a run is refused, and the numbers by which that is told.
//!
//! Rules: `specs/Lines` (the code of a refusal and its numbers). Proved: what a line has. No call takes
//! memory. Tested only: the messages, and that a line goes out in one put. This project's own.
#![tactic(auto)]

mod codes;
mod line;
mod lines;
mod refusal;

pub use art_rules::{DirRefusal, SpriteRefusal, TablesRefusal, TexRefusal};
pub use csv_tables::CsvRefusal;
pub use job_rules::TrimRefusal;
pub use line::{DIGITS, LINE_ROOM, Line, NUMBERS_ROOM};
pub use lines::add_refusal;
pub use refusal::Refusal;
pub use scene_rules::{ArtRefusal, AuditRefusal, MapRefusal, SceneRefusal, WeaponRefusal};

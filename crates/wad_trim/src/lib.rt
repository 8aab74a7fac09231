//! The trimmed file of a level: which lumps it has, and how it is written.
//!
//! Rules: `trim_rules`, Parts (the parts of the file and what refuses them) and Files (its bytes);
//! `specs/Writes` tells of a call that reads lumps and writes. Proved: which parts a plan has, or
//! exactly the first refusal; what `write` appends, what it keeps of a cache, and when the zone is
//! full. Tested only: that memory is found. This project's own.
#![tactic(auto)]

mod fault;
mod parts;
mod plan;
mod refuse;
mod write;

pub use fault::{TrimFault, TrimWrite};
pub use job_rules::TrimRefusal;
pub use plan::TrimPlan;
pub use trim_rules::TrimPart;

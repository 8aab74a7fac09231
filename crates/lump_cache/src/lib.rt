//! The lump cache: lumps and composites in the blocks of a zone; a lump is read when it is first
//! fetched.
//!
//! Rules: `specs/Caches`, over `zone_rules`; `specs/Fetches`, the relations of a fetch and of a
//! request for a composite; `specs/Calls`, the relation of a call that reads lumps. The laws over
//! them are in `proofs`: FetchLemmas, TakeLemmas, ReleaseLemmas, WriteLemmas and DropLemmas for the
//! calls of the cache, CallLemmas to chain calls that read lumps.
//!
//! Proved: what `fetch` returns over any shelf, what it reads, how small a zone was that had no
//! room, that what is lent has room beside the colormap, and that each call keeps a cache faithful
//! to its files, at rest and in order. Tested only: that memory is found. The original:
//! `W_CacheLumpNum` and `W_CacheLumpName`, w_wad.c.
#![tactic(auto)]

mod cache;
mod fault;
mod fetch;
mod fetching;
mod read;
mod tags;

pub use cache::LumpCache;
pub use fault::CacheFault;
pub use fetch::{fetch_live, fetch_named, live_bytes, live_lump};
pub use lump_rules::{ENTRY_SIZE, NAME_SIZE};
pub use outside::{MemoryShelf, MemorySink, PutFault, Shelf};
pub use wad_dir::{DirFault, Directory, LumpNo, Name8};
pub use zone_heap::{Tag, ZoneFull, ZoneMake};

//! A sink in memory with a room, whose puts fail where they are told to.
//!
//! Rules: `specs/MemorySink`. Proved: what each put appends, and when it fails. Tested only: that
//! memory is found.
ghost use Rattle.std.specs.Prelude.{◌≡◌, ◌≤◌, ◌-◌, [], ◌++◌, ◌↔◌, length, min, take, IfOk, IsOk, OnOk, OnErr, vec_capacity};
ghost use Rattle.outside.specs.Shelf.{counted};
ghost use Rattle.outside.specs.Sink.{Writes};
ghost use Rattle.outside.specs.MemorySink.{SinkInMemory, fault_at, passed, failed, IsPassed, sink_in_memory};

use crate::{Failed, OutOfMemory, Sink};
use std::alloc::Global;
use std::marker::Model;
use thiserror::Error;

/// The put of the number `call` appends at most `passed` bytes of its piece, and fails.
#[derive(Clone, Copy, Debug, PartialEq, Eq, Error)]
#[error("put {call} fails after {passed} bytes")]
pub struct PutFault {
    pub call: u64,
    pub passed: usize,
}

/// Bytes in memory, up to a room. The puts are numbered from 1, and those that are listed fail.
///
/// A put that passes the room appends what fits, and fails too.
#[derive(Drop)]
pub struct MemorySink {
    bytes: Vec<u8>,
    room: usize,
    failing: Vec<PutFault>,
    calls: u64,
    faults: u64,
}

impl Model for MemorySink {
    ghost Value = { SinkInMemory };

    ghost view = { sink_in_memory };

    ghost invariant = { λ sink. (length sink.bytes.items ≤ sink.room) × (sink.room ≤ vec_capacity sink.bytes) };
}

// How many bytes the put of that number passes, where it is one that fails.
fn fault_of(failing: &[PutFault], call: u64) -> Option<usize>
    ensures { result ≡ fault_at failing.now call }
{
    let fault = failing.iter().find(|fault| fault.call == call)?;
    Some(fault.passed)
}

impl MemorySink {
    /// An empty sink with room for so many bytes, all of which is taken here.
    ///
    /// Errors: `OutOfMemory`.
    pub fn new(
        alloc: Global,
        room: usize,
        failing: Vec<PutFault>,
    ) -> Result<MemorySink, OutOfMemory>
        ensures { IfOk result (λ sink.
            sink ≡ record {
              bytes = [];
              room = room;
              failing = failing.items;
              calls = 0;
              faults = 0;
            }) }
    {
        Ok(MemorySink {
            bytes: Vec::with_capacity(alloc, room)?,
            room,
            failing,
            calls: 0,
            faults: 0,
        })
    }

    /// The bytes that were put so far.
    pub fn bytes(&self) -> &[u8]
        ensures { result.now ≡ self.now.bytes }
    {
        &self.bytes
    }

    // Counts the call, and appends what fits of the first bytes, up to a limit.
    fn pass(&mut self, piece: &[u8], limit: usize)
        ensures { self.new ≡ record self.old {
          bytes = self.old.bytes ++ take (min limit (self.old.room - length self.old.bytes)) piece.now;
          calls = counted self.old.calls 1;
        } }
    {
        self.calls = self.calls.saturating_add(1);
        let fitting = limit.min(self.room - self.bytes.len()).min(piece.len());
        self.bytes.extend_from_slice(&piece[..fitting]).unwrap();
    }

    // Counts a failure.
    fn fail(&mut self) -> Failed
        ensures same { self.new ≡ record self.old { faults = counted self.old.faults 1 } }
        ensures later { self.old.faults ≤ self.new.faults }
    {
        Failed::counted(&mut self.faults)
    }
}

impl Sink for MemorySink {
    ghost written = { λ sink bytes. bytes ≡ sink.bytes };

    ghost faults = { λ sink. sink.faults };

    /// Appends the piece. Takes no memory.
    ///
    /// Errors: `Failed` exactly where this put is listed, or the piece passes the room.
    #[tactic(auto, using(crate::proofs::MemorySinkLemmas::appended))]
    fn put(&mut self, piece: &[u8]) -> Result<(), Failed>
        ensures writes { Writes (λ bytes. bytes ≡ self.old.bytes) (λ bytes.
            bytes ≡ self.new.bytes) self.old.faults self.new.faults piece.now result }
        ensures ok { OnOk result (self.new ≡ record self.old
            { bytes = self.old.bytes ++ piece.now; calls = counted self.old.calls 1 }) }
        ensures err { OnErr result (self.new ≡ failed self.old piece.now) }
        ensures cause { IsOk result ↔ IsPassed self.old piece.now }
    {
        let fault = fault_of(&self.failing, self.calls.saturating_add(1));
        let fits = piece.len() <= self.room - self.bytes.len();
        let limit = fault.unwrap_or(piece.len());
        self.pass(piece, limit);
        if fault.is_none() && fits {
            Ok(())
        } else {
            Err(self.fail())
        }
    }
}

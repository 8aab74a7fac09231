//! A sink that keeps nothing of the bytes but their number and their sum.
//!
//! Rules: `specs/TallySink`. Proved: it stands for every list whose length and sum it has counted,
//! and never fails.
ghost use Rattle.std.specs.Prelude.{◌≡◌, ◌+◌, ◌%◌, ◌^◌, sum, length, IsOk};
ghost use Rattle.outside.specs.Sink.{Writes};
ghost use Rattle.outside.specs.TallySink.{Tally, IsTallyOf, tally_with};

use crate::{Failed, Sink};
use std::marker::Model;

/// Counts bytes and adds them up, both modulo 2^64.
#[derive(Drop)]
pub struct TallySink {
    count: u64,
    sum: u64,
}

impl Model for TallySink {
    ghost use Rattle.outside.specs.TallySink.{Tally};

    ghost Value = { Tally };

    ghost view = { λ sink. record { count = sink.count; sum = sink.sum } };
}

impl TallySink {
    /// A sink that has taken nothing.
    pub fn new() -> TallySink
        ensures { result ≡ record { count = 0; sum = 0 } }
    {
        TallySink { count: 0, sum: 0 }
    }

    /// The number of bytes that were put, modulo 2^64.
    pub fn count(&self) -> u64
        ensures { result ≡ self.now.count }
    {
        self.count
    }

    /// The sum of the bytes that were put, modulo 2^64.
    pub fn sum(&self) -> u64
        ensures { result ≡ self.now.sum }
    {
        self.sum
    }
}

// The first sum with the bytes of a piece added, modulo 2^64.
fn sum_with(first: u64, piece: &[u8]) -> u64
    ensures { result ≡ (first + sum piece.now) % 2 ^ 64 }
{
    let mut total = first;
    for byte in piece {
        total = total.wrapping_add(u64::from(*byte));
    }
    total
}

impl Sink for TallySink {
    ghost written = { λ sink bytes. IsTallyOf sink bytes };

    ghost faults = { λ sink. 0 };

    /// Counts the piece. It never fails.
    #[tactic(auto, using(crate::proofs::TallySinkLemmas::tallied))]
    fn put(&mut self, piece: &[u8]) -> Result<(), Failed>
        ensures ok { IsOk result }
        ensures tally { self.new ≡ tally_with self.old piece.now }
        ensures writes { Writes (IsTallyOf self.old) (IsTallyOf self.new) 0 0 piece.now result }
    {
        self.count = self.count.wrapping_add(piece.len() as u64);
        self.sum = sum_with(self.sum, piece);
        Ok(())
    }
}

// A line, put together before it goes out, so that it goes out in one put.
ghost use Rattle.std.specs.Prelude.{◌≡◌, ◌+◌, ◌≤◌, ◌++◌, [], List, ℕ, length};
ghost use Rattle.std.specs.List.{flat_map};
ghost use Rattle.art_rules.specs.Words.{Writes};
ghost use Rattle.refusals.specs.Lines.{labelled, labelled_signed, spaced};

use arrayvec::ArrayVec;
use art_rules::{Failed, Sink};
use itoa::Buffer;
use std::marker::Model;

/// The bytes of a line, at most. The longest has seven labels and as many numbers.
pub const LINE_ROOM: usize = 200;

/// The digits of a number, at most.
pub const DIGITS: usize = 20;

/// The numbers of a refusal, its code among them, at most.
pub const REFUSAL_NUMBERS: usize = 4;

/// The bytes of the numbers of a refusal, each after a space, at most.
pub const NUMBERS_ROOM: usize = REFUSAL_NUMBERS * (1 + DIGITS);

/// The text of a line so far. Contracts see its bytes. No call takes memory.
///
/// This project's own.
#[derive(Drop)]
pub struct Line {
    text: ArrayVec<u8, LINE_ROOM>,
}

impl Model for Line {
    ghost use Rattle.std.specs.Prelude.{List, ℕ};

    ghost Value = { List ℕ };

    ghost view = { λ l. l.text.items };
}

impl Line {
    /// A line without text.
    pub fn new() -> Line
        ensures { result ≡ [] }
    {
        Line {
            text: ArrayVec::new(),
        }
    }

    /// Appends some text.
    pub fn add(&mut self, text: &[u8])
        requires room { length self.old + length text.now ≤ LINE_ROOM }
        ensures text { self.new ≡ self.old ++ text.now }
        ensures length { length self.new ≡ length self.old + length text.now }
    {
        let _ = self.text.try_extend_from_slice(text);
    }

    /// Appends a number, in decimal, after some text.
    pub fn add_number(&mut self, label: &[u8], number: u64)
        requires room { length self.old + length label.now + DIGITS ≤ LINE_ROOM }
        ensures text { self.new ≡ self.old ++ labelled label.now number }
        ensures length { length self.new ≤ length self.old + length label.now + DIGITS }
    {
        self.add(label);
        let mut buffer = Buffer::new();
        self.add(buffer.format(number).as_bytes());
    }

    /// Appends a signed number, in decimal, after some text.
    pub fn add_signed(&mut self, label: &[u8], number: i32)
        requires room { length self.old + length label.now + DIGITS ≤ LINE_ROOM }
        ensures text { self.new ≡ self.old ++ labelled_signed label.now number }
        ensures length { length self.new ≤ length self.old + length label.now + DIGITS }
    {
        self.add(label);
        let mut buffer = Buffer::new();
        self.add(buffer.format(number).as_bytes());
    }

    /// Appends each number after a space.
    pub fn add_numbers(&mut self, numbers: &[u64])
        requires few { length numbers.now ≤ REFUSAL_NUMBERS }
        requires room { length self.old + NUMBERS_ROOM ≤ LINE_ROOM }
        ensures text { self.new ≡ self.old ++ flat_map spaced numbers.now }
        ensures length { length self.new ≤ length self.old + NUMBERS_ROOM }
    {
        for number in numbers {
            self.add_number(b" ", *number);
        }
    }

    /// Appends the line to an output, in one put.
    ///
    /// Errors: `Failed` only where the output's count of faults rose; then a prefix was appended.
    pub fn put<K: Sink>(&self, out: &mut K) -> Result<(), Failed>
        ensures { Writes (K.written out.old) (K.written out.new) (K.faults out.old)
            (K.faults out.new) self.now result }
    {
        out.put(self.text.as_slice())
    }
}

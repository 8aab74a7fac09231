// The three tables of angles as their file has them: rules `signed_from`, `words_from`.

ghost use Rattle.std.specs.Prelude.{◌≡◌, ℕ, List, ◌+◌, ◌*◌, ◌<◌, ◌≤◌, length, IfOk};
ghost use Rattle.angle_tables.specs.Lists.{angles_of, HasLengths};
ghost use Rattle.angle_tables.specs.Rules.{Angles, SINES, SLOPE_ANGLES, TABLES_BYTES, TANGENTS, WORD_SIZE, angle_at, angles_in, cosine_at, listed, signed_in, sine_at, tangent_at, word_in};

use byteorder::{ByteOrder, LittleEndian};
use std::alloc::{AllocError, Global};
use std::marker::Model;
use view_rules::{COSINE_START, SINES, SLOPE_ANGLES, TANGENTS};
use word_rules::WORD_SIZE;

/// One of the three tables.
#[derive(Clone, Copy)]
pub(crate) enum AngleList {
    Sines,
    Tangents,
    SlopeAngles,
}

/// The three tables.
#[derive(Drop)]
pub(crate) struct AngleLists {
    sine: Vec<i32>,
    tangent: Vec<i32>,
    angle: Vec<u32>,
}

impl Model for AngleLists {
    ghost Value = { Angles };

    ghost view = { angles_of };

    ghost invariant = { HasLengths };
}

#[tactic(auto, unfolding(view_rules::specs::Angles::angle_at, view_rules::specs::Angles::cosine_at, view_rules::specs::Angles::sine_at, view_rules::specs::Angles::tangent_at, view_rules::specs::Refusals::angles_in, view_rules::specs::Refusals::signed_from, view_rules::specs::Refusals::words_from))]
impl AngleLists {
    /// The tables of a file.
    pub(crate) fn read(alloc: Global, bytes: &[u8]) -> Result<AngleLists, AllocError>
        requires { length bytes.now ≡ TABLES_BYTES }
        ensures { IfOk result (λ t. t ≡ angles_in bytes.now) }
    {
        let sine = list_from(alloc, bytes, 0, SINES)?;
        let tangent = list_from(alloc, bytes, SINES, TANGENTS)?;
        let angle = list_from(alloc, bytes, SINES + TANGENTS, SLOPE_ANGLES)?;
        Ok(AngleLists {
            sine,
            tangent,
            angle,
        })
    }

    pub(crate) fn sine(&self, i: usize) -> i32
        requires { i < SINES }
        ensures { result ≡ sine_at self.now i }
    {
        self.sine[i]
    }

    pub(crate) fn cosine(&self, i: usize) -> i32
        requires { i + COSINE_START < SINES }
        ensures { result ≡ cosine_at self.now i }
    {
        self.sine[i + COSINE_START]
    }

    pub(crate) fn tangent(&self, i: usize) -> i32
        requires { i < TANGENTS }
        ensures { result ≡ tangent_at self.now i }
    {
        self.tangent[i]
    }

    pub(crate) fn angle(&self, i: usize) -> u32
        requires { i < SLOPE_ANGLES }
        ensures { result ≡ angle_at self.now i }
    {
        self.angle[i]
    }

    pub(crate) fn sines(&self) -> &[i32]
        ensures value { result.now ≡ self.now.sine }
        ensures len { length result.now ≡ SINES }
    {
        &self.sine
    }

    pub(crate) fn tangents(&self) -> &[i32]
        ensures value { result.now ≡ self.now.tangent }
        ensures len { length result.now ≡ TANGENTS }
    {
        &self.tangent
    }

    pub(crate) fn slope_angles(&self) -> &[u32]
        ensures value { result.now ≡ self.now.angle }
        ensures len { length result.now ≡ SLOPE_ANGLES }
    {
        &self.angle
    }
}

/// An entry of a table: a word of the file.
trait Entry: Drop {
    ghost entry_in: { List ℕ → ℕ → Self };

    /// Word `i` of a file.
    fn read(bytes: &[u8], i: usize) -> Self
        requires { WORD_SIZE * i + WORD_SIZE ≤ length bytes.now }
        ensures { result ≡ entry_in bytes.now i };
}

impl Entry for u32 {
    ghost entry_in = { word_in };

    fn read(bytes: &[u8], i: usize) -> u32 {
        word_in(bytes, i)
    }
}

impl Entry for i32 {
    ghost entry_in = { signed_in };

    fn read(bytes: &[u8], i: usize) -> i32 {
        signed_in(bytes, i)
    }
}

/// Word `i` of a file.
#[tactic(auto, unfolding(view_rules::specs::Refusals::word_in, word_rules::specs::Bytes::word_at))]
fn word_in(bytes: &[u8], i: usize) -> u32
    requires { WORD_SIZE * i + WORD_SIZE ≤ length bytes.now }
    ensures { result ≡ word_in bytes.now i }
{
    LittleEndian::read_u32(&bytes[WORD_SIZE * i..])
}

/// Word `i` of a file, with a sign.
#[tactic(auto, unfolding(view_rules::specs::Refusals::signed_in))]
fn signed_in(bytes: &[u8], i: usize) -> i32
    requires { WORD_SIZE * i + WORD_SIZE ≤ length bytes.now }
    ensures { result ≡ signed_in bytes.now i }
{
    fx_words::signed_of(word_in(bytes, i))
}

/// The table of the `n` words of a file from word `first` on.
#[tactic(auto, using(word_rules::proofs::ListedLemmas::listing))]
fn list_from<E: Entry>(
    alloc: Global,
    bytes: &[u8],
    first: usize,
    n: usize,
) -> Result<Vec<E>, AllocError>
    requires { WORD_SIZE * (first + n) ≤ length bytes.now }
    ensures items { IfOk result (λ v. v.items ≡ listed (λ i. E.entry_in bytes.now (first + i)) n) }
    ensures len { IfOk result (λ v. length v.items ≡ n) }
{
    let mut list = Vec::with_capacity(alloc, n)?;
    for i in 0..n {
        list.push(E::read(bytes, first + i))?;
    }
    Ok(list)
}

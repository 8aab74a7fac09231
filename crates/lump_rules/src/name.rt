// The name of a lump.
ghost use Rattle.std.specs.Prelude.{◌≡◌, ◌≤◌, ◌+◌, ◌==◌, length, take, drop};
ghost use Rattle.std.specs.List.{position_or_len};
ghost use Rattle.lump_rules.specs.Names.{filled, name_of, name_of_text};

use std::marker::Model;

/// The bytes of a name.
pub const NAME_SIZE: usize = 8;

/// The name of a lump: eight bytes, in capitals and filled with bytes 0. Contracts see its bytes.
///
/// Takes no memory. The original: `lumpinfo_t.name`, w_wad.h, whose letters `W_CheckNumForName`
/// turns into capitals (`strupr`).
#[derive(Clone, Copy, Debug, PartialEq, Eq)]
pub struct Name8 {
    bytes: [u8; NAME_SIZE],
}

impl Model for Name8 {
    ghost use Rattle.std.specs.Prelude.{List, ℕ};

    ghost Value = { List ℕ };

    ghost view = { λ name. name.bytes };

    ghost inverse = { λ bytes. record { bytes = bytes } };
}

impl Name8 {
    /// The name that eight bytes of a file spell, which ends at the first byte 0.
    ///
    /// Letters `a` to `z` become `A` to `Z`, and what follows the end becomes bytes 0, so that two
    /// names are one exactly where their bytes are. Where the first byte is 0 the name is empty, and
    /// a name like any other.
    ///
    /// The original: `W_CheckNumForName`, w_wad.c, with `strupr` and `strncpy`.
    ///
    /// This project's own: letters of a file's directory are turned into capitals too.
    pub fn from_bytes(bytes: [u8; NAME_SIZE]) -> Name8
        ensures { result ≡ name_of bytes }
    {
        let end = end_of(&bytes);
        Name8 {
            bytes: fill(&bytes[..end]),
        }
    }

    /// The name that the eight bytes at `place` spell.
    pub fn read_at(bytes: &[u8], place: usize) -> Name8
        requires { place + NAME_SIZE ≤ length bytes.now }
        ensures { result ≡ name_of (take NAME_SIZE (drop place bytes.now)) }
    {
        let mut name = [0; NAME_SIZE];
        name.copy_from_slice(&bytes[place..][..NAME_SIZE]);
        Name8::from_bytes(name)
    }

    /// The name that a text spells, in capitals, or `None` where the text has no byte, more than
    /// eight bytes, or a byte 0.
    pub fn from_text(text: &str) -> Option<Name8>
        ensures { result ≡ name_of_text text.now }
    {
        let text = text.as_bytes();
        if text.is_empty() || text.len() > NAME_SIZE || text.contains(&0) {
            return None;
        }
        Some(Name8 { bytes: fill(text) })
    }

    /// The eight bytes: the name in capitals, then bytes 0.
    pub fn bytes(&self) -> [u8; NAME_SIZE]
        ensures { result ≡ self.now }
    {
        self.bytes
    }
}

// The index of the first byte 0, or the length.
fn end_of(bytes: &[u8]) -> usize
    ensures within { result ≤ length bytes.now }
    ensures end { result ≡ position_or_len (λ byte. byte == 0) bytes.now }
{
    for (i, byte) in bytes.iter().enumerate() {
        if *byte == 0 {
            return i;
        }
    }
    bytes.len()
}

// The text in capitals, then bytes 0.
fn fill(text: &[u8]) -> [u8; NAME_SIZE]
    requires { length text.now ≤ NAME_SIZE }
    ensures { result ≡ filled text.now }
{
    let mut name = [0; NAME_SIZE];
    for (i, byte) in text.iter().enumerate() {
        name[i] = byte.to_ascii_uppercase();
    }
    name
}

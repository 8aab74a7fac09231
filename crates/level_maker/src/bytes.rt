// Numbers put behind the bytes that are there, the low byte first.
ghost use Rattle.std.specs.Prelude.{◌≡◌, ◌++◌, ◌+◌, ◌<◌, OnOk};
ghost use Rattle.made_rules.specs.Bytes.{half, halves, word_bytes};

use std::alloc::AllocError;
use word_rules::{HALF_SIZE, WORD_SIZE};

/// Puts the two low bytes of a number.
#[tactic(auto, unfolding(made_rules::specs::Bytes::half))]
pub fn put_half(out: &mut Vec<u8>, value: u32) -> Result<(), AllocError>
    ensures { OnOk result (out.new.items ≡ out.old.items ++ half value) }
{
    let bytes = value.to_le_bytes();
    out.extend_from_slice(&bytes[..HALF_SIZE])
}

/// Puts the two low bytes of each number.
#[tactic(auto, using(std::proofs::lemmas::Grind::common_steps, made_rules::proofs::BytesLemmas::filling))]
pub fn put_halves(out: &mut Vec<u8>, values: &[u32]) -> Result<(), AllocError>
    ensures { OnOk result (out.new.items ≡ out.old.items ++ halves values.now) }
{
    for value in values {
        put_half(out, *value)?;
    }
    Ok(())
}

/// Puts the four bytes of a number.
#[tactic(auto, unfolding(made_rules::specs::Bytes::word_bytes))]
pub fn put_word(out: &mut Vec<u8>, value: u32) -> Result<(), AllocError>
    ensures { OnOk result (out.new.items ≡ out.old.items ++ word_bytes value) }
{
    out.extend_from_slice(&value.to_le_bytes())
}

/// Puts the four low bytes of a size or place.
#[tactic(auto, unfolding(made_rules::specs::Bytes::word_bytes))]
pub fn put_size(out: &mut Vec<u8>, size: usize) -> Result<(), AllocError>
    ensures { OnOk result (out.new.items ≡ out.old.items ++ word_bytes size) }
{
    let bytes = size.to_le_bytes();
    out.extend_from_slice(&bytes[..WORD_SIZE])
}

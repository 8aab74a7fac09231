// The names of patches, from PNAMES. Rules: `art_rules`, Textures.
ghost use Rattle.std.specs.Prelude.{◌≡◌, ◌<◌, ◌+◌, ◌*◌, ◌^◌, false, true, IfOk};
ghost use Rattle.std.specs.Option.{option_copied};
ghost use Rattle.art_rules.specs.Words.{is_short, itself, list_count, names_in, patch_names, ResultIs};
ghost use Rattle.texture_lists.specs.Parts.{IsOfBytes};

use crate::TexFault;
use crate::records::name_at;
use art_rules::{COUNT_SIZE, NAME_SIZE, Name8, OutOfMemory, TexRefusal, word_at};
use std::alloc::Global;

// What a list counts.
#[tactic(auto, unfolding(art_rules::specs::Textures::list_count))]
pub(crate) fn list_count(bytes: &[u8]) -> u32
    ensures { result ≡ list_count bytes.now }
{
    word_at(bytes, 0)
}

// Whether a list of items of that size is shorter than its count says.
#[tactic(auto, unfolding(art_rules::specs::Textures::is_short))]
pub(crate) fn is_short(size: usize, bytes: &[u8]) -> bool
    requires { size < 2 ^ 8 }
    ensures { result ≡ is_short size bytes.now }
{
    bytes.len() < COUNT_SIZE || bytes.len() < COUNT_SIZE + size * list_count(bytes) as usize
}

// The names of patches, refused where the lump is not there or is short.
#[tactic(auto, unfolding(art_rules::specs::Textures::patch_names))]
pub(crate) fn patch_names(alloc: Global, bytes: Option<&[u8]>) -> Result<Vec<Name8>, TexFault>
    ensures answers { ResultIs itself true (λ names. names.items)
        (patch_names (option_copied bytes.entry)) result }
    ensures of_bytes { IsOfBytes result }
{
    let Some(bytes) = bytes else {
        return Err(TexFault::Refused(TexRefusal::Pnames));
    };
    if is_short(NAME_SIZE, bytes) {
        return Err(TexFault::Refused(TexRefusal::Pnames));
    }
    Ok(read_names(alloc, bytes)?)
}

// The names of a list that is not short.
#[tactic(auto, using(art_rules::proofs::Laws::listing), unfolding(art_rules::specs::Textures::names_in, art_rules::specs::Textures::is_short))]
fn read_names(alloc: Global, bytes: &[u8]) -> Result<Vec<Name8>, OutOfMemory>
    requires { is_short NAME_SIZE bytes.now ≡ false }
    ensures { IfOk result (λ names. names.items ≡ names_in bytes.now) }
{
    let count = list_count(bytes) as usize;
    let mut names = Vec::with_capacity(alloc, count)?;
    for i in 0..count {
        names.push(name_at(bytes, COUNT_SIZE + NAME_SIZE * i))?;
    }
    Ok(names)
}

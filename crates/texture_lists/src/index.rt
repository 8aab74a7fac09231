// The least texture of each name. Rules: `art_rules`, Textures.
ghost use Rattle.std.specs.Prelude.{◌≡◌, ◌≤◌, ℕ, List, length, if◌then◌else◌, Some, None, IfOk, OnOk};
ghost use Rattle.std.specs.Str.{bytes_eq};
ghost use Rattle.art_rules.specs.Words.{least_named, or_else};
ghost use Rattle.lump_cache.specs.Indexes.{indexed};

use crate::records::ListedTexture;
use art_rules::{MAX_TEXTURES, NAME_SIZE, Name8, OutOfMemory};
use std::alloc::Global;
use std::collections::BTreeMap;

// The least texture of each name.
#[tactic(auto, unfolding(art_rules::specs::Textures::least_named, art_rules::specs::Words::least))]
pub(crate) fn index_textures(
    alloc: Global,
    textures: &[ListedTexture],
) -> Result<BTreeMap<[u8; NAME_SIZE], u16>, OutOfMemory>
    requires { length textures.now ≤ MAX_TEXTURES }
    ensures { IfOk result (λ index. (name : List ℕ) →
        indexed index name ≡ least_named textures.now name) }
{
    let mut index = BTreeMap::new(alloc);
    for (i, texture) in textures.iter().enumerate() {
        put_new(&mut index, &texture.name(), i as u16)?;
    }
    Ok(index)
}

// Puts a number into an index for a name that it lacks.
fn put_new(
    index: &mut BTreeMap<[u8; NAME_SIZE], u16>,
    name: &Name8,
    number: u16,
) -> Result<(), OutOfMemory>
    ensures { OnOk result ((q : List ℕ) →
        indexed index.new q
        ≡ or_else (indexed index.old q) (if bytes_eq name.now q then Some number else None)) }
{
    if look_up(index, name).is_some() {
        return Ok(());
    }
    index.insert(name.bytes(), number)?;
    Ok(())
}

// What an index has for a name.
pub(crate) fn look_up(index: &BTreeMap<[u8; NAME_SIZE], u16>, name: &Name8) -> Option<u16>
    ensures { result ≡ indexed index.now name.now }
{
    match index.get(&name.bytes()) {
        Some(number) => Some(*number),
        None => None,
    }
}

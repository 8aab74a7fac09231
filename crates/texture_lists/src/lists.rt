// The two lists of textures. Rules: `art_rules`, Textures.
ghost use Rattle.std.specs.Prelude.{◌≡◌, ◌<◌, ◌≤◌, ◌+◌, ◌*◌, ◌^◌, None, true, false, length, IfOk, option_map};
ghost use Rattle.art_rules.specs.Words.{is_bad_list, itself, list_count, listed, or_else, ResultIs, texture_place, textures_in, wrong_record};
ghost use Rattle.std.specs.Option.{option_copied};
ghost use Rattle.texture_lists.specs.Parts.{IsOfBytes, first_part, if_sound, joined_parts, list_part, second_part};

use crate::TexFault;
use crate::names::{is_short, list_count};
use crate::records::{ListedTexture, is_wrong, read_texture};
use art_rules::{
    COUNT_SIZE, FIRST_LIST, MAX_TEXTURES, OutOfMemory, PLACE_SIZE, SECOND_LIST, TexRefusal, word_at,
};
use std::alloc::Global;
use std::marker::Model;

// What is kept of a list.
#[derive(Drop)]
pub(crate) struct ReadList {
    count: u32,
    wrong: Option<u32>,
    textures: Vec<ListedTexture>,
}

impl Model for ReadList {
    ghost use Rattle.texture_lists.specs.Parts.{ListPart};

    ghost Value = { ListPart };

    ghost view = { λ l. record { count = l.count; wrong = l.wrong; textures = l.textures.items } };
}

impl ReadList {
    // How many textures the list counts.
    pub(crate) fn count(&self) -> u32
        ensures { result ≡ self.now.count }
    {
        self.count
    }

    // The textures of two lists, refused for the first wrong record.
    #[tactic(auto, unfolding(crate::specs::Parts::joined_parts, art_rules::specs::Textures::unless_wrong))]
    pub(crate) fn joined(self, second: ReadList) -> Result<Vec<ListedTexture>, TexFault>
        requires { self.count ≤ MAX_TEXTURES }
        ensures answers { ResultIs itself true (λ textures. textures.items)
            (joined_parts self second) result }
        ensures count { IfOk result (λ textures. length textures.items ≤ length self.textures
            + length second.textures) }
        ensures of_bytes { IsOfBytes result }
    {
        if let Some(number) = self.first_wrong(&second) {
            return Err(TexFault::Refused(TexRefusal::Entry { number }));
        }
        let mut textures = self.textures;
        let mut later = second.textures;
        textures.append(&mut later)?;
        Ok(textures)
    }
}

impl ReadList {
    // The number of the first wrong record of two lists.
    fn first_wrong(&self, second: &ReadList) -> Option<u64>
        requires { self.now.count ≤ MAX_TEXTURES }
        ensures { result ≡ or_else self.now.wrong
            (option_map (λ i. self.now.count + i) second.now.wrong) }
    {
        match self.wrong {
            Some(number) => Some(number as u64),
            None => later_wrong(self.count, second.wrong),
        }
    }
}

// The number of a wrong record of the second list, which follows `before` textures.
fn later_wrong(before: u32, wrong: Option<u32>) -> Option<u64>
    ensures { result ≡ option_map (λ i. before + i) wrong }
{
    match wrong {
        Some(index) => Some(before as u64 + index as u64),
        None => None,
    }
}

// What is kept of the first list, refused where it is not there or is bad as a whole.
#[tactic(auto, unfolding(crate::specs::Parts::first_part, art_rules::specs::Textures::first_list))]
pub(crate) fn first_part(alloc: Global, bytes: Option<&[u8]>) -> Result<ReadList, TexFault>
    ensures answers { ResultIs itself true (λ part. part) (first_part (option_copied bytes.entry))
        result }
    ensures few { IfOk result (λ part. part.count ≤ MAX_TEXTURES) }
    ensures count { IfOk result (λ part. length part.textures ≤ part.count) }
    ensures of_bytes { IsOfBytes result }
{
    let Some(bytes) = bytes else {
        return Err(TexFault::Refused(TexRefusal::Lump { which: FIRST_LIST }));
    };
    if is_bad_list(0, bytes) {
        return Err(TexFault::Refused(TexRefusal::Lump { which: FIRST_LIST }));
    }
    Ok(read_list(alloc, bytes)?)
}

// What is kept of the second list, which follows `before` textures. It may be absent.
#[tactic(auto, unfolding(crate::specs::Parts::second_part, crate::specs::Parts::second_list_part, art_rules::specs::Textures::second_list))]
pub(crate) fn second_part(
    alloc: Global,
    before: u32,
    bytes: Option<&[u8]>,
) -> Result<ReadList, TexFault>
    requires { before ≤ MAX_TEXTURES }
    ensures answers { ResultIs itself true (λ part. part)
        (second_part before (option_copied bytes.entry)) result }
    ensures few { IfOk result (λ part. before + part.count ≤ MAX_TEXTURES) }
    ensures count { IfOk result (λ part. length part.textures ≤ part.count) }
    ensures of_bytes { IsOfBytes result }
{
    let Some(bytes) = bytes else {
        return Ok(ReadList {
            count: 0,
            wrong: None,
            textures: Vec::new(alloc),
        });
    };
    if is_bad_list(before, bytes) {
        return Err(TexFault::Refused(TexRefusal::Lump { which: SECOND_LIST }));
    }
    Ok(read_list(alloc, bytes)?)
}

// A list is short, or its textures pass the limit behind the `before` textures of the first.
#[tactic(auto, unfolding(art_rules::specs::Textures::is_bad_list))]
fn is_bad_list(before: u32, bytes: &[u8]) -> bool
    requires { before ≤ MAX_TEXTURES }
    ensures bad { result ≡ is_bad_list before bytes.now }
    ensures few { result ≡ false → before + list_count bytes.now ≤ MAX_TEXTURES }
{
    is_short(PLACE_SIZE, bytes) || (MAX_TEXTURES as u64) < before as u64 + list_count(bytes) as u64
}

// What is kept of a list that is not bad as a whole.
#[tactic(auto, unfolding(crate::specs::Parts::list_part))]
fn read_list(alloc: Global, bytes: &[u8]) -> Result<ReadList, OutOfMemory>
    requires { list_count bytes.now ≤ MAX_TEXTURES }
    ensures part { IfOk result (λ part. part ≡ list_part bytes.now) }
    ensures listed { IfOk result (λ part. part.count ≡ list_count bytes.now) }
    ensures count { IfOk result (λ part. length part.textures ≤ part.count) }
{
    let wrong = wrong_record(bytes);
    let textures = read_sound(alloc, bytes, wrong)?;
    Ok(ReadList {
        count: list_count(bytes),
        wrong,
        textures,
    })
}

// The textures of a list, none where a record is wrong.
#[tactic(auto, unfolding(crate::specs::Parts::if_sound))]
fn read_sound(
    alloc: Global,
    bytes: &[u8],
    wrong: Option<u32>,
) -> Result<Vec<ListedTexture>, OutOfMemory>
    requires few { list_count bytes.now ≤ MAX_TEXTURES }
    requires wrong { wrong ≡ wrong_record bytes.now }
    ensures textures { IfOk result (λ textures. textures.items
        ≡ if_sound (wrong_record bytes.now) (textures_in bytes.now)) }
    ensures count { IfOk result (λ textures. length textures.items ≤ list_count bytes.now) }
{
    match wrong {
        Some(_) => Ok(Vec::new(alloc)),
        None => read_textures(alloc, bytes),
    }
}

// The textures of a list without a wrong record.
#[tactic(auto, using(art_rules::proofs::Laws::listing), unfolding(art_rules::specs::Textures::textures_in))]
fn read_textures(alloc: Global, bytes: &[u8]) -> Result<Vec<ListedTexture>, OutOfMemory>
    requires few { list_count bytes.now ≤ MAX_TEXTURES }
    requires right { wrong_record bytes.now ≡ None }
    ensures textures { IfOk result (λ textures. textures.items ≡ textures_in bytes.now) }
    ensures count { IfOk result (λ textures. length textures.items ≡ list_count bytes.now) }
{
    let count = list_count(bytes);
    let mut textures = Vec::with_capacity(alloc, count as usize)?;
    for i in 0..count {
        textures.push(read_texture(alloc, bytes, texture_place(bytes, i))?)?;
    }
    Ok(textures)
}

// Where record i begins.
#[tactic(auto, unfolding(art_rules::specs::Textures::texture_place))]
fn texture_place(bytes: &[u8], i: u32) -> u64
    ensures place { result ≡ texture_place bytes.now i }
    ensures range { result < 2 ^ 32 }
{
    word_at(bytes, COUNT_SIZE as u64 + PLACE_SIZE as u64 * i as u64) as u64
}

// The first wrong record of a list.
#[tactic(auto, using(art_rules::proofs::Laws::leasts), unfolding(art_rules::specs::Textures::wrong_record))]
fn wrong_record(bytes: &[u8]) -> Option<u32>
    ensures { result ≡ wrong_record bytes.now }
{
    for i in 0..list_count(bytes) {
        if is_wrong(bytes, texture_place(bytes, i)) {
            return Some(i);
        }
    }
    None
}

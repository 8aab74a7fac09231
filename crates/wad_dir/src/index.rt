// The indexes of a directory: the last lump and the last flat of each name, and the sprite lumps.
ghost use Rattle.std.specs.Prelude.{◌≡◌, ℕ, List, ◌<◌, ◌^◌, ◌==◌, ◌&&◌, ◌||◌, true, not, if◌then◌else◌, length, map, filter, replicate, get_or, false, IfOk, Some, None};
ghost use Rattle.std.specs.List.{range_with_len};
ghost use Rattle.std.specs.Option.{option_map};
ghost use Rattle.std.specs.Str.{bytes_eq};
ghost use Rattle.wad_dir.specs.Rules.{Sprites, flat_of, greatest, has_name, is_end, is_member, is_start, last_of, listed, members};
ghost use Rattle.wad_dir.specs.Indexes.{indexed, is_grouped};

use crate::LumpNo;
use lump_rules::{
    F_END, F_START, FF_END, FF_START, Group, Lump, NAME_SIZE, Name8, S_END, S_START, SS_END,
    SS_START,
};
use outside::OutOfMemory;
use std::alloc::Global;
use std::collections::BTreeMap;

/// The number of a lump for each name.
pub type NameIndex = BTreeMap<[u8; NAME_SIZE], u16>;

// The last lump of each name.
pub fn index_names(alloc: Global, lumps: &[Lump]) -> Result<NameIndex, OutOfMemory>
    requires { length lumps.now < 2 ^ 16 }
    ensures { IfOk result (λ index. (name : List ℕ) → indexed index name ≡ last_of lumps.now name) }
{
    let marked = every_lump(alloc, lumps.len())?;
    index_of(alloc, lumps, &marked)
}

// The last flat of each name.
pub fn index_flats(alloc: Global, lumps: &[Lump]) -> Result<NameIndex, OutOfMemory>
    requires { length lumps.now < 2 ^ 16 }
    ensures { IfOk result (λ index. (name : List ℕ) → indexed index name ≡ flat_of lumps.now name) }
{
    let marked = mark_members(alloc, lumps, Group::Flats)?;
    index_of(alloc, lumps, &marked)
}

// The sprite lumps, in order.
pub fn list_sprites(alloc: Global, lumps: &[Lump]) -> Result<Vec<LumpNo>, OutOfMemory>
    requires { length lumps.now < 2 ^ 16 }
    ensures { IfOk result (λ found. map (λ lump. lump.0) found.items ≡ members Sprites lumps.now) }
{
    let marked = mark_members(alloc, lumps, Group::Sprites)?;
    list_marked(alloc, &marked)
}

// The last lump of each name, among those that are marked.
#[tactic(auto, unfolding(word_rules::specs::Least::greatest))]
fn index_of(alloc: Global, lumps: &[Lump], marked: &[bool]) -> Result<NameIndex, OutOfMemory>
    requires few { length lumps.now < 2 ^ 16 }
    requires marks { length marked.now ≡ length lumps.now }
    ensures { IfOk result (λ index. (name : List ℕ) →
        indexed index name ≡ greatest (λ number.
        get_or marked.now number false && has_name lumps.now name number) (length lumps.now)) }
{
    let mut index = BTreeMap::new(alloc);
    for (i, lump) in lumps.iter().enumerate() {
        if !marked[i] {
            continue;
        }
        index.insert(lump.name.bytes(), i as u16)?;
    }
    Ok(index)
}

// What an index has for a name.
pub fn look_up(index: &NameIndex, name: &Name8) -> Option<LumpNo>
    ensures { option_map (λ lump. lump.0) result ≡ indexed index.now name.now }
{
    match index.get(&name.bytes()) {
        Some(number) => Some(LumpNo(*number)),
        None => None,
    }
}

// A mark for each lump.
fn every_lump(alloc: Global, count: usize) -> Result<Vec<bool>, OutOfMemory>
    ensures marks { IfOk result (λ marks. marks.items ≡ replicate count true) }
    ensures count { IfOk result (λ marks. length marks.items ≡ count) }
{
    vec![in alloc; true; count]
}

// Whether each lump stands in the group.
#[tactic(auto, unfolding(word_rules::specs::Least::greatest, word_rules::specs::Listed::listed))]
fn mark_members(alloc: Global, lumps: &[Lump], group: Group) -> Result<Vec<bool>, OutOfMemory>
    ensures marks { IfOk result (λ marks.
        marks.items ≡ listed (is_member group lumps.now) (length lumps.now)) }
    ensures count { IfOk result (λ marks. length marks.items ≡ length lumps.now) }
{
    let mut marks = Vec::new(alloc);
    let mut grouped = None;
    for lump in lumps {
        let starts = is_start(group, &lump.name);
        let ends = is_end(group, &lump.name);
        marks.push(is_inside(grouped, ends, lump.file))?;
        grouped = next_grouped(grouped, starts, ends, lump.file);
    }
    Ok(marks)
}

// A lump stands in the open group, where its file has one and the lump is no end.
fn is_inside(grouped: Option<u64>, ends: bool, file: u64) -> bool
    ensures { result ≡ (not ends && is_grouped grouped file) }
{
    !ends && grouped == Some(file)
}

// The file that has an open group after a lump.
fn next_grouped(grouped: Option<u64>, starts: bool, ends: bool, file: u64) -> Option<u64>
    ensures { result ≡ (if starts then Some file else (if ends then None else grouped)) }
{
    if starts {
        Some(file)
    } else if ends {
        None
    } else {
        grouped
    }
}

// A mark before the lumps of a group.
fn is_start(group: Group, name: &Name8) -> bool
    ensures { result ≡ is_start group name.now }
{
    match group {
        Group::Flats => is_either(name, F_START, FF_START),
        Group::Sprites => is_either(name, S_START, SS_START),
    }
}

// A mark after them.
fn is_end(group: Group, name: &Name8) -> bool
    ensures { result ≡ is_end group name.now }
{
    match group {
        Group::Flats => is_either(name, F_END, FF_END),
        Group::Sprites => is_either(name, S_END, SS_END),
    }
}

// One of two names, that of one letter or that of two.
fn is_either(name: &Name8, one: [u8; NAME_SIZE], two: [u8; NAME_SIZE]) -> bool
    ensures { result ≡ (bytes_eq name.now one || bytes_eq name.now two) }
{
    let bytes = name.bytes();
    bytes == one || bytes == two
}

// The numbers that are marked, in order.
fn list_marked(alloc: Global, marked: &[bool]) -> Result<Vec<LumpNo>, OutOfMemory>
    requires { length marked.now < 2 ^ 16 }
    ensures { IfOk result (λ found.
        map (λ lump. lump.0) found.items ≡ filter (λ number.
        get_or marked.now number false) (range_with_len 0 (length marked.now))) }
{
    let mut found = Vec::new(alloc);
    for (i, is_marked) in marked.iter().enumerate() {
        if !*is_marked {
            continue;
        }
        found.push(LumpNo(i as u16))?;
    }
    Ok(found)
}

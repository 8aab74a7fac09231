// The label of a map.
ghost use Rattle.std.specs.Prelude.{◌≡◌, ◌<◌, ◌+◌, ◌^◌, length, IfSome};
ghost use Rattle.std.specs.Option.{option_map};
ghost use Rattle.lump_rules.specs.Lookups.{is_label, if_label, is_named_in, are_named};

use crate::LumpNo;
use lump_rules::{BEHAVIOR, BEHAVIOR_AFTER, Lump, MAP_LUMPS, NAME_SIZE};

// The lump, where it is the label of a map.
#[tactic(auto, unfolding(lump_rules::specs::Lookups::is_label))]
pub fn label_at(lumps: &[Lump], label: LumpNo) -> Option<LumpNo>
    requires { label.0 < length lumps.now }
    ensures found { option_map (λ lump. lump.0) result ≡ if_label lumps.now label.0 }
    ensures there { IfSome result (λ lump. lump.0 + length MAP_LUMPS < length lumps.now) }
{
    let number = label.0 as usize;
    let file = lumps[number].file;
    if are_named(lumps, file, number + 1, &MAP_LUMPS)
        && !is_named_in(lumps, file, number + BEHAVIOR_AFTER as usize, &BEHAVIOR)
    {
        Some(label)
    } else {
        None
    }
}

// The lumps from that number on have these names, one after the other, and stand in the file.
fn are_named(lumps: &[Lump], file: u64, first: usize, names: &[[u8; NAME_SIZE]]) -> bool
    requires { first < 2 ^ 32 }
    ensures { result ≡ are_named lumps.now file first names.now }
{
    for (i, name) in names.iter().enumerate() {
        if !is_named_in(lumps, file, first + i, name) {
            return false;
        }
    }
    true
}

// The lump of that number is there, stands in the file and has the name.
fn is_named_in(lumps: &[Lump], file: u64, number: usize, name: &[u8; NAME_SIZE]) -> bool
    ensures { result ≡ is_named_in lumps.now file name.now number }
{
    match lumps.get(number) {
        Some(lump) => lump.file == file && lump.name.bytes() == *name,
        None => false,
    }
}

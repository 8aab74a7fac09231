// The first refusal of the parts of a trimmed file.
//
// Rules: `trim_rules`, Parts.
ghost use Rattle.std.specs.Prelude.{◌≡◌, ◌≤◌, ◌<◌, ◌^◌, ◌==◌, ◌||◌, ◌∷◌, [], ℕ, false, cond, length, All, Some, None, IfSome, option_map};
ghost use Rattle.std.specs.Option.{option_map_or};
ghost use Rattle.wad_trim.specs.Rules.{Flats, Sprites, file_size, is_end, is_lump_part, is_mark, is_start, lump_at, marked_lump, part_size, parts_size, trim_refusal};
ghost use Rattle.wad_trim.specs.Lessers.{lesser};
ghost use Rattle.wad_trim.specs.Writes.{IsPartThere};

use art_rules::{
    F_END, F_START, FF_END, FF_START, HEADER_SIZE, MAX_LUMPS, S_END, S_START, SS_END, SS_START,
};
use job_rules::{MAX_FILE_BYTES, TrimRefusal};
use lump_cache::{ENTRY_SIZE, NAME_SIZE};
use texture_build::{Directory, LumpNo};
use trim_rules::TrimPart;

// In order: a lump with the name of a mark, too many entries, too many bytes.
#[tactic(auto, unfolding(trim_rules::specs::Parts::trim_refusal, trim_rules::specs::Parts::too_many, trim_rules::specs::Parts::too_large))]
pub(crate) fn trim_refusal(dir: &Directory, parts: &[TrimPart]) -> Option<TrimRefusal>
    requires there { All (IsPartThere (length dir.now.lumps)) parts.now }
    requires few { length parts.now ≤ 2 ^ 18 }
    ensures { result ≡ trim_refusal dir.now.lumps parts.now }
{
    if let Some(lump) = marked_lump(dir, parts) {
        return Some(TrimRefusal::MarkName {
            lump: u64::from(lump.0),
        });
    }
    let count = parts.len() as u64;
    if count > u64::from(MAX_LUMPS) {
        return Some(TrimRefusal::TrimTooMany { count });
    }
    let bytes = file_size(dir, parts);
    if bytes > MAX_FILE_BYTES {
        return Some(TrimRefusal::TrimTooLarge { bytes });
    }
    None
}

// The least lump of the parts that has the name of a mark.
fn marked_lump(dir: &Directory, parts: &[TrimPart]) -> Option<LumpNo>
    requires { All (IsPartThere (length dir.now.lumps)) parts.now }
    ensures { option_map (λ lump. lump.0) result ≡ marked_lump dir.now.lumps parts.now }
{
    let mut least: Option<LumpNo> = None;
    for part in parts {
        least = lesser(least, marked_part(dir, *part));
    }
    least
}

// The lump of a part, where it has the name of a mark.
fn marked_part(dir: &Directory, part: TrimPart) -> Option<LumpNo>
    requires { IsPartThere (length dir.now.lumps) part }
    ensures { option_map (λ lump. lump.0) result ≡ marked_lump dir.now.lumps (part ∷ []) }
{
    match lump_of(part) {
        Some(lump) => marked(dir, lump),
        None => None,
    }
}

// The lump of a part that is no mark of the file's own.
#[tactic(auto, unfolding(trim_rules::specs::Parts::is_lump_part))]
fn lump_of(part: TrimPart) -> Option<LumpNo>
    ensures is { (n : ℕ) →
        is_lump_part n part ≡ option_map_or (λ lump. lump.0 == n) result false }
    ensures there { (count : ℕ) → IsPartThere count part → IfSome result (λ lump. lump.0 < count) }
{
    match part {
        TrimPart::Mark(_) => None,
        TrimPart::Label(lump) => Some(lump),
        TrimPart::Copy(lump) => Some(lump),
    }
}

// The lump, where it has the name of a mark.
#[tactic(auto, unfolding(trim_rules::specs::Parts::is_mark))]
fn marked(dir: &Directory, lump: LumpNo) -> Option<LumpNo>
    requires { lump.0 < length dir.now.lumps }
    ensures { result ≡ cond (is_mark (lump_at dir.now.lumps lump.0).name) (Some lump) None }
{
    let name = dir.name(lump).bytes();
    if is_flat_mark(&name) || is_sprite_mark(&name) {
        Some(lump)
    } else {
        None
    }
}

fn is_flat_mark(name: &[u8; NAME_SIZE]) -> bool
    ensures { result ≡ (is_start Flats name.now || is_end Flats name.now) }
{
    *name == F_START || *name == FF_START || *name == F_END || *name == FF_END
}

fn is_sprite_mark(name: &[u8; NAME_SIZE]) -> bool
    ensures { result ≡ (is_start Sprites name.now || is_end Sprites name.now) }
{
    *name == S_START || *name == SS_START || *name == S_END || *name == SS_END
}

// The lesser of two lumps, where they are there.
fn lesser(a: Option<LumpNo>, b: Option<LumpNo>) -> Option<LumpNo>
    ensures { option_map (λ lump. lump.0) result
        ≡ lesser (option_map (λ lump. lump.0) a) (option_map (λ lump. lump.0) b) }
{
    match (a, b) {
        (None, _) => b,
        (_, None) => a,
        (Some(x), Some(y)) => Some(LumpNo(x.0.min(y.0))),
    }
}

// The bytes of the whole file.
#[tactic(auto, unfolding(trim_rules::specs::Parts::file_size))]
fn file_size(dir: &Directory, parts: &[TrimPart]) -> u64
    requires there { All (IsPartThere (length dir.now.lumps)) parts.now }
    requires few { length parts.now ≤ 2 ^ 18 }
    ensures { result ≡ file_size dir.now.lumps parts.now }
{
    let entries = ENTRY_SIZE as u64 * parts.len() as u64;
    HEADER_SIZE as u64 + parts_size(dir, parts) + entries
}

// The bytes of all parts.
#[tactic(auto, unfolding(trim_rules::specs::Parts::parts_size))]
pub(crate) fn parts_size(dir: &Directory, parts: &[TrimPart]) -> u64
    requires there { All (IsPartThere (length dir.now.lumps)) parts.now }
    requires few { length parts.now ≤ 2 ^ 18 }
    ensures value { result ≡ parts_size dir.now.lumps parts.now }
    ensures fits { result ≤ 2 ^ 50 }
{
    let mut size = 0;
    for part in parts {
        size += u64::from(part_size(dir, *part));
    }
    size
}

// The bytes of a part.
#[tactic(auto, unfolding(trim_rules::specs::Parts::part_size))]
pub(crate) fn part_size(dir: &Directory, part: TrimPart) -> u32
    requires { IsPartThere (length dir.now.lumps) part }
    ensures { result ≡ part_size dir.now.lumps part }
{
    match part {
        TrimPart::Mark(_) => 0,
        TrimPart::Label(_) => 0,
        TrimPart::Copy(lump) => dir.size(lump),
    }
}

// The last mention of each frame of each sprite, and of each of its rotations.
ghost use Rattle.std.specs.Prelude.{◌≡◌, ◌==◌, ◌+◌, ◌<◌, ◌++◌, [], true, cond, List, ℕ, take, slice_index, IfOk, OnOk};
ghost use Rattle.std.specs.Option.{option_to_list};
ghost use Rattle.std.specs.Str.{bytes_eq};
ghost use Rattle.sprite_book.specs.Rules.{Mention, is_of_sprite, is_pair, mention_at, mentions, name_mentions};
ghost use Rattle.sprite_book.specs.Indexes.{IsIndexOf};

use art_rules::{
    FIRST_FRAME, FIRST_ROTATION, LAST_FRAME, LAST_ROTATION, Mention, OutOfMemory, SECOND_PAIR_AT,
    SPRITE_LETTERS,
};
use lump_cache::{Directory, NAME_SIZE};
use std::alloc::Global;
use std::collections::BTreeMap;

/// The letters of a sprite.
pub type Letters = [u8; SPRITE_LETTERS];

/// The last mention of each frame, and of each frame with a rotation.
#[derive(Drop)]
pub struct Mentions {
    pub frames: BTreeMap<(Letters, u8), Mention>,
    pub turned: BTreeMap<(Letters, u8, u8), Mention>,
}

// Goes over the names of the sprite lumps once.
pub fn index_mentions(alloc: Global, dir: &Directory) -> Result<Mentions, OutOfMemory>
    ensures { IfOk result (λ index. IsIndexOf index (mentions dir.now.lumps)) }
{
    let mut index = Mentions {
        frames: BTreeMap::new(alloc),
        turned: BTreeMap::new(alloc),
    };
    for lump in dir.sprite_lumps() {
        add_name(&mut index, lump.0, &dir.name(*lump).bytes())?;
    }
    Ok(index)
}

// Adds what the name of a lump mentions.
#[tactic(auto, unfolding(art_rules::specs::Frames::name_mentions, art_rules::specs::Frames::is_of_sprite))]
fn add_name(index: &mut Mentions, lump: u16, name: &[u8; NAME_SIZE]) -> Result<(), OutOfMemory>
    ensures { OnOk result ((all : List ℕ → List Mention) → IsIndexOf index.old all →
        IsIndexOf index.new
        (λ sprite. all sprite
        ++ cond (is_of_sprite sprite name.now) (name_mentions lump name.now) [])) }
{
    let letters = letters_of(name);
    add_mention(
        index,
        letters,
        mention_at(lump, name, SPRITE_LETTERS, false),
    )?;
    add_mention(index, letters, second_mention(lump, name))
}

// Puts a mention in the place of the earlier one of its frame, and of its frame and rotation.
fn add_mention(
    index: &mut Mentions,
    letters: Letters,
    found: Option<Mention>,
) -> Result<(), OutOfMemory>
    ensures { OnOk result ((all : List ℕ → List Mention) → IsIndexOf index.old all →
        IsIndexOf index.new
        (λ sprite. all sprite ++ cond (bytes_eq letters sprite) (option_to_list found) [])) }
{
    if let Some(mention) = found {
        index.frames.insert((letters, mention.frame), mention)?;
        index
            .turned
            .insert((letters, mention.frame, mention.rotation), mention)?;
    }
    Ok(())
}

// The letters that a lump's name begins with.
fn letters_of(name: &[u8; NAME_SIZE]) -> Letters
    ensures { result ≡ take SPRITE_LETTERS name.now }
{
    let mut letters = [0; SPRITE_LETTERS];
    letters.copy_from_slice(&name[..SPRITE_LETTERS]);
    letters
}

// What the second pair of a name mentions, where the name has one.
fn second_mention(lump: u16, name: &[u8; NAME_SIZE]) -> Option<Mention>
    ensures { option_to_list result
        ≡ cond (slice_index name.now SECOND_PAIR_AT == 0) []
        (mention_at lump name.now SECOND_PAIR_AT true) }
{
    if name[SECOND_PAIR_AT] == 0 {
        return None;
    }
    mention_at(lump, name, SECOND_PAIR_AT, true)
}

// What the pair at an offset of the name mentions.
#[tactic(auto, unfolding(art_rules::specs::Frames::mention_at, art_rules::specs::Frames::is_pair))]
fn mention_at(lump: u16, name: &[u8; NAME_SIZE], offset: usize, flip: bool) -> Option<Mention>
    requires { offset + 1 < NAME_SIZE }
    ensures { option_to_list result ≡ mention_at lump name.now offset flip }
{
    let frame = name[offset];
    let digit = name[offset + 1];
    if !is_pair(frame, digit) {
        return None;
    }
    Some(Mention {
        lump,
        frame,
        rotation: digit - FIRST_ROTATION,
        flip,
    })
}

// A frame letter and a rotation digit.
#[tactic(auto, unfolding(art_rules::specs::Frames::is_pair))]
fn is_pair(letter: u8, digit: u8) -> bool
    ensures { result ≡ is_pair letter digit }
{
    FIRST_FRAME <= letter
        && letter <= LAST_FRAME
        && FIRST_ROTATION <= digit
        && digit <= LAST_ROTATION
}

// The pictures of a needed frame.
ghost use Rattle.std.specs.Prelude.{◌≡◌, ◌<◌, ◌+◌, ◌*◌, ◌^◌, ◌-◌, List, ℕ, length, Some, MatchResult, Ok, Err};
ghost use Rattle.std.specs.List.{range_with_len};
ghost use Rattle.sprite_book.specs.Rules.{Mention, each_of, frame_picture, is_of_frame, last_mention, last_that, picture_or_missing, pictures_of};
ghost use Rattle.sprite_book.specs.Indexes.{IsIndexOf};

use crate::Need;
use crate::mentions::Mentions;
use art_rules::{Mention, ROTATIONS, SpriteRefusal};

// The pictures of a frame from the eight rotations, or why it is refused.
pub fn find_pictures(index: &Mentions, need: &Need) -> Result<[Mention; ROTATIONS], SpriteRefusal>
    ensures { (all : List ℕ → List Mention) → IsIndexOf index.now all →
        result ≡ pictures_of (all need.now.sprite) need.now }
{
    let last = last_mention(index, need)?;
    let mut pictures = [last; ROTATIONS];
    fill_pictures(index, need, &last, &mut pictures)?;
    Ok(pictures)
}

// The last mention of the frame, which decides its kind.
#[tactic(auto, unfolding(art_rules::specs::Books::last_mention))]
fn last_mention(index: &Mentions, need: &Need) -> Result<Mention, SpriteRefusal>
    ensures { (all : List ℕ → List Mention) → IsIndexOf index.now all →
        result ≡ last_mention (all need.now.sprite) need.now }
{
    match index.frames.get(&(need.sprite, need.frame)) {
        Some(mention) => Ok(*mention),
        None => Err(SpriteRefusal::NoFrame {
            thing: u64::from(need.thing),
        }),
    }
}

// Looks the pictures up rotation for rotation.
fn fill_pictures(
    index: &Mentions,
    need: &Need,
    last: &Mention,
    pictures: &mut [Mention],
) -> Result<(), SpriteRefusal>
    requires { length pictures.old < 2 ^ 8 }
    ensures { (all : List ℕ → List Mention) → IsIndexOf index.now all →
        last_that (is_of_frame need.now.frame) (all need.now.sprite) ≡ Some last.now →
        MatchResult result
        (λ _. each_of (picture_or_missing (all need.now.sprite) need.now)
        (range_with_len 0 (length pictures.old)) ≡ Ok pictures.new)
        (λ refusal. each_of (picture_or_missing (all need.now.sprite) need.now)
        (range_with_len 0 (length pictures.old)) ≡ Err refusal) }
{
    for (k, picture) in pictures.iter_mut().enumerate() {
        *picture = picture_at(index, need, last, k as u8)?;
    }
    Ok(())
}

// The picture from the k-th rotation.
#[tactic(auto, unfolding(art_rules::specs::Books::picture_or_missing))]
fn picture_at(
    index: &Mentions,
    need: &Need,
    last: &Mention,
    k: u8,
) -> Result<Mention, SpriteRefusal>
    requires { k < 2 ^ 8 - 1 }
    ensures { (all : List ℕ → List Mention) → IsIndexOf index.now all →
        last_that (is_of_frame need.now.frame) (all need.now.sprite) ≡ Some last.now →
        result ≡ picture_or_missing (all need.now.sprite) need.now k }
{
    match mention_from(index, need, last, k) {
        Some(mention) => Ok(mention),
        None => Err(SpriteRefusal::MissingRotation {
            thing: u64::from(need.thing),
            rotation: u64::from(k) + 1,
        }),
    }
}

// The mention that is the picture from the k-th rotation.
#[tactic(auto, unfolding(art_rules::specs::Frames::frame_picture, art_rules::specs::Frames::picture_if, art_rules::specs::Frames::picture_by))]
fn mention_from(index: &Mentions, need: &Need, last: &Mention, k: u8) -> Option<Mention>
    requires { k < 2 ^ 8 - 1 }
    ensures { (all : List ℕ → List Mention) → IsIndexOf index.now all →
        last_that (is_of_frame need.now.frame) (all need.now.sprite) ≡ Some last.now →
        result ≡ frame_picture (all need.now.sprite) need.now.frame k }
{
    if last.rotation == 0 {
        return Some(*last);
    }
    match index.turned.get(&(need.sprite, need.frame, k + 1)) {
        Some(mention) => Some(*mention),
        None => None,
    }
}

// The posts of a patch's columns.
//
// Rules: `art_rules`, Patches. The original: `R_DrawMaskedColumn`, r_things.c, `R_GetColumn`,
// r_data.c.
ghost use Rattle.std.specs.Prelude.{◌≡◌, ◌<◌, ◌^◌};
ghost use Rattle.art_rules.specs.Words.{column_place, is_post, next_place, post_at, post_in};

use art_rules::{
    COLUMN_PLACE_SIZE, COLUMN_PLACES_AT, POST_BYTES_AT, POST_LENGTH_AT, POSTS_END, Post, byte_at,
    word_at,
};

/// Where in the patch the posts of column `x` begin, in bytes.
///
/// A column that the patch has no place for is read from the bytes that follow, 0 past the end.
///
/// The original: `columnofs` of `patch_t`, r_defs.h.
#[tactic(auto, unfolding(art_rules::specs::Patches::column_place))]
pub fn column_place(bytes: &[u8], x: u16) -> u64
    ensures { result ≡ column_place bytes.now x }
{
    u64::from(word_at(
        bytes,
        COLUMN_PLACES_AT as u64 + COLUMN_PLACE_SIZE as u64 * x as u64,
    ))
}

/// The post that begins at byte `place` of a patch.
///
/// `None` exactly where the place is at or past the end, or the byte there is 255, which ends a
/// column. The post's `first` is the place of its first texel, in bytes.
///
/// The original: `post_t`, r_defs.h. This project's own: a lump's end ends a column too.
#[tactic(auto, unfolding(art_rules::specs::Patches::post_at))]
pub fn post_at(bytes: &[u8], place: u64) -> Option<Post>
    requires { place < 2 ^ 63 }
    ensures { result ≡ post_at bytes.now place }
{
    if !is_post(bytes, place) {
        return None;
    }
    Some(post_in(bytes, place))
}

#[tactic(auto, unfolding(art_rules::specs::Patches::is_post))]
fn is_post(bytes: &[u8], place: u64) -> bool
    ensures { result ≡ is_post bytes.now place }
{
    !(bytes.len() as u64 <= place || byte_at(bytes, place) == POSTS_END)
}

#[tactic(auto, unfolding(art_rules::specs::Patches::post_in))]
fn post_in(bytes: &[u8], place: u64) -> Post
    requires { place < 2 ^ 63 }
    ensures { result ≡ post_in bytes.now place }
{
    Post {
        topdelta: byte_at(bytes, place),
        length: byte_at(bytes, place + POST_LENGTH_AT as u64),
        first: place + POST_BYTES_AT as u64,
    }
}

/// Where the post after this one begins, in bytes: a byte after its last texel.
///
/// The original: `R_DrawMaskedColumn`, r_things.c.
#[tactic(auto, unfolding(art_rules::specs::Patches::next_place))]
pub fn next_place(post: Post) -> u64
    requires { post.first < 2 ^ 63 }
    ensures { result ≡ next_place post }
{
    post.first + u64::from(post.length) + 1
}

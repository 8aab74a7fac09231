// Patches: pictures in columns.
ghost use Rattle.std.specs.Prelude.{◌≡◌, ◌<◌, ◌++◌, ◌*◌, ◌+◌, ◌^◌, [], ◌∷◌, IfOk, OnOk};
ghost use Rattle.std.specs.List.{flat_map};
ghost use Rattle.level_maker.specs.Rules.{column_bytes, column_size, halves, listed, made_column_place, made_patch, made_texel, post_bytes, records};

use crate::bytes::{put_halves, put_word};
use made_rules::{Picture, Post};
use std::alloc::{AllocError, Global};

const HEAD_SIZE: u32 = 8;

const PLACE_SIZE: u32 = 4;

const COLUMN_END: u8 = 255;

/// A picture whose columns have the same posts, `size` bytes each.
#[tactic(auto, unfolding(made_rules::specs::Pictures::made_patch))]
pub fn patch(
    alloc: Global,
    picture: Picture,
    posts: &[Post],
    size: u32,
) -> Result<Vec<u8>, AllocError>
    requires size { size ≡ column_size posts.now }
    requires short { size < 2 ^ 10 }
    ensures { IfOk result (λ lump. lump.items ≡ made_patch picture posts.now) }
{
    let mut lump = Vec::new(alloc);
    put_head(&mut lump, picture)?;
    put_places(&mut lump, picture.width as u32, size)?;
    put_columns(&mut lump, picture, posts)?;
    Ok(lump)
}

fn put_head(lump: &mut Vec<u8>, picture: Picture) -> Result<(), AllocError>
    ensures { OnOk result (lump.new.items ≡ lump.old.items ++ halves
        (picture.width ∷ picture.height ∷ picture.left ∷ picture.top ∷ [])) }
{
    let width = picture.width as u32;
    let height = picture.height as u32;
    put_halves(
        lump,
        &[width, height, picture.left as u32, picture.top as u32],
    )
}

#[tactic(auto, using(made_rules::proofs::BytesLemmas::filling))]
fn put_places(lump: &mut Vec<u8>, width: u32, size: u32) -> Result<(), AllocError>
    requires width { width < 2 ^ 16 }
    requires size { size < 2 ^ 10 }
    ensures { OnOk result (lump.new.items ≡ lump.old.items ++ records (made_column_place width size)
        width) }
{
    for x in 0..width {
        put_place(lump, width, size, x)?;
    }
    Ok(())
}

// Puts the place of a column: behind the head, all places and the columns before it.
#[tactic(auto, unfolding(made_rules::specs::Pictures::made_column_place))]
fn put_place(lump: &mut Vec<u8>, width: u32, size: u32, x: u32) -> Result<(), AllocError>
    requires width { width < 2 ^ 16 }
    requires size { size < 2 ^ 10 }
    requires column { x < width }
    ensures { OnOk result (lump.new.items ≡ lump.old.items ++ made_column_place width size x) }
{
    put_word(lump, HEAD_SIZE + PLACE_SIZE * width + x * size)
}

#[tactic(auto, using(made_rules::proofs::BytesLemmas::filling))]
fn put_columns(lump: &mut Vec<u8>, picture: Picture, posts: &[Post]) -> Result<(), AllocError>
    ensures { OnOk result (lump.new.items ≡ lump.old.items ++ records
        (column_bytes picture.seed posts.now) picture.width) }
{
    for x in 0..picture.width as u32 {
        put_column(lump, picture.seed, posts, x)?;
    }
    Ok(())
}

#[tactic(auto, unfolding(made_rules::specs::Pictures::column_bytes))]
fn put_column(lump: &mut Vec<u8>, seed: u8, posts: &[Post], x: u32) -> Result<(), AllocError>
    requires { x < 2 ^ 16 }
    ensures { OnOk result (lump.new.items ≡ lump.old.items ++ column_bytes seed posts.now x) }
{
    put_posts(lump, seed, posts, x)?;
    lump.push(COLUMN_END)?;
    Ok(())
}

fn put_posts(lump: &mut Vec<u8>, seed: u8, posts: &[Post], x: u32) -> Result<(), AllocError>
    requires { x < 2 ^ 16 }
    ensures { OnOk result (lump.new.items ≡ lump.old.items ++ flat_map (post_bytes seed x)
        posts.now) }
{
    for post in posts {
        put_post(lump, seed, x, *post)?;
    }
    Ok(())
}

#[tactic(auto, unfolding(made_rules::specs::Pictures::post_bytes))]
fn put_post(lump: &mut Vec<u8>, seed: u8, x: u32, post: Post) -> Result<(), AllocError>
    requires { x < 2 ^ 16 }
    ensures { OnOk result (lump.new.items ≡ lump.old.items ++ post_bytes seed x post) }
{
    lump.extend_from_slice(&[post.top, post.length, 0])?;
    put_texels(lump, seed, x, post.top, post.length)?;
    lump.push(0)?;
    Ok(())
}

#[tactic(auto, using(made_rules::proofs::BytesLemmas::listing_behind))]
fn put_texels(lump: &mut Vec<u8>, seed: u8, x: u32, top: u8, length: u8) -> Result<(), AllocError>
    requires { x < 2 ^ 16 }
    ensures { OnOk result (lump.new.items ≡ lump.old.items ++ listed (made_texel seed x top)
        length) }
{
    for k in 0..length {
        lump.push(made_texel(seed, x, top, k))?;
    }
    Ok(())
}

#[tactic(auto, unfolding(made_rules::specs::Pictures::made_texel))]
fn made_texel(seed: u8, x: u32, top: u8, k: u8) -> u8
    requires { x < 2 ^ 16 }
    ensures { result ≡ made_texel seed x top k }
{
    ((seed as u32 + 3 * x + 5 * (top as u32 + k as u32)) % 256) as u8
}

// The textures of a directory.
ghost use Rattle.art_rules.specs.Words.{is_no_texture, itself, mask_of, named_bytes, texture_at, texture_lists, texture_number};
ghost use Rattle.std.specs.Prelude.{◌≡◌, ◌<◌, ◌≤◌, ℕ, length, option_map, slice_get, IfOk, IfSome, OnOk};
ghost use Rattle.lump_cache.specs.Calls.{ReadsLumps};
ghost use Rattle.lump_cache.specs.Sizes.{StandsBeside};
ghost use Rattle.texture_lists.specs.Asked.{IsListLump};

use crate::index::{index_textures, look_up};
use crate::load::{load_both, load_names};
use crate::records::ListedTexture;
use crate::{TexFault, TexNo};
use art_rules::{
    MAX_TEXTURES, NAME_SIZE, NO_TEXTURE, Name8, OutOfMemory, PNAMES, Shelf, TEXTURE1, TEXTURE2,
    TextureEntry,
};
use lump_cache::{Directory, LumpCache};
use std::alloc::Global;
use std::collections::BTreeMap;
use std::marker::Model;

/// The textures that a directory lists, with the names of patches. Contracts see the lists that
/// were read.
///
/// The original: `textures`, r_data.c.
#[derive(Drop)]
pub struct ListedTextures {
    names: Vec<Name8>,
    textures: Vec<ListedTexture>,
    // the least texture of each name
    index: BTreeMap<[u8; NAME_SIZE], u16>,
}

impl Model for ListedTextures {
    ghost use Rattle.std.specs.Prelude.{◌≡◌, ◌≤◌, ℕ, List, length};
    ghost use Rattle.texture_lists.specs.Rules.{MAX_TEXTURES, TextureLists, least_named};
    ghost use Rattle.lump_cache.specs.Indexes.{indexed};

    ghost Value = { TextureLists };

    ghost view = { λ t. record { names = t.names.items; textures = t.textures.items } };

    ghost invariant = { λ t.
        (length t.textures.items ≤ MAX_TEXTURES)
        × ((name : List ℕ) → indexed t.index name ≡ least_named t.textures.items name) };
}

impl ListedTextures {
    /// Reads the names of patches and both lists of textures: PNAMES, TEXTURE1 and, if the
    /// directory has one, TEXTURE2, each the last lump of its name. Takes memory for the lists and
    /// an index by name; no byte of a lump is kept.
    ///
    /// Errors: `Refused` with the first refusal of these lumps: `Pnames`, `Lump`, and only then
    /// `Entry`. `ZoneFull` only if no gap of the zone held the block of one of them; a cache at
    /// rest has such a gap if the zone holds the block beside COLORMAP's and 64 bytes. `ReadFault`
    /// only if the shelf's count of faults rose. `OutOfMemory`.
    ///
    /// After any answer, a cache that was at rest is at rest, one that was faithful is faithful,
    /// and no composite is made. If the cache is in order for a list that has all three lumps,
    /// `ZoneFull` does not come, and the cache stays in order unless a read fails. After Ok from a
    /// cache at rest, whose live lumps have the directory's sizes, the zone holds the colormap's
    /// block beside that of each of the three lumps.
    ///
    /// The original: `R_InitTextures`, r_data.c, which ends the program there.
    ///
    /// This project's own: both lists are judged as wholes before a record of either is.
    pub fn load<S: Shelf>(
        alloc: Global,
        dir: &Directory,
        cache: &mut LumpCache,
        shelf: &mut S,
    ) -> Result<ListedTextures, TexFault>
        requires slots { length dir.now.lumps ≤ cache.old.lumps }
        ensures tells { ReadsLumps itself (S.view shelf.old) (S.view shelf.new) dir.now cache.old
            cache.new (IsListLump dir.now.lumps) (λ lists. lists)
            (λ bytes. texture_lists (named_bytes bytes dir.now.lumps PNAMES)
            (named_bytes bytes dir.now.lumps TEXTURE1)
            (named_bytes bytes dir.now.lumps TEXTURE2)) result }
        ensures few { IfOk result (λ lists. length lists.textures ≤ MAX_TEXTURES) }
        ensures fits { OnOk result ((lump : ℕ) → IsListLump dir.now.lumps lump →
            StandsBeside dir.now.lumps cache.old lump) }
    {
        let names = load_names(alloc, dir, cache, shelf)?;
        let textures = load_both(alloc, dir, cache, shelf)?;
        Ok(ListedTextures::new(alloc, names, textures)?)
    }

    // The textures of these lists, with their index.
    fn new(
        alloc: Global,
        names: Vec<Name8>,
        textures: Vec<ListedTexture>,
    ) -> Result<ListedTextures, OutOfMemory>
        requires { length textures.items ≤ MAX_TEXTURES }
        ensures { IfOk result (λ lists. lists
            ≡ record { names = names.items; textures = textures.items }) }
    {
        let index = index_textures(alloc, &textures)?;
        Ok(ListedTextures {
            names,
            textures,
            index,
        })
    }

    /// How many textures there are, at most 32767.
    ///
    /// The original: `numtextures`, r_data.c.
    pub fn count(&self) -> u32
        ensures value { result ≡ length self.now.textures }
        ensures few { result ≤ MAX_TEXTURES }
    {
        self.textures.len() as u32
    }

    /// The number of a texture's name: 0 where its first byte is `-`, else the least texture of
    /// that name. Not to be asked while drawing.
    ///
    /// `None` exactly where the name does not begin with `-` and no texture has it.
    ///
    /// The original: `R_CheckTextureNumForName`, r_data.c.
    #[tactic(auto, unfolding(art_rules::specs::Textures::texture_number))]
    pub fn number(&self, name: &Name8) -> Option<TexNo>
        ensures found { option_map (λ tex. tex.0) result
            ≡ texture_number self.now.textures name.now }
        ensures there { IfSome result (λ tex. 0 < tex.0 → tex.0 < length self.now.textures) }
    {
        if is_no_texture(name) {
            return Some(TexNo(0));
        }
        match look_up(&self.index, name) {
            Some(number) => Some(TexNo(number)),
            None => None,
        }
    }

    /// The name of a patch by the number that entries have, or `None` exactly where PNAMES has no
    /// such number.
    ///
    /// The original: `patchlookup` of `R_InitTextures`, r_data.c, which has the lump of the name.
    pub fn patch_name(&self, number: u16) -> Option<Name8>
        ensures { result ≡ slice_get self.now.names number }
    {
        self.names.get(number as usize).copied()
    }

    /// The patches of a texture, in the order of its record.
    ///
    /// The original: `texture_t.patches`, r_data.c.
    pub fn entries(&self, tex: TexNo) -> &[TextureEntry]
        requires { tex.0 < length self.now.textures }
        ensures { result.now ≡ (texture_at self.now.textures tex.0).patches }
    {
        self.textures[tex.0 as usize].patches()
    }

    /// The columns of a texture, at least one.
    ///
    /// The original: `texture_t.width`, r_data.c.
    pub fn width(&self, tex: TexNo) -> u16
        requires { tex.0 < length self.now.textures }
        ensures width { result ≡ (texture_at self.now.textures tex.0).width }
        ensures some { 0 < result }
    {
        self.textures[tex.0 as usize].width()
    }

    /// The rows of a texture.
    ///
    /// The original: `textureheight`, r_data.c, there in 16.16 fixed point.
    pub fn height(&self, tex: TexNo) -> u16
        requires { tex.0 < length self.now.textures }
        ensures { result ≡ (texture_at self.now.textures tex.0).height }
    {
        self.textures[tex.0 as usize].height()
    }

    /// The mask of a texture's columns: 1 less than the greatest power of two that is at most its
    /// width.
    ///
    /// The original: `texturewidthmask`, r_data.c.
    pub fn mask(&self, tex: TexNo) -> u16
        requires { tex.0 < length self.now.textures }
        ensures { result ≡ mask_of (texture_at self.now.textures tex.0).width }
    {
        self.textures[tex.0 as usize].mask()
    }
}

// A name that stands for no texture.
#[tactic(auto, unfolding(art_rules::specs::Textures::is_no_texture))]
fn is_no_texture(name: &Name8) -> bool
    ensures { result ≡ is_no_texture name.now }
{
    name.bytes()[0] == NO_TEXTURE
}

// The textures of a directory.
//
// Rules: `art_rules`, Textures, Columns, Lookups and Wanted; `specs/Views`, `specs/Sources`,
// `specs/Asked` and `specs/Composites`. The original: r_data.c.
ghost use Rattle.art_rules.specs.Words.{is_single, itself, last_of, Lump, mask_of, named_bytes, painter_of, patch_lumps, prepared_textures, single_place, texture_at, texture_lists, texture_number};
ghost use Rattle.lump_cache.specs.Calls.{ReadsLumps};
ghost use Rattle.lump_cache.specs.Sizes.{StandsBeside};
ghost use Rattle.std.specs.Prelude.{◌≡◌, ◌<◌, ◌≤◌, ℕ, [], List, All, length, is_some, map, option_map, IfOk, IfSome, IsSome, Ok, OnErr, OnOk, Some};
ghost use Rattle.texture_build.specs.Arts.{lookup_source};
ghost use Rattle.texture_build.specs.Asked.{IsWantedPatch, size_of};
ghost use Rattle.texture_build.specs.Sources.{IsColumnThere, column_in, own_lookup, source_of};
ghost use Rattle.texture_build.specs.Views.{AllTexturesListed, AllThere, ArePatchesThere, IsPrepared, is_wanted, prepared_at, prepared_texture};
ghost use Rattle.texture_lists.specs.Asked.{IsListLump};

mod columns;

use crate::prepare::prepare_wanted;
use crate::prepared_list::PreparedList;
use crate::source::{ColumnSource, painter_of, posts_place, source_of};
use art_rules::{
    ColumnLookup, MAX_COMPOSITE, MAX_LUMPS, MAX_TEXTURES, Name8, PNAMES, Painter, Shelf, TEXTURE1,
    TEXTURE2,
};
use lump_cache::{Directory, LumpCache, LumpNo};
use std::alloc::Global;
use std::marker::Model;
use texture_lists::{ListedTextures, TexFault, TexNo};

/// The textures of a directory. Contracts see the lists, and by number what is prepared.
///
/// The original: `textures`, r_data.c.
#[derive(Drop)]
pub struct Textures {
    lists: ListedTextures,
    prepared: PreparedList,
}

impl Model for Textures {
    ghost use Rattle.std.specs.Prelude.{◌≤◌, length};
    ghost use Rattle.texture_build.specs.Views.{TexturesView};

    ghost Value = { TexturesView };

    ghost view = { λ t. record { lists = t.lists; prepared = t.prepared } };

    ghost invariant = { λ t. length t.prepared ≤ length t.lists.textures };
}

impl Textures {
    /// Reads the names of patches and both lists of textures: PNAMES, TEXTURE1 and, if the
    /// directory has one, TEXTURE2, each the last lump of its name. No texture is prepared. Takes
    /// memory for the lists and an index by name; no byte of a lump is kept.
    ///
    /// Errors: `Refused` with the first refusal of these lumps: `Pnames`, `Lump`, and only then
    /// `Entry`. `ZoneFull` only if no gap of the zone held the block of one of them. `ReadFault`
    /// only if the shelf's count of faults rose. `OutOfMemory`. After any answer, a cache that was
    /// at rest is at rest, and one that was faithful is faithful. After Ok from a cache at rest,
    /// whose live lumps have the directory's sizes, the zone holds the colormap's block beside that
    /// of each of the lists.
    ///
    /// The original: `R_InitTextures`, r_data.c, which ends the program there.
    pub fn load<S: Shelf>(
        alloc: Global,
        dir: &Directory,
        cache: &mut LumpCache,
        shelf: &mut S,
    ) -> Result<Textures, TexFault>
        requires slots { length dir.now.lumps ≤ cache.old.lumps }
        ensures tells { ReadsLumps itself (S.view shelf.old) (S.view shelf.new) dir.now cache.old
            cache.new (IsListLump dir.now.lumps) (λ textures. textures.lists)
            (λ bytes. texture_lists (named_bytes bytes dir.now.lumps PNAMES)
            (named_bytes bytes dir.now.lumps TEXTURE1)
            (named_bytes bytes dir.now.lumps TEXTURE2)) result }
        ensures few { IfOk result (λ textures. length textures.lists.textures ≤ MAX_TEXTURES) }
        ensures unprepared { IfOk result (λ textures. textures.prepared ≡ []) }
        ensures fits { OnOk result ((lump : ℕ) → IsListLump dir.now.lumps lump →
            StandsBeside dir.now.lumps cache.old lump) }
    {
        let lists = ListedTextures::load(alloc, dir, cache, shelf)?;
        Ok(Textures {
            lists,
            prepared: PreparedList::none(alloc),
        })
    }

    /// Prepares the wanted textures, and forgets what was prepared before: finds the lumps of their
    /// patches, and what each of their columns is read from. Takes memory for the patches and the
    /// columns, and while it runs a byte for each texture and for each lump that there may be.
    ///
    /// Errors: `Refused` with the refusal of the least wanted number that has one, in whatever
    /// order the numbers come: `MissingPatch` if a patch is not among the names of patches, its
    /// name has no lump, or the lump is no patch; then `TooBig` if the composite has more than
    /// 65536 bytes. `ZoneFull` only if no gap of the zone held the block of a wanted patch.
    /// `ReadFault` only if the shelf's count of faults rose. `OutOfMemory`. After any of them no
    /// texture is prepared, and the call may be made again. After any answer, a cache that was at
    /// rest is at rest, and one that was faithful is faithful.
    ///
    /// The original: `R_InitTextures`, `R_GenerateLookup` and `R_PrecacheLevel`, r_data.c, which
    /// end the program there. This project's own: only the textures that are wanted are looked at,
    /// and a lump that is no patch is refused.
    pub fn prepare<S: Shelf>(
        &mut self,
        alloc: Global,
        wanted: &[TexNo],
        dir: &Directory,
        cache: &mut LumpCache,
        shelf: &mut S,
    ) -> Result<(), TexFault>
        requires slots { length dir.now.lumps ≤ cache.old.lumps }
        requires below { All (λ tex. tex.0 < length self.old.lists.textures) wanted.now }
        ensures tells { ReadsLumps itself (S.view shelf.old) (S.view shelf.new) dir.now cache.old
            cache.new (IsWantedPatch dir.now.lumps self.old.lists (is_wanted wanted.now))
            (λ _. self.new.prepared)
            (λ bytes. prepared_textures (last_of dir.now.lumps) bytes self.old.lists
            (is_wanted wanted.now)) result }
        ensures lists { self.new.lists ≡ self.old.lists }
        ensures err { OnErr result (self.new.prepared ≡ []) }
        ensures there { AllThere dir.now.lumps self.new }
        ensures listed { AllTexturesListed self.new }
        ensures wanted { OnOk result (All (λ tex. IsPrepared self.new tex.0) wanted.now) }
    {
        self.prepared = PreparedList::none(alloc);
        self.prepared = prepare_wanted(alloc, wanted, &self.lists, dir, cache, shelf)?;
        Ok(())
    }

    /// The lists of textures, prepared or not. Takes no memory.
    ///
    /// The original: `textures`, r_data.c.
    pub fn lists(&self) -> &ListedTextures
        ensures { result.now ≡ self.now.lists }
    {
        &self.lists
    }

    /// How many textures there are, at most 32767.
    ///
    /// The original: `numtextures`, r_data.c.
    pub fn count(&self) -> u32
        ensures value { result ≡ length self.now.lists.textures }
        ensures few { result ≤ MAX_TEXTURES }
        ensures prepared { length self.now.prepared ≤ result }
    {
        self.lists.count()
    }

    /// The number of a texture's name: 0 where its first byte is `-`, else the least texture of
    /// that name. Not to be asked while drawing.
    ///
    /// `None` exactly where the name does not begin with `-` and no texture has it.
    ///
    /// The original: `R_CheckTextureNumForName`, r_data.c.
    pub fn number(&self, name: &Name8) -> Option<TexNo>
        ensures found { option_map (λ tex. tex.0) result
            ≡ texture_number self.now.lists.textures name.now }
        ensures there { IfSome result (λ tex. 0 < tex.0 → tex.0 < length self.now.lists.textures) }
    {
        self.lists.number(name)
    }

    /// The columns of a texture.
    ///
    /// The original: `texture_t.width`, r_data.c.
    pub fn width(&self, tex: TexNo) -> u16
        requires { tex.0 < length self.now.lists.textures }
        ensures { result ≡ (texture_at self.now.lists.textures tex.0).width }
    {
        self.lists.width(tex)
    }

    /// The rows of a texture.
    ///
    /// The original: `textureheight`, r_data.c, there in 16.16 fixed point.
    pub fn height(&self, tex: TexNo) -> u16
        requires { tex.0 < length self.now.lists.textures }
        ensures { result ≡ (texture_at self.now.lists.textures tex.0).height }
    {
        self.lists.height(tex)
    }

    /// The mask of a texture's columns: 1 less than the greatest power of two that is at most its
    /// width.
    ///
    /// The original: `texturewidthmask`, r_data.c.
    pub fn mask(&self, tex: TexNo) -> u16
        requires { tex.0 < length self.now.lists.textures }
        ensures { result ≡ mask_of (texture_at self.now.lists.textures tex.0).width }
    {
        self.lists.mask(tex)
    }

    /// Whether a texture is prepared. Not before the first `prepare`, nor after one that fails.
    ///
    /// This project's own.
    pub fn is_prepared(&self, tex: TexNo) -> bool
        ensures { result ≡ is_some (prepared_at self.now.prepared tex.0) }
    {
        self.prepared.is_prepared(tex.0)
    }

    /// The last column of a prepared texture, counted from its left one, that a texture column
    /// stands for: its mask.
    ///
    /// The original: `texturewidthmask`, r_data.c.
    pub fn last_column(&self, tex: TexNo) -> u16
        requires { IsPrepared self.now tex.0 }
        ensures value { result ≡ mask_of (length (prepared_texture self.now tex.0).columns) }
        ensures within { result < length (prepared_texture self.now tex.0).columns }
    {
        self.prepared.texture(tex.0).mask()
    }

    /// Whether exactly one patch stands in column `col` of a prepared texture, counted from its
    /// left one.
    ///
    /// The original: `texturecolumnlump`, r_data.c, above 0.
    pub fn single(&self, tex: TexNo, col: u16) -> bool
        requires prepared { IsPrepared self.now tex.0 }
        requires within { col < length (prepared_texture self.now tex.0).columns }
        ensures value { result ≡ is_single (prepared_texture self.now tex.0).patches col }
        ensures place { result ≡ is_some
            (single_place (own_lookup (prepared_texture self.now tex.0) col)) }
    {
        self.prepared.texture(tex.0).is_single(col)
    }

    /// What a texture column of a prepared texture is read from. Of `col` the bits of the texture's
    /// mask count.
    ///
    /// A caller that asks several calls of one column asks for its lookup once, and gives it to
    /// `painter_at`, `ready_at` and `column_at`.
    ///
    /// The original: `R_GetColumn`, r_data.c, where it reads `texturecolumnlump` and
    /// `texturecolumnofs`.
    #[inline(always)]
    pub fn lookup(&self, tex: TexNo, col: i32) -> ColumnLookup
        requires { IsPrepared self.now tex.0 }
        ensures value { result ≡ column_in (prepared_texture self.now tex.0) col }
        ensures there { (lumps : List Lump) →
            ArePatchesThere lumps (prepared_texture self.now tex.0) →
            IsColumnThere lumps result }
    {
        self.prepared.texture(tex.0).lookup(col)
    }

    /// Whose bytes a texture column of a prepared texture has. Of `col` the bits of the texture's
    /// mask count.
    ///
    /// The original: `R_GetColumn`, r_data.c, where it reads `texturecolumnlump`.
    pub fn source(&self, tex: TexNo, col: i32) -> ColumnSource
        requires { IsPrepared self.now tex.0 }
        ensures value { result ≡ source_of tex.0 (column_in (prepared_texture self.now tex.0) col) }
        ensures there { (lumps : List Lump) →
            ArePatchesThere lumps (prepared_texture self.now tex.0) →
            IsColumnThere lumps (column_in (prepared_texture self.now tex.0) col) }
    {
        source_of(tex, self.lookup(tex, col))
    }

    /// The painter of that kind and number that paints with a texture column, by what the column is
    /// read from.
    ///
    /// The original: `R_GetColumn`, r_data.c, where it reads `texturecolumnlump`. This project's own:
    /// painters.
    #[inline(always)]
    pub fn painter_at(&self, kind: u8, number: u16, tex: TexNo, lookup: ColumnLookup) -> Painter
        ensures { result ≡ painter_of kind number (lookup_source tex.0 lookup) }
    {
        painter_of(kind, number, tex, lookup)
    }

    /// The bytes of the composite of a prepared texture, at most 65536.
    ///
    /// The original: `texturecompositesize`, r_data.c.
    pub fn composite_size(&self, tex: TexNo) -> u32
        requires { IsPrepared self.now tex.0 }
        ensures value { result ≡ size_of (prepared_texture self.now tex.0) }
        ensures limit { result ≤ MAX_COMPOSITE }
    {
        self.prepared.texture(tex.0).size()
    }

    /// The lumps of the patches of all prepared textures, ascending and each once.
    ///
    /// The original: `R_PrecacheLevel`, r_data.c, where it goes over `texture->patches`.
    pub fn patches(&self) -> &[LumpNo]
        ensures { map (λ lump. lump.0) result.now ≡ patch_lumps self.now.prepared MAX_LUMPS }
    {
        self.prepared.lumps()
    }

    /// The one patch lump that a texture column of a prepared texture is read from, and the byte of
    /// it where the posts begin. Of `col` the bits of the texture's mask count.
    ///
    /// The original: `R_GetColumn`, r_data.c, as `R_RenderMaskedSegRange` has it, 3 bytes on.
    pub fn posts_place(&self, tex: TexNo, col: i32) -> (LumpNo, u64)
        requires prepared { IsPrepared self.now tex.0 }
        requires single { IsSome (single_place (column_in (prepared_texture self.now tex.0) col)) }
        ensures { single_place (column_in (prepared_texture self.now tex.0) col)
            ≡ Some (result.0.0, result.1) }
    {
        posts_place(self.prepared.texture(tex.0).lookup(col))
    }
}

// The columns of a directory's textures: made live, and lent.
//
// Rules: `art_rules`, Columns and Lookups; `specs/Sources`, `specs/Asked` and `specs/Composites`.
// The original: `R_GetColumn` and `R_GenerateComposite`, r_data.c.
ghost use Rattle.std.specs.Prelude.{◌≡◌, ◌<◌, ◌≤◌, ◌+◌, ℕ, ℤ, List, length, IfSome, Ok, None, ◌^◌};
ghost use Rattle.art_rules.specs.Words.{byte_at, Lump, lump_bytes, single_place, texel};
ghost use Rattle.lump_cache.specs.Caches.{IsAtRest, IsFaithful};
ghost use Rattle.texture_build.specs.Composites.{AreComposites};
ghost use Rattle.texture_build.specs.Draws.{KeepsArt};
ghost use Rattle.texture_build.specs.Ready.{MakesColumnLive};
ghost use Rattle.texture_build.specs.Sources.{IsColumnLive, IsColumnThere, IsLentBeside, column_in, column_view, column_index};
ghost use Rattle.texture_build.specs.Views.{AreTexturesOf, ArePatchesThere, IsPrepared, prepared_texture};

use super::Textures;
use crate::column::{Column, lend_lookup};
use crate::ready::make_ready_at;
use art_rules::{ColumnLookup, Shelf};
use lump_cache::{CacheFault, Directory, LumpCache};
use texture_lists::TexNo;

impl Textures {
    /// Makes live what a texture column of a prepared texture is read from: the lump of its one
    /// patch, or the composite, which is built if it is not live. Of `col` the bits of the
    /// texture's mask count. Pins nothing that stays pinned. Takes no memory.
    ///
    /// Errors: `ZoneFull` only if no gap of the zone held the block of the lump, or of the
    /// composite or one of its patches; `ReadFault` only if the shelf's count of faults rose. The
    /// composite is not live then. After any answer, a cache that was at rest is at rest, one that
    /// was faithful is faithful, and composites that had their bytes have them.
    ///
    /// The original: `R_GetColumn` and `R_GenerateComposite`, r_data.c.
    pub fn ready<S: Shelf>(
        &self,
        cache: &mut LumpCache,
        dir: &Directory,
        shelf: &mut S,
        tex: TexNo,
        col: i32,
    ) -> Result<(), CacheFault>
        requires slots { length dir.now.lumps ≤ cache.old.lumps }
        requires composite { tex.0 < cache.old.composites }
        requires prepared { IsPrepared self.now tex.0 }
        requires there { ArePatchesThere dir.now.lumps (prepared_texture self.now tex.0) }
        ensures readies { MakesColumnLive tex.0 (prepared_texture self.now tex.0)
            (column_in (prepared_texture self.now tex.0) col) (S.view shelf.old)
            (S.view shelf.new) dir.now cache.old cache.new result }
        ensures keeps { KeepsArt (S.view shelf.old) (S.view shelf.new) dir.now self.now
            cache.old cache.new }
        ensures there { IsColumnThere dir.now.lumps
            (column_in (prepared_texture self.now tex.0) col) }
        ensures hit { IsColumnLive tex.0 cache.old
            (column_in (prepared_texture self.now tex.0) col) →
            (result ≡ Ok tt) × (shelf.new ≡ shelf.old) }
    {
        self.ready_at(cache, dir, shelf, tex, self.lookup(tex, col))
    }

    /// `ready` by what the column is read from.
    ///
    /// Errors: those of `ready`.
    ///
    /// The original: `R_GetColumn` and `R_GenerateComposite`, r_data.c.
    #[inline(always)]
    pub fn ready_at<S: Shelf>(
        &self,
        cache: &mut LumpCache,
        dir: &Directory,
        shelf: &mut S,
        tex: TexNo,
        lookup: ColumnLookup,
    ) -> Result<(), CacheFault>
        requires slots { length dir.now.lumps ≤ cache.old.lumps }
        requires composite { tex.0 < cache.old.composites }
        requires prepared { IsPrepared self.now tex.0 }
        requires there { ArePatchesThere dir.now.lumps (prepared_texture self.now tex.0) }
        requires listed { IsColumnThere dir.now.lumps lookup }
        ensures readies { MakesColumnLive tex.0 (prepared_texture self.now tex.0) lookup
            (S.view shelf.old) (S.view shelf.new) dir.now cache.old cache.new result }
        ensures keeps { KeepsArt (S.view shelf.old) (S.view shelf.new) dir.now self.now
            cache.old cache.new }
        ensures hit { IsColumnLive tex.0 cache.old lookup →
            (result ≡ Ok tt) × (shelf.new ≡ shelf.old) }
    {
        let texture = self.prepared.texture(tex.0);
        make_ready_at(texture, u32::from(tex.0), lookup, dir, cache, shelf)
    }

    /// The texels of a texture column of a prepared texture; `None` exactly where the bytes that it
    /// is read from are not live. Of `col` the bits of the texture's mask count. Takes no memory.
    ///
    /// The original: `R_GetColumn`, r_data.c.
    pub fn column<'c>(&self, cache: &'c LumpCache, tex: TexNo, col: i32) -> Option<Column<'c>>
        requires lumps { IfSome (single_place (column_in (prepared_texture self.now tex.0) col))
            (λ s. s.0 < cache.now.lumps) }
        requires composite { tex.0 < cache.now.composites }
        requires prepared { IsPrepared self.now tex.0 }
        ensures column { result ≡ column_view tex.0 cache.now
            (column_in (prepared_texture self.now tex.0) col) }
        ensures first { IfSome result (λ column. column.first < 2 ^ 33) }
        ensures texel { (contents : List (List ℕ)) (lumps : List Lump) →
            ArePatchesThere lumps (prepared_texture self.now tex.0) →
            IsFaithful contents lumps cache.now →
            AreComposites (lump_bytes contents lumps) self.now cache.now →
            AreTexturesOf contents lumps self.now →
            IfSome result (λ column. (r : ℕ) →
            byte_at column.bytes (column.first + r)
            ≡ texel (lump_bytes contents lumps) (prepared_texture self.now tex.0).patches
            (length (prepared_texture self.now tex.0).columns)
            (prepared_texture self.now tex.0).height
            (column_index (prepared_texture self.now tex.0) col) r) }
    {
        self.column_at(cache, tex, self.lookup(tex, col))
    }

    /// `column` by what the column is read from. A zone at rest holds a block for the colormap's
    /// bytes beside that of the bytes that are lent, unless these are the colormap.
    ///
    /// The original: `R_GetColumn`, r_data.c.
    #[inline(always)]
    pub fn column_at<'c>(
        &self,
        cache: &'c LumpCache,
        tex: TexNo,
        lookup: ColumnLookup,
    ) -> Option<Column<'c>>
        requires lumps { IfSome (single_place lookup) (λ s. s.0 < cache.now.lumps) }
        requires composite { tex.0 < cache.now.composites }
        requires prepared { IsPrepared self.now tex.0 }
        ensures column { result ≡ column_view tex.0 cache.now lookup }
        ensures first { IfSome result (λ column. column.first < 2 ^ 33) }
        ensures fits { (colormap count : ℕ) → IsAtRest colormap count cache.now →
            IfSome result (λ column.
            IsLentBeside cache.now.size colormap count lookup (length column.bytes)) }
        ensures texel { (col : ℤ) (contents : List (List ℕ)) (lumps : List Lump) →
            lookup ≡ column_in (prepared_texture self.now tex.0) col →
            ArePatchesThere lumps (prepared_texture self.now tex.0) →
            IsFaithful contents lumps cache.now →
            AreComposites (lump_bytes contents lumps) self.now cache.now →
            AreTexturesOf contents lumps self.now →
            IfSome result (λ column. (r : ℕ) → byte_at column.bytes (column.first + r)
            ≡ texel (lump_bytes contents lumps) (prepared_texture self.now tex.0).patches
            (length (prepared_texture self.now tex.0).columns)
            (prepared_texture self.now tex.0).height
            (column_index (prepared_texture self.now tex.0) col) r) }
    {
        lend_lookup(lookup, u32::from(tex.0), cache)
    }
}

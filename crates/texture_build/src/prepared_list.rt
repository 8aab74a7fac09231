// The prepared textures by number.
//
// Rules: `art_rules`, Wanted.
ghost use Rattle.std.specs.Prelude.{◌≡◌, [], is_some, map, unwrap_or, IfOk, IsSome};
ghost use Rattle.art_rules.specs.Words.{patch_lumps};
ghost use Rattle.texture_build.specs.Views.{prepared_at, unprepared};

use crate::lumps::list_lumps;
use crate::prepared::PreparedTexture;
use art_rules::{MAX_LUMPS, OutOfMemory};
use lump_cache::LumpNo;
use std::alloc::Global;
use std::marker::Model;

// The textures of some numbers, prepared, and the lumps of their patches, ascending and each once.
#[derive(Drop)]
pub(crate) struct PreparedList {
    textures: Vec<Option<PreparedTexture>>,
    lumps: Vec<LumpNo>,
}

impl Model for PreparedList {
    ghost use Rattle.std.specs.Prelude.{◌≡◌, List, Option, map};
    ghost use Rattle.art_rules.specs.Words.{MAX_LUMPS, patch_lumps, PreparedTexture};

    ghost Value = { List (Option PreparedTexture) };

    ghost view = { λ list. list.textures.items };

    ghost invariant = { λ list. map (λ lump. lump.0) list.lumps.items
        ≡ patch_lumps list.textures.items MAX_LUMPS };
}

impl PreparedList {
    // No texture.
    pub(crate) fn none(alloc: Global) -> PreparedList
        ensures { result ≡ [] }
    {
        PreparedList {
            textures: Vec::new(alloc),
            lumps: Vec::new(alloc),
        }
    }

    // These textures.
    pub(crate) fn new(
        alloc: Global,
        textures: Vec<Option<PreparedTexture>>,
    ) -> Result<PreparedList, OutOfMemory>
        ensures { IfOk result (λ list. list ≡ textures.items) }
    {
        let lumps = list_lumps(alloc, &textures)?;
        Ok(PreparedList { textures, lumps })
    }

    // The texture of a number that is prepared.
    pub(crate) fn texture(&self, number: u16) -> &PreparedTexture
        requires { IsSome (prepared_at self.now number) }
        ensures { result.now ≡ unwrap_or (prepared_at self.now number) unprepared }
    {
        self.textures[number as usize].as_ref().unwrap()
    }

    // Whether the texture of a number is prepared.
    pub(crate) fn is_prepared(&self, number: u16) -> bool
        ensures { result ≡ is_some (prepared_at self.now number) }
    {
        match self.textures.get(number as usize) {
            Some(texture) => texture.is_some(),
            None => false,
        }
    }

    // The lumps of all patches, ascending and each once.
    pub(crate) fn lumps(&self) -> &[LumpNo]
        ensures { map (λ lump. lump.0) result.now ≡ patch_lumps self.now MAX_LUMPS }
    {
        &self.lumps
    }
}

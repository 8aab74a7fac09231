// The plan of a trimmed file.
ghost use Rattle.std.specs.Prelude.{◌≡◌, ◌≤◌, length, All, Ok, Err, IfOk};
ghost use Rattle.std.specs.Option.{option_copied};
ghost use Rattle.wad_trim.specs.Rules.{TrimRefusal, trim_plan, trimmed_file};
ghost use Rattle.wad_trim.specs.Plans.{FitsFile, trim_art, layer_lumps};
ghost use Rattle.wad_trim.specs.Writes.{IsCopied, IsPartThere, WritesLumps};

use crate::fault::{TrimFault, TrimWrite};
use crate::parts::list_parts;
use crate::refuse::trim_refusal;
use crate::write::{put_entries, put_header};
use art_rules::{Name8, Shelf, Sink};
use sound_scene::SoundScene;
use sprite_book::SpriteBook;
use std::alloc::Global;
use std::marker::Model;
use texture_build::{Directory, LumpCache, Tag, live_lump};
use trim_rules::TrimPart;

/// The parts of a trimmed file, in their order. Contracts see the list of them.
///
/// This project's own.
#[derive(Drop)]
pub struct TrimPlan {
    parts: Vec<TrimPart>,
}

impl Model for TrimPlan {
    ghost use Rattle.std.specs.Prelude.{List};
    ghost use Rattle.trim_rules.specs.declared.part.TrimPart.{TrimPart};

    ghost Value = { List TrimPart };

    ghost view = { λ plan. plan.parts.items };
}

impl TrimPlan {
    /// The parts of a level's trimmed file: flats of sectors, pictures of things and of weapon
    /// layers, the map, and what is found by its name. Takes memory for them, and while it runs a
    /// byte for each lump of the directory.
    ///
    /// Errors: `Refused` with the first refusal: the least lump that has the name of a mark, then
    /// too many entries, then too many bytes. `OutOfMemory`. This project's own.
    pub fn new(
        alloc: Global,
        scene: &SoundScene,
        weapons: Option<&SpriteBook>,
        dir: &Directory,
        map: &Name8,
    ) -> Result<TrimPlan, TrimFault>
        ensures ok { IfOk result (λ plan. trim_plan dir.now.lumps
            (trim_art scene.now.scene (layer_lumps (option_copied weapons.entry))) map.now
            ≡ Ok plan) }
        ensures refused { (refusal : TrimRefusal) → result ≡ Err (TrimFault.Refused refusal) →
            trim_plan dir.now.lumps
            (trim_art scene.now.scene (layer_lumps (option_copied weapons.entry))) map.now
            ≡ Err refusal }
        ensures there { IfOk result (All (IsPartThere (length dir.now.lumps))) }
        ensures fits { IfOk result (FitsFile dir.now.lumps) }
    {
        let parts = list_parts(alloc, scene, weapons, dir, map)?;
        match trim_refusal(dir, &parts) {
            Some(refusal) => Err(TrimFault::Refused(refusal)),
            None => Ok(TrimPlan { parts }),
        }
    }

    /// Appends the trimmed file to an output. Each lump is fetched with the tag `Cache`, written,
    /// and left purgeable. Takes no memory.
    ///
    /// Errors: `ReadFault` only where the shelf's count of faults rose. `WriteFault` only where
    /// that of the output rose. `ZoneFull` where no gap of the zone held the block of a lump that
    /// is written. After any of them a prefix of the file was appended. This project's own.
    pub fn write<S: Shelf, K: Sink>(
        &self,
        dir: &Directory,
        cache: &mut LumpCache,
        shelf: &mut S,
        sink: &mut K,
    ) -> Result<(), TrimWrite>
        requires slots { length dir.now.lumps ≤ cache.old.lumps }
        requires there { All (IsPartThere (length dir.now.lumps)) self.now }
        requires fits { FitsFile dir.now.lumps self.now }
        ensures { WritesLumps (S.view shelf.old) (S.view shelf.new) dir.now cache.old cache.new
            (K.written sink.old) (K.written sink.new) (K.faults sink.old) (K.faults sink.new)
            (IsCopied self.now) (λ bytes. trimmed_file bytes dir.now.lumps self.now) result }
    {
        let parts: &[TrimPart] = &self.parts;
        put_header(parts, dir, sink)?;
        for part in parts {
            let TrimPart::Copy(lump) = *part else {
                continue;
            };
            cache.fetch(shelf, dir, lump, Tag::Cache)?;
            sink.put(live_lump(cache, lump))?;
        }
        put_entries(parts, dir, sink)?;
        Ok(())
    }
}

// The vissprites of a view, kept in drawing order.

ghost use Rattle.std.specs.Prelude.{◌≡◌, [], ◌<◌, ◌≤◌, ℕ, Bool, Some, IfOk, length, vec_len, vec_capacity};
ghost use Rattle.std.specs.List.{AllPass};
ghost use Rattle.std.specs.List.Sorted.{IsSortedBy, IsStableBy};
ghost use Rattle.vissprites.specs.Rules.{LIGHT_LEVELS, MAX_VISSPRITES, SpriteEntry, add_entry, draw_order, insert_last, is_smaller, project, with_entry};
ghost use Rattle.vissprites.specs.Kept.{made_order, IsKept, count_before};
ghost use Rattle.vissprites.specs.Bounds.{lies_within, has_lump_below};

use crate::entries::entry_for;
use crate::sorted::SortedSprites;
use picture_rules::{MAX_VISSPRITES, Placed, Seen, Shape5, SpriteEntry};
use std::alloc::{AllocError, Global};
use std::marker::Model;
use view_frame::View;

/// The vissprites of a view, `MAX_VISSPRITES` at most. Contracts see them in order of making.
///
/// The original: `vissprites`, r_things.c.
#[derive(Drop)]
pub struct Sprites {
    kept: Vec<SpriteEntry>,
}

impl Model for Sprites {
    ghost use Rattle.std.specs.Prelude.{List, ◌≤◌, vec_capacity};
    ghost use Rattle.vissprites.specs.Rules.{MAX_VISSPRITES, SpriteEntry};
    ghost use Rattle.vissprites.specs.Kept.{made_order, IsKept};

    ghost Value = { List SpriteEntry };

    ghost view = { λ s. made_order s.kept.items };

    ghost invariant = { λ s. IsKept s.kept.items × (MAX_VISSPRITES ≤ vec_capacity s.kept) };
}

impl Sprites {
    /// No entries, with room for `MAX_VISSPRITES`.
    ///
    /// Errors: `OutOfMemory`. Nothing else takes memory.
    pub fn new(alloc: Global) -> Result<Sprites, AllocError>
        ensures { IfOk result (λ sprites. sprites ≡ []) }
    {
        let kept = Vec::with_capacity(alloc, MAX_VISSPRITES as usize)?;
        Ok(Sprites { kept })
    }

    /// Takes all entries away.
    ///
    /// The original: `R_ClearSprites`, r_things.c.
    pub fn clear(&mut self)
        ensures { self.new ≡ [] }
    {
        self.kept.clear();
    }

    /// How many entries there are, `MAX_VISSPRITES` at most.
    pub fn count(&self) -> u32
        ensures value { result ≡ length self.now }
        ensures bound { result ≤ MAX_VISSPRITES }
    {
        self.kept.len() as u32
    }

    /// Makes the entry of a thing that `project` saw from this view, by its picture of that
    /// rotation: none where the picture misses the view. Past `MAX_VISSPRITES` entries nothing
    /// changes.
    ///
    /// Needs a light number below 16. Takes no memory.
    ///
    /// The original: the second half of `R_ProjectSprite`, r_things.c.
    pub fn add(&mut self, view: &View<'_>, thing: &Placed, seen: Seen, shape: Shape5)
        requires seen { project view.now thing.now ≡ Some seen }
        requires light { thing.now.light < LIGHT_LEVELS }
        ensures value { self.new ≡ add_entry view.now self.old thing.now seen shape }

        // What the masked pass asks of entries.
        ensures columns { AllPass (lies_within view.now.shape.width) self.old →
            AllPass (lies_within view.now.shape.width) self.new }
        ensures lumps { (n : ℕ) → shape.lump < n → AllPass (has_lump_below n) self.old →
            AllPass (has_lump_below n) self.new }
    {
        let number = self.kept.len() as u16;
        if let Some(entry) = entry_for(view, number, thing, seen, shape) {
            keep(&mut self.kept, entry);
        }
    }

    /// The entries in the order in which they are drawn: by scale, the least first, equal scales
    /// in order of making.
    ///
    /// Takes no memory.
    ///
    /// The original: `R_SortVisSprites`, r_things.c.
    pub fn sorted(&self) -> SortedSprites<'_>
        ensures value { result ≡ draw_order self.now }
        ensures ordered { IsSortedBy is_smaller result }
        ensures stable { IsStableBy is_smaller self.now result }

        // What holds of each entry that was made holds of each that is drawn.
        ensures entries { (test : SpriteEntry → Bool) →
            AllPass test self.now → AllPass test result }
    {
        SortedSprites::new(&self.kept)
    }
}

// Keeps one more entry, where there is room.
fn keep(kept: &mut Vec<SpriteEntry>, entry: SpriteEntry)
    requires kept { IsKept kept.old.items }
    requires capacity { MAX_VISSPRITES ≤ vec_capacity kept.old }
    requires number { entry.number ≡ vec_len kept.old }
    ensures entries { made_order kept.new.items ≡
        with_entry (made_order kept.old.items) (Some entry) }
    ensures kept { IsKept kept.new.items }
    ensures capacity { MAX_VISSPRITES ≤ vec_capacity kept.new }
{
    if kept.len() < MAX_VISSPRITES as usize {
        insert_last(kept, entry);
    }
}

// Puts an entry behind those that are not greater.
fn insert_last(kept: &mut Vec<SpriteEntry>, entry: SpriteEntry)
    requires { vec_len kept.old < vec_capacity kept.old }
    ensures entries { kept.new.items ≡ insert_last entry kept.old.items }
    ensures capacity { vec_capacity kept.old ≤ vec_capacity kept.new }
{
    let index = count_before(kept, &entry);
    match kept.insert(index, entry) {
        Ok(()) => {}
        Err(_) => unreachable!(),
    }
}

// How many entries at the front are not greater than `entry`.
fn count_before(kept: &[SpriteEntry], entry: &SpriteEntry) -> usize
    ensures count { result ≡ count_before entry.now kept.now }
    ensures within { result ≤ length kept.now }
{
    for (index, other) in kept.iter().enumerate() {
        if is_smaller(entry, other) {
            return index;
        }
    }
    kept.len()
}

#[inline(always)]
#[tactic(auto, unfolding(picture_rules::specs::sprite::Order::is_smaller))]
fn is_smaller(entry: &SpriteEntry, other: &SpriteEntry) -> bool
    ensures { result ≡ is_smaller entry.now other.now }
{
    entry.scale < other.scale
}

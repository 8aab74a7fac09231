// Where a slot's block stands: a slot's home is the place of its block, or none.
ghost use Rattle.std.specs.Prelude.{◌≡◌, ◌<◌, ◌≤◌, ◌+◌, ◌/◌, ◌%◌, ℕ, length, vec_len, slice_index, IfOk};
ghost use Rattle.zone_heap.specs.Headers.{with_use, owner_in};
ghost use Rattle.zone_heap.specs.Rules.{word_at};
ghost use Rattle.zone_heap.specs.Homes.{home_index, home_in, IsSet};

use crate::headers::{FREE_OWNER, KIND_UNIT, OWNER_AT, set_free, word_at};
use std::alloc::{AllocError, Global};
use zone_rules::{HEADER_SIZE, SLOT_LIMIT};

/// The home of an empty slot: no block has this place.
pub const NO_HOME: u32 = 0xffff_ffff;

/// Each slot's home: those of the lumps come first.
#[derive(Drop)]
pub struct Homes {
    pub list: Vec<u32>,
    pub lumps: u32,
}

impl Homes {
    /// A home for each slot, all empty.
    pub fn new(alloc: Global, lumps: u32, composites: u32) -> Result<Homes, AllocError>
        requires lumps { lumps < SLOT_LIMIT }
        requires composites { composites < SLOT_LIMIT }
        ensures lumps { IfOk result (λ h. h.lumps ≡ lumps) }
        ensures len { IfOk result (λ h. vec_len h.list ≡ lumps + composites) }
        ensures empty { IfOk result (λ h.
            (k : ℕ) → k < lumps + composites → slice_index h.list.items k ≡ NO_HOME) }
    {
        let slots = lumps as usize + composites as usize;
        let list = vec![in alloc; NO_HOME; slots]?;
        Ok(Homes { list, lumps })
    }

    /// The entry of a slot in the list.
    #[inline(always)]
    pub fn index(&self, kind: u8, number: u32) -> usize
        ensures { result ≡ home_index self.now.lumps kind number }
    {
        if kind == 0 {
            number as usize
        } else {
            self.lumps as usize + number as usize
        }
    }

    /// The home of a slot.
    #[inline(always)]
    pub fn of(&self, kind: u8, number: u32) -> u32
        requires { home_index self.now.lumps kind number < length self.now.list.items }
        ensures { result ≡ home_in self.now kind number }
    {
        self.list[self.index(kind, number)]
    }

    /// Sets the home of the slot of an owner word.
    pub fn set(&mut self, owner: u32, home: u32)
        requires { home_index self.old.lumps (owner / KIND_UNIT) (owner % KIND_UNIT)
            < length self.old.list.items }
        ensures { IsSet self.old self.new (owner_in owner) home }
    {
        let index = self.index((owner / KIND_UNIT) as u8, owner % KIND_UNIT);
        self.list[index] = home;
    }
}

/// Frees the live block at a place, and empties the home of its slot.
pub fn free_at(region: &mut [u8], homes: &mut Homes, at: usize)
    requires fits { at + HEADER_SIZE ≤ length region.old }
    requires slot { home_index homes.old.lumps (word_at region.old (at + OWNER_AT) / KIND_UNIT)
        (word_at region.old (at + OWNER_AT) % KIND_UNIT) < length homes.old.list.items }
    ensures region { region.new ≡ with_use region.old at 0 FREE_OWNER 0 }
    ensures home { IsSet homes.old homes.new (owner_in (word_at region.old (at + OWNER_AT)))
        NO_HOME }
{
    let owner = word_at(region, at + OWNER_AT);
    homes.set(owner, NO_HOME);
    set_free(region, at);
}

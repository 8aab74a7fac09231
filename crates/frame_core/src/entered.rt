// The sectors that a view has entered.
//
// Rules: `specs/Entered`. The original: `validcount` of `sector_t`, r_defs.h.
ghost use Rattle.std.specs.Prelude.{◌≡◌, ◌<◌, ◌≤◌, ℕ, false, true, not, ◌==◌, length, IfOk};
ghost use Rattle.frame_core.specs.declared.entered.TheConstants.{MOST_SECTORS};
ghost use Rattle.frame_core.specs.Entered.{has_entered};

use std::alloc::{AllocError, Global};
use std::marker::Model;

/// The most sectors of a level.
///
/// The original: the 16 bits of a side's sector, doomdata.h.
pub const MOST_SECTORS: usize = 65536;

/// A mark for each sector that there may be: whether a leaf of it was entered in this view.
/// Contracts see the marks.
///
/// The original: `validcount` of `sector_t`, r_defs.h.
#[derive(Drop)]
pub(crate) struct Entered {
    marks: Vec<bool>,
}

impl Model for Entered {
    ghost use Rattle.std.specs.Prelude.{◌≡◌, Bool, List, length};
    ghost use Rattle.frame_core.specs.declared.entered.TheConstants.{MOST_SECTORS};

    ghost Value = { List Bool };

    ghost view = { λ e. e.marks.items };

    ghost invariant = { λ e. length e.marks.items ≡ MOST_SECTORS };
}

impl Entered {
    /// No sector is entered. Takes all the memory of the marks, 65536 bytes.
    ///
    /// Errors: `AllocError`, out of memory.
    pub fn new(alloc: Global) -> Result<Entered, AllocError>
        ensures { IfOk result (λ entered. (sector : ℕ) → has_entered entered sector ≡ false) }
    {
        Ok(Entered {
            marks: unset_marks(alloc, MOST_SECTORS)?,
        })
    }

    /// No sector below `sectors` is entered.
    ///
    /// The original: `validcount++`, `R_SetupFrame`, r_main.c.
    pub fn clear(&mut self, sectors: usize)
        requires { sectors ≤ MOST_SECTORS }
        ensures below { (sector : ℕ) → sector < sectors → has_entered self.new sector ≡ false }
        ensures above { (sector : ℕ) → sectors ≤ sector →
            has_entered self.new sector ≡ has_entered self.old sector }
    {
        unset_first(&mut self.marks, sectors);
    }

    /// Whether a sector is entered.
    pub fn has(&self, sector: u16) -> bool
        ensures { result ≡ has_entered self.now sector }
    {
        self.marks[sector as usize]
    }

    /// Enters a sector, and says whether it was not entered before.
    ///
    /// The original: the first lines of `R_AddSprites`, r_things.c.
    pub fn enter(&mut self, sector: u16) -> bool
        ensures value { result ≡ not (has_entered self.old sector) }
        ensures own { has_entered self.new sector ≡ true }
        ensures others { (other : ℕ) → (sector == other) ≡ false →
            has_entered self.new other ≡ has_entered self.old other }
    {
        let is_new = !self.marks[sector as usize];
        self.marks[sector as usize] = true;
        is_new
    }
}

// So many marks, none of which is set.
fn unset_marks(alloc: Global, count: usize) -> Result<Vec<bool>, AllocError>
    ensures count { IfOk result (λ marks. length marks.items ≡ count) }
    ensures unset { IfOk result (λ marks. (sector : ℕ) → has_entered marks.items sector ≡ false) }
{
    vec![in alloc; false; count]
}

// Takes the first `count` marks away.
fn unset_first(marks: &mut [bool], count: usize)
    requires { count ≤ length marks.old }
    ensures length { length marks.new ≡ length marks.old }
    ensures below { (sector : ℕ) → sector < count → has_entered marks.new sector ≡ false }
    ensures above { (sector : ℕ) → count ≤ sector →
        has_entered marks.new sector ≡ has_entered marks.old sector }
{
    marks[..count].fill(false);
}

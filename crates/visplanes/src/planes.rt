// The planes of a view.
ghost use Rattle.std.specs.Prelude.{◌≡◌, ℕ, ◌+◌, ◌<◌, ◌≤◌, ◌↔◌, true, Some, [], None, length, position, IfOk, IfErr, IfSome, IsSome, IsErr, OnOk, OnErr};
ghost use Rattle.visplanes.specs.Rules.{AreWide, FRAME_HEIGHT, FRAME_WIDTH, MOST_VISPLANES, add, check, column, find, holds, mark, number_of, row_runs, same_key};
ghost use Rattle.visplanes.specs.Full.{ChoosesPlane};
ghost use Rattle.visplanes.specs.Planes.{PlanesView, with_planes, plane_at, IsFirst};

use crate::columns::Visplane;
use crate::keys::same_key;
use crate::row_runs::RowRuns;
use picture_rules::{Flat4, MOST_VISPLANES, PlaneKey};
use std::alloc::{AllocError, Global};
use std::marker::Model;
use thiserror::Error;

/// The number of a plane among the planes of a view, counted from 0 in order of making.
#[derive(Clone, Copy, Debug, PartialEq, Eq)]
pub struct PlaneNo(pub u16);

/// A new plane is wanted and there is no room for it: `count` is the number of planes with it.
#[derive(Clone, Copy, Debug, PartialEq, Eq, Error)]
#[error("the view has {count} visplanes, one more than there is room for")]
pub struct PlanesFull {
    pub count: u32,
}

/// The planes of a view, in order of making. Contracts see their list, and the room that `new`
/// took.
///
/// The original: `visplanes` and `lastvisplane`, r_plane.c.
#[derive(Drop)]
pub struct Planes {
    planes: Vec<Visplane>,
    count: usize,
    // The planes that `find` gave last since `clear`, the later one first, and 0 for each that it
    // did not give yet. Each is the first of its key where there is such a plane.
    recent: usize,
    older: usize,
}

impl Model for Planes {
    ghost use Rattle.std.specs.Prelude.{take, length, ◌≤◌};
    ghost use Rattle.visplanes.specs.Rules.{AreWide, MOST_VISPLANES};
    ghost use Rattle.visplanes.specs.Planes.{PlanesView, IsFirst};

    ghost Value = { PlanesView };

    ghost view = { λ p. record {
      planes = take p.count p.planes.items;
      room = length p.planes.items;
    } };

    ghost invariant = { λ p. (p.count ≤ length p.planes.items)
        × (length p.planes.items ≤ MOST_VISPLANES) × AreWide p.planes.items
        × IsFirst (take p.count p.planes.items) p.recent
        × IsFirst (take p.count p.planes.items) p.older };
}

impl Planes {
    /// No plane, and room for `room` of them, at most 1024.
    ///
    /// Takes all the memory of the planes: a key and 640 bytes for each.
    ///
    /// Errors: `AllocError`, out of memory.
    ///
    /// The original: `visplanes`, r_plane.c, with room for 128. This project's own: the room.
    pub fn new(alloc: Global, room: u32) -> Result<Planes, AllocError>
        requires { room ≤ MOST_VISPLANES }
        ensures { IfOk result (λ planes. planes ≡ record { planes = []; room = room }) }
    {
        let planes = blank_planes(alloc, room as usize)?;
        Ok(Planes {
            planes,
            count: 0,
            recent: 0,
            older: 0,
        })
    }

    /// How many planes there are.
    pub fn count(&self) -> u32
        ensures value { result ≡ length self.now.planes }
        ensures room { result ≤ self.now.room }
        ensures most { self.now.room ≤ MOST_VISPLANES }
        ensures wide { AreWide self.now.planes }
    {
        self.count as u32
    }

    /// Leaves no plane. The room stays. Touches none of the planes.
    ///
    /// The original: `R_ClearPlanes`, r_plane.c.
    pub fn clear(&mut self)
        ensures { self.new ≡ with_planes [] self.old }
    {
        self.count = 0;
        self.recent = 0;
        self.older = 0;
    }

    /// The first plane of equal key, or else a new one behind the others with no column marked.
    ///
    /// `key.height` is in map units, 16.16 fixed point. Linear in the planes there are; the two
    /// planes that it gave last are looked at first. Takes no memory.
    ///
    /// Errors: `PlanesFull` exactly where a new plane is wanted and the room is full; the count is
    /// the room and one. Nothing changes then.
    ///
    /// The original: `R_FindPlane`, r_plane.c, which ends the program there.
    pub fn find(&mut self, key: PlaneKey) -> Result<PlaneNo, PlanesFull>
        ensures ok { OnOk result
            (self.new ≡ with_planes (find self.old.planes key).planes self.old) }
        ensures number { IfOk result (λ plane. plane.0 ≡ (find self.old.planes key).number) }
        ensures within { IfOk result (λ plane. plane.0 < length self.new.planes) }
        ensures full { IsErr result ↔ (self.old.room < length (find self.old.planes key).planes) }
        ensures count { IfErr result (λ e. e.count ≡ self.old.room + 1) }
        ensures err { OnErr result (self.new ≡ self.old) }
    {
        if let Some(number) = self.recent_of(key) {
            return Ok(PlaneNo(number as u16));
        }
        let plane = self.search_or_add(key)?;
        self.remember(plane);
        Ok(plane)
    }

    /// The plane itself where none of its columns `first` to `last` is marked, else a new plane of
    /// its key behind the others, with no column marked.
    ///
    /// Columns are 0 to 319. Linear in the columns. Takes no memory.
    ///
    /// Errors: `PlanesFull` exactly where a new plane is wanted and the room is full; the count is
    /// the room and one. Nothing changes then.
    ///
    /// The original: `R_CheckPlane`, r_plane.c.
    pub fn check(&mut self, plane: PlaneNo, first: u16, last: u16) -> Result<PlaneNo, PlanesFull>
        requires plane { plane.0 < length self.old.planes }
        requires ordered { first ≤ last }
        requires within { last < FRAME_WIDTH }
        ensures ok { OnOk result
            (self.new ≡ with_planes (check self.old.planes plane.0 first last).planes self.old) }
        ensures number { IfOk result (λ checked.
            checked.0 ≡ (check self.old.planes plane.0 first last).number) }
        ensures within { IfOk result (λ checked. checked.0 < length self.new.planes) }
        ensures full { IsErr result ↔
            (self.old.room < length (check self.old.planes plane.0 first last).planes) }
        ensures count { IfErr result (λ e. e.count ≡ self.old.room + 1) }
        ensures err { OnErr result (self.new ≡ self.old) }
    {
        let checked = &self.planes[plane.0 as usize];
        if checked.is_free(first, last) {
            return Ok(plane);
        }
        let key = checked.key();
        self.add(key)
    }

    /// Sets the run of column `x`, 0 to 319, to the rows `top` to `bottom`, 0 to 199. No other run
    /// and no other plane changes.
    ///
    /// The original: `ceilingplane->top[rw_x] = top` and its kin, `R_RenderSegLoop`, r_segs.c.
    #[inline(always)]
    pub fn mark(&mut self, plane: PlaneNo, x: u16, top: u8, bottom: u8)
        requires plane { plane.0 < length self.old.planes }
        requires column { x < FRAME_WIDTH }
        requires ordered { top ≤ bottom }
        requires row { bottom < FRAME_HEIGHT }
        ensures run { self.new ≡
            with_planes (mark self.old.planes plane.0 x (top, bottom)) self.old }
        ensures count { length self.new.planes ≡ length self.old.planes }
    {
        self.planes[plane.0 as usize].mark(x, top, bottom);
    }

    /// The run of column `x`, 0 to 319: its first and its last row, or None where it has none.
    pub fn column(&self, plane: PlaneNo, x: u16) -> Option<(u8, u8)>
        requires plane { plane.0 < length self.now.planes }
        requires column { x < FRAME_WIDTH }
        ensures { result ≡ column (plane_at self.now.planes plane.0) x }
    {
        self.visplane(plane).column(x)
    }

    /// Whether no column of a plane has a run. Looks at no column.
    ///
    /// The original: `pl->minx > pl->maxx`, `R_DrawPlanes`, r_plane.c.
    pub fn is_empty(&self, plane: PlaneNo) -> bool
        requires { plane.0 < length self.now.planes }
        ensures { (result ≡ true) ↔
            ((x : ℕ) → column (plane_at self.now.planes plane.0) x ≡ None) }
    {
        self.visplane(plane).is_empty()
    }

    /// The least and the greatest column of a plane that has a run, 0 to 319; 320 and 0 where none
    /// has one.
    ///
    /// The original: `minx` and `maxx` of `visplane_t`, r_defs.h.
    pub fn marked(&self, plane: PlaneNo) -> (u16, u16)
        requires { plane.0 < length self.now.planes }
        ensures least { result.0 < FRAME_WIDTH →
            IsSome (column (plane_at self.now.planes plane.0) result.0) }
        ensures greatest { result.0 < FRAME_WIDTH →
            IsSome (column (plane_at self.now.planes plane.0) result.1) }
        ensures none { result.0 ≡ FRAME_WIDTH → result.1 ≡ 0 }
        ensures before { (x : ℕ) → x < result.0 →
            column (plane_at self.now.planes plane.0) x ≡ None }
        ensures behind { (x : ℕ) → result.1 < x →
            column (plane_at self.now.planes plane.0) x ≡ None }
        ensures first { result.0 ≤ FRAME_WIDTH }
        ensures last { result.1 < FRAME_WIDTH }
    {
        self.visplane(plane).marked()
    }

    /// The key of a plane. All that its runs hold lies in a frame.
    pub fn key(&self, plane: PlaneNo) -> PlaneKey
        requires { plane.0 < length self.now.planes }
        ensures value { result ≡ (plane_at self.now.planes plane.0).key }
        ensures frame { (x y : ℕ) → holds (plane_at self.now.planes plane.0) y x ≡ true →
            (x < FRAME_WIDTH) × (y < FRAME_HEIGHT) }
    {
        self.visplane(plane).key()
    }

    /// The maximal runs of columns whose rows hold `row`, 0 to 199, from left to right, each by its
    /// first and its last column.
    ///
    /// This project's own: the original draws each run where it finds it.
    pub fn runs(&self, plane: PlaneNo, row: u8) -> RowRuns<'_>
        requires plane { plane.0 < length self.now.planes }
        requires row { row < FRAME_HEIGHT }
        ensures { result ≡ row_runs (plane_at self.now.planes plane.0) row }
    {
        RowRuns::new(self.visplane(plane), row)
    }

    // The plane of a number.
    pub(crate) fn visplane(&self, plane: PlaneNo) -> &Visplane
        requires { plane.0 < length self.now.planes }
        ensures { result.now ≡ plane_at self.now.planes plane.0 }
    {
        &self.planes[plane.0 as usize]
    }

    // The number of the first plane of equal key, where it is one of the two that `find` gave last.
    fn recent_of(&self, key: PlaneKey) -> Option<usize>
        ensures value { IfSome result (λ number. number_of self.now.planes key ≡ Some number) }
        ensures small { IfSome result (λ number. number < MOST_VISPLANES) }
        ensures room { length self.now.planes ≤ self.now.room }
    {
        if self.has_key(self.recent, key) {
            return Some(self.recent);
        }
        if self.has_key(self.older, key) {
            return Some(self.older);
        }
        None
    }

    // Whether the plane of that number is there and has that key.
    fn has_key(&self, number: usize, key: PlaneKey) -> bool
        ensures within { result ≡ true → number < length self.now.planes }
        ensures key { result ≡ true → same_key (plane_at self.now.planes number).key key ≡ true }
    {
        number < self.count && same_key(self.planes[number].key(), key)
    }

    // Lets a plane that `find` gives be the one that it gave last.
    fn remember(&mut self, plane: PlaneNo)
        requires { IsFirst self.old.planes plane.0 }
        ensures { self.new ≡ self.old }
    {
        self.older = self.recent;
        self.recent = plane.0 as usize;
    }

    // The first plane of equal key, or else a new one, whatever `find` gave last.
    fn search_or_add(&mut self, key: PlaneKey) -> Result<PlaneNo, PlanesFull>
        ensures { ChoosesPlane (find self.old.planes key) self.old self.new result }
    {
        match self.number_of(key) {
            Some(number) => Ok(PlaneNo(number as u16)),
            None => self.add(key),
        }
    }

    // The number of the first plane of equal key.
    #[tactic(auto, unfolding(picture_rules::specs::plane::Planes::number_of))]
    fn number_of(&self, key: PlaneKey) -> Option<usize>
        ensures value { result ≡ number_of self.now.planes key }
        ensures small { IfSome result (λ number. number < MOST_VISPLANES) }
        ensures room { length self.now.planes ≤ self.now.room }
    {
        self.planes[..self.count]
            .iter()
            .position(|plane| same_key(plane.key(), key))
    }

    // A new plane behind the others.
    #[tactic(auto, unfolding(picture_rules::specs::plane::Planes::add))]
    fn add(&mut self, key: PlaneKey) -> Result<PlaneNo, PlanesFull>
        ensures { ChoosesPlane (add self.old.planes key) self.old self.new result }
    {
        if self.count == self.planes.len() {
            let count = self.planes.len() as u32 + 1;
            return Err(PlanesFull { count });
        }
        let number = PlaneNo(self.count as u16);
        self.planes[self.count].reset(key);
        self.count += 1;
        Ok(number)
    }
}

// `room` planes that nothing has marked.
fn blank_planes(alloc: Global, room: usize) -> Result<Vec<Visplane>, AllocError>
    ensures room { IfOk result (λ planes. length planes.items ≡ room) }
    ensures wide { IfOk result (λ planes. AreWide planes.items) }
{
    let key = PlaneKey {
        height: 0,
        flat: Flat4::Sky,
        light: 0,
    };
    let mut planes = Vec::with_capacity(alloc, room)?;
    for _ in 0..room {
        planes.push(Visplane::new(key))?;
    }
    Ok(planes)
}

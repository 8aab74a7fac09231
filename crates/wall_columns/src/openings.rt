// The openings of a view: this crate's Saved.
ghost use Rattle.std.specs.Prelude.{◌≡◌, ◌<◌, ◌≤◌, ◌+◌, ◌-◌, ◌↔◌, [], IfOk, IfErr, IfSome, IsErr, OnOk, OnErr, length, take};
ghost use Rattle.wall_columns.specs.Rules.{FRAME_WIDTH, MOST_OPENINGS, WallFacts, listed_from, openings_count, texture_column};
ghost use Rattle.wall_edges.specs.Fragments.{fragment_of};
ghost use Rattle.wall_columns.specs.Saved.{with_list, with_saved};

use picture_rules::{LimitKind, OverLimit};
use std::alloc::{AllocError, Global};
use std::marker::Model;
use view_frame::View;
use wall_edges::Fragment;

/// The openings of a view, in the order in which they are saved. Contracts see `OpeningsView`.
///
/// The original: `openings` and `lastopening`, r_plane.c.
#[derive(Drop)]
pub struct Openings {
    list: Vec<i32>,
    used: u32,
}

impl Model for Openings {
    ghost use Rattle.std.specs.Prelude.{◌≤◌, take, length};
    ghost use Rattle.picture_rules.specs.declared.wall.TheConstants.{MOST_OPENINGS};
    ghost use Rattle.wall_columns.specs.Saved.{OpeningsView};

    ghost Value = { OpeningsView };

    ghost view = { λ o. record { saved = take o.used o.list.items; room = length o.list.items } };

    ghost invariant = { λ o. (o.used ≤ length o.list.items)
        × (length o.list.items ≤ MOST_OPENINGS) };
}

impl Openings {
    /// No opening, and room for `room` of them. Takes their memory.
    pub fn new(alloc: Global, room: u32) -> Result<Openings, AllocError>
        requires { room ≤ MOST_OPENINGS }
        ensures { IfOk result (λ openings. openings ≡ record { saved = []; room = room }) }
    {
        Ok(Openings {
            list: vec![in alloc; 0; room as usize]?,
            used: 0,
        })
    }

    /// Leaves no opening. The room stays.
    pub fn clear(&mut self)
        ensures { self.new ≡ record self.old { saved = [] } }
    {
        self.used = 0;
    }

    /// How many there are.
    pub fn count(&self) -> u32
        ensures value { result ≡ length self.now.saved }
        ensures room { length self.now.saved ≤ self.now.room }
        ensures most { self.now.room ≤ MOST_OPENINGS }
    {
        self.used
    }

    /// The openings.
    pub fn list(&self) -> &[i32]
        ensures value { result.now ≡ self.now.saved }
        ensures room { length self.now.saved ≤ self.now.room }
        ensures most { self.now.room ≤ MOST_OPENINGS }
    {
        &self.list[..self.used as usize]
    }

    /// Takes openings up to number `end`, which holds those that there are; what the new ones hold
    /// is not told.
    ///
    /// Errors: that count, exactly where `end` passes the room. Nothing changes then.
    #[tactic(auto, unfolding(picture_rules::specs::Counts::openings_count))]
    pub fn extend(&mut self, end: u32) -> Result<(), OverLimit>
        requires { length self.old.saved ≤ end }
        ensures full { IsErr result ↔ (self.old.room < end) }
        ensures over { IfErr result (λ over. over ≡ openings_count end) }
        ensures length { OnOk result (length self.new.saved ≡ end) }
        ensures front { OnOk result
            (take (length self.old.saved) self.new.saved ≡ self.old.saved) }
        ensures room { self.new.room ≡ self.old.room }
        ensures err { OnErr result (self.new ≡ self.old) }
    {
        if end as usize > self.list.len() {
            return Err(OverLimit {
                kind: LimitKind::Openings,
                count: end,
            });
        }
        self.used = end;
        Ok(())
    }

    /// Saves the clips of a fragment's columns at a place, where they are saved.
    #[tactic(auto, unfolding(crate::specs::Saved::with_saved))]
    pub fn save_clips(&mut self, place: Option<u32>, clips: &[i32])
        requires { IfSome place (λ place. place + length clips.now ≤ length self.old.saved) }
        ensures value { self.new.saved ≡ with_saved self.old.saved place clips.now }
        ensures length { length self.new.saved ≡ length self.old.saved }
        ensures room { self.new.room ≡ self.old.room }
    {
        if let Some(place) = place {
            put_list(&mut self.list, place as usize, clips);
        }
    }

    /// Saves the texture columns of a fragment in columns `first` to `last` at a place, where they
    /// are saved.
    #[tactic(auto, unfolding(crate::specs::Saved::with_saved))]
    pub fn save_columns(
        &mut self,
        place: Option<u32>,
        view: &View<'_>,
        fragment: &Fragment,
        first: u16,
        last: u16,
    )
        requires ordered { first ≤ last }
        requires within { last < FRAME_WIDTH }
        requires seen { last < view.now.shape.width }
        requires place { IfSome place (λ place. place + (last + 1 - first)
            ≤ length self.old.saved) }
        ensures value { (facts : WallFacts) → fragment.now ≡ fragment_of view.now facts first last →
            self.new.saved ≡ with_saved self.old.saved place
            (listed_from (texture_column view.now facts) first last) }
        ensures length { length self.new.saved ≡ length self.old.saved }
        ensures room { self.new.room ≡ self.old.room }
    {
        if let Some(place) = place {
            put_columns(&mut self.list, place as usize, view, fragment, first, last);
        }
    }
}

// Writes a list over others from a place on.
fn put_list(xs: &mut [i32], place: usize, list: &[i32])
    requires { place + length list.now ≤ length xs.old }
    ensures value { xs.new ≡ with_list xs.old place list.now }
    ensures length { length xs.new ≡ length xs.old }
{
    xs[place..place + list.len()].copy_from_slice(list);
}

// Writes the texture columns of a fragment from a place on.
fn put_columns(
    xs: &mut [i32],
    place: usize,
    view: &View<'_>,
    fragment: &Fragment,
    first: u16,
    last: u16,
)
    requires ordered { first ≤ last }
    requires within { last < FRAME_WIDTH }
    requires seen { last < view.now.shape.width }
    requires room { place + (last + 1 - first) ≤ length xs.old }
    ensures value { (facts : WallFacts) → fragment.now ≡ fragment_of view.now facts first last →
        xs.new ≡ with_list xs.old place
        (listed_from (texture_column view.now facts) first last) }
    ensures length { length xs.new ≡ length xs.old }
{
    for x in first..last + 1 {
        xs[place + (x - first) as usize] = fragment.column_at(view, x);
    }
}

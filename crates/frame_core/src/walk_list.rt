// What is listed of a view while it is walked.
//
// Rules: `specs/ViewLists`; `picture_rules`, Lists. This project's own.
ghost use Rattle.std.specs.Prelude.{◌≡◌, ◌≤◌, ◌<◌, ◌+◌, ◌++◌, ◌-◌, ◌∷◌, [], ℕ, IfOk, cond, length, nat_lt, replicate, vec_len, vec_capacity};
ghost use Rattle.frame_core.specs.Rules.{MAX_DRAWSEGS, MOST_VISPLANES};
ghost use Rattle.frame_core.specs.ViewLists.{list_fragment, nothing_listed, with_fragment, with_makers, with_sprite};

use picture_rules::{
    ListedFragment, ListedSprite, MAX_DRAWSEGS, MAX_VISSPRITES, MOST_VISPLANES, PlaneMaker,
};
use std::alloc::{AllocError, Global};
use std::marker::Model;

/// The drawn fragments and the kept vissprites of a view as they come, and what made each plane;
/// and how many fragments and vissprites there would be without a limit.
pub(crate) struct WalkList {
    fragments: Vec<ListedFragment>,
    makers: Vec<PlaneMaker>,
    sprites: Vec<ListedSprite>,
    all_fragments: u64,
    all_sprites: u64,
}

// By hand, so that a drop of one is one call.
impl Drop for WalkList {
    fn drop(self) {
        let WalkList {
            fragments: _,
            makers: _,
            sprites: _,
            all_fragments: _,
            all_sprites: _,
        } = self;
    }
}

impl Model for WalkList {
    ghost use Rattle.std.specs.Prelude.{◌≤◌, length, vec_capacity};
    ghost use Rattle.frame_core.specs.Rules.{MAX_DRAWSEGS, MAX_VISSPRITES, MOST_VISPLANES};
    ghost use Rattle.frame_core.specs.ViewLists.{WalkListValue};

    ghost Value = { WalkListValue };

    ghost view = { λ w. record {
      fragments = w.fragments.items;
      makers = w.makers.items;
      sprites = w.sprites.items;
      all_fragments = w.all_fragments;
      all_sprites = w.all_sprites;
    } };

    ghost invariant = { λ w. (length w.fragments.items ≤ MAX_DRAWSEGS)
        × (MAX_DRAWSEGS ≤ vec_capacity w.fragments)
        × (MOST_VISPLANES ≤ vec_capacity w.makers)
        × (MAX_VISSPRITES ≤ vec_capacity w.sprites) };
}

impl WalkList {
    /// Nothing is listed. Takes all the memory of the list.
    ///
    /// Errors: `AllocError`, out of memory.
    pub fn new(alloc: Global) -> Result<WalkList, AllocError>
        ensures { IfOk result (λ list. list ≡ nothing_listed) }
    {
        Ok(WalkList {
            fragments: Vec::with_capacity(alloc, MAX_DRAWSEGS as usize)?,
            makers: Vec::with_capacity(alloc, MOST_VISPLANES as usize)?,
            sprites: Vec::with_capacity(alloc, MAX_VISSPRITES as usize)?,
            all_fragments: 0,
            all_sprites: 0,
        })
    }

    /// Takes all that is listed away.
    pub fn clear(&mut self)
        ensures { self.new ≡ nothing_listed }
    {
        self.fragments.clear();
        self.makers.clear();
        self.sprites.clear();
        self.all_fragments = 0;
        self.all_sprites = 0;
    }

    /// The drawn fragments.
    pub fn fragments(&self) -> &[ListedFragment]
        ensures { result.now ≡ self.now.fragments }
    {
        &self.fragments
    }

    /// What made each plane.
    pub fn makers(&self) -> &[PlaneMaker]
        ensures { result.now ≡ self.now.makers }
    {
        &self.makers
    }

    /// The kept vissprites.
    pub fn sprites(&self) -> &[ListedSprite]
        ensures { result.now ≡ self.now.sprites }
    {
        &self.sprites
    }

    /// How many fragments are seen, also past the most that are drawn.
    pub fn all_fragments(&self) -> u64
        ensures { result ≡ self.now.all_fragments }
    {
        self.all_fragments
    }

    /// How many vissprites the things would make, also past the most that are kept.
    pub fn all_sprites(&self) -> u64
        ensures { result ≡ self.now.all_sprites }
    {
        self.all_sprites
    }

    /// There are so many planes now: those that are new were made by `maker`. Takes no memory.
    #[tactic(auto, unfolding(crate::specs::ViewLists::with_makers))]
    pub fn add_makers(&mut self, maker: PlaneMaker, planes: u32)
        requires { planes ≤ MOST_VISPLANES }
        ensures { self.new ≡ with_makers self.old maker planes }
    {
        push_makers(&mut self.makers, maker, planes as usize);
    }

    /// A fragment, after which there are so many planes. Past 256 it only counts. Takes no memory.
    #[tactic(auto, unfolding(crate::specs::ViewLists::list_fragment))]
    pub fn add_fragment(&mut self, fragment: ListedFragment, planes: u32)
        requires { planes ≤ MOST_VISPLANES }
        ensures { self.new ≡ list_fragment fragment planes self.old }
    {
        let number = self.fragments.len() as u16;
        self.add_makers(PlaneMaker::Fragment(number), planes);
        self.keep_fragment(fragment);
    }

    // Counts a fragment, and lists it while there is room.
    #[tactic(auto, unfolding(crate::specs::ViewLists::with_fragment))]
    fn keep_fragment(&mut self, fragment: ListedFragment)
        ensures { self.new ≡ with_fragment self.old fragment }
    {
        self.all_fragments = self.all_fragments.saturating_add(1);
        push_below(&mut self.fragments, fragment, MAX_DRAWSEGS as usize);
    }

    /// The vissprite of a thing, if it makes one. Past 128 it only counts. Takes no memory.
    #[tactic(auto, unfolding(crate::specs::ViewLists::with_sprite))]
    pub fn add_sprite(&mut self, sprite: Option<ListedSprite>)
        ensures { self.new ≡ with_sprite self.old sprite }
    {
        match sprite {
            Some(sprite) => self.keep_sprite(sprite),
            None => {}
        }
    }

    // Counts a vissprite, and lists it while there is room.
    #[tactic(auto, unfolding(crate::specs::ViewLists::with_sprite))]
    fn keep_sprite(&mut self, sprite: ListedSprite)
        ensures { self.new ≡ with_sprite self.old (Some sprite) }
    {
        self.all_sprites = self.all_sprites.saturating_add(1);
        push_below(&mut self.sprites, sprite, MAX_VISSPRITES as usize);
    }
}

// The same maker for each plane up to so many.
fn push_makers(makers: &mut Vec<PlaneMaker>, maker: PlaneMaker, planes: usize)
    requires { planes ≤ vec_capacity makers.old }
    ensures items { makers.new.items
        ≡ makers.old.items ++ replicate (planes - length makers.old.items) maker }
    ensures capacity { vec_capacity makers.old ≤ vec_capacity makers.new }
{
    if makers.len() < planes {
        match makers.resize(planes, maker) {
            Ok(()) => {}
            Err(_) => unreachable!(),
        }
    }
}

// One item more, while there are fewer than `most`.
fn push_below<T: Copy>(items: &mut Vec<T>, item: T, most: usize)
    requires { most ≤ vec_capacity items.old }
    ensures items { items.new.items ≡ cond (nat_lt (length items.old.items) most)
        (items.old.items ++ item ∷ []) items.old.items }
    ensures capacity { vec_capacity items.old ≤ vec_capacity items.new }
{
    if items.len() < most {
        push_within(items, item);
    }
}

/// One item more, within the capacity.
pub(crate) fn push_within<T: Copy>(items: &mut Vec<T>, item: T)
    requires { vec_len items.old < vec_capacity items.old }
    ensures items { items.new.items ≡ items.old.items ++ item ∷ [] }
    ensures count { vec_len items.new ≡ vec_len items.old + 1 }
    ensures capacity { vec_capacity items.old ≤ vec_capacity items.new }
{
    match items.push(item) {
        Ok(()) => {}
        Err(_) => unreachable!(),
    }
}

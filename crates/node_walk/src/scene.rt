// What is walked: a level, with the surfaces and middle textures that tell what its segs hide.
ghost use Rattle.std.specs.Prelude.{◌≡◌, ℕ, ◌+◌, ◌<◌, ◌≤◌, true, length, slice_index, Some};
ghost use Rattle.node_walk.specs.Rules.{MAX_RECORDS, child_on, is_within, leaf_at, node_at, seg_at, surface_at};
ghost use Rattle.node_walk.specs.Lists.{walk_lists, IsThere, IsSegOf};

use level_rules::{Child, Leaf, MAX_DEPTH, Node, Seg, Surface};
use map_lumps::Level;
use std::marker::Model;

/// A level, a surface for each of its sectors, and for each of its sides the number of the middle
/// texture, 0 for none.
#[derive(Clone, Copy)]
pub struct WalkScene<'a> {
    pub level: &'a Level,
    pub surfaces: &'a [Surface],
    pub middles: &'a [u16],
}

/// The lists that the walk reads, in which each number names what is there.
#[derive(Drop)]
pub(crate) struct Lists<'a> {
    segs: &'a [Seg],
    leaves: &'a [Leaf],
    nodes: &'a [Node],
    root: Child,
    surfaces: &'a [Surface],
    middles: &'a [u16],
}

impl<'a> Model for Lists<'a> {
    ghost use Rattle.level_rules.specs.Levels.{LevelLists};
    ghost use Rattle.node_walk.specs.Lists.{lists_value, AreWhole};

    ghost Value = { LevelLists };

    ghost view = { lists_value };

    ghost invariant = { λ l. AreWhole (lists_value l) };
}

impl<'a> Lists<'a> {
    /// The lists of a scene.
    pub fn new(scene: &WalkScene<'a>) -> Lists<'a>
        requires surfaces { length scene.now.surfaces.now ≡ length scene.now.level.now.sectors }
        requires middles { length scene.now.middles.now ≡ length scene.now.level.now.sides }
        ensures { result ≡ walk_lists scene.now.level.now scene.now.surfaces.now
            scene.now.middles.now }
    {
        Lists {
            segs: scene.level.segs(),
            leaves: scene.level.leaves(),
            nodes: scene.level.nodes(),
            root: scene.level.root(),
            surfaces: scene.surfaces,
            middles: scene.middles,
        }
    }

    /// The root of the nodes.
    pub fn root(&self) -> Child
        ensures value { result ≡ self.now.root }
        ensures there { IsThere self.now result }
        ensures within { is_within self.now.nodes MAX_DEPTH result ≡ true }
    {
        self.root
    }

    /// A node by its number.
    #[tactic(auto, unfolding(level_rules::specs::Levels::node_at))]
    pub fn node(&self, n: u16) -> &'a Node
        requires { n < length self.now.nodes }
        ensures value { node_at self.now n ≡ Some result.now }
        ensures children { (side : ℕ) → side ≤ 1 → IsThere self.now (child_on result.now side) }
    {
        &self.nodes[n as usize]
    }

    /// A leaf by its number.
    #[tactic(auto, unfolding(level_rules::specs::Levels::leaf_at))]
    pub fn leaf(&self, n: u16) -> &'a Leaf
        requires { n < length self.now.leaves }
        ensures value { result.now ≡ leaf_at self.now n }
        ensures count { length self.now.segs ≤ MAX_RECORDS }
        ensures segs { result.now.first + result.now.count ≤ length self.now.segs }
        ensures sector { result.now.sector < length self.now.surfaces }
    {
        &self.leaves[n as usize]
    }

    /// A seg by its number.
    #[tactic(auto, unfolding(level_rules::specs::Levels::seg_at))]
    pub fn seg(&self, n: u16) -> &'a Seg
        requires { n < length self.now.segs }
        ensures value { result.now ≡ seg_at self.now n }
        ensures whole { IsSegOf self.now result.now }
    {
        &self.segs[n as usize]
    }

    /// The surface of a sector by its number.
    #[tactic(auto, unfolding(level_rules::specs::Levels::surface_at))]
    pub fn surface(&self, n: u16) -> &'a Surface
        requires { n < length self.now.surfaces }
        ensures { result.now ≡ surface_at self.now n }
    {
        &self.surfaces[n as usize]
    }

    /// The middle texture of a side by its number.
    pub fn middle(&self, n: u16) -> u16
        requires { n < length self.now.middles }
        ensures { result ≡ slice_index self.now.middles n }
    {
        self.middles[n as usize]
    }
}

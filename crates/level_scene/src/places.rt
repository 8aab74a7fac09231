// Where the things of a level stand.
//
// Rules: `scene_rules`, Places. The original: `P_SpawnMapThing`, p_mobj.c; `P_SetThingPosition`,
// p_maputl.c; `R_PointInSubsector`, r_main.c.
ghost use Rattle.std.specs.Prelude.{◌≡◌, ◌<◌, ◌≤◌, ◌+◌, ◌-◌, ◌++◌, ℕ, true, [], length, map, replicate, slice_get, Some, All, IfOk, OnOk};
ghost use Rattle.level_scene.specs.Rules.{IsChildIn, IsNodeIn, MAX_DEPTH, Placed, child_on, first_shadow, is_in_skill, is_shadow, is_within, leaf_from, need_of, placed_if, placed_in, placed_row, placed_thing, placed_things, sector_at, skill_option, thing_angle, thing_height, things_of};
ghost use Rattle.scene_rules.specs.Words.{Node as NodeChild};
ghost use Rattle.level_scene.specs.Groups.{AreGroupsOf, IsIn};

use art_rules::{ANG45, FRACTION_BITS, Need, OutOfMemory};
use csv_tables::{ThingRow, ThingTable};
use map_lumps::Level;
use scene_rules::{
    Child, EASY, EIGHTH_DEGREES, HARD, LAST_EASY, MAX_DEPTH, NORMAL, NORMAL_SKILL, NOT_ALONE, Node,
    Placed, PlacedThing, Sector, Thing, partition_of,
};
use std::alloc::Global;
use std::marker::Model;
use view_frame::{minus, shl_word, side_of, times};

/// The number of the sector at the point x, y (map units, 16.16 fixed point): that of the leaf
/// (subsector) to which the nodes lead.
///
/// The sector is there. Takes no memory. Calls are at most as deep as the level's nodes, and that
/// limit, `MAX_DEPTH`, leaves nothing out (`depth`).
///
/// The original: `R_PointInSubsector`, r_main.c.
#[tactic(auto, unfolding(scene_rules::specs::Places::sector_at))]
pub fn sector_at(level: &Level, x: i32, y: i32) -> u16
    ensures value { result ≡ sector_at level.now x y }
    ensures there { result < length level.now.sectors }
    ensures depth { (more : ℕ) → leaf_from level.now.nodes x y (MAX_DEPTH + more) level.now.root
        ≡ leaf_from level.now.nodes x y MAX_DEPTH level.now.root }
{
    let leaf = leaf_from(level, x, y, MAX_DEPTH, level.root());
    level.leaves()[leaf as usize].sector
}

// The leaf to which the nodes lead from a child under which they are at most `levels` deep.
#[tactic(auto, using(crate::proofs::LeafLemmas::leaf_steps))]
fn leaf_from(level: &Level, x: i32, y: i32, levels: u32, child: Child) -> u16
    requires there { IsChildIn level.now child }
    requires within { is_within level.now.nodes levels child ≡ true }
    ensures value { result ≡ leaf_from level.now.nodes x y levels child }
    ensures depth { (more : ℕ) → leaf_from level.now.nodes x y (levels + more) child ≡ result }
    ensures there { result < length level.now.leaves }
{
    match child {
        Child::Leaf(leaf) => leaf,
        Child::Node(n) => leaf_from(level, x, y, levels - 1, child_toward(level, n, x, y)),
    }
}

// The child of a node on whose side of the node's line the point is.
fn child_toward(level: &Level, n: u16, x: i32, y: i32) -> Child
    requires { n < length level.now.nodes }
    ensures leaf { (levels : ℕ) → 0 < levels → leaf_from level.now.nodes x y levels (NodeChild n)
        ≡ leaf_from level.now.nodes x y (levels - 1) result }
    ensures within { (levels : ℕ) → is_within level.now.nodes levels (NodeChild n) ≡ true
        → is_within level.now.nodes (levels - 1) result ≡ true }
    ensures there { IsChildIn level.now result }
{
    let node = node_at(level, n);
    child_on(node, side_of(partition_of(&node.line), x, y))
}

fn node_at(level: &Level, n: u16) -> &Node
    requires { n < length level.now.nodes }
    ensures value { slice_get level.now.nodes n ≡ Some result.now }
    ensures children { IsNodeIn level.now result.now }
{
    &level.nodes()[n as usize]
}

// The child of a node on side 0 or 1 of its line.
#[tactic(auto, unfolding(scene_rules::specs::Words::child_on))]
fn child_on(node: &Node, side: u8) -> Child
    requires { side ≤ 1 }
    ensures { result ≡ child_on node.now side }
{
    node.children[side as usize]
}

/// The things of a level that stand there in a game of one player, of a skill from 1 to 5.
///
/// A thing stands where its options have the skill's bit and not the one of several players. It is
/// on its sector's floor, or hangs below the ceiling, and is turned by whole eighths of a turn. The
/// things are gone over once. Takes memory for those placed, each twice, and for a list a sector.
///
/// Errors: `OutOfMemory`.
///
/// The original: `P_SpawnMapThing`, p_mobj.c; `P_SetThingPosition`, p_maputl.c. This project's own:
/// a thing of a type that the table has no row of draws nothing.
pub fn place_things(
    alloc: Global,
    level: &Level,
    table: &ThingTable,
    skill: u8,
) -> Result<PlacedThings, OutOfMemory>
    requires { (1 ≤ skill) × (skill ≤ 5) }
    ensures { IfOk result (λ placed. placed ≡ placed_things level.now table.now skill) }
{
    let all = place_all(alloc, level, table, skill)?;
    let groups = group_things(alloc, level.sectors().len(), &all)?;
    Ok(PlacedThings { all, groups })
}

// The placed things in the order of their lump.
#[tactic(auto, using(crate::proofs::PlacedLemmas::placed_steps))]
fn place_all(
    alloc: Global,
    level: &Level,
    table: &ThingTable,
    skill: u8,
) -> Result<Vec<Placed>, OutOfMemory>
    ensures value { IfOk result (λ all. all.items ≡ placed_things level.now table.now skill) }
    ensures there { IfOk result (λ all. All (IsIn (length level.now.sectors)) all.items) }
{
    let mut all = Vec::new(alloc);
    let things = level.things();
    for (number, thing) in things.iter().enumerate() {
        let row = placed_row(table, skill, thing);
        push_placed(&mut all, level, number as u16, thing, row)?;
    }
    Ok(all)
}

// Adds a thing, if it is placed.
#[tactic(auto, unfolding(scene_rules::specs::Places::placed_if))]
fn push_placed(
    all: &mut Vec<Placed>,
    level: &Level,
    number: u16,
    thing: &Thing,
    row: Option<ThingRow>,
) -> Result<(), OutOfMemory>
    requires { All (IsIn (length level.now.sectors)) all.old.items }
    ensures placed { OnOk result
        (all.new.items ≡ all.old.items ++ placed_if level.now number thing.now row) }
    ensures there { OnOk result (All (IsIn (length level.now.sectors)) all.new.items) }
{
    if let Some(row) = row {
        let sector = sector_at(level, thing.x, thing.y);
        all.push(placed_in(level, number, thing, row, sector))?;
    }
    Ok(())
}

// How a thing looks, if it is placed.
#[tactic(auto, unfolding(scene_rules::specs::Places::placed_row))]
fn placed_row(table: &ThingTable, skill: u8, thing: &Thing) -> Option<ThingRow>
    ensures { result ≡ placed_row table.now skill thing.now }
{
    if is_in_skill(skill, thing.options) {
        table.row(thing.kind)
    } else {
        None
    }
}

#[tactic(auto, unfolding(scene_rules::specs::Places::is_in_skill))]
fn is_in_skill(skill: u8, options: u16) -> bool
    ensures { result ≡ is_in_skill skill options }
{
    options & skill_option(skill) != 0 && options & NOT_ALONE == 0
}

#[tactic(auto, unfolding(scene_rules::specs::Places::skill_option))]
fn skill_option(skill: u8) -> u16
    ensures { result ≡ skill_option skill }
{
    if skill <= LAST_EASY {
        EASY
    } else if skill == NORMAL_SKILL {
        NORMAL
    } else {
        HARD
    }
}

#[tactic(auto, unfolding(scene_rules::specs::Places::placed_in))]
fn placed_in(level: &Level, number: u16, thing: &Thing, row: ThingRow, sector: u16) -> Placed
    requires { sector < length level.now.sectors }
    ensures { result ≡ placed_in level.now number thing.now row sector }
{
    Placed {
        sector,
        row,
        thing: placed_thing(level, number, thing, row, sector),
    }
}

#[tactic(auto, unfolding(scene_rules::specs::Places::placed_thing))]
fn placed_thing(
    level: &Level,
    number: u16,
    thing: &Thing,
    row: ThingRow,
    sector: u16,
) -> PlacedThing
    requires { sector < length level.now.sectors }
    ensures { result ≡ placed_thing level.now number thing.now row sector }
{
    let sprite = row.sprite;
    PlacedThing {
        thing: number,
        x: thing.x,
        y: thing.y,
        z: thing_height(row.hang, &level.sectors()[sector as usize]),
        angle: thing_angle(thing.angle),
        sprite,
        frame: row.frame,
        bright: row.bright,
    }
}

// The feet of a thing that stands on the floor, or hangs `hang` map units below the ceiling.
#[tactic(auto, unfolding(scene_rules::specs::Places::thing_height))]
fn thing_height(hang: u16, sector: &Sector) -> i32
    ensures { result ≡ thing_height hang sector.now }
{
    if hang == 0 {
        return sector.floor;
    }
    minus(sector.ceiling, shl_word(i32::from(hang), FRACTION_BITS))
}

// Whole eighths of a turn, as an angle (BAM).
#[tactic(auto, unfolding(scene_rules::specs::Places::thing_angle))]
fn thing_angle(degrees: i16) -> u32
    ensures { result ≡ thing_angle degrees }
{
    times(i32::from(degrees / EIGHTH_DEGREES), ANG45 as i32).cast_unsigned()
}

// The things of each of `count` sectors, the last of them first.
fn group_things(
    alloc: Global,
    count: usize,
    all: &[Placed],
) -> Result<Vec<Vec<PlacedThing>>, OutOfMemory>
    requires { All (IsIn count) all.now }
    ensures { IfOk result (λ groups. AreGroupsOf all.now groups.items) }
{
    let mut groups = empty_groups(alloc, count)?;
    for placed in all.iter().rev() {
        groups[placed.sector as usize].push(placed.thing)?;
    }
    Ok(groups)
}

// So many lists without a thing.
fn empty_groups(alloc: Global, count: usize) -> Result<Vec<Vec<PlacedThing>>, OutOfMemory>
    ensures { IfOk result (λ groups. map (λ group. group.items) groups.items ≡ replicate count []) }
{
    let mut groups = Vec::new(alloc);
    for _i in 0..count {
        groups.push(Vec::new(alloc))?;
    }
    Ok(groups)
}

/// The things that stand in a level. Contracts see them as a list, in the order of their lump.
///
/// It keeps a list a sector, so `of` goes over no thing. The original: `thinglist` of `sector_t`,
/// r_defs.h.
pub struct PlacedThings {
    all: Vec<Placed>,
    // for each sector its things, the last of the lump first
    groups: Vec<Vec<PlacedThing>>,
}

// By hand, so that a drop of one is one call.
impl Drop for PlacedThings {
    fn drop(self) {
        let PlacedThings { all: _, groups: _ } = self;
    }
}

impl Model for PlacedThings {
    ghost use Rattle.std.specs.Prelude.{List};
    ghost use Rattle.scene_rules.specs.declared.Placed.{Placed};
    ghost use Rattle.level_scene.specs.Groups.{AreGroupsOf};

    ghost Value = { List Placed };

    ghost view = { λ placed. placed.all.items };

    ghost invariant = { λ placed. AreGroupsOf placed.all.items placed.groups.items };
}

impl PlacedThings {
    /// The things of a sector in drawing order, the last of the lump first. There are none in a
    /// sector that is not there.
    ///
    /// One look-up, by the sector's number. Takes no memory. The original: `P_SetThingPosition`,
    /// p_maputl.c, which puts each thing before those that its sector has.
    pub fn of(&self, sector: u16) -> &[PlacedThing]
        ensures { result.now ≡ things_of self.now sector }
    {
        match self.groups.get(sector as usize) {
            Some(group) => group.as_slice(),
            None => &[],
        }
    }

    /// The things in the order of their lump, each with its sector and its type's row. Takes no
    /// memory.
    pub fn all(&self) -> &[Placed]
        ensures { result.now ≡ self.now }
    {
        self.all.as_slice()
    }

    /// The frame that each thing needs, in the order of their lump. Takes memory for them.
    ///
    /// Errors: `OutOfMemory`.
    pub fn needs(&self, alloc: Global) -> Result<Vec<Need>, OutOfMemory>
        ensures { IfOk result (λ needs. needs.items ≡ map need_of self.now) }
    {
        self.all.iter().map(need_of).collect(alloc)
    }

    /// The number, as in their lump, of the first thing that would be drawn as a shadow. Takes no
    /// memory.
    ///
    /// The original: `MF_SHADOW`, p_mobj.h.
    pub fn first_shadow(&self) -> Option<u16>
        ensures { result ≡ first_shadow self.now }
    {
        first_shadow(&self.all)
    }
}

#[tactic(auto, unfolding(scene_rules::specs::Places::need_of))]
fn need_of(placed: &Placed) -> Need
    ensures { result ≡ need_of placed.now }
{
    Need {
        thing: placed.thing.thing,
        sprite: placed.thing.sprite,
        frame: placed.thing.frame,
    }
}

#[tactic(auto, unfolding(scene_rules::specs::Places::is_shadow))]
fn is_shadow(placed: &Placed) -> bool
    ensures { result ≡ is_shadow placed.now }
{
    placed.row.shadow
}

#[tactic(auto, using(crate::proofs::ShadowLemmas::shadow_steps))]
fn first_shadow(all: &[Placed]) -> Option<u16>
    ensures { result ≡ first_shadow all.now }
{
    for placed in all {
        if is_shadow(placed) {
            return Some(placed.thing.thing);
        }
    }
    None
}

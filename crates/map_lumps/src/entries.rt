// Entries by number. Rules: `level_rules/maps`, Lumps and Ranges; `level_rules`, Levels.
ghost use Rattle.std.specs.Prelude.{◌≡◌, ◌<◌, length};
ghost use Rattle.map_lumps.specs.Rules.{child_on, line_by, lump_no, side_on};

use level_rules::{Child, MapLine, MapLump, Node};

// A line by its number.
#[tactic(auto, unfolding(level_rules::specs::maps::Ranges::line_by))]
pub(crate) fn line_by(lines: &[MapLine], n: u16) -> MapLine
    requires { n < length lines.now }
    ensures { result ≡ line_by lines.now n }
{
    lines[n as usize]
}

// Side 0 or side 1 of a line.
#[tactic(auto, unfolding(level_rules::specs::maps::Ranges::side_on))]
pub(crate) fn side_on(line: MapLine, side: u16) -> u16
    ensures { result ≡ side_on line side }
{
    if side == 0 { line.front } else { line.back }
}

// The child of a node on side 0 or 1 of its line.
#[tactic(auto, unfolding(level_rules::specs::Levels::child_on))]
pub(crate) fn child_on(node: Node, side: usize) -> Child
    requires { side < 2 }
    ensures { result ≡ child_on node side }
{
    node.children[side]
}

// The number of a lump.
#[tactic(auto, unfolding(level_rules::specs::maps::Lumps::lump_no))]
pub(crate) fn lump_no(lump: MapLump) -> u64
    ensures { result ≡ lump_no lump }
{
    lump as u64
}

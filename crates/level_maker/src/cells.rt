// The cells of a made level and their walls.
ghost use Rattle.std.specs.Prelude.{◌≡◌, ◌<◌, ◌≤◌, ◌*◌, ◌+◌, ◌^◌};
ghost use Rattle.made_rules.specs.Cells.{made_column, made_row, vertex_number, corner, next_edge, is_inner, cell_across, side_across, edge_angle};
ghost use Rattle.level_maker.specs.Squares.{IsEdge};

use made_rules::{EDGES, NO_SIDE};

/// The column of a cell, from the west.
#[tactic(auto, unfolding(made_rules::specs::Cells::made_column))]
pub fn made_column(side: u32, cell: u32) -> u32
    requires { 0 < side }
    ensures value { result ≡ made_column side cell }
    ensures most { result ≤ cell }
    ensures within { result < side }
{
    cell % side
}

/// The row of a cell, from the south.
#[tactic(auto, unfolding(made_rules::specs::Cells::made_row))]
pub fn made_row(side: u32, cell: u32) -> u32
    requires { 0 < side }
    ensures value { result ≡ made_row side cell }
    ensures most { result ≤ cell }
{
    cell / side
}

/// The number of a vertex.
#[tactic(auto, unfolding(made_rules::specs::Cells::vertex_number))]
pub fn vertex_number(side: u32, a: u32, b: u32) -> u32
    requires square { side < 2 ^ 8 }
    requires column { a < 2 ^ 17 }
    requires row { b < 2 ^ 17 }
    ensures { result ≡ vertex_number side a b }
{
    b * (side + 1) + a
}

/// The vertex where an edge begins.
#[tactic(auto, unfolding(made_rules::specs::Cells::corner))]
pub fn corner(side: u32, cell: u32, edge: u32) -> u32
    requires { IsEdge side cell edge }
    ensures { result ≡ corner side cell edge }
{
    let i = made_column(side, cell);
    let j = made_row(side, cell);
    vertex_number(
        side,
        [i + 1, i, i, i + 1][edge as usize],
        [j, j, j + 1, j + 1][edge as usize],
    )
}

/// The edge that follows.
#[tactic(auto, unfolding(made_rules::specs::Cells::next_edge))]
pub fn next_edge(edge: u32) -> u32
    requires { edge < EDGES }
    ensures value { result ≡ next_edge edge }
    ensures within { result < EDGES }
{
    (edge + 1) % EDGES
}

/// Whether an edge lies within a room.
#[tactic(auto, unfolding(made_rules::specs::Cells::is_inner))]
pub fn is_inner(side: u32, cell: u32, edge: u32) -> bool
    requires some { 0 < side }
    requires cell { cell < 2 ^ 16 }
    requires edge { edge < EDGES }
    ensures { result ≡ is_inner side cell edge }
{
    let i = made_column(side, cell);
    let j = made_row(side, cell);
    [j, i, j + 1, i + 1][edge as usize] % 2 == 1
}

/// The cell across an edge.
#[tactic(auto, unfolding(made_rules::specs::Cells::cell_across))]
pub fn cell_across(side: u32, cell: u32, edge: u32) -> u32
    requires square { side < 2 ^ 8 }
    requires cell { cell < 2 ^ 16 }
    requires edge { edge < EDGES }
    ensures value { result ≡ cell_across side cell edge }
    ensures most { result < 2 ^ 17 }
{
    [
        cell.saturating_sub(side),
        cell.saturating_sub(1),
        cell + side,
        cell + 1,
    ][edge as usize]
}

/// The side across an edge.
#[tactic(auto, unfolding(made_rules::specs::Cells::opposite_edge, made_rules::specs::Cells::side_across))]
pub fn side_across(side: u32, cell: u32, edge: u32) -> u32
    requires { IsEdge side cell edge }
    ensures { result ≡ side_across side cell edge }
{
    if is_inner(side, cell, edge) {
        let opposite = (edge + 2) % EDGES;
        EDGES * cell_across(side, cell, edge) + opposite
    } else {
        NO_SIDE
    }
}

/// The direction of an edge.
#[tactic(auto, unfolding(made_rules::specs::Cells::edge_angle))]
pub fn edge_angle(edge: u32) -> u32
    requires { edge < EDGES }
    ensures { result ≡ edge_angle edge }
{
    [32768, 16384, 0, 49152][edge as usize]
}

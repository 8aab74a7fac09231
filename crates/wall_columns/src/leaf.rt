// The planes of a leaf: found where the leaf is entered, checked where a fragment marks them.
ghost use Rattle.std.specs.Prelude.{◌≡◌, ◌<◌, ◌≤◌, ◌↔◌, IfOk, IfErr, IsErr, OnOk, length};
ghost use Rattle.picture_rules.specs.Words.{checked_plane, FRAME_WIDTH, IsAmongPlanes, planes_count};
ghost use Rattle.visplanes.specs.Planes.{with_planes};
ghost use Rattle.wall_columns.specs.Columns.{plane_number};
ghost use Rattle.wall_columns.specs.Leaves.{planes_found, number_found, planes_checked, number_checked};

use picture_rules::{LimitKind, OverLimit, PlaneKey};
use visplanes::{PlaneNo, Planes};

/// The planes that a leaf finds: None where its floor or its ceiling is not seen.
#[derive(Clone, Copy)]
pub struct LeafPlanes {
    pub floor: Option<PlaneKey>,
    pub ceiling: Option<PlaneKey>,
}

// So many planes, as the count that passes its limit.
#[tactic(auto, unfolding(picture_rules::specs::Counts::planes_count))]
fn planes_over(count: u32) -> OverLimit
    ensures { result ≡ planes_count count }
{
    OverLimit {
        kind: LimitKind::Planes,
        count,
    }
}

/// The plane of a key, or None without one.
///
/// Errors: the count of planes, exactly where a new plane is wanted and the room is full.
#[tactic(auto, using(crate::proofs::PartLemmas::counts), unfolding(crate::specs::Leaves::planes_found, crate::specs::Leaves::number_found))]
pub fn find_plane(planes: &mut Planes, key: Option<PlaneKey>) -> Result<Option<PlaneNo>, OverLimit>
    ensures ok { OnOk result
        (planes.new ≡ with_planes (planes_found planes.old.planes key) planes.old) }
    ensures number { IfOk result (λ plane.
        plane_number plane ≡ number_found planes.old.planes key) }
    ensures among { IfOk result (λ plane. IsAmongPlanes planes.new.planes (plane_number plane)) }
    ensures full { IsErr result
        ↔ (planes.old.room < length (planes_found planes.old.planes key)) }
    ensures over { IfErr result (λ over. over
        ≡ planes_count (length (planes_found planes.old.planes key))) }
    ensures room { planes.new.room ≡ planes.old.room }
{
    planes.count();
    match key {
        None => Ok(None),
        Some(key) => match planes.find(key) {
            Ok(plane) => Ok(Some(plane)),
            Err(full) => Err(planes_over(full.count)),
        },
    }
}

/// The plane itself, or a new one of its key where a fragment marks it and it is marked in one of
/// the fragment's columns.
///
/// Errors: the count of planes, exactly where a new plane is wanted and the room is full.
#[tactic(auto, using(crate::proofs::PartLemmas::counts), unfolding(crate::specs::Leaves::planes_checked, crate::specs::Leaves::number_checked, picture_rules::specs::plane::Built::checked_plane))]
pub fn check_plane(
    planes: &mut Planes,
    plane: Option<PlaneNo>,
    marks: bool,
    first: u16,
    last: u16,
) -> Result<Option<PlaneNo>, OverLimit>
    requires plane { IsAmongPlanes planes.old.planes (plane_number plane) }
    requires ordered { first ≤ last }
    requires within { last < FRAME_WIDTH }
    ensures ok { OnOk result (planes.new ≡ with_planes (planes_checked planes.old.planes
        (checked_plane marks planes.old.planes (plane_number plane) first last)) planes.old) }
    ensures number { IfOk result (λ checked. plane_number checked ≡ number_checked
        (plane_number plane)
        (checked_plane marks planes.old.planes (plane_number plane) first last)) }
    ensures among { IfOk result (λ checked.
        IsAmongPlanes planes.new.planes (plane_number checked)) }
    ensures full { IsErr result ↔ (planes.old.room < length (planes_checked planes.old.planes
        (checked_plane marks planes.old.planes (plane_number plane) first last))) }
    ensures over { IfErr result (λ over. over
        ≡ planes_count (length (planes_checked planes.old.planes
        (checked_plane marks planes.old.planes (plane_number plane) first last)))) }
    ensures longer { length planes.old.planes ≤ length planes.new.planes }
    ensures room { planes.new.room ≡ planes.old.room }
{
    planes.count();
    if !marks {
        return Ok(plane);
    }
    match plane {
        None => Ok(None),
        Some(plane) => match planes.check(plane, first, last) {
            Ok(plane) => Ok(Some(plane)),
            Err(full) => Err(planes_over(full.count)),
        },
    }
}

// The sentences of the faults of a view.

use frame_core::{LimitKind, ViewFault};
use std::test::Fail;
use visplanes::PlanesFull;
use wall_columns::DrawFault;

#[test]
fn a_fault_of_a_view_says_what_ended_it(rt: HostRuntime) -> Result<(), Fail> {
    let limit = ViewFault::Limit {
        kind: LimitKind::Openings,
        count: 20800,
    };
    let full = ViewFault::ZoneFull {
        wanted: 4120,
        widest: 4096,
    };
    let read = ViewFault::ReadFault;
    let planes = PlanesFull { count: 129 };
    let openings = DrawFault::Openings { count: 20800 };
    let told = format!(in rt.alloc(); "{limit}\n{full}\n{read}\n{planes}\n{openings}")?;
    let sentences = "a limit of the view is passed: Openings 20800\n\
        the zone is full: a block of 4120 bytes was wanted, the widest gap has 4096\n\
        a lump could not be read\n\
        the view has 129 visplanes, one more than there is room for\n\
        the view saves 20800 openings, more than there is room for";
    assert_eq!(rt; told.as_str(), sentences);
    Ok(())
}

// Columns that are covered, and the gaps between them.
use node_walk::Cover;

// Columns 10 to 19 and 21 to 30 are covered.
#[test]
fn gaps_between_covered_columns_are_seen(rt: HostRuntime) {
    let mut cover = Cover::new(320);
    cover.cover(21, 30);
    cover.cover(10, 19);
    let mut gaps = cover.fragments(0, 40);
    let found = [gaps.next(), gaps.next(), gaps.next(), gaps.next()];
    assert_eq!(rt; found, [Some((0, 9)), Some((20, 20)), Some((31, 40)), None]);
    assert_eq!(rt; cover.fragments(21, 30).next(), None);
    assert_eq!(rt; (cover.hides(12, 18), cover.hides(12, 20)), (true, false));
}

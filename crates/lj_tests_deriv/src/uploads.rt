use lj_samples::{five_fives, four_triples, three_fours, upload};
use std::test::Fail;

#[test]
fn the_first_point_of_least_degree_of_four_triples(rt: HostRuntime) -> Result<(), Fail> {
    let alloc = rt.alloc();
    let upload = upload(alloc, 1, four_triples(alloc)?)?;
    assert_eq!(rt; upload.least(), (0, 2));
    Ok(())
}

#[test]
fn cuts_of_three_fours_to_five_points(rt: HostRuntime) -> Result<(), Fail> {
    let alloc = rt.alloc();
    let upload = upload(alloc, 1, three_fours(alloc)?)?;
    let mut want = [0; 26];
    want[3] = 2;
    want[4] = 1;
    assert_eq!(rt; upload.counts(5), want);
    let copy = upload.copy_without_counts(alloc)?;
    assert_eq!(rt; copy.counts(5), want);
    assert!(rt; copy.same(&upload));
    Ok(())
}

#[test]
fn the_first_pair_of_least_degree_of_five_fives(rt: HostRuntime) -> Result<(), Fail> {
    let alloc = rt.alloc();
    let upload = upload(alloc, 1, five_fives(alloc)?)?;
    assert_eq!(rt; upload.least_pair(), (0, 1, 3));
    Ok(())
}

#[test]
fn uploads_with_other_ordinals_or_blocks_differ(rt: HostRuntime) -> Result<(), Fail> {
    let alloc = rt.alloc();
    let first = upload(alloc, 1, three_fours(alloc)?)?;
    assert!(rt; first.same(&upload(alloc, 1, three_fours(alloc)?)?));
    assert!(rt; !first.same(&upload(alloc, 2, three_fours(alloc)?)?));
    assert!(rt; !first.same(&upload(alloc, 1, four_triples(alloc)?)?));
    Ok(())
}

use crate::given::{nodes_agree, part};
use lj_base::{Cell, Frame};
use lj_deriv::{Arena, Rule};
use lj_samples::{three_fours, upload};
use std::test::Fail;

#[test]
fn rules_without_uploads(rt: HostRuntime) -> Result<(), Fail> {
    let alloc = rt.alloc();
    let mut arena = Arena::new(alloc, Frame::new(Cell { v: 5, k: 3, t: 2 }));
    arena.reserve(7)?;
    arena.add(Rule::One {
        cell: Cell { v: 3, k: 3, t: 2 },
    });
    arena.add(Rule::Runs {
        cell: Cell { v: 5, k: 2, t: 1 },
    });
    let all = arena.add(Rule::All {
        cell: Cell { v: 4, k: 2, t: 2 },
    });
    arena.add(Rule::Drop { child: all });
    arena.add(Rule::Add { child: all });
    arena.add(Rule::Grow { child: 1 });
    arena.add(Rule::Lower { child: all });
    assert_eq!(rt; nodes_agree(alloc, &arena)?, 7);
    Ok(())
}

#[test]
fn rules_of_an_upload(rt: HostRuntime) -> Result<(), Fail> {
    let alloc = rt.alloc();
    let mut arena = Arena::new(alloc, Frame::new(Cell { v: 6, k: 4, t: 2 }));
    let upload = arena.push_upload(upload(alloc, 2, three_fours(alloc)?)?)?;
    arena.reserve(3)?;
    arena.add(Rule::Leaf { upload });
    arena.add(Rule::Derived { upload, point: 1 });
    arena.add(Rule::Derived2 {
        upload,
        first: 2,
        second: 3,
    });
    assert_eq!(rt; nodes_agree(alloc, &arena)?, 3);
    Ok(())
}

#[test]
fn a_product_over_an_induced_node_over_an_added_one(rt: HostRuntime) -> Result<(), Fail> {
    let alloc = rt.alloc();
    let mut arena = Arena::new(alloc, Frame::new(Cell { v: 6, k: 4, t: 2 }));
    let upload = arena.push_upload(upload(alloc, 2, three_fours(alloc)?)?)?;
    arena.reserve(5)?;
    let all = arena.add(Rule::All {
        cell: Cell { v: 3, k: 2, t: 2 },
    });
    let added = arena.add(Rule::Add { child: all });
    let mut children = [0; 26];
    children[4] = added;
    let induced = arena.add(Rule::Induced {
        cell: Cell { v: 5, k: 3, t: 2 },
        upload,
        children,
    });
    let one = arena.add(Rule::One {
        cell: Cell { v: 1, k: 1, t: 1 },
    });
    let parts = [part(1, 2, 3, induced, one)];
    arena.add(Rule::product(Cell { v: 6, k: 4, t: 2 }, 5, &parts));
    assert_eq!(rt; nodes_agree(alloc, &arena)?, 5);
    Ok(())
}

// 21 times 15 blocks: the second factor's are fewer than are made at a time.
#[test]
fn a_product_with_short_rows(rt: HostRuntime) -> Result<(), Fail> {
    let alloc = rt.alloc();
    let mut arena = Arena::new(alloc, Frame::new(Cell { v: 13, k: 4, t: 2 }));
    arena.reserve(3)?;
    let first = arena.add(Rule::All {
        cell: Cell { v: 7, k: 2, t: 2 },
    });
    let second = arena.add(Rule::All {
        cell: Cell { v: 6, k: 2, t: 2 },
    });
    let parts = [part(0, 2, 2, first, second)];
    arena.add(Rule::product(Cell { v: 13, k: 4, t: 2 }, 7, &parts));
    assert_eq!(rt; nodes_agree(alloc, &arena)?, 3);
    Ok(())
}

// 3 times 136 blocks: the second factor's are more than are made at a time.
#[test]
fn a_product_with_long_rows(rt: HostRuntime) -> Result<(), Fail> {
    let alloc = rt.alloc();
    let mut arena = Arena::new(alloc, Frame::new(Cell { v: 20, k: 4, t: 2 }));
    arena.reserve(3)?;
    let first = arena.add(Rule::All {
        cell: Cell { v: 3, k: 2, t: 2 },
    });
    let second = arena.add(Rule::All {
        cell: Cell { v: 17, k: 2, t: 2 },
    });
    let parts = [part(0, 2, 2, first, second)];
    arena.add(Rule::product(Cell { v: 20, k: 4, t: 2 }, 3, &parts));
    assert_eq!(rt; nodes_agree(alloc, &arena)?, 3);
    Ok(())
}

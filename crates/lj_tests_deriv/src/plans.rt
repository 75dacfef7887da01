use crate::given::plan_text;
use lj_base::{Cell, Frame};
use lj_deriv::{Arena, Rule};
use lj_samples::{pairs_of_three, upload};
use std::test::Fail;

#[test]
fn a_plan_leaves_out_what_its_root_does_not_reach(rt: HostRuntime) -> Result<(), Fail> {
    let alloc = rt.alloc();
    let mut arena = Arena::new(alloc, Frame::new(Cell { v: 5, k: 3, t: 2 }));
    arena.reserve(4)?;
    arena.add(Rule::One {
        cell: Cell { v: 2, k: 0, t: 0 },
    });
    let runs = arena.add(Rule::Runs {
        cell: Cell { v: 3, k: 1, t: 1 },
    });
    let lower = arena.add(Rule::Lower { child: runs });
    arena.add(Rule::Drop { child: lower });
    let plan = arena.plan(alloc, lower)?;
    assert_eq!(rt; (plan.len(), plan.cost()), (2, 3));
    assert_eq!(rt; plan.rule(1), &Rule::Lower { child: 0 });
    assert!(rt;
        plan_text(alloc, &arena, lower)?.as_slice()
            == b"1 runs 3 1 1 3\n2 lower 3 1 0 3 1\n".as_slice()
    );
    Ok(())
}

#[test]
fn a_forest_holds_once_what_its_roots_reach(rt: HostRuntime) -> Result<(), Fail> {
    let alloc = rt.alloc();
    let mut arena = Arena::new(alloc, Frame::new(Cell { v: 5, k: 3, t: 2 }));
    arena.reserve(4)?;
    arena.add(Rule::One {
        cell: Cell { v: 2, k: 0, t: 0 },
    });
    let runs = arena.add(Rule::Runs {
        cell: Cell { v: 3, k: 1, t: 1 },
    });
    let lower = arena.add(Rule::Lower { child: runs });
    arena.add(Rule::Drop { child: lower });
    let forest = arena.forest(alloc, &[lower, runs, lower])?;
    assert_eq!(rt;
        (forest.len(), forest.roots(), forest.uploads().len()),
        (2, 3, 0)
    );
    assert_eq!(rt; (forest.root(0), forest.root(1), forest.root(2)), (1, 0, 1));
    assert_eq!(rt; forest.rule(1), &Rule::Lower { child: 0 });
    let cell = forest.cell_of(1);
    assert_eq!(rt; (cell.v, cell.k, cell.t, forest.cost_of(1)), (3, 1, 0, 3));
    assert_eq!(rt; forest.frame().size(), arena.frame().size());
    let mut text = Vec::new(alloc);
    forest.text(&mut text)?;
    assert!(rt; text.as_slice() == b"1 runs 3 1 1 3\n2 lower 3 1 0 3 1\n".as_slice());
    Ok(())
}

#[test]
fn a_rule_of_an_upload_is_spelled_with_its_client_and_ordinal(rt: HostRuntime) -> Result<(), Fail> {
    let alloc = rt.alloc();
    let mut arena = Arena::new(alloc, Frame::new(Cell { v: 3, k: 2, t: 2 }));
    let upload = arena.push_upload(upload(alloc, 7, pairs_of_three(alloc)?)?)?;
    arena.reserve(2)?;
    let leaf = arena.add(Rule::Leaf { upload });
    let derived = arena.add(Rule::Derived { upload, point: 0 });
    assert!(rt; plan_text(alloc, &arena, leaf)?.as_slice() == b"1 leaf 3 2 2 3 ann 7\n".as_slice());
    assert_eq!(rt; arena.plan(alloc, leaf)?.uploads().len(), 1);
    assert_eq!(rt; arena.forest(alloc, &[leaf, derived])?.uploads().len(), 1);
    let text = plan_text(alloc, &arena, derived)?;
    assert!(rt; text.as_slice() == b"1 derived 2 1 1 2 ann 7 1\n".as_slice());
    Ok(())
}

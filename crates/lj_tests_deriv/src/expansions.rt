use crate::given::{line_at, lines, part, plan_text};
use lj_base::{Cell, Frame, MemSink};
use lj_deriv::{Arena, Rule};
use lj_expand::stream;
use lj_samples::{five_fives, three_fours, upload};
use std::test::Fail;

#[test]
fn runs_of_two_of_five_points(rt: HostRuntime) -> Result<(), Fail> {
    let alloc = rt.alloc();
    let mut arena = Arena::new(alloc, Frame::new(Cell { v: 5, k: 2, t: 1 }));
    arena.reserve(1)?;
    let root = arena.add(Rule::Runs {
        cell: Cell { v: 5, k: 2, t: 1 },
    });
    assert!(rt; lines(alloc, &arena, root)?.as_slice() == b"1 2\n3 4\n1 5\n".as_slice());
    Ok(())
}

#[test]
fn a_product_of_three_parts(rt: HostRuntime) -> Result<(), Fail> {
    let alloc = rt.alloc();
    let mut arena = Arena::new(alloc, Frame::new(Cell { v: 5, k: 3, t: 2 }));
    arena.reserve(7)?;
    arena.add(Rule::One {
        cell: Cell { v: 2, k: 0, t: 0 },
    });
    arena.add(Rule::One {
        cell: Cell { v: 3, k: 3, t: 2 },
    });
    arena.add(Rule::One {
        cell: Cell { v: 2, k: 2, t: 1 },
    });
    arena.add(Rule::Runs {
        cell: Cell { v: 3, k: 1, t: 1 },
    });
    arena.add(Rule::One {
        cell: Cell { v: 2, k: 2, t: 2 },
    });
    arena.add(Rule::One {
        cell: Cell { v: 3, k: 1, t: 0 },
    });
    let parts = [
        part(0, 0, 0, 0, 1),
        part(1, 1, 2, 2, 3),
        part(2, 2, 2, 4, 5),
    ];
    let root = arena.add(Rule::product(Cell { v: 5, k: 3, t: 2 }, 2, &parts));
    let text = b"1 one 2 0 0 1
2 one 3 3 2 1
3 one 2 2 1 1
4 runs 3 1 1 3
5 one 2 2 2 1
6 one 3 1 0 1
7 product 5 3 2 5 2 0:0:0:1:2 1:1:2:3:4 2:2:2:5:6
";
    assert!(rt; plan_text(alloc, &arena, root)?.as_slice() == text.as_slice());
    let want = b"3 4 5\n1 2 3\n1 2 4\n1 2 5\n1 2 3\n".as_slice();
    assert!(rt; lines(alloc, &arena, root)?.as_slice() == want);
    let plan = arena.plan(alloc, root)?;
    assert!(rt; line_at(alloc, &plan, 3)?.as_slice() == b"1 2 5\n".as_slice());
    Ok(())
}

#[test]
fn a_product_of_two_parts(rt: HostRuntime) -> Result<(), Fail> {
    let alloc = rt.alloc();
    let mut arena = Arena::new(alloc, Frame::new(Cell { v: 5, k: 3, t: 2 }));
    arena.reserve(5)?;
    arena.add(Rule::One {
        cell: Cell { v: 2, k: 0, t: 0 },
    });
    arena.add(Rule::One {
        cell: Cell { v: 3, k: 3, t: 2 },
    });
    arena.add(Rule::One {
        cell: Cell { v: 2, k: 2, t: 2 },
    });
    arena.add(Rule::Runs {
        cell: Cell { v: 3, k: 1, t: 1 },
    });
    let parts = [part(0, 0, 0, 0, 1), part(1, 2, 2, 2, 3)];
    let root = arena.add(Rule::product(Cell { v: 5, k: 3, t: 2 }, 2, &parts));
    let want = b"3 4 5\n1 2 3\n1 2 4\n1 2 5\n".as_slice();
    assert!(rt; lines(alloc, &arena, root)?.as_slice() == want);
    let plan = arena.plan(alloc, root)?;
    let mut sink = MemSink::new(alloc, 100, 4, vec![in alloc; 4; 1]?)?;
    assert!(rt; plan.cell().k > 0);
    let broken = stream(&plan, &mut sink);
    assert!(rt; broken.is_err_and(|fault| fault.count == 1));
    assert!(rt; sink.bytes() == b"3 4 5\n1 2 ".as_slice());
    Ok(())
}

#[test]
fn three_fours_cut_to_five_points(rt: HostRuntime) -> Result<(), Fail> {
    let alloc = rt.alloc();
    let mut arena = Arena::new(alloc, Frame::new(Cell { v: 6, k: 4, t: 2 }));
    let upload = arena.push_upload(upload(alloc, 2, three_fours(alloc)?)?)?;
    arena.reserve(3)?;
    let all = arena.add(Rule::All {
        cell: Cell { v: 3, k: 2, t: 2 },
    });
    let added = arena.add(Rule::Add { child: all });
    let mut children = [0; 26];
    children[4] = added;
    let root = arena.add(Rule::Induced {
        cell: Cell { v: 5, k: 3, t: 2 },
        upload,
        children,
    });
    let text = b"1 all 3 2 2 3\n2 add 4 3 2 3 1\n3 induced 5 3 2 5 ann 2 4:2\n";
    assert!(rt; plan_text(alloc, &arena, root)?.as_slice() == text.as_slice());
    let want = b"1 2 4\n1 3 4\n2 3 4\n1 2 5\n3 4 5\n".as_slice();
    assert!(rt; lines(alloc, &arena, root)?.as_slice() == want);
    let plan = arena.plan(alloc, root)?;
    for i in 0..5usize {
        let line = line_at(alloc, &plan, i as u64)?;
        assert!(rt; line.as_slice() == &want[6 * i..6 * i + 6]);
    }
    Ok(())
}

#[test]
fn five_fives_through_two_points(rt: HostRuntime) -> Result<(), Fail> {
    let alloc = rt.alloc();
    let mut arena = Arena::new(alloc, Frame::new(Cell { v: 6, k: 5, t: 4 }));
    let upload = arena.push_upload(upload(alloc, 7, five_fives(alloc)?)?)?;
    arena.reserve(1)?;
    let root = arena.add(Rule::Derived2 {
        upload,
        first: 0,
        second: 1,
    });
    let text = b"1 derived2 4 3 2 3 ann 7 1 2\n";
    assert!(rt; plan_text(alloc, &arena, root)?.as_slice() == text.as_slice());
    let want = b"2 3 4\n1 3 4\n1 2 4\n".as_slice();
    assert!(rt; lines(alloc, &arena, root)?.as_slice() == want);
    Ok(())
}

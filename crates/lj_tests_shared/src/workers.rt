ghost use Rattle.std.specs.Prelude.{◌≡◌, [], IfOk};
ghost use Rattle.std.specs.List.{AllByRecursion};
ghost use Rattle.lj_base.specs.Frames.{InFrame};
ghost use Rattle.lj_board.specs.Seen.{NoneRises};
ghost use Rattle.lj_cover.specs.Rules.{triple};

use crate::given::{EveryUpload, Named, cell_of, four, last_bounds, seven};
use lj_base::Memory;
use lj_board::Pass;
use lj_history::History;
use lj_shared::{Shared, Worked};
use lj_table::Table;
use lj_upload::Accepted;
use std::alloc::Global;
use std::marker::Brand;
use std::sync::Wait;
use std::test::Fail;

fn start<N: Named>(
    alloc: Global,
    clients: u64,
    history: History,
) -> Result<(Shared<EveryUpload<N>>, Pass), Memory>
    requires named { history.history ≡ N.history }
    requires new { history.changes ≡ [] }
    ensures { IfOk result (λ r. r.1.board ≡ r.0) }
{
    Shared::start(alloc, seven(), clients, history)
}

// Works until there is no further turn; the number of turns.
fn work_all<N: Named, R: Wait>(
    rt: &R,
    alloc: Global,
    shared: &Shared<EveryUpload<N>>,
    pass: &mut Pass,
) -> Result<u64, Memory>
    requires { pass.old.board ≡ shared.now }
    ensures { NoneRises pass.old pass.new }
{
    let mut ticket = shared.ticket(rt, alloc)?;
    for turn in 0..1_000_000 {
        match shared.work_one(rt, pass, ticket)? {
            Worked::Turn { ticket: back } => ticket = back,
            Worked::Ended => return Ok(turn),
        }
    }
    Ok(1_000_000)
}

#[test]
fn a_worker_brings_a_table_to_rest(rt: HostRuntime) -> Result<(), Fail> {
    let alloc = rt.alloc();
    let history = History::start(alloc)?;
    let (turns, bound, table) = work_to_rest::<Brand, _>(&rt, alloc, history)?;
    // One for each cell of the frame.
    assert_eq!(rt; turns, 54);
    assert_eq!(rt; bound, 9);
    assert!(rt; table.at_rest());
    assert_eq!(rt; last_bounds(&table), Some([3, 4, 7, 9]));
    Ok(())
}

// One worker; the number of its turns, the word of (7,3,2), and the table.
fn work_to_rest<N: Named, R: Wait>(
    rt: &R,
    alloc: Global,
    history: History,
) -> Result<(u64, u64, Table), Memory>
    requires named { history.history ≡ N.history }
    requires new { history.changes ≡ [] }
{
    let (shared, mut pass) = start::<N>(alloc, 0, history)?;
    let turns = work_all(rt, alloc, &shared, &mut pass)?;
    let bound = shared.bound(&mut pass, cell_of(7));
    Ok((turns, bound, shared.finish()))
}

#[test]
fn an_accepted_upload_is_settled(rt: HostRuntime) -> Result<(), Fail> {
    let alloc = rt.alloc();
    let history = History::start(alloc)?;
    let (numbers, table) = accept_and_settle::<Brand, _>(&rt, alloc, history)?;
    assert_eq!(rt; numbers, [10, 4, 7, 7]);
    assert!(rt; table.at_rest());
    assert_eq!(rt; table.accepted().len(), 1);
    assert_eq!(rt; last_bounds(&table), Some([3, 4, 7, 9]));
    Ok(())
}

// The word of (5,3,2) before and after an upload there, the word of (6,3,2) after settling and the cost of its plan,
// and the table.
fn accept_and_settle<N: Named, R: Wait>(
    rt: &R,
    alloc: Global,
    history: History,
) -> Result<([u64; 4], Table), Memory>
    requires named { history.history ≡ N.history }
    requires new { history.changes ≡ [] }
{
    let (shared, mut pass) = start::<N>(alloc, 0, history)?;
    let own = vec![in alloc; four(alloc)?]?;
    let before = shared.bound(&mut pass, cell_of(5));
    shared.accept(rt, &mut pass, four(alloc)?)?;
    let after = shared.bound(&mut pass, cell_of(5));
    shared.settle(rt, alloc, &mut pass, &own)?;
    let settled = shared.bound(&mut pass, cell_of(6));
    let plan = shared.plan(rt, alloc, &mut pass, cell_of(6))?;
    Ok(([before, after, settled, plan.cost()], shared.finish()))
}

#[test]
fn a_settling_client_brings_what_the_table_lacks(rt: HostRuntime) -> Result<(), Fail> {
    let alloc = rt.alloc();
    let history = History::start(alloc)?;
    let own = vec![in alloc; four(alloc)?]?;
    let (bound, turns, table) = settle_and_leave::<Brand, _>(&rt, alloc, history, &own)?;
    assert_eq!(rt; bound, 9);
    assert_eq!(rt; turns, 0);
    assert!(rt; table.at_rest());
    assert_eq!(rt; table.accepted().len(), 1);
    assert!(rt; table.accepted()[0].same(&own[0]));
    assert_eq!(rt; last_bounds(&table), Some([3, 4, 7, 9]));
    Ok(())
}

// One client, which settles and leaves; the word of (7,3,2), the number of turns that are left to a worker, and the
// table.
fn settle_and_leave<N: Named, R: Wait>(
    rt: &R,
    alloc: Global,
    history: History,
    own: &[Accepted],
) -> Result<(u64, u64, Table), Memory>
    requires named { history.history ≡ N.history }
    requires new { history.changes ≡ [] }
    requires inside { AllByRecursion (λ u. InFrame (record { top = triple 7 3 2 }) u.cell) own.now }
{
    let (shared, mut pass) = start::<N>(alloc, 1, history)?;
    shared.settle(rt, alloc, &mut pass, own)?;
    let bound = shared.bound(&mut pass, cell_of(7));
    shared.leave(rt);
    let turns = work_all(rt, alloc, &shared, &mut pass)?;
    Ok((bound, turns, shared.finish()))
}

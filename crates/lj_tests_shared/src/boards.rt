ghost use Rattle.std.specs.Prelude.{◌≡◌, [], IfOk};
ghost use Rattle.lj_base.specs.Frames.{InFrame};
ghost use Rattle.lj_board.specs.Seen.{NoneRises};
ghost use Rattle.lj_cover.specs.Rules.{triple};

use crate::given::{EveryUpload, Named, cell_of, five, four, seven};
use lj_base::{Cell, Memory};
use lj_board::{Board, Pass};
use lj_history::History;
use lj_shared::Shared;
use lj_table::Table;
use std::alloc::Global;
use std::marker::Brand;
use std::test::Fail;
use std::thread::{Threads, join};

// Lowers the word of a cell to a table's bound there.
fn lower<N: Named>(board: &Board<EveryUpload<N>>, pass: &mut Pass, table: &Table, c: Cell)
    requires pass { pass.old.board ≡ board.now }
    requires frame { table.now.arena.frame ≡ record { top = triple 7 3 2 } }
    requires inside { InFrame (record { top = triple 7 3 2 }) c }
    ensures { NoneRises pass.old pass.new }
{
    pass.lower(board, c, table.bound(c));
}

// A table of the frame of (7,3,2).
fn table(alloc: Global) -> Result<Table, Memory>
    ensures { IfOk result (λ t. (t.arena.frame ≡ record { top = triple 7 3 2 }) × (t.arena.uploads ≡ [])) }
{
    Table::start(alloc, seven())
}

#[test]
fn passes_see_what_others_lower(rt: HostRuntime) -> Result<(), Fail> {
    let history = History::start(rt.alloc())?;
    let seen = look_and_lower::<Brand>(rt.alloc(), history)?;
    assert_eq!(rt; seen, [10, 4, 5, 4, 4]);
    Ok(())
}

// Two passes: what one sees of (5,3,2) before and after the other has lowered it, the greater bound that the first one
// lowers it to then, and what the other and both joined see.
fn look_and_lower<N: Named>(alloc: Global, history: History) -> Result<[u64; 5], Memory>
    requires named { history.history ≡ N.history }
    requires new { history.changes ≡ [] }
{
    let (shared, mut p): (Shared<EveryUpload<N>>, Pass) = Shared::start(
        alloc,
        seven(),
        0,
        history,
    )?;
    let board = shared.board();
    let (mut low, mut high) = (table(alloc)?, table(alloc)?);
    low.accept(four(alloc)?)?;
    high.accept(five(alloc)?)?;
    let mut q = p.split(board);
    let before = p.peek(board, cell_of(5));
    lower(board, &mut q, &low, cell_of(5));
    let after = p.peek(board, cell_of(5));
    let greater = high.bound(cell_of(5));
    lower(board, &mut p, &high, cell_of(5));
    let other = q.peek(board, cell_of(5));
    p.join(board, q);
    Ok([before, after, greater, other, p.peek(board, cell_of(5))])
}

// Looks at cells and lowers them, by chance, and remembers what it saw; whether a number rose.
fn has_risen<N: Named>(
    board: &Board<EveryUpload<N>>,
    mut pass: Pass,
    low: &Table,
    high: &Table,
    seed: u64,
) -> bool
    requires pass { pass.board ≡ board.now }
    requires low { low.now.arena.frame ≡ record { top = triple 7 3 2 } }
    requires high { high.now.arena.frame ≡ record { top = triple 7 3 2 } }
{
    let mut last = [u64::MAX; 8];
    let mut number = seed;
    for _ in 0..20_000u64 {
        number = number
            .wrapping_mul(6_364_136_223_846_793_005)
            .wrapping_add(1);
        let v = 3 + ((number >> 33) % 5) as u8;
        if number >> 60 == 0 {
            lower(board, &mut pass, low, cell_of(v));
        } else if number >> 60 < 3 {
            lower(board, &mut pass, high, cell_of(v));
        }
        let seen = pass.peek(board, cell_of(v));
        if seen > last[v as usize] {
            return true;
        }
        last[v as usize] = seen;
    }
    false
}

// Two threads.
fn has_risen_in_two<N: Named + Send + Sync, R: Threads + Sync>(
    rt: &R,
    board: &Board<EveryUpload<N>>,
    passes: (Pass, Pass),
    low: &Table,
    high: &Table,
    seed: u64,
) -> bool
    requires passes { (passes.0.board ≡ board.now) × (passes.1.board ≡ board.now) }
    requires tables { (low.now.arena.frame ≡ record { top = triple 7 3 2 })
        × (high.now.arena.frame ≡ record { top = triple 7 3 2 }) }
{
    let (p, q) = passes;
    let (a, b) = join(
        rt,
        || has_risen(board, p, low, high, seed),
        || has_risen(board, q, low, high, !seed),
    );
    a || b
}

// Four threads at once.
fn has_risen_in_four<N: Named + Send + Sync, R: Threads + Sync>(
    rt: &R,
    board: &Board<EveryUpload<N>>,
    passes: (Pass, Pass),
    others: (Pass, Pass),
    low: &Table,
    high: &Table,
) -> bool
    requires passes { (passes.0.board ≡ board.now) × (passes.1.board ≡ board.now) }
    requires others { (others.0.board ≡ board.now) × (others.1.board ≡ board.now) }
    requires tables { (low.now.arena.frame ≡ record { top = triple 7 3 2 })
        × (high.now.arena.frame ≡ record { top = triple 7 3 2 }) }
{
    let (a, b) = join(
        rt,
        || -> bool
            requires passes { (passes.0.board ≡ board.now) × (passes.1.board ≡ board.now) }
            requires tables { (low.now.arena.frame ≡ record { top = triple 7 3 2 })
                × (high.now.arena.frame ≡ record { top = triple 7 3 2 }) }
        { has_risen_in_two(rt, board, passes, low, high, 1) },
        || -> bool
            requires others { (others.0.board ≡ board.now) × (others.1.board ≡ board.now) }
            requires tables { (low.now.arena.frame ≡ record { top = triple 7 3 2 })
                × (high.now.arena.frame ≡ record { top = triple 7 3 2 }) }
        { has_risen_in_two(rt, board, others, low, high, 2) },
    );
    a || b
}

// Whether the words have fallen to the bounds of a table at rest with the four triples.
fn sees_least<N: Named>(board: &Board<EveryUpload<N>>, pass: &mut Pass) -> bool
    requires { pass.old.board ≡ board.now }
{
    let four = pass.peek(board, cell_of(4));
    let five = pass.peek(board, cell_of(5));
    let six = pass.peek(board, cell_of(6));
    let seven = pass.peek(board, cell_of(7));
    [four, five, six, seven] == [3, 4, 7, 9]
}

#[test]
fn four_threads_see_no_number_rise(rt: HostRuntime) -> Result<(), Fail> {
    let history = History::start(rt.alloc())?;
    let (risen, least) = look_in_four::<Brand, _>(&rt, rt.alloc(), history)?;
    assert!(rt; !risen);
    assert!(rt; least);
    Ok(())
}

// Four threads; whether one of them saw a number rise, and whether the words have fallen to the least bounds.
fn look_in_four<N: Named + Send + Sync, R: Threads + Sync>(
    rt: &R,
    alloc: Global,
    history: History,
) -> Result<(bool, bool), Memory>
    requires named { history.history ≡ N.history }
    requires new { history.changes ≡ [] }
{
    let (shared, mut p): (Shared<EveryUpload<N>>, Pass) = Shared::start(
        alloc,
        seven(),
        0,
        history,
    )?;
    let board = shared.board();
    let (mut low, mut high) = (table(alloc)?, table(alloc)?);
    low.accept(four(alloc)?)?;
    low.settle(alloc)?;
    high.accept(five(alloc)?)?;
    let (q, r, s) = (p.split(board), p.split(board), p.split(board));
    let mut last = p.split(board);
    let (low, high) = (&low, &high);
    let risen = has_risen_in_four(rt, board, (p, q), (r, s), low, high);
    Ok((risen, sees_least(board, &mut last)))
}

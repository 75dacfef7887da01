ghost use Rattle.std.specs.Prelude.{◌≡◌, [], ◌∷◌, ◌++◌};
ghost use Rattle.lj_history.specs.Past.{StartsWith, change};

use crate::history::{History, Reader};
use lj_base::Cell;
use std::test::Fail;
use std::thread::{Threads, join};

// Appends a change.
fn appended(mut history: History, cell: Cell, cost: u64) -> History
    ensures { result ≡ record history { changes = history.changes ++ change cell cost ∷ [] } }
{
    history.append(cell, cost);
    history
}

// Appends a change while another thread has a reader, which then comes back.
fn appended_beside<R: Threads + Sync>(
    rt: &R,
    mut history: History,
    cell: Cell,
    cost: u64,
) -> History
    ensures past { result ≡ record history { changes = history.changes ++ change cell cost ∷ [] } }
    ensures begins { StartsWith result.changes history.changes }
{
    let reader = history.reader();
    let (mut history, reader) = join(
        rt,
        || -> History
            ensures { result ≡ record history { changes = history.changes ++ change cell cost ∷ [] } }
        { appended(history, cell, cost) },
        || -> Reader
            ensures { result ≡ reader }
        { reader },
    );
    history.take_back(reader);
    history
}

#[test]
fn a_reader_comes_back_from_another_thread(rt: HostRuntime) -> Result<(), Fail> {
    let mut history = History::start(rt.alloc())?;
    history.append(Cell { v: 7, k: 3, t: 2 }, 7);
    let mut history = appended_beside(&rt, history, Cell { v: 8, k: 3, t: 2 }, 11);
    let (first, second) = (history.reader(), history.reader());
    history.append(Cell { v: 8, k: 4, t: 2 }, 6);
    history.take_back(second);
    history.take_back(first);
    Ok(())
}

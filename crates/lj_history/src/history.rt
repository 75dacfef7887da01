ghost use Rattle.std.specs.Prelude.{◌≡◌, [], ◌∷◌, ◌++◌, IfOk};
ghost use Rattle.lj_history.specs.Past.{StartsWith, change};

use crate::change::Change;
use crate::steps::{Append, Compare, OneOrder, Return, Twin, View};
use atomic_table::{Seat, Table};
use lj_base::{Cell, Memory};
use std::alloc::Global;
use std::marker::Model;

/// All changes of a table's bounds, in their order. Contracts see which history it is, and the changes. It has one
/// word, which is always 0, and the first seat.
#[derive(Drop)]
pub struct History {
    table: Table<Change, View, (), OneOrder, Global>,
    seat: Seat<Change, View>,
}

impl Model for History {
    ghost use Rattle.std.specs.Prelude.{◌≡◌, []};
    ghost use Rattle.lj_history.specs.Past.{Past};

    ghost Value = { Past };

    ghost view = { λ h. record { history = h.seat.table_id; changes = h.seat.me.0.changes } };

    ghost invariant = { λ h. (h.seat.table_id ≡ h.table.shared.table_id) × (h.table.shared.table_id.words ≡ 1)
        × (h.seat.id ≡ 0) × (h.seat.me.1 ≡ []) };
}

/// The changes up to some moment, the first ones of the history. It takes no memory, and may go to any thread.
#[derive(Drop)]
pub struct Reader {
    seat: Seat<Change, View>,
}

impl Model for Reader {
    ghost use Rattle.std.specs.Prelude.{◌≡◌, []};
    ghost use Rattle.lj_history.specs.Past.{Past};

    ghost Value = { Past };

    ghost view = { λ r. record { history = r.seat.table_id; changes = r.seat.me.0.changes } };

    ghost invariant = { λ r. r.seat.me.1 ≡ [] };
}

impl History {
    /// A history with no change.
    pub fn start(alloc: Global) -> Result<History, Memory>
        ensures changes { IfOk result (λ h. h.changes ≡ []) }
    {
        let (table, seat) = Table::of_words(alloc, &[0], &())?;
        Ok(History { table, seat })
    }

    /// Appends a change. Cost: one compare-exchange.
    pub fn append(&mut self, cell: Cell, cost: u64)
        ensures past { self.new ≡ record self.old { changes = self.old.changes ++ change cell cost ∷ [] } }
    {
        let change = Change { cell, cost };
        let table = &self.table;
        // The word is 0 and stays so: the step only announces the change.
        table
            .shared
            .compare_exchange_with::<Append>(&mut self.seat, 0, 0, 0, &change);
    }

    /// A reader of all changes so far. Cost: one load.
    pub fn reader(&mut self) -> Reader
        ensures reader { result ≡ self.old }
        ensures same { self.new ≡ self.old }
    {
        let table = &self.table;
        Reader {
            seat: table.shared.split_seat::<Twin>(&mut self.seat),
        }
    }

    /// Takes a reader back, whose changes are the first ones of the history. Cost: two loads.
    pub fn take_back(&mut self, reader: Reader)
        requires { reader.history ≡ self.old.history }
        ensures same { self.new ≡ self.old }
        ensures begins { StartsWith self.old.changes reader.changes }
    {
        let Reader { seat } = reader;
        let table = &self.table;
        table.shared.join_seat::<Return>(&mut self.seat, seat);
        table.shared.load::<Compare>(&mut self.seat, 0);
    }
}

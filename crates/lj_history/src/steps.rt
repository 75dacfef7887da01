// The rule of a history, and what each kind of step does to a seat. These types are for the proofs alone.
use crate::change::Change;
use atomic_table::{Join, Play, Split, TableRule};
use std::collections::LinkedList;

/// What a seat knows: a beginning of all changes, and the changes of the reader that came back last. No value of it is
/// made.
pub struct View {
    pub changes: LinkedList<Change>,
    pub returned: LinkedList<Change>,
}

/// The rule of a history.
pub struct OneOrder;

impl TableRule<Change, View, ()> for OneOrder {
    ghost use Rattle.lj_history.specs.Rule.{HistoryRule, first_view};

    ghost holds = { λ key. HistoryRule };

    ghost first = { λ key. first_view };
}

pub struct Append;

impl Play<Change, View> for Append {
    ghost use Rattle.lj_history.specs.Rule.{Appends};

    ghost then = { Appends };
}

pub struct Compare;

impl Play<Change, View> for Compare {
    ghost use Rattle.lj_history.specs.Rule.{Compares};

    ghost then = { Compares };
}

pub struct Twin;

impl Split<View> for Twin {
    ghost left = { λ v. v };

    ghost right = { λ v. v };
}

pub struct Return;

impl Join<View> for Return {
    ghost use Rattle.lj_history.specs.Rule.{first_view, received};

    ghost both = { received };

    ghost spent = { first_view };
}

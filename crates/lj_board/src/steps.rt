// The rule of the board's words, and what each kind of step does to a pass. These types are for the proofs alone.
use crate::setting::Setting;
use atomic_table::{Join, Play, Split, TableRule};
use lj_base::Frame;
use std::collections::LinkedList;
use std::marker::PhantomData;

/// What a pass knows: the frame, and the number that it has seen of each cell, in index order. No value of it is made.
pub struct View {
    pub frame: Frame,
    pub seen: LinkedList<u64>,
}

/// The rule of a board. Its key is the list of words with which the board starts.
pub struct Falls<J> {
    setting: PhantomData<J>,
}

impl<J: Setting> TableRule<(), View, Vec<u64>> for Falls<J> {
    ghost use Rattle.lj_board.specs.Rule.{BoardRule, first_view};

    ghost holds = { λ words. BoardRule J.frame J.allowed };

    ghost first = { λ words. first_view J.frame words.items };
}

pub struct Peek<J> {
    setting: PhantomData<J>,
}

impl<J: Setting> Play<(), View> for Peek<J> {
    ghost use Rattle.lj_board.specs.Rule.{Peeks};

    ghost then = { Peeks J.frame J.allowed };
}

pub struct Lower;

impl Play<(), View> for Lower {
    ghost use Rattle.lj_board.specs.Rule.{Lowers};

    ghost then = { Lowers };
}

pub struct Twin;

impl Split<View> for Twin {
    ghost left = { λ v. v };

    ghost right = { λ v. v };
}

pub struct Lesser;

impl Join<View> for Lesser {
    ghost use Rattle.lj_board.specs.Rule.{joined_view, spent_view};

    ghost both = { joined_view };

    ghost spent = { spent_view };
}

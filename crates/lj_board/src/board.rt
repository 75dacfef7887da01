ghost use Rattle.std.specs.Prelude.{◌≡◌, ℕ, ◌<◌, ◌≤◌, ◌∷◌, min, length, slice_index, IfOk};
ghost use Rattle.lj_base.specs.Bounds.{at_cell};
ghost use Rattle.lj_base.specs.Cells.{Triple};
ghost use Rattle.lj_base.specs.Frames.{InFrame};
ghost use Rattle.lj_cover.specs.Uses.{DerivableBy};
ghost use Rattle.lj_board.specs.Seen.{AreDerivable, NoneRises, lesser, saw, seen_at, seen_of};

use crate::setting::Setting;
use crate::steps::{Falls, Lesser, Lower, Peek, Twin, View};
use atomic_table::{Seat, Table};
use lj_base::{Cell, Frame, MAX_CELLS, Memory, index_law};
use std::alloc::Global;
use std::marker::Model;

/// A word for each cell of a frame. It holds the cost of a derivation of the cell in the frame from allowed uploads,
/// and only falls.
#[derive(Drop)]
pub struct Board<J: Setting> {
    table: Table<(), View, Vec<u64>, Falls<J>, Global>,
    frame: Frame,
}

impl<J: Setting> Model for Board<J> {
    ghost use Rattle.std.specs.Prelude.{◌≡◌, ◌+◌, ◌≤◌};
    ghost use Rattle.lj_base.specs.Frames.{size_of};
    ghost use Rattle.lj_base.specs.declared.limits.TheConstants.{MAX_CELLS};
    ghost use Rattle.lj_board.specs.Seen.{BoardView};

    ghost Value = { BoardView };

    ghost view = { λ b. record { table = b.table.shared.table_id; frame = b.frame } };

    ghost invariant = { λ b. (b.frame ≡ J.frame) × (b.table.shared.table_id.words ≡ size_of b.frame + 1)
        × (size_of b.frame ≤ MAX_CELLS) };
}

/// What one reader of a board has seen: a number for each cell, which never rises. It takes no memory.
#[derive(Drop)]
pub struct Pass {
    seat: Seat<(), View>,
}

impl Model for Pass {
    ghost use Rattle.std.specs.Prelude.{◌≡◌, [], length};
    ghost use Rattle.lj_base.specs.Frames.{size_of};
    ghost use Rattle.lj_board.specs.Seen.{PassView};

    ghost Value = { PassView };

    ghost view = { λ p. record {
      board = record { table = p.seat.table_id; frame = p.seat.me.0.frame };
      seen = p.seat.me.0.seen;
    } };

    ghost invariant = { λ p. (p.seat.me.1 ≡ []) × (length p.seat.me.0.seen ≡ size_of p.seat.me.0.frame) };
}

impl<J: Setting> Board<J> {
    /// A board whose words are the bounds, in the order of the frame's index, and a pass that has seen them.
    pub fn start(alloc: Global, frame: Frame, bounds: &[u64]) -> Result<(Board<J>, Pass), Memory>
        requires frame { frame ≡ J.frame }
        requires bounds { AreDerivable J.frame J.allowed bounds.now }
        ensures board { IfOk result (λ r. r.1.board ≡ r.0) }
        ensures frame { IfOk result (λ r. r.0.frame ≡ J.frame) }
        ensures seen { IfOk result (λ r. r.1.seen ≡ bounds.now) }
    {
        let _size = frame.size();
        let words = words_of(alloc, bounds)?;
        let (table, seat) = Table::of_words(alloc, words.as_slice(), &words)?;
        Ok((Board { table, frame }, Pass { seat }))
    }

    /// The frame whose cells it has.
    pub fn frame(&self) -> Frame
        ensures frame { result ≡ self.now.frame }
        ensures setting { result ≡ J.frame }
    {
        self.frame
    }
}

impl Pass {
    /// Reads the word of a cell. Cost: one load.
    pub fn peek<J: Setting>(&mut self, board: &Board<J>, c: Cell) -> u64
        requires board { self.old.board ≡ board.now }
        requires cell { InFrame J.frame c }
        ensures least { result ≤ seen_of self.old c }
        ensures derivable { DerivableBy J.frame J.allowed c result }
        ensures seen { self.new ≡ saw self.old c result }
        ensures at { seen_of self.new c ≡ result }
        ensures falls { NoneRises self.old self.new }
    {
        let place = board.frame.index(c) as usize;
        board
            .table
            .shared
            .load::<Peek<J>>(&mut self.seat, place + 1)
    }

    /// Lowers the word of a cell to a number, where it is greater. Cost: one atomic minimum.
    pub fn lower<J: Setting>(&mut self, board: &Board<J>, c: Cell, bound: u64)
        requires board { self.old.board ≡ board.now }
        requires cell { InFrame J.frame c }
        requires derivable { DerivableBy J.frame J.allowed c bound }
        ensures seen { self.new ≡ saw self.old c (min (seen_of self.old c) bound) }
        ensures at { seen_of self.new c ≡ min (seen_of self.old c) bound }
        ensures falls { NoneRises self.old self.new }
    {
        index_law();
        let place = board.frame.index(c) as usize;
        board
            .table
            .shared
            .fetch_min::<Lower>(&mut self.seat, place + 1, bound);
    }

    /// Lowers the word of each cell to the cell's number in the list. Cost: an atomic minimum for each cell.
    pub fn lower_all<J: Setting>(&mut self, board: &Board<J>, bounds: &[u64])
        requires board { self.old.board ≡ board.now }
        requires bounds { AreDerivable J.frame J.allowed bounds.now }
        ensures low { (c : Triple) → InFrame J.frame c → seen_of self.new c ≤ at_cell J.frame bounds.now c }
        ensures falls { NoneRises self.old self.new }
    {
        index_law();
        let _frame = board.frame();
        for place in 0..bounds.len() {
            self.lower_at(board, bounds, place);
        }
    }

    // Lowers the word at a place to the number there.
    fn lower_at<J: Setting>(&mut self, board: &Board<J>, bounds: &[u64], place: usize)
        requires board { self.old.board ≡ board.now }
        requires bounds { AreDerivable J.frame J.allowed bounds.now }
        requires inside { place < length bounds.now }
        ensures low { seen_at self.new.seen place ≤ slice_index bounds.now place }
        ensures falls { NoneRises self.old self.new }
        ensures each { (i : ℕ) → seen_at self.new.seen i ≤ seen_at self.old.seen i }
    {
        let number = bounds[place];
        board
            .table
            .shared
            .fetch_min::<Lower>(&mut self.seat, place + 1, number);
    }

    /// Another pass that has seen what this one has. Cost: one load.
    pub fn split<J: Setting>(&mut self, board: &Board<J>) -> Pass
        requires board { self.old.board ≡ board.now }
        ensures new { result ≡ self.old }
        ensures same { self.new ≡ self.old }
    {
        Pass {
            seat: board.table.shared.split_seat::<Twin>(&mut self.seat),
        }
    }

    /// Takes in what another pass has seen: of each cell the lesser number. Cost: one load.
    pub fn join<J: Setting>(&mut self, board: &Board<J>, other: Pass)
        requires board { self.old.board ≡ board.now }
        requires other { other.board ≡ board.now }
        ensures seen { self.new ≡ record self.old { seen = lesser self.old.seen other.seen } }
        ensures least { (c : Triple) → seen_of self.new c ≡ min (seen_of self.old c) (seen_of other c) }
        ensures falls { NoneRises self.old self.new }
        ensures joined { NoneRises other self.new }
    {
        let Pass { seat } = other;
        board.table.shared.join_seat::<Lesser>(&mut self.seat, seat);
    }
}

// The words with which a board starts: word 0, and the bounds.
fn words_of(alloc: Global, bounds: &[u64]) -> Result<Vec<u64>, Memory>
    requires { length bounds.now ≤ MAX_CELLS }
    ensures { IfOk result (λ words. words.items ≡ 0 ∷ bounds.now) }
{
    let mut words = Vec::with_capacity(alloc, bounds.len() + 1)?;
    words.push(0)?;
    words.extend_from_slice(bounds)?;
    Ok(words)
}

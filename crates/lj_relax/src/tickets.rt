ghost use Rattle.std.specs.Prelude.{◌≡◌, ℕ, ◌<◌, ◌≤◌, ◌++◌, [], ◌∷◌, All, length, max, slice_set, IfOk, OnErr, OnOk};
ghost use Rattle.lj_base.specs.Bounds.{AreBounds, at_cell};
ghost use Rattle.lj_base.specs.Cells.{IsCell};
ghost use Rattle.lj_base.specs.Colex.{choose};
ghost use Rattle.lj_base.specs.Frames.{InFrame, index_of, size_of};
ghost use Rattle.lj_induced.specs.Rows.{IsRowAt};
ghost use Rattle.lj_relax.specs.Tickets.{all_sets, first_ticket};

use lj_base::{Cell, Frame, Memory, Row, at_cell_law, binom, cells_law, choose_law};
use std::alloc::Global;
use std::marker::Model;

/// A cell, with copies of a table's bounds and node numbers and of the cell's rows: what a worker needs to find a least
/// price without the table.
#[derive(Drop)]
pub struct Ticket {
    frame: Frame,
    cell: Cell,
    bounds: Vec<u64>,
    nodes: Vec<u64>,
    rows: Vec<Row>,
    room: u64,
}

impl Model for Ticket {
    ghost use Rattle.std.specs.Prelude.{◌≤◌, vec_capacity};
    ghost use Rattle.lj_relax.specs.Tickets.{IsTicket, TicketLists};

    ghost Value = { TicketLists };

    ghost view = { λ t. record {
      frame = t.frame;
      cell = t.cell;
      bounds = t.bounds.items;
      nodes = t.nodes.items;
      rows = t.rows.items;
      room = t.room;
    } };

    ghost invariant = { λ t. IsTicket (record {
      frame = t.frame;
      cell = t.cell;
      bounds = t.bounds.items;
      nodes = t.nodes.items;
      rows = t.rows.items;
      room = t.room;
    }) × (t.room ≤ vec_capacity t.rows) };
}

impl Ticket {
    /// A ticket of the frame's first cell. Its bounds are the numbers of sets, its node numbers 0, and it has no rows
    /// and no room for any.
    pub fn new(alloc: Global, frame: Frame) -> Result<Ticket, Memory>
        ensures { IfOk result (λ ticket. ticket ≡ first_ticket frame) }
    {
        cells_law();
        choose_law();
        let bounds = numbers_of_sets(alloc, frame)?;
        let nodes = vec![in alloc; 0; frame.size() as usize]?;
        Ok(Ticket {
            frame,
            cell: first_cell(frame),
            bounds,
            nodes,
            rows: Vec::new(alloc),
            room: 0,
        })
    }

    /// Makes the room at least `rows`.
    pub fn reserve(&mut self, rows: u64) -> Result<(), Memory>
        ensures ok { OnOk result (self.new ≡ record self.old { room = max self.old.room rows }) }
        ensures err { OnErr result (self.new ≡ self.old) }
    {
        if rows <= self.room {
            return Ok(());
        }
        self.rows.reserve(rows as usize)?;
        self.room = rows;
        Ok(())
    }

    /// How many rows the ticket can hold without taking memory.
    pub fn room(&self) -> u64
        ensures room { result ≡ self.now.room }
        ensures held { length self.now.rows ≤ result }
    {
        self.room
    }

    /// Makes it a ticket of the cell, with copies of both lists and no rows. It takes no memory.
    pub fn fill(&mut self, cell: Cell, bounds: &[u64], nodes: &[u64])
        requires inside { InFrame self.old.frame cell }
        requires bounds { AreBounds self.old.frame bounds.now }
        requires nodes { length nodes.now ≡ size_of self.old.frame }
        ensures { self.new ≡ record self.old { cell = cell; bounds = bounds.now; nodes = nodes.now; rows = [] } }
    {
        self.turn_to(cell);
        self.bounds.copy_from_slice(bounds);
        self.nodes.copy_from_slice(nodes);
    }

    /// Makes it a ticket of the cell, with the lists that it has and no rows. It takes no memory.
    pub fn turn_to(&mut self, cell: Cell)
        requires { InFrame self.old.frame cell }
        ensures { self.new ≡ record self.old { cell = cell; rows = [] } }
    {
        self.cell = cell;
        self.rows.clear();
    }

    /// Replaces the bound and the node number of one cell. It takes no memory.
    pub fn store(&mut self, c: Cell, bound: u64, node: u64)
        requires inside { InFrame self.old.frame c }
        requires some { 1 ≤ bound }
        requires small { bound ≤ choose c.v c.t }
        ensures { self.new ≡ record self.old {
          bounds = slice_set self.old.bounds (index_of self.old.frame c) bound;
          nodes = slice_set self.old.nodes (index_of self.old.frame c) node;
        } }
    {
        at_cell_law();
        let place = self.frame.index(c) as usize;
        self.bounds[place] = bound;
        self.nodes[place] = node;
    }

    /// Appends a row of the ticket's cell. It takes no memory.
    pub fn push_row(&mut self, row: Row)
        requires room { length self.old.rows < self.old.room }
        requires row { IsRowAt self.old.frame self.old.cell row }
        ensures { self.new ≡ record self.old { rows = self.old.rows ++ row ∷ [] } }
    {
        self.rows.push_reserved(row);
    }

    pub fn frame(&self) -> Frame
        ensures { result ≡ self.now.frame }
    {
        self.frame
    }

    pub fn cell(&self) -> Cell
        ensures cell { result ≡ self.now.cell }
        ensures inside { InFrame self.now.frame result }
    {
        self.cell
    }

    /// The bound that was copied for a cell.
    pub fn bound(&self, c: Cell) -> u64
        requires { InFrame self.now.frame c }
        ensures { result ≡ at_cell self.now.frame self.now.bounds c }
    {
        self.frame.at_cell(&self.bounds, c)
    }

    /// The node number that was copied for a cell.
    pub fn node(&self, c: Cell) -> u64
        requires { InFrame self.now.frame c }
        ensures { result ≡ at_cell self.now.frame self.now.nodes c }
    {
        self.frame.at_cell(&self.nodes, c)
    }

    /// The copied bounds, in the order of the frame's index.
    pub fn bounds(&self) -> &[u64]
        ensures bounds { result.now ≡ self.now.bounds }
        ensures are_bounds { AreBounds self.now.frame result.now }
    {
        &self.bounds
    }

    /// The copied node numbers, in the order of the frame's index.
    pub fn nodes(&self) -> &[u64]
        ensures nodes { result.now ≡ self.now.nodes }
        ensures count { length result.now ≡ size_of self.now.frame }
    {
        &self.nodes
    }

    /// The rows of the cell.
    pub fn rows(&self) -> &[Row]
        ensures rows { result.now ≡ self.now.rows }
        ensures fit { All (IsRowAt self.now.frame self.now.cell) result.now }
    {
        &self.rows
    }
}

/// The first cell of the frame.
pub fn first_cell(frame: Frame) -> Cell
    ensures cell { result ≡ record { v = 1; k = 0; t = 0 } }
    ensures inside { InFrame frame result }
    ensures limits { IsCell frame.top }
{
    let _ = frame.top.v;
    Cell { v: 1, k: 0, t: 0 }
}

// The number of sets of each cell of the frame, in the order of its index.
fn numbers_of_sets(alloc: Global, frame: Frame) -> Result<Vec<u64>, Memory>
    ensures { IfOk result (λ numbers. numbers.items ≡ all_sets frame) }
{
    let mut numbers = Vec::with_capacity(alloc, frame.size() as usize)?;
    for i in 0..frame.size() {
        numbers.push_reserved(sets_of(frame.cell(i)));
    }
    Ok(numbers)
}

// The number of sets that a covering of the cell covers.
fn sets_of(c: Cell) -> u64
    ensures { result ≡ choose c.v c.t }
{
    binom(c.v as u64, c.t as u64)
}

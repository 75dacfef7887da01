ghost use Rattle.std.specs.Prelude.{◌≡◌, ◌≢◌, ◌↔◌, ℕ, ◌+◌, ◌<◌, ◌≤◌, true, false, IfOk, IfSome, None, Some, OnOk};
ghost use Rattle.std.specs.Prelude.{IsSome, IsTrue, All, OnErr, length, []};
ghost use Rattle.std.specs.Bool.{OnTrue};
ghost use Rattle.std.specs.List.{AllByRecursion};
ghost use Rattle.lj_base.specs.Bounds.{at_cell};
ghost use Rattle.lj_base.specs.Cells.{Triple};
ghost use Rattle.lj_base.specs.Colex.{choose};
ghost use Rattle.lj_base.specs.Frames.{InFrame, Top, index_of};
ghost use Rattle.lj_cover.specs.Derivations.{DerivableIn, root_cell, tree_cost};
ghost use Rattle.lj_cover.specs.Instances.{IsRowOf, rows_at};
ghost use Rattle.lj_cover.specs.Rules.{IsCovering};
ghost use Rattle.lj_deriv.specs.Forests.{IsForestOf};
ghost use Rattle.lj_deriv.specs.Nodes.{IsDerivedIn, node_tree, plan_tree};
ghost use Rattle.lj_deriv.specs.Plans.{IsPlanOf};
ghost use Rattle.lj_induced.specs.Rows.{IsRowAt};
ghost use Rattle.lj_relax.specs.Found.{IsLeastFound, found_cost};
ghost use Rattle.lj_relax.specs.Steps.{Accepts, IsBelow, Publishes};
ghost use Rattle.lj_relax.specs.Tickets.{TicketLists, snapshot, snapshot_of};
ghost use Rattle.lj_table.specs.Claiming.{IsClaimed, IsFirst};
ghost use Rattle.lj_table.specs.Keeping.{OnlyShuts, PublishesKeeping};
ghost use Rattle.lj_table.specs.Lowering.{AgreesWith};
ghost use Rattle.lj_table.specs.Settling.{IsClosedAt, IsFallenAt, IsKept, IsLater, IsTurn, NoneCheaper};
ghost use Rattle.lj_table.specs.Starting.{IsFresh};
ghost use Rattle.lj_table.specs.Tables.{AreLeast, Extends, Fits, IsAtRest, IsNodeOf, IsOfFirst, IsTable, KeepsNodes};
ghost use Rattle.lj_table.specs.Tables.{is_taken, state_of};

use crate::agreement::agrees;
use crate::closed::ClosedMap;
use crate::fitting::{are_nodes, are_rows};
use crate::marks::{first_open_cell, give_back, next_cell};
use crate::outcomes::{Claimed, Outcome};
use crate::places::top_law;
use crate::rests::Rest;
use crate::rows::push_rows;
use crate::starting::begin;
use crate::store::Store;
use lj_base::{Cell, Frame, Memory, Row, cells_law, index_law};
use lj_bitmap::RankMap;
use lj_cover::laws::{more_uploads_derive, price_by_row, rows_are_of_uploads};
use lj_deriv::{Arena, Forest, MAX_ARENA_UPLOADS, Plan};
use lj_relax::laws::{
    accept_keeps_good, bounds_are_positive, cheap_cells_stay_least, publish_keeps_good,
    rest_is_least,
};
use lj_relax::{Found, Proposal, Ticket, instance_below};
use lj_rows::present_rows;
use lj_upload::Accepted;
use std::alloc::Global;
use std::marker::Model;

/// For each cell of a frame a bound, with a derivation that costs it; the uploads from which these are made; and the
/// cells that are open, at which a rule may be cheaper than the bound.
#[derive(Drop)]
pub struct Table {
    store: Store,
    // When the table was settled last.
    rest: Option<Rest>,
}

impl Model for Table {
    ghost use Rattle.lj_table.specs.Settling.{IsWhole};
    ghost use Rattle.lj_table.specs.Tables.{Contents, contents_of};

    ghost Value = { Contents };

    ghost view = { λ t. contents_of t.store };

    ghost invariant = { λ t. IsWhole (contents_of t.store) t.rest };
}

impl Table {
    /// A table without uploads, in which each cell is open and none is taken. A cell with `t = 0` or `k = v` starts
    /// with one block, else one with `t = 1` with blocks in a row, else one with `t = k` with all blocks, and else with
    /// the covering of the cell of one point less in each block. It takes all memory that the marks need.
    pub fn start(alloc: Global, frame: Frame) -> Result<Table, Memory>
        ensures { IfOk result (IsFresh frame) }
    {
        index_law();
        let n = frame.size();
        let mut arena = Arena::new(alloc, frame);
        arena.reserve(n)?;
        let mut bounds = vec![in alloc; 0; n as usize]?;
        let mut nodes = vec![in alloc; 0; n as usize]?;
        let closed = ClosedMap::new(alloc, n)?;
        let busy = RankMap::new(alloc, n)?;
        begin(frame, &mut arena, &mut bounds, &mut nodes);
        arena.nodes_derive();
        let store = Store {
            arena,
            bounds,
            nodes,
            closed,
            busy,
        };
        Ok(Table { store, rest: None })
    }

    pub fn frame(&self) -> Frame
        ensures frame { result ≡ self.now.arena.frame }
        ensures table { IsTable self.now }
    {
        self.store.arena.frame()
    }

    /// The bound of a cell.
    pub fn bound(&self, c: Cell) -> u64
        requires { InFrame self.now.arena.frame c }
        ensures bound { result ≡ (state_of self.now).bounds c }
        ensures derivable { DerivableIn self.now.arena.frame self.now.arena.uploads c result }
        ensures small { result ≤ choose c.v c.t }
    {
        self.store.bound(c)
    }

    /// All bounds, in the order of the frame's index.
    pub fn bounds(&self) -> &[u64]
        ensures bounds { result.now ≡ self.now.bounds }
        ensures table { IsTable self.now }
    {
        &self.store.bounds
    }

    /// The node of a cell: its number in the table's arena.
    pub fn node(&self, c: Cell) -> u64
        requires { InFrame self.now.arena.frame c }
        ensures node { result ≡ at_cell self.now.arena.frame self.now.nodes c }
        ensures derivation { IsNodeOf self.now.arena result c ((state_of self.now).bounds c) }
    {
        self.store.arena.frame().at_cell(&self.store.nodes, c)
    }

    /// Whether a cell is open.
    pub fn is_pending(&self, c: Cell) -> bool
        requires { InFrame self.now.arena.frame c }
        ensures { result ≡ (state_of self.now).pending c }
    {
        !self.store.closed.has(self.store.arena.frame().index(c))
    }

    /// Whether no cell is open. Then each bound is the least. Cost: a step for each 512 cells.
    pub fn at_rest(&self) -> bool
        ensures rest { IsTrue result ↔ IsAtRest self.now }
        ensures least { OnTrue result (AreLeast self.now) }
    {
        rest_is_least();
        match first_open_cell(self.store.arena.frame(), &self.store.closed) {
            Some(_) => false,
            None => true,
        }
    }

    /// The uploads that were accepted, in their order.
    pub fn accepted(&self) -> &[Accepted]
        ensures uploads { result.now ≡ self.now.arena.uploads }
        ensures few { length result.now ≤ MAX_ARENA_UPLOADS }
        ensures covering { AllByRecursion IsCovering result.now }
        ensures inside { AllByRecursion (λ u. InFrame self.now.arena.frame u.cell) result.now }
    {
        self.store.arena.uploads()
    }

    /// A derivation of the cell from the uploads, of the node that the cell has now: it costs the bound, also where the
    /// bound of a cell below it has fallen since the node was made.
    pub fn plan(&self, alloc: Global, c: Cell) -> Result<Plan, Memory>
        requires { InFrame self.now.arena.frame c }
        ensures cell { IfOk result (λ p. root_cell (plan_tree p) ≡ c) }
        ensures cost { IfOk result (λ p. tree_cost (plan_tree p) ≡ (state_of self.now).bounds c) }
        ensures derived { IfOk result (λ p. IsDerivedIn self.now.arena.frame self.now.arena.uploads (plan_tree p)) }
        ensures plan { IfOk result (IsPlanOf self.now.arena (at_cell self.now.arena.frame self.now.nodes c)) }
    {
        self.store.arena.nodes_derive();
        self.store.arena.plan(alloc, self.node(c))
    }

    /// The derivations of all cells, of the nodes that they have now, which stand alone: the roots are the cells'
    /// nodes, in index order.
    pub fn forest(&self, alloc: Global) -> Result<Forest, Memory>
        ensures { IfOk result (IsForestOf self.now.arena self.now.nodes) }
    {
        cells_law();
        let frame = self.store.arena.frame();
        top_law(frame);
        self.store.arena.forest(alloc, &self.store.nodes)
    }

    /// Whether what is found over a ticket may be published in this table. Cost: a comparison of the ticket's lists
    /// with the table's, and a few steps for each row and each cell of which the ticket has another bound or node.
    pub fn fits(&self, ticket: &Ticket) -> bool
        ensures { IsTrue result ↔ Fits self.now.arena ticket.now }
    {
        self.fit(ticket).is_some()
    }

    /// Where a ticket fits the table, whether its bounds are all those of now; `None` where it does not fit. Cost: that
    /// of `fits`.
    pub fn fit(&self, ticket: &Ticket) -> Option<bool>
        ensures fits { IsSome result ↔ Fits self.now.arena ticket.now }
        ensures same { IfSome result (λ same. IsTrue same ↔ (ticket.now.bounds ≡ self.now.bounds)) }
    {
        let store = &self.store;
        let frame = ticket.frame();
        if frame != store.arena.frame()
            || !are_rows(store.arena.uploads(), ticket.cell(), ticket.rows())
        {
            return None;
        }
        are_nodes(
            frame,
            &store.arena,
            &store.nodes,
            &store.bounds,
            ticket.nodes(),
            ticket.bounds(),
        )
    }
}

impl Table {
    /// Makes room for one more node; all else stays.
    pub fn reserve(&mut self) -> Result<(), Memory>
        ensures room { OnOk result (1 ≤ self.new.arena.spare) }
        ensures same { self.new
            ≡ record self.old { arena = record self.old.arena { spare = self.new.arena.spare } } }
        ensures err { OnErr result (self.new ≡ self.old) }
        ensures more { self.old.arena.spare ≤ self.new.arena.spare }
        ensures fits { (q : TicketLists) → Fits self.old.arena q → Fits self.new.arena q }
        ensures extends { Extends self.old.arena self.new.arena }
    {
        self.store.arena.reserve(1)
    }

    /// Appends an upload. It lowers the bounds of its own cell and of the cells derived at its point and at its pair of
    /// least degree, where these cost less, and opens the cells that read a lowered one and those at which it has a
    /// row. Cost: a few steps for each cell that is opened.
    pub fn accept(&mut self, up: Accepted) -> Result<(), Memory>
        requires inside { InFrame self.old.arena.frame up.cell }
        requires few { length self.old.arena.uploads < MAX_ARENA_UPLOADS }
        ensures step { OnOk result (Accepts (state_of self.old) up (state_of self.new)) }
        ensures taken { OnOk result ((c : Triple) → InFrame self.old.arena.frame c
            → is_taken self.new c ≡ is_taken self.old c) }
        ensures nodes { OnOk result (KeepsNodes self.old self.new) }
        ensures err { OnErr result (self.new
            ≡ record self.old { arena = record self.old.arena { spare = self.new.arena.spare } }) }
        ensures more { OnErr result (self.old.arena.spare ≤ self.new.arena.spare) }
        ensures fits { (q : TicketLists) → Fits self.old.arena q → Fits self.new.arena q }
        ensures extends { Extends self.old.arena self.new.arena }
    {
        accept_keeps_good();
        more_uploads_derive();
        let _ = up.design();
        self.store.arena.reserve(3)?;
        let u = self.store.arena.push_upload(up)?;
        self.store.take_in(u);
        Ok(())
    }

    /// Takes the first open cell in index order that is not taken, or else the first open one, and copies what is
    /// needed to find a least price there into the ticket. It takes no memory.
    pub fn claim(&mut self, ticket: &mut Ticket) -> Claimed
        requires frame { ticket.old.frame ≡ self.old.arena.frame }
        requires room { length self.old.arena.uploads ≤ ticket.old.room }
        ensures claim { IsClaimed self.old ticket.old result self.new ticket.new }
        ensures fits { (q : TicketLists) → Fits self.old.arena q → Fits self.new.arena q }
    {
        bounds_are_positive();
        rows_are_of_uploads();
        let frame = self.store.arena.frame();
        match next_cell(frame, &self.store.closed, &self.store.busy) {
            None => Claimed::NoneOpen,
            Some(cell) => {
                self.store.busy.mark(frame.index(cell));
                ticket.fill(cell, &self.store.bounds, &self.store.nodes);
                push_rows(self.store.arena.uploads(), ticket);
                Claimed::Cell { cell }
            }
        }
    }

    /// Publishes what was found over a ticket, which may be older than any number of other steps. It takes no memory.
    pub fn publish(&mut self, p: &Proposal) -> Outcome
        requires room { 1 ≤ self.old.arena.spare }
        requires fits { Fits self.old.arena p.now.ticket }
        ensures step { Publishes (state_of self.old) (snapshot_of p.now.ticket) (found_cost p.now.found)
            result.lowered result.agreed (state_of self.new) }
        ensures untaken { is_taken self.new p.now.ticket.cell ≡ false }
        ensures taken { (c : Triple) → InFrame self.old.arena.frame c → c ≢ p.now.ticket.cell
            → is_taken self.new c ≡ is_taken self.old c }
        ensures nodes { KeepsNodes self.old self.new }
        ensures spare { self.old.arena.spare ≤ self.new.arena.spare + 1 }
        ensures fits { (q : TicketLists) → Fits self.old.arena q → Fits self.new.arena q }
        ensures extends { Extends self.old.arena self.new.arena }
    {
        self.publish_fitting(p, false)
    }

    /// `publish`, where `fit` has shown whether the ticket's bounds are all those of now, which saves comparing them
    /// once more.
    pub fn publish_fitting(&mut self, p: &Proposal, same: bool) -> Outcome
        requires room { 1 ≤ self.old.arena.spare }
        requires fits { Fits self.old.arena p.now.ticket }
        requires same { same ≡ true → p.now.ticket.bounds ≡ self.old.bounds }
        ensures step { Publishes (state_of self.old) (snapshot_of p.now.ticket) (found_cost p.now.found)
            result.lowered result.agreed (state_of self.new) }
        ensures untaken { is_taken self.new p.now.ticket.cell ≡ false }
        ensures taken { (c : Triple) → InFrame self.old.arena.frame c → c ≢ p.now.ticket.cell
            → is_taken self.new c ≡ is_taken self.old c }
        ensures nodes { KeepsNodes self.old self.new }
        ensures spare { self.old.arena.spare ≤ self.new.arena.spare + 1 }
        ensures fits { (q : TicketLists) → Fits self.old.arena q → Fits self.new.arena q }
        ensures extends { Extends self.old.arena self.new.arena }
    {
        let store = &self.store;
        let agreed = agrees(&store.arena, &store.bounds, p.ticket(), same);
        let lowered = self.publish_checked(p, agreed);
        Outcome { lowered, agreed }
    }

    /// Finds a least price at the first open cell until none is open; then each bound is the least. It works over the
    /// table's own lists. Cost: for each cell, each time that it is opened, the search for a least product and a step
    /// for each upload; but as long as no bound has fallen since the table was settled last, only a step for each
    /// upload that has come since. After `Memory` bounds may have fallen.
    pub fn settle(&mut self, alloc: Global) -> Result<(), Memory>
        ensures rest { OnOk result (IsAtRest self.new) }
        ensures least { OnOk result (AreLeast self.new) }
        ensures frame { self.new.arena.frame ≡ self.old.arena.frame }
        ensures uploads { self.new.arena.uploads ≡ self.old.arena.uploads }
        ensures falls { (c : Triple) → InFrame self.old.arena.frame c
            → (state_of self.new).bounds c ≤ (state_of self.old).bounds c }
        ensures nodes { KeepsNodes self.old self.new }
        ensures untaken { (c : Triple) → InFrame self.old.arena.frame c → is_taken self.old c ≡ false
            → is_taken self.new c ≡ false }
        ensures fits { (q : TicketLists) → Fits self.old.arena q → Fits self.new.arena q }
        ensures extends { Extends self.old.arena self.new.arena }
    {
        rest_is_least();
        let mut rows = Vec::new(alloc);
        while let Some(c) = self.first_open() {
            self.advance(c, &mut rows)?;
        }
        self.keep_rest();
        Ok(())
    }

    // Keeps when the table was at rest: now.
    fn keep_rest(&mut self)
        requires { IsAtRest self.old }
        ensures { self.new ≡ self.old }
    {
        self.rest = Some(Rest {
            uploads: self.store.arena.uploads().len(),
            nodes: self.store.arena.len(),
        });
    }

    // Closes the first open cell, where it is known that nothing is cheaper there, or makes a turn at it.
    fn advance(&mut self, c: Cell, rows: &mut Vec<Row>) -> Result<(), Memory>
        requires first { IsFirst self.old.arena.frame self.old.closed c }
        ensures turn { OnOk result (IsTurn (index_of self.old.arena.frame c) self.old self.new) }
        ensures later { IsLater self.old self.new }
    {
        if self.is_known(c, rows)? {
            self.close(c);
            return Ok(());
        }
        self.reserve()?;
        present_rows(
            self.store.arena.uploads(),
            self.store.arena.frame(),
            c,
            rows,
        )?;
        self.turn(c, rows);
        Ok(())
    }

    // Whether the uploads since the table was settled last show that nothing is cheaper at the cell than the bound.
    fn is_known(&self, c: Cell, rows: &mut Vec<Row>) -> Result<bool, Memory>
        requires { InFrame self.now.arena.frame c }
        ensures { IfOk result (λ known. OnTrue known
            (NoneCheaper self.now.arena.frame self.now.bounds self.now.arena.uploads c)) }
    {
        match self.rest {
            Some(rest) => self.store.is_least_since(rest, c, rows),
            None => Ok(false),
        }
    }

    // Closes an open cell at which nothing is cheaper than the bound.
    fn close(&mut self, c: Cell)
        requires first { IsFirst self.old.arena.frame self.old.closed c }
        requires least { NoneCheaper self.old.arena.frame self.old.bounds self.old.arena.uploads c }
        ensures turn { IsTurn (index_of self.old.arena.frame c) self.old self.new }
        ensures later { IsLater self.old self.new }
    {
        // For what the table's type says.
        let _ = &self.store;
        self.keep_closed(c);
    }

    // Closes a cell at which nothing is cheaper than the bound, whether it is open or not.
    fn keep_closed(&mut self, c: Cell)
        requires inside { InFrame self.old.arena.frame c }
        requires least { NoneCheaper self.old.arena.frame self.old.bounds self.old.arena.uploads c }
        ensures arena { self.new.arena ≡ self.old.arena }
        ensures marks { IsClosedAt (index_of self.old.arena.frame c) self.old self.new }
        ensures later { IsLater self.old self.new }
        ensures only { OnlyShuts (λ d. d ≡ c) self.old self.new }
    {
        let i = self.store.arena.frame().index(c);
        give_back(&mut self.store.closed, &mut self.store.busy, i, true);
    }

    // The first open cell.
    fn first_open(&self) -> Option<Cell>
        ensures table { IsTable self.now }
        ensures none { result ≡ None → IsAtRest self.now }
        ensures some { IfSome result (IsFirst self.now.arena.frame self.now.closed) }
    {
        first_open_cell(self.store.arena.frame(), &self.store.closed)
    }

    // One publication at an open cell over the bounds and rows of now, with no ticket; where nothing is cheaper, the
    // cell is closed.
    fn turn(&mut self, c: Cell, rows: &[Row])
        requires room { 1 ≤ self.old.arena.spare }
        requires first { IsFirst self.old.arena.frame self.old.closed c }
        requires rows { rows.now ≡ rows_at self.old.arena.uploads c }
        requires fit { All (IsRowAt self.old.arena.frame c) rows.now }
        ensures turn { IsTurn (index_of self.old.arena.frame c) self.old self.new }
        ensures later { IsLater self.old self.new }
    {
        match self.cheaper(c, rows) {
            Some(found) => self.lower_keeping(c, rows, &found),
            None => self.close(c),
        }
    }

    // An instance of least price at the cell, where that is below the bound.
    fn cheaper(&self, c: Cell, rows: &[Row]) -> Option<Found>
        requires inside { InFrame self.now.arena.frame c }
        requires rows { rows.now ≡ rows_at self.now.arena.uploads c }
        requires fit { All (IsRowAt self.now.arena.frame c) rows.now }
        ensures some { IfSome result
            (IsLeastFound self.now.arena.frame (snapshot self.now.arena.frame c self.now.bounds rows.now)) }
        ensures below { IfSome result
            (λ found. IsBelow (found_cost found) (at_cell self.now.arena.frame self.now.bounds c)) }
        ensures none { result ≡ None → NoneCheaper self.now.arena.frame self.now.bounds self.now.arena.uploads c }
    {
        bounds_are_positive();
        rows_are_of_uploads();
        price_by_row();
        let frame = self.store.arena.frame();
        instance_below(frame, &self.store.bounds, rows, c, self.store.bound(c))
    }

    // Publishes what was found at an open cell over the bounds and rows of now; but of the cells next to it that read
    // it, those that were closed and whose bound is at most the new one stay closed.
    fn lower_keeping(&mut self, c: Cell, rows: &[Row], found: &Found)
        requires room { 1 ≤ self.old.arena.spare }
        requires first { IsFirst self.old.arena.frame self.old.closed c }
        requires rows { rows.now ≡ rows_at self.old.arena.uploads c }
        requires found { IsLeastFound self.old.arena.frame
            (snapshot self.old.arena.frame c self.old.bounds rows.now) found.now }
        requires below { IsBelow (found_cost found.now) (at_cell self.old.arena.frame self.old.bounds c) }
        ensures turn { IsTurn (index_of self.old.arena.frame c) self.old self.new }
        ensures later { IsLater self.old self.new }
    {
        let frame = self.store.arena.frame();
        let fewer_points = self.if_closed(with_fewer_points(c));
        let smaller_sets = self.if_closed(with_smaller_sets(c));
        let larger_blocks = self.if_closed(with_larger_blocks(frame, c));
        self.lower(c, rows, found);
        self.keep(c, fewer_points);
        self.keep(c, smaller_sets);
        self.keep(c, larger_blocks);
    }

    // The cell, where there is one and it is closed.
    fn if_closed(&self, d: Option<Cell>) -> Option<Cell>
        requires inside { IfSome d (InFrame self.now.arena.frame) }
        ensures inside { IfSome result (InFrame self.now.arena.frame) }
        ensures closed { IfSome result (λ cell. (state_of self.now).pending cell ≡ false) }
    {
        match d {
            Some(cell) => if self.is_pending(cell) { None } else { d },
            None => None,
        }
    }

    // Closes the cell d, where its bound is at most that of c.
    fn keep(&mut self, c: Cell, d: Option<Cell>)
        requires cell { InFrame self.old.arena.frame c }
        requires inside { IfSome d (InFrame self.old.arena.frame) }
        requires least { IsKept c self.old.arena self.old.bounds d }
        ensures arena { self.new.arena ≡ self.old.arena }
        ensures bounds { self.new.bounds ≡ self.old.bounds }
        ensures closed { length self.new.closed ≡ length self.old.closed }
        ensures later { IsLater self.old self.new }
        ensures only { OnlyShuts (λ e. d ≡ Some e) self.old self.new }
    {
        if let Some(cell) = d {
            if self.store.bound(cell) <= self.store.bound(c) {
                self.keep_closed(cell);
            }
        }
    }

    // Publishes what was found at an open cell over the bounds and rows of now.
    fn lower(&mut self, c: Cell, rows: &[Row], found: &Found)
        requires room { 1 ≤ self.old.arena.spare }
        requires first { IsFirst self.old.arena.frame self.old.closed c }
        requires rows { rows.now ≡ rows_at self.old.arena.uploads c }
        requires found { IsLeastFound self.old.arena.frame
            (snapshot self.old.arena.frame c self.old.bounds rows.now) found.now }
        requires below { IsBelow (found_cost found.now) (at_cell self.old.arena.frame self.old.bounds c) }
        ensures fallen { IsFallenAt (index_of self.old.arena.frame c) self.old.bounds self.new.bounds }
        ensures turn { IsTurn (index_of self.old.arena.frame c) self.old self.new }
        ensures later { IsLater self.old self.new }

        // A cell that was closed still has nothing cheaper, where its bound is at most the new one.
        ensures least { (d : Triple) → InFrame self.old.arena.frame d → (state_of self.old).pending d ≡ false
            → at_cell self.new.arena.frame self.new.bounds d ≤ at_cell self.new.arena.frame self.new.bounds c
            → NoneCheaper self.new.arena.frame self.new.bounds self.new.arena.uploads d }
    {
        publish_keeps_good();
        cheap_cells_stay_least();
        bounds_are_positive();
        rows_are_of_uploads();
        self.store.arena.nodes_derive();
        let frame = self.store.arena.frame();
        self.store.lower_here(c, rows, found);
        give_back(
            &mut self.store.closed,
            &mut self.store.busy,
            frame.index(c),
            true,
        );
    }
}

// Tickets of which it is known when their lists were the table's.
impl Table {
    /// How many nodes the table has made.
    pub fn node_count(&self) -> u64
        ensures { result ≡ length self.now.arena.rules }
    {
        self.store.arena.len()
    }

    /// The cell of a node.
    pub fn node_cell(&self, node: u64) -> Cell
        requires { node < length self.now.arena.rules }
        ensures { result ≡ root_cell (node_tree self.now.arena node) }
    {
        self.store.arena.cell(node)
    }

    /// The cost of a node.
    pub fn node_cost(&self, node: u64) -> u64
        requires { node < length self.now.arena.rules }
        ensures { result ≡ tree_cost (node_tree self.now.arena node) }
    {
        self.store.arena.cost(node)
    }

    /// Copies the table's lists into a ticket, which loses its rows. It takes no memory.
    pub fn copy_into(&self, ticket: &mut Ticket)
        requires frame { ticket.old.frame ≡ self.now.arena.frame }
        ensures lists { ticket.new
            ≡ record ticket.old { bounds = self.now.bounds; nodes = self.now.nodes; rows = [] } }
        ensures latest { IsOfFirst self.now.arena (length self.now.arena.rules) ticket.new }
    {
        bounds_are_positive();
        ticket.fill(ticket.cell(), &self.store.bounds, &self.store.nodes);
    }

    /// `copy_into`, where the ticket's lists are those that the table had when it had made so many nodes. Cost: a few
    /// steps for each node that has come since. It takes no memory.
    pub fn catch_up(&self, ticket: &mut Ticket, nodes: u64)
        requires known { IsOfFirst self.now.arena nodes ticket.old }
        ensures lists { ticket.new
            ≡ record ticket.old { bounds = self.now.bounds; nodes = self.now.nodes; rows = [] } }
        ensures latest { IsOfFirst self.now.arena (length self.now.arena.rules) ticket.new }
    {
        ticket.turn_to(ticket.cell());
        self.store.copy_since(nodes, ticket);
    }

    /// `fits`, where the ticket's lists are known to be those that the table had at some time. Cost: a few steps for
    /// each row.
    pub fn fits_known(&self, ticket: &Ticket) -> bool
        requires known { (known : ℕ) × IsOfFirst self.now.arena known ticket.now }
        ensures { IsTrue result ↔ Fits self.now.arena ticket.now }
    {
        are_rows(self.store.arena.uploads(), ticket.cell(), ticket.rows())
    }

    /// `claim`, where the ticket has the table's lists already. Cost: the search for the cell, and a step for each
    /// upload.
    pub fn claim_current(&mut self, ticket: &mut Ticket) -> Claimed
        requires frame { ticket.old.frame ≡ self.old.arena.frame }
        requires room { length self.old.arena.uploads ≤ ticket.old.room }
        requires bounds { ticket.old.bounds ≡ self.old.bounds }
        requires nodes { ticket.old.nodes ≡ self.old.nodes }
        ensures claim { IsClaimed self.old ticket.old result self.new ticket.new }
        ensures latest { IsOfFirst self.new.arena (length self.new.arena.rules) ticket.new }
        ensures fits { (q : TicketLists) → Fits self.old.arena q → Fits self.new.arena q }
    {
        rows_are_of_uploads();
        let frame = self.store.arena.frame();
        match next_cell(frame, &self.store.closed, &self.store.busy) {
            None => Claimed::NoneOpen,
            Some(cell) => {
                self.store.busy.mark(frame.index(cell));
                ticket.turn_to(cell);
                push_rows(self.store.arena.uploads(), ticket);
                Claimed::Cell { cell }
            }
        }
    }

    /// `publish`, where the ticket's lists are those that the table had when it had made so many nodes; but of the
    /// cells next to the published one that read it, those that were closed stay closed, where it is known that still
    /// nothing is cheaper there. Cost: a few steps for each node that has come since, and for each cell that is opened.
    pub fn publish_keeping(&mut self, p: &Proposal, nodes: u64) -> Outcome
        requires room { 1 ≤ self.old.arena.spare }
        requires fits { Fits self.old.arena p.now.ticket }
        requires known { IsOfFirst self.old.arena nodes p.now.ticket }
        ensures step { PublishesKeeping (state_of self.old) (snapshot_of p.now.ticket) (found_cost p.now.found)
            result.lowered result.agreed (state_of self.new) }
        ensures untaken { is_taken self.new p.now.ticket.cell ≡ false }
        ensures taken { (c : Triple) → InFrame self.old.arena.frame c → c ≢ p.now.ticket.cell
            → is_taken self.new c ≡ is_taken self.old c }
        ensures nodes { KeepsNodes self.old self.new }
        ensures spare { self.old.arena.spare ≤ self.new.arena.spare + 1 }
        ensures fits { (q : TicketLists) → Fits self.old.arena q → Fits self.new.arena q }
        ensures extends { Extends self.old.arena self.new.arena }
    {
        let agreed = self.store.agrees_since(nodes, p.ticket());
        let (frame, c) = (p.ticket().frame(), p.ticket().cell());
        let fewer_points = self.if_closed(with_fewer_points(c));
        let smaller_sets = self.if_closed(with_smaller_sets(c));
        let larger_blocks = self.if_closed(with_larger_blocks(frame, c));
        let lowered = self.publish_checked(p, agreed);
        if !lowered {
            return Outcome { lowered, agreed };
        }
        self.keep(c, fewer_points);
        self.keep(c, smaller_sets);
        self.keep(c, larger_blocks);
        Outcome { lowered, agreed }
    }

    // `publish`, where it has been found out whether the ticket agrees.
    fn publish_checked(&mut self, p: &Proposal, agreed: bool) -> bool
        requires room { 1 ≤ self.old.arena.spare }
        requires fits { Fits self.old.arena p.now.ticket }
        requires agreed { IsTrue agreed ↔ AgreesWith self.old.arena self.old.bounds p.now.ticket }
        ensures step { Publishes (state_of self.old) (snapshot_of p.now.ticket) (found_cost p.now.found)
            result agreed (state_of self.new) }
        ensures untaken { is_taken self.new p.now.ticket.cell ≡ false }
        ensures taken { (c : Triple) → InFrame self.old.arena.frame c → c ≢ p.now.ticket.cell
            → is_taken self.new c ≡ is_taken self.old c }
        ensures nodes { KeepsNodes self.old self.new }
        ensures spare { self.old.arena.spare ≤ self.new.arena.spare + 1 }
        ensures fits { (q : TicketLists) → Fits self.old.arena q → Fits self.new.arena q }
        ensures extends { Extends self.old.arena self.new.arena }

        // A cell that was closed still has nothing cheaper, where its bound is at most that of the published one.
        ensures least { (d : Triple) → InFrame self.old.arena.frame d → (state_of self.old).pending d ≡ false
            → at_cell self.new.arena.frame self.new.bounds d
            ≤ at_cell self.new.arena.frame self.new.bounds p.now.ticket.cell
            → NoneCheaper self.new.arena.frame self.new.bounds self.new.arena.uploads d }
    {
        publish_keeps_good();
        cheap_cells_stay_least();
        bounds_are_positive();
        rows_are_of_uploads();
        self.store.arena.nodes_derive();
        let _ = p.cost();
        let ticket = p.ticket();
        let lowered = self.store.lower(p);
        let i = self.store.arena.frame().index(ticket.cell());
        give_back(&mut self.store.closed, &mut self.store.busy, i, agreed);
        lowered
    }
}

// The cell of one point less, where there is one.
fn with_fewer_points(c: Cell) -> Option<Cell>
    ensures { (frame : Top) → InFrame frame c → IfSome result (InFrame frame) }
{
    if 1 < c.v && c.k < c.v {
        Some(Cell {
            v: c.v - 1,
            k: c.k,
            t: c.t,
        })
    } else {
        None
    }
}

// The cell of one point less in each set, where there is one.
fn with_smaller_sets(c: Cell) -> Option<Cell>
    ensures { (frame : Top) → InFrame frame c → IfSome result (InFrame frame) }
{
    if 0 < c.t {
        Some(Cell {
            v: c.v,
            k: c.k,
            t: c.t - 1,
        })
    } else {
        None
    }
}

// The cell of one point more in each block, where the frame has one.
fn with_larger_blocks(frame: Frame, c: Cell) -> Option<Cell>
    ensures { InFrame frame c → IfSome result (InFrame frame) }
{
    if c.k < c.v && c.k < frame.top.k {
        Some(Cell {
            v: c.v,
            k: c.k + 1,
            t: c.t,
        })
    } else {
        None
    }
}

ghost use Rattle.std.specs.Prelude.{◌≡◌, ◌≤◌, [], IfNone, IfOk, OnOk};
ghost use Rattle.std.specs.List.{AllByRecursion};
ghost use Rattle.lj_base.specs.Cells.{Triple};
ghost use Rattle.lj_base.specs.Colex.{choose};
ghost use Rattle.lj_base.specs.Frames.{InFrame};
ghost use Rattle.lj_board.specs.Seen.{NoneRises, saw, seen_of};
ghost use Rattle.lj_cover.specs.Uses.{DerivableBy};
ghost use Rattle.lj_table.specs.Starting.{first_bound};
ghost use Rattle.lj_shared.specs.Holding.{IsShownPlan};
ghost use Rattle.lj_shared.specs.Passes.{AtMostEach, AtMostOffers, IsWorked};

use crate::held::{Held, Settling, Work};
use crate::known::{KnownProposal, KnownTicket};
use crate::locked::Locked;
use crate::state::{Next, State};
use lj_base::{Cell, Frame, Memory};
use lj_board::{Board, Pass, Setting};
use lj_deriv::Plan;
use lj_history::History;
use lj_relax::Ticket;
use lj_table::{Outcome, Table};
use lj_upload::Accepted;
use std::alloc::Global;
use std::hint::spin_loop;
use std::marker::Model;
use std::sync::{Condvar, Mutex, MutexGuard, Wait};

// How often a thread looks whether the lock is free before it sleeps, and how many pauses it makes after the first look;
// after each further look it makes twice as many. The lock is held for about a microsecond as a rule, where to sleep and
// to be woken takes tens of them.
const LOOKS: u64 = 7;

const FIRST_PAUSES: u64 = 16;

/// One table for many threads. Its bounds are improved under a lock; each cell has a word on the board beside it, which
/// is read without the lock. The table is of the run's frame and has allowed uploads alone.
#[derive(Drop)]
pub struct Shared<J: Setting> {
    frame: Frame,
    state: Mutex<Locked<J>>,
    changed: Condvar,
    board: Board<J>,
}

impl<J: Setting> Model for Shared<J> {
    ghost use Rattle.std.specs.Prelude.{◌≡◌};
    ghost use Rattle.lj_board.specs.Seen.{BoardView};

    ghost Value = { BoardView };

    ghost view = { λ s. s.board };

    ghost invariant = { λ s. (s.frame ≡ J.frame) × (s.board.frame ≡ J.frame) };
}

/// What a worker's turn comes to: the ticket comes back, or there is no further turn.
#[derive(Drop)]
pub enum Worked<J: Setting> {
    Turn { ticket: KnownTicket<J> },
    Ended,
}

impl<J: Setting> Shared<J> {
    /// A fresh table of the frame, with a history that is new, and a pass that has seen its bounds. Workers wait for
    /// uploads until as many clients have left as are given here.
    pub fn start(
        alloc: Global,
        frame: Frame,
        clients: u64,
        history: History,
    ) -> Result<(Shared<J>, Pass), Memory>
        requires frame { frame ≡ J.frame }
        requires named { history.history ≡ J.history }
        requires new { history.changes ≡ [] }
        ensures board { IfOk result (λ r. r.1.board ≡ r.0) }
        ensures frame { IfOk result (λ r. r.0.frame ≡ J.frame) }
        ensures seen { IfOk result (λ r. (c : Triple) → InFrame J.frame c → seen_of r.1 c ≡ first_bound c) }
        ensures small { IfOk result (λ r. (c : Triple) → InFrame J.frame c → seen_of r.1 c ≤ choose c.v c.t) }
    {
        let table = Table::start(alloc, frame)?;
        let (board, pass) = Board::start(alloc, frame, table.bounds())?;
        let held = Held::start(State { table, clients });
        let state = Mutex::new(Locked::start(held, history));
        let shared = Shared {
            frame,
            state,
            changed: Condvar::new(),
            board,
        };
        Ok((shared, pass))
    }

    pub fn frame(&self) -> Frame
        ensures frame { result ≡ self.now.frame }
        ensures setting { result ≡ J.frame }
    {
        self.frame
    }

    /// The board, over which passes are split and joined.
    pub fn board(&self) -> &Board<J>
        ensures { result.now ≡ self.now }
    {
        &self.board
    }

    /// Reads the word of a cell. It takes no lock and waits for nobody.
    pub fn bound(&self, pass: &mut Pass, c: Cell) -> u64
        requires pass { pass.old.board ≡ self.now }
        requires cell { InFrame J.frame c }
        ensures least { result ≤ seen_of pass.old c }
        ensures derivable { DerivableBy J.frame J.allowed c result }
        ensures seen { pass.new ≡ saw pass.old c result }
        ensures at { seen_of pass.new c ≡ result }
        ensures falls { NoneRises pass.old pass.new }
    {
        pass.peek(&self.board, c)
    }

    /// The table accepts an upload. The words of its cell, and of the cells derived from it at a point and at two
    /// points, fall to the table's bounds, and waiters are woken. After `Memory` the upload was not accepted.
    pub fn accept<R: Wait>(&self, rt: &R, pass: &mut Pass, up: Accepted) -> Result<(), Memory>
        requires pass { pass.old.board ≡ self.now }
        requires inside { InFrame J.frame up.cell }
        requires allowed { J.allowed up }
        ensures offers { OnOk result (AtMostOffers up pass.new) }
        ensures falls { NoneRises pass.old pass.new }
    {
        self.hold(rt).accept(&self.board, pass, up)?;
        self.changed.notify_all();
        Ok(())
    }

    /// A plan of the cell, from allowed uploads, that costs at most what the pass had seen; then that is what it has
    /// seen. It tries again while the table's bound is above what the pass has seen.
    pub fn plan<R: Wait>(
        &self,
        rt: &R,
        alloc: Global,
        pass: &mut Pass,
        c: Cell,
    ) -> Result<Plan, Memory>
        requires pass { pass.old.board ≡ self.now }
        requires cell { InFrame J.frame c }
        ensures plan { IfOk result (IsShownPlan J.frame J.allowed c pass.old pass.new) }
        ensures falls { NoneRises pass.old pass.new }
    {
        for _ in rt.forever() {
            let seen = pass.peek(&self.board, c);
            let state = self.hold(rt);
            if let Some(plan) = state.plan(alloc, &self.board, pass, c, seen)? {
                return Ok(plan);
            }
        }
        unreachable!()
    }

    /// Takes turns on the table, as a worker does, until no cell is open and the table has each upload of `own`; where
    /// it lacks one then, it accepts a copy. The lock is given back while a price is looked for. Last, each word falls
    /// to the table's bound. After `Memory` what was done stays.
    pub fn settle<R: Wait>(
        &self,
        rt: &R,
        alloc: Global,
        pass: &mut Pass,
        own: &[Accepted],
    ) -> Result<(), Memory>
        requires pass { pass.old.board ≡ self.now }
        requires inside { AllByRecursion (λ u. InFrame J.frame u.cell) own.now }
        requires allowed { AllByRecursion J.allowed own.now }
        ensures settled { OnOk result (AtMostEach J.frame own.now pass.new) }
        ensures falls { NoneRises pass.old pass.new }
    {
        let mut ticket = self.ticket(rt, alloc)?;
        for _ in rt.forever() {
            let mut state = self.hold(rt);
            let (found, back) = state.settle(alloc, &self.board, pass, ticket, own)?;
            drop(state);
            ticket = back;
            match found {
                Settling::Settled => return Ok(()),
                Settling::NeedsRoom { rows } => ticket.reserve(rows)?,
                Settling::Accepted => self.changed.notify_all(),
                Settling::Claimed => ticket = self.publish(rt, pass, ticket.evaluate())?,
            }
        }
        unreachable!()
    }

    /// A ticket with the table's lists.
    pub fn ticket<R: Wait>(&self, rt: &R, alloc: Global) -> Result<KnownTicket<J>, Memory> {
        let ticket = Ticket::new(alloc, self.frame)?;
        Ok(self.hold(rt).ticket(ticket))
    }

    /// One turn of a worker: it claims a cell under the lock, looks for a least price without it, and publishes under
    /// it. While no cell is open and a client runs, it waits. Where no cell is open and no client runs, each word falls
    /// to the table's bound, and the work has ended. After `Memory` what was done stays.
    pub fn work_one<R: Wait>(
        &self,
        rt: &R,
        pass: &mut Pass,
        ticket: KnownTicket<J>,
    ) -> Result<Worked<J>, Memory>
        requires pass { pass.old.board ≡ self.now }
        ensures worked { IfOk result (IsWorked J.frame pass.new) }
        ensures falls { NoneRises pass.old pass.new }
    {
        match self.claim(rt, pass, ticket)? {
            None => Ok(Worked::Ended),
            Some(ticket) => {
                let ticket = self.publish(rt, pass, ticket.evaluate())?;
                Ok(Worked::Turn { ticket })
            }
        }
    }

    // Takes the lock; it sleeps only where the lock is not free for a while.
    fn hold<R: Wait>(&self, rt: &R) -> MutexGuard<'_, Locked<J>> {
        let mut pauses = FIRST_PAUSES;
        for _ in 0..LOOKS {
            if let Some(state) = self.state.try_lock() {
                return state;
            }
            for _ in 0..pauses {
                spin_loop();
            }
            pauses = pauses.saturating_mul(2);
        }
        self.state.lock(rt)
    }

    // Waits until there is a cell to claim, or none for good.
    fn claim<R: Wait>(
        &self,
        rt: &R,
        pass: &mut Pass,
        mut ticket: KnownTicket<J>,
    ) -> Result<Option<KnownTicket<J>>, Memory>
        requires pass { pass.old.board ≡ self.now }
        ensures ended { IfOk result (λ claimed. IfNone claimed (AtMostEach J.frame [] pass.new)) }
        ensures falls { NoneRises pass.old pass.new }
    {
        for _ in rt.forever() {
            let mut state = self.hold(rt);
            let (work, back) = state.work(&self.board, pass, ticket);
            ticket = back;
            match work {
                Work::Found {
                    next: Next::Claimed,
                } => return Ok(Some(ticket)),
                Work::Found { next: Next::Ended } => return Ok(None),
                Work::Found { next: Next::Waits } => drop(self.changed.wait(rt, state)),
                Work::NeedsRoom { rows } => {
                    drop(state);
                    ticket.reserve(rows)?;
                }
            }
        }
        unreachable!()
    }

    // Publishes what was found, wakes the waiters where cells were opened, and gives the ticket back.
    fn publish<R: Wait>(
        &self,
        rt: &R,
        pass: &mut Pass,
        p: KnownProposal<J>,
    ) -> Result<KnownTicket<J>, Memory>
        requires pass { pass.old.board ≡ self.now }
        ensures falls { NoneRises pass.old pass.new }
    {
        let (outcome, ticket) = self.hold(rt).put(&self.board, pass, p)?;
        match outcome {
            Some(Outcome { lowered: true, .. }) => self.changed.notify_all(),
            _ => {}
        }
        Ok(ticket)
    }

    /// One client less runs, where one does, and waiters are woken.
    pub fn leave<R: Wait>(&self, rt: &R) {
        self.hold(rt).leave();
        self.changed.notify_all();
    }

    /// The table, out of the lock.
    pub fn finish(self) -> Table
        ensures frame { result.arena.frame ≡ J.frame }
        ensures allowed { AllByRecursion J.allowed result.arena.uploads }
    {
        let Shared {
            frame: _,
            state,
            changed: _,
            board: _,
        } = self;
        state.into_inner().into_table()
    }
}

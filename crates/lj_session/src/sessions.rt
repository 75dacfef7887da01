ghost use Rattle.std.specs.Prelude.{◌≡◌, ◌↔◌, ◌≤◌, ◌<◌, [], ◌+◌, IfOk, IsTrue, OnOk, drop, length};
ghost use Rattle.std.specs.List.{AllByRecursion};
ghost use Rattle.lj_base.specs.Frames.{InFrame};
ghost use Rattle.lj_cover.specs.Derivations.{root_cell, tree_cost};
ghost use Rattle.lj_deriv.specs.Nodes.{plan_tree};
ghost use Rattle.lj_deriv.specs.Texts.{Spelled, plan_text};
ghost use Rattle.lj_session.specs.Handling.{HandlesFirst, IsAskedBy, TakesOne};
ghost use Rattle.lj_session.specs.Sessions.{GoesOn, IsNext, asked_cell, asked_upload, new_session, with_blocks};
ghost use Rattle.lj_session.specs.Sessions.{with_bound, with_expansion, with_plan, with_plan_for, with_reply};
ghost use Rattle.lj_session.specs.Sessions.{with_settle};
ghost use Rattle.lj_session.specs.Sessions.{with_too_big, with_upload};

use crate::asks::Ask;
use crate::ends::{Replies, SessionEnd, Uploads};
use crate::handling::handle;
use crate::limits::MAX_WRITTEN;
use crate::own::Own;
use crate::reply_texts::{put_bound_line, put_numbers_line, put_plan};
use crate::terms::Terms;
use lj_base::{Frame, Memory};
use lj_deriv::Plan;
use lj_expand::write_blocks;
use lj_script::{Command, Section};
use lj_text::put;
use lj_upload::{Accepted, QUOTA_UPLOADS};
use lj_verify::MAX_WORKERS;
use std::alloc::Global;
use std::marker::Model;
use std::thread::Threads;

/// A client's section, gone through command by command. It asks what a command needs of the table, and whoever drives
/// it holds the table and gives it what was asked for. After an error it is good for nothing more than to be dropped.
#[derive(Debug, Drop)]
pub struct Session {
    terms: Terms,
    section: Section,
    passed: usize,
    own: Own,
    written: u64,
    replies: Vec<u8>,
    ask: Ask,
}

impl Model for Session {
    ghost use Rattle.lj_session.specs.Inside.{IsSession, session_of};
    ghost use Rattle.lj_session.specs.Sessions.{SessionValue};

    ghost Value = { SessionValue };

    ghost view = { session_of };

    ghost invariant = { IsSession };
}

impl Session {
    /// A session that has gone through no command. Its checks use as many threads as there are workers.
    pub fn start(
        alloc: Global,
        frame: Frame,
        section: Section,
        workers: u64,
    ) -> Result<Session, Memory>
        requires some_workers { 1 ≤ workers }
        requires few_workers { workers ≤ MAX_WORKERS }
        ensures { IfOk result (λ s. s ≡ new_session frame section) }
    {
        Ok(Session {
            terms: Terms { frame, workers },
            section,
            passed: 0,
            own: Own::new(alloc),
            written: 0,
            replies: Vec::new(alloc),
            ask: Ask::Done,
        })
    }

    /// Goes through the commands up to the next that needs the table, and returns what that asks, or `Done` where no
    /// command is left. It replies itself to uploads that are refused and to reads of cells that are not in the frame.
    /// An upload that is asked about is copied, so that the session keeps one.
    pub fn step<R: Threads + Sync>(&mut self, rt: &R, alloc: Global) -> Result<Ask, Memory>
        requires { self.old.ask ≡ Ask.Done }
        ensures goes_on { OnOk result (GoesOn self.old self.new) }
        ensures waits { IfOk result (λ ask. self.new.ask ≡ ask) }
        ensures next { IfOk result (IsNext self.new) }
        ensures few { OnOk result (length self.new.own ≤ QUOTA_UPLOADS) }
    {
        while self.has_left() && self.ask.is_done() {
            self.take_one(rt, alloc)?;
        }
        let _few = self.own();
        self.ask.copy(alloc)
    }

    fn has_left(&self) -> bool
        ensures { IsTrue result ↔ (1 ≤ length self.now.left) }
    {
        self.passed < self.section.commands().len()
    }

    // Handles the first command left.
    fn take_one<R: Threads + Sync>(&mut self, rt: &R, alloc: Global) -> Result<(), Memory>
        requires left { 1 ≤ length self.old.left }
        requires free { self.old.ask ≡ Ask.Done }
        ensures { OnOk result (TakesOne self.old self.new) }
    {
        let mut text = Vec::new(alloc);
        let ask = self.handle_first(rt, alloc, &mut text)?;
        put(&mut self.replies, &text)?;
        if ask.is_done() {
            self.pass();
        } else {
            self.ask = ask;
        }
        Ok(())
    }

    // What the first command left asks. A reply that needs no table is appended to the text.
    fn handle_first<R: Threads + Sync>(
        &self,
        rt: &R,
        alloc: Global,
        text: &mut Vec<u8>,
    ) -> Result<Ask, Memory>
        requires { 1 ≤ length self.now.left }
        ensures { IfOk result (HandlesFirst self.now text.old.items text.new.items) }
    {
        let command = &self.section.commands()[self.passed];
        let name = self.section.name();
        handle(rt, alloc, self.terms, name, self.own.quota(), command, text)
    }

    // Goes on to the next command. No ask waits any more.
    fn pass(&mut self)
        requires { 1 ≤ length self.old.left }
        ensures { self.new ≡ record self.old { left = drop 1 self.old.left; ask = Ask.Done } }
    {
        let _count = self.section.commands().len();
        self.passed += 1;
        self.ask = Ask::Done;
    }

    /// Replies that the upload which was asked about is accepted.
    pub fn told_accept(&mut self) -> Result<(), Memory>
        requires { self.old.ask ≡ Ask.Accept (asked_upload self.old.ask) }
        ensures { OnOk result (self.new ≡ with_upload self.old (asked_upload self.old.ask)) }
    {
        let up = self.ask.take_upload();
        let blocks = up.design().blocks().len() as u64;
        put_numbers_line(&mut self.replies, b"accepted", &[up.ordinal(), blocks])?;
        self.own.push(up)?;
        self.pass();
        Ok(())
    }

    /// Replies with the number of blocks, `b`, for the cell that was asked about.
    pub fn told_bound(&mut self, b: u64) -> Result<(), Memory>
        requires { self.old.ask ≡ Ask.Bound (asked_cell self.old.ask) }
        ensures { OnOk result (self.new ≡ with_bound self.old (asked_cell self.old.ask) b) }
    {
        let cell = self.ask.cell();
        put_bound_line(&mut self.replies, b"bound", cell, b)?;
        self.pass();
        Ok(())
    }

    /// Replies with the plan for the cell that was asked about, or with its blocks, or that these are too many with
    /// those of earlier replies.
    pub fn told_plan(&mut self, alloc: Global, plan: Plan) -> Result<(), Memory>
        requires { self.old.ask ≡ Ask.Plan (root_cell (plan_tree plan)) }
        ensures reply { OnOk result (self.new ≡ with_plan_for self.old self.old.left plan) }

        // The lines of the plan's nodes spell its derivation.
        ensures spelled { Spelled (plan_tree plan) (plan_text plan) }
    {
        let _nodes = plan.len();
        if self.expands() {
            self.reply_expansion(alloc, &plan)
        } else {
            self.reply_plan(&plan)
        }
    }

    // Whether the plan that is asked for is to be expanded.
    fn expands(&self) -> bool
        requires { self.now.ask ≡ Ask.Plan (asked_cell self.now.ask) }
        ensures { IsAskedBy self.now.left (asked_cell self.now.ask) result }
    {
        matches!(self.section.commands()[self.passed], Command::Expand { .. })
    }

    fn reply_plan(&mut self, plan: &Plan) -> Result<(), Memory>
        requires { 1 ≤ length self.old.left }
        ensures { OnOk result (self.new ≡ with_plan self.old plan.now) }
    {
        put_plan(plan, &mut self.replies)?;
        self.pass();
        Ok(())
    }

    fn reply_expansion(&mut self, alloc: Global, plan: &Plan) -> Result<(), Memory>
        requires left { 1 ≤ length self.old.left }
        requires some { 1 ≤ (root_cell (plan_tree plan.now)).k }
        ensures { OnOk result (self.new ≡ with_expansion self.old plan.now) }
    {
        if self.written + plan.cost() > MAX_WRITTEN {
            self.reply_too_big(plan)
        } else {
            self.reply_blocks(alloc, plan)
        }
    }

    fn reply_too_big(&mut self, plan: &Plan) -> Result<(), Memory>
        requires { 1 ≤ length self.old.left }
        ensures { OnOk result (self.new ≡ with_too_big self.old plan.now) }
    {
        put_bound_line(&mut self.replies, b"toobig", plan.cell(), plan.cost())?;
        self.pass();
        Ok(())
    }

    fn reply_blocks(&mut self, alloc: Global, plan: &Plan) -> Result<(), Memory>
        requires left { 1 ≤ length self.old.left }
        requires some { 1 ≤ (root_cell (plan_tree plan.now)).k }
        requires room { self.old.written + tree_cost (plan_tree plan.now) ≤ MAX_WRITTEN }
        ensures { OnOk result (self.new ≡ with_blocks self.old plan.now) }
    {
        put_bound_line(&mut self.replies, b"expand", plan.cell(), plan.cost())?;
        write_blocks(alloc, plan, &mut self.replies)?;
        self.written += plan.cost();
        self.pass();
        Ok(())
    }

    /// Replies that the table is settled.
    pub fn told_settle(&mut self) -> Result<(), Memory>
        requires { self.old.ask ≡ Ask.Settle }
        ensures { OnOk result (self.new ≡ with_settle self.old) }
    {
        put(&mut self.replies, b"settled\n")?;
        self.pass();
        Ok(())
    }

    /// The client's uploads that were accepted.
    pub fn own(&self) -> &[Accepted]
        ensures own { result.now ≡ self.now.own }
        ensures few { length result.now ≤ QUOTA_UPLOADS }
        ensures inside { AllByRecursion (λ u. InFrame self.now.frame u.cell) result.now }
    {
        self.own.items()
    }

    /// The replies and the accepted uploads of a session that has no command left.
    pub fn finish(self) -> SessionEnd
        requires { self.left ≡ [] }
        ensures replies { result.replies ≡ self.replies }
        ensures accepted { result.accepted ≡ self.own }
        ensures few { length result.accepted ≤ QUOTA_UPLOADS }
        ensures inside { AllByRecursion (λ u. InFrame self.frame u.cell) result.accepted }
    {
        let Session { own, replies, .. } = self;
        SessionEnd {
            replies: Replies::of(replies),
            accepted: Uploads::of(own.into_vec()),
        }
    }
}

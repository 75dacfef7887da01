ghost use Rattle.std.specs.Prelude.{◌≡◌, max, OnErr, OnOk};
ghost use Rattle.lj_relax.specs.Found.{IsEvaluation};

use lj_base::Memory;
use lj_board::Setting;
use lj_history::Reader;
use lj_relax::{Proposal, Ticket, evaluate};
use std::marker::{Model, PhantomData};

/// A ticket whose lists are known to be those that the run's table had when it had made so many nodes. It may go to any
/// thread.
#[derive(Drop)]
pub struct KnownTicket<J: Setting> {
    pub(crate) ticket: Ticket,
    pub(crate) nodes: u64,
    // All changes of the table's bounds until then.
    pub(crate) reader: Reader,
    pub(crate) setting: PhantomData<J>,
}

impl<J: Setting> Model for KnownTicket<J> {
    ghost use Rattle.lj_relax.specs.Tickets.{TicketLists};
    ghost use Rattle.lj_shared.specs.Changes.{IsKnown};

    ghost Value = { TicketLists };

    ghost view = { λ k. k.ticket };

    ghost invariant = { λ k. IsKnown J.frame J.history k.ticket k.nodes k.reader };
}

/// What was found over such a ticket.
#[derive(Drop)]
pub struct KnownProposal<J: Setting> {
    pub(crate) proposal: Proposal,
    pub(crate) nodes: u64,
    pub(crate) reader: Reader,
    pub(crate) setting: PhantomData<J>,
}

impl<J: Setting> Model for KnownProposal<J> {
    ghost use Rattle.lj_relax.specs.Found.{Evaluation};
    ghost use Rattle.lj_shared.specs.Changes.{IsKnown};

    ghost Value = { Evaluation };

    ghost view = { λ k. k.proposal };

    ghost invariant = { λ k. IsKnown J.frame J.history k.proposal.ticket k.nodes k.reader };
}

impl<J: Setting> KnownTicket<J> {
    /// Makes the room at least `rows`.
    pub fn reserve(&mut self, rows: u64) -> Result<(), Memory>
        ensures ok { OnOk result (self.new ≡ record self.old { room = max self.old.room rows }) }
        ensures err { OnErr result (self.new ≡ self.old) }
    {
        self.ticket.reserve(rows)
    }

    /// Finds an instance of least price over the ticket. It takes no memory.
    pub fn evaluate(self) -> KnownProposal<J>
        ensures ticket { result.ticket ≡ self }
        ensures least { IsEvaluation result }
    {
        let KnownTicket {
            ticket,
            nodes,
            reader,
            setting,
        } = self;
        KnownProposal {
            proposal: evaluate(ticket),
            nodes,
            reader,
            setting,
        }
    }
}

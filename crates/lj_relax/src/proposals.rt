ghost use Rattle.std.specs.Prelude.{◌≡◌};
ghost use Rattle.lj_relax.specs.Found.{IsEvaluation, IsLeastFound, found_cost};
ghost use Rattle.lj_relax.specs.Steps.{IsLeastPrice};
ghost use Rattle.lj_relax.specs.Tickets.{snapshot_of};

use crate::found::Found;
use crate::prices::least_instance;
use crate::tickets::Ticket;
use std::marker::Model;

/// A ticket, with the instance of least price that was found over it.
#[derive(Drop)]
pub struct Proposal {
    ticket: Ticket,
    found: Found,
}

impl Model for Proposal {
    ghost use Rattle.lj_relax.specs.Found.{Evaluation, IsEvaluation};

    ghost Value = { Evaluation };

    ghost view = { λ p. record { ticket = p.ticket; found = p.found } };

    ghost invariant = { λ p. IsEvaluation (record { ticket = p.ticket; found = p.found }) };
}

/// Finds an instance of least price over the ticket: an elementary rule, a product or a row. It takes no memory.
pub fn evaluate(ticket: Ticket) -> Proposal
    ensures ticket { result.ticket ≡ ticket }
    ensures least { IsEvaluation result }
{
    let found = least_instance(
        ticket.frame(),
        ticket.bounds(),
        ticket.rows(),
        ticket.cell(),
    );
    Proposal { ticket, found }
}

impl Proposal {
    /// The least price over the ticket, where there is an instance.
    pub fn cost(&self) -> Option<u64>
        ensures cost { result ≡ found_cost self.now.found }
        ensures least { IsLeastPrice self.now.ticket.frame (snapshot_of self.now.ticket) result }
    {
        self.found.cost()
    }

    /// The instance of that price.
    pub fn found(&self) -> Found
        ensures found { result ≡ self.now.found }
        ensures least { IsLeastFound self.now.ticket.frame (snapshot_of self.now.ticket) result }
    {
        self.found
    }

    pub fn ticket(&self) -> &Ticket
        ensures { result.now ≡ self.now.ticket }
    {
        &self.ticket
    }

    /// The ticket, to be filled again.
    pub fn into_ticket(self) -> Ticket
        ensures { result ≡ self.ticket }
    {
        self.ticket
    }
}

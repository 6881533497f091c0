//! What shows that a plan was published.
ghost use Rattle.std.specs.Prelude.{◌≡◌};

use boxcar::Pushed;
use lit_plan::Compiled;
use std::marker::Model;

/// Shows that a store has a plan under a number, for as long as the store lasts. It is used with the
/// store that gave it.
#[derive(Drop)]
pub struct Ticket {
    pub(crate) pushed: Pushed<Compiled>,
}

impl Model for Ticket {
    ghost use Rattle.plan_store.specs.Tickets.{TicketParts};

    ghost Value = { TicketParts };

    ghost view = { λ t. record {
      number = t.pushed.index;
      plan = t.pushed.value;
      shelf = t.pushed.bucket;
      name = t.pushed.row;
    } };
}

impl Ticket {
    /// An equal ticket. It takes no memory.
    pub fn again(&self) -> Ticket
        ensures { result ≡ self.now }
    {
        Ticket {
            pushed: self.pushed.again(),
        }
    }
}

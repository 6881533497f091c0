//! A store with plans that were published before its sessions.
ghost use Rattle.std.specs.Prelude.{All};
ghost use Rattle.plan_store.specs.Tickets.{IsOf};

use plan_store::{PlanStore, Ticket};

/// A store, and the tickets of plans that were published there before its sessions.
#[derive(Clone, Copy)]
pub struct LoadedStore<'a> {
    pub store: &'a PlanStore,
    /// Tickets of this store.
    pub tickets: &'a [Ticket],
    ghost here: { All (IsOf store.now) tickets.now },
}

//! A grouping of literals into runs, with numbers which show that no other one is cheaper.
use lit_base::{Ends, Profile};
use std::marker::Model;

/// A grouping of n literals into runs, with the numbers by which a reader can check that no other grouping is cheaper.
#[derive(Debug, Drop)]
pub struct Certificate {
    /// How many runs there may be.
    pub profile: Profile,
    /// Where the runs end.
    pub ends: Ends,
    /// The price of the runs together.
    pub cost: u64,
    /// A row of n prices for each bucket of the profile: `h(r, p)`, for r from 1 on, stands at `(r - 1) * n + p`.
    pub potentials: Vec<u64>,
}

impl Model for Certificate {
    ghost use Rattle.lit_cert.specs.Certificates.{CertificateParts};

    ghost Value = { CertificateParts };

    ghost view = { λ c. record { profile = c.profile; ends = c.ends.items; cost = c.cost; potentials = c.potentials.items } };
}

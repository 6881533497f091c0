//! Why a certificate does not show that its runs are the cheapest.
use thiserror::Error;

/// Why a certificate does not show that its runs are the cheapest: the first of the check's
/// conditions that fails. `n` is the number of literals, `c(p, q)` the cost of the run from place p
/// up to but not including q, and `h(r, p)` a potential, where `h(r, n)` stands for 0.
#[derive(Clone, Copy, Debug, PartialEq, Eq, Error)]
pub enum Reason {
    /// There is no literal, or there are not as many potentials for each as the profile has buckets.
    #[error("length")]
    Length,
    /// The ends are no cut of the literals.
    #[error("ends")]
    Ends,
    /// The price of the runs, the certificate's cost and the potential `h(b, 0)`, for the b buckets of the profile, are
    /// not one number.
    #[error("total")]
    Total,
    /// `h(r, p)` is above `c(p, n)`.
    #[error("end row {r} {p}")]
    EndRow { r: usize, p: usize },
    /// `h(r, p)` is above `c(p, q) + h(r - 1, q)`.
    #[error("step {r} {p} {q}")]
    Step { r: usize, p: usize, q: usize },
}

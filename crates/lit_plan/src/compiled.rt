//! Literals with a certified plan.
ghost use Rattle.std.specs.Prelude.{◌≡◌, ℕ, ◌<◌, ◌≤◌, ◌↔◌, IfErr, IfOk, IsOk, List, MatchOption, None, OnOk, Some, length};
ghost use Rattle.std.specs.Arc.{arc_value};
ghost use Rattle.std.specs.List.{slice_get};
ghost use Rattle.std.specs.Option.{IsSome};
ghost use Rattle.lit_base.specs.Literals.{lengths};
ghost use Rattle.lit_base.specs.Profiles.{buckets};
ghost use Rattle.lit_base.specs.Assignments.{NoAssignmentBelow, assign_price, assignment_of};
ghost use Rattle.lit_base.specs.Occurrences.{Occurs};
ghost use Rattle.lit_cert.specs.Certified.{IsCertified};
ghost use Rattle.lit_base.specs.declared.limits.TheConstants.{MAX_LITERAL_LEN};
ghost use Rattle.nib_mask.specs.Candidates.{CoversBy};
ghost use Rattle.lane_filter.specs.Prefilters.{Passes};
ghost use Rattle.lit_plan.specs.Plans.{IsRefusalOf, Plan};
ghost use Rattle.lit_plan.specs.Starts.{StartsAt};
ghost use Rattle.lit_plan.specs.Bounds.{HasBounds, carry_of};

use crate::fault::Fault;
use crate::overlap::carry;
use lane_filter::Prefilter;
use list_index::ListIndex;
use lit_base::LitList;
use lit_cert::{Certificate, certified_law, check};
use prefilter_search::PrefilterEnds;
use std::alloc::AllocError;
use std::marker::Model;
use std::sync::Arc;
use text_ends::Hit;

/// Literals with a certified plan. Code that holds one needs no check.
#[derive(Debug, Drop)]
pub struct Compiled {
    index: Arc<ListIndex>,
    certificate: Certificate,
    prefilter: Prefilter,
}

impl Model for Compiled {
    ghost use Rattle.lit_plan.specs.Plans.{IsCompiled, Plan};

    ghost Value = { Plan };

    ghost view = { λ p. record { literals = p.index.value; certificate = p.certificate } };

    ghost invariant = { λ p. IsCompiled p.index.value p.certificate p.prefilter };
}

impl Compiled {
    /// The plan, if the certificate shows that no assignment of the literals to at most as many buckets as its profile
    /// has is cheaper. Otherwise `NotCertified` with the first condition that fails, and the list and the certificate
    /// unchanged. It takes no memory.
    pub fn new(
        index: Arc<ListIndex>,
        certificate: Certificate,
    ) -> Result<Compiled, (Fault, Arc<ListIndex>, Certificate)>
        ensures certified { IsOk result ↔ IsCertified index.value certificate }
        ensures ok { IfOk result (λ p. p ≡ record { literals = index.value; certificate = certificate }) }
        ensures refused { IfErr result (λ refusal. IsRefusalOf index.value certificate refusal.0 (arc_value refusal.1) refusal.2) }
        ensures least { OnOk result (NoAssignmentBelow (buckets certificate.profile) index.value certificate.cost) }
    {
        match check(index.list(), &certificate) {
            Ok(()) => Ok(Compiled::certified(index, certificate)),
            Err(reason) => Err((Fault::NotCertified { reason }, index, certificate)),
        }
    }

    /// The plan of a certificate that is known to hold, such as a new one of the planner. It is not checked again. It
    /// takes no memory.
    pub fn certified(index: Arc<ListIndex>, certificate: Certificate) -> Compiled
        requires { IsCertified index.value certificate }
        ensures { result ≡ record { literals = index.value; certificate = certificate } }
    {
        let prefilter = Prefilter::of(index.list(), &certificate.ends);
        Compiled {
            index,
            certificate,
            prefilter,
        }
    }

    /// The literals.
    pub fn list(&self) -> &LitList
        ensures { result.now ≡ self.now.literals }
    {
        self.index.list()
    }

    /// The literals with the tables by which a search finds them.
    #[inline]
    pub fn index(&self) -> &ListIndex
        ensures { result.now ≡ self.now.literals }
    {
        &self.index
    }

    /// The same tables for one more owner. `Err` if memory is short.
    pub fn shared_index(&self) -> Result<Arc<ListIndex>, AllocError>
        ensures { IfOk result (λ index. index.value ≡ self.now.literals) }
    {
        Ok(Arc::try_clone(&self.index)?)
    }

    /// The certificate of the plan.
    pub fn certificate(&self) -> &Certificate
        ensures same { result.now ≡ self.now.certificate }
        ensures certified { IsCertified self.now.literals self.now.certificate }
    {
        &self.certificate
    }

    /// The literal of a hit of this plan, as it stands in the list. `None` if the list has no literal with the hit's
    /// number; this happens only with a hit of another plan.
    pub fn literal_of(&self, hit: Hit) -> Option<&[u8]>
        ensures literal { MatchOption result (slice_get self.now.literals.texts hit.0 ≡ None)
            (λ literal. slice_get self.now.literals.texts hit.0 ≡ Some literal.now) }
    {
        let place = usize::from(hit.lit);
        let list = self.list();
        if place < list.len() {
            Some(list.get(place))
        } else {
            None
        }
    }

    /// How many bytes the stream has before the occurrence of a hit of this plan: its end less the literal's length.
    /// `None` if no start fits, which is possible for a hit of another plan.
    pub fn start_of(&self, hit: Hit) -> Option<u64>
        ensures start { MatchOption result ((start : ℕ) → ¬ StartsAt self.now.literals hit.0 hit.1 start)
            (StartsAt self.now.literals hit.0 hit.1) }

        // Each hit in a text starts somewhere in it.
        ensures found { (text : List ℕ) → Occurs self.now.literals text hit.0 hit.1 → IsSome result }
    {
        let literal = self.literal_of(hit)?;
        hit.end_at.checked_sub(literal.len() as u64)
    }

    /// The prefilter for the literals, which passes each occurrence.
    #[inline]
    pub fn prefilter(&self) -> &Prefilter
        ensures { CoversBy self.now.literals (Passes result.now) }
    {
        &self.prefilter
    }

    /// The positions of a text after `from` at which literals end, found by the prefilter. It reads nothing yet.
    #[inline]
    pub fn prefilter_ends<'a>(&'a self, text: &'a [u8], from: usize) -> PrefilterEnds<'a>
        requires { from ≤ length text.now }
        ensures { result ≡ record { literals = self.now.literals; text = text.now; from = from } }
    {
        PrefilterEnds::after(self.index(), self.prefilter(), text, from)
    }

    /// How many bytes of a literal may precede a piece in which it ends.
    pub fn carry(&self) -> usize
        ensures value { result ≡ carry_of self.now.literals }
        ensures small { result < MAX_LITERAL_LEN }
        ensures bounds { HasBounds self.now.literals }
    {
        carry(self.index.list())
    }
}

/// The law that a plan is the cheapest. No assignment of its literals to at most as many buckets as its profile has
/// costs less than its certificate says. Its runs, read as an assignment, cost exactly this.
pub fn least_law(compiled: &Compiled)
    ensures certified { IsCertified compiled.now.literals compiled.now.certificate }
    ensures least { NoAssignmentBelow (buckets compiled.now.certificate.profile) compiled.now.literals compiled.now.certificate.cost }
    ensures reached { assign_price (buckets compiled.now.certificate.profile) (lengths compiled.now.literals) (assignment_of compiled.now.certificate.ends) ≡ compiled.now.certificate.cost }
{
    certified_law(compiled.list(), compiled.certificate());
}

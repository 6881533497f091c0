//! The rules by which a finder chooses among the four engines; `EndFinder` applies them, most in `EndFinder::tune`. A
//! choice changes the time of a search, never its result.
//!
//! | question | when | depends on | function |
//! |---|---|---|---|
//! | Does the list gain by a finder, and has this factors? | once | the number of literals | [`has_use`], [`has_factors`] |
//! | When is the finder of a stream made? | once enough bytes were searched | the bytes, the number of literals | [`make_if_long`](crate::make_if_long) |
//! | Which engine searches the next bytes, and how many of them? | before a search | the engine in use, in a scan the bytes available | [`Strategy::engine`], [`Strategy::engine_for`], [`span_after`] |
//! | Tune now, or gather bytes first? | before each search | the loss, the bytes available, the number of literals | [`Strategy::step`], [`Strategy::tunes_before`], [`least_gathered`] |
//! | Which engines are worth preparing, and from how much text? | when it tunes | the number of literals, the estimates so far | [`sample_len`], [`wants_automaton_first`], [`wants_shift_or`], [`wants_automaton`] |
//! | Is the automaton built at once, or waited for? | when it tunes | the result that is wanted, the loss, the size of the automaton | [`Strategy::has_lost`], [`Strategy::wait_for`] |
//! | Which engine is best? | after tuning | the estimates | [`Strategy::choose`] |

ghost use Rattle.std.specs.Prelude.{◌<◌, ◌↔◌, IsTrue};

use crate::tuning::{
    FIRST_SPANS, LEAST_BY_AUTOMATON, LEAST_CHOSEN, LEAST_GATHERED, LEAST_GATHERED_BY_PLAN_MASKS,
    LEAST_LOSS, LEAST_SAMPLE, MOST_BY_FACTORS, MOST_BY_PLAN_MASKS, MOST_BY_SMALL_SAMPLE, MOST_WAIT,
    MOST_WITHOUT_FINDER, PREFILTER_SLACK, SAMPLE, SMALL_SAMPLE, SPAN, SURE, TUNED_SLACK,
};
use factor_search::MASKS_COST;
use shift_search::STRIDE_TWO_COST;
use text_ends::EndRate;

/// What searches a text.
#[derive(Clone, Copy, Debug, PartialEq, Eq)]
pub enum Engine {
    /// The prefilter of the plan alone.
    Prefilter,
    /// Factors of the literals, chosen from a sample.
    Factors,
    /// Shift-or over buckets of the literals.
    ShiftOr,
    /// The automaton of the literals.
    Automaton,
}

/// The result that a search has to give.
#[derive(Clone, Copy)]
pub(crate) enum Wanted {
    /// One end after the other.
    Ends,
    /// All hits after a position.
    Hits,
}

/// What a finder does before it searches on.
#[derive(Clone, Copy)]
pub(crate) enum Step {
    /// Nothing.
    GoOn,
    /// It gathers a piece that is too short for a sample.
    Gather,
    /// It tunes itself to the given text.
    Tune,
}

/// Whether a list of `len` literals gains by a finder. A shorter list is searched for by one to three bytes of each
/// literal, whatever the text.
pub(crate) fn has_use(len: usize) -> bool
    ensures { IsTrue result ↔ (3 < len) }
{
    len > MOST_WITHOUT_FINDER
}

/// Whether to search for a list of `len` literals by factors too.
pub(crate) fn has_factors(len: usize) -> bool {
    len <= MOST_BY_FACTORS
}

/// The longest sample, in bytes, for a list of `len` literals.
pub(crate) fn sample_len(len: usize) -> usize {
    if len <= MOST_BY_SMALL_SAMPLE {
        SMALL_SAMPLE
    } else {
        SAMPLE
    }
}

/// The shortest piece, in bytes after those at its boundary, that is gathered for a list of `len` literals.
pub(crate) fn least_gathered(len: usize) -> usize {
    if len <= MOST_BY_PLAN_MASKS {
        LEAST_GATHERED_BY_PLAN_MASKS
    } else {
        LEAST_GATHERED
    }
}

/// How many bytes of a text in memory one engine scans next, after `passed` bytes.
pub(crate) fn span_after(passed: usize) -> usize
    ensures { 0 < result }
{
    if passed < SPAN {
        SPAN / FIRST_SPANS
    } else {
        SPAN
    }
}

/// Whether to build the automaton before shift-or is tried: its estimate is below the estimate of factors and the least
/// cost of shift-or.
pub(crate) fn wants_automaton_first(by_automaton: usize, by_factors: usize) -> bool {
    wants_automaton(by_automaton, by_factors, STRIDE_TWO_COST)
}

/// Whether to try shift-or on the sample: the estimate of factors is above its least cost.
pub(crate) fn wants_shift_or(by_factors: usize) -> bool {
    STRIDE_TWO_COST < by_factors
}

/// Whether to build the automaton: its estimate is below both others.
pub(crate) fn wants_automaton(by_automaton: usize, by_factors: usize, by_shift_or: usize) -> bool {
    by_automaton < by_factors.min(by_shift_or)
}

/// What an engine may take for 1,024 bytes, given its estimate.
fn allowed_for(cost: usize) -> usize {
    cost.saturating_add(cost / 2).saturating_add(TUNED_SLACK)
}

/// The estimates of the tuned engines, in tenths of a nanosecond for 1,024 bytes; `usize::MAX` for an engine that was
/// not prepared.
#[derive(Clone, Copy, Debug)]
pub(crate) struct Estimates {
    pub factors: usize,
    pub shift_or: usize,
    pub automaton: usize,
}

impl Estimates {
    /// The engine with the lowest estimate, and this estimate. Of equal ones factors come first, then shift-or.
    fn best(self) -> (Engine, usize) {
        if self.automaton < self.factors.min(self.shift_or) {
            (Engine::Automaton, self.automaton)
        } else if self.shift_or < self.factors {
            (Engine::ShiftOr, self.shift_or)
        } else {
            (Engine::Factors, self.factors)
        }
    }
}

/// What a finder has measured since it chose its engine.
#[derive(Clone, Copy, Debug)]
struct Measured {
    bytes: usize,
    /// In tenths of a nanosecond.
    cost: usize,
    found: EndRate,
}

impl Measured {
    /// No bytes yet.
    fn nothing() -> Measured {
        Measured {
            bytes: 0,
            cost: 0,
            found: EndRate::nothing(),
        }
    }
}

/// What an engine costs above an allowance, in tenths of a nanosecond.
#[derive(Clone, Copy, Debug)]
struct Loss {
    /// The allowance for 1,024 bytes.
    allowed: usize,
    /// The loss that is too much.
    bound: usize,
    /// The loss so far.
    lost: usize,
}

impl Loss {
    /// No loss yet, above this allowance.
    fn above(allowed: usize, bound: usize) -> Loss {
        Loss {
            allowed,
            bound,
            lost: 0,
        }
    }

    /// Whether the loss has reached the bound.
    #[inline(always)]
    fn is_too_much(&self) -> bool {
        self.lost >= self.bound
    }

    /// Adds the cost of some bytes.
    #[inline(always)]
    fn add(&mut self, bytes: usize, cost: usize) {
        let allowed = bytes.saturating_mul(self.allowed) / 1024;
        self.lost = self.lost.saturating_add(cost).saturating_sub(allowed);
    }
}

/// The engine that a finder uses, and when it tunes.
#[derive(Clone, Copy, Debug)]
pub(crate) struct Strategy {
    engine: Engine,
    /// What the engine costs above its allowance. The finder tunes where this is too much.
    loss: Loss,
    /// What it costs above the estimate of an engine that is not prepared yet, while the finder waits for that one.
    awaited: Option<Loss>,
    measured: Measured,
}

impl Strategy {
    /// The state before any text.
    pub fn new() -> Strategy {
        Strategy {
            engine: Engine::Prefilter,
            loss: Loss::above(PREFILTER_SLACK, LEAST_LOSS),
            awaited: None,
            measured: Measured::nothing(),
        }
    }

    /// The engine in use.
    #[inline(always)]
    pub fn engine(&self) -> Engine {
        self.engine
    }

    /// The engine for the next `rest` bytes of a scan. A short rest goes to the prefilter.
    #[inline(always)]
    pub fn engine_for(&self, rest: usize) -> Engine {
        match self.engine {
            Engine::Automaton if rest < LEAST_BY_AUTOMATON => Engine::Prefilter,
            _ if rest < LEAST_CHOSEN => Engine::Prefilter,
            engine => engine,
        }
    }

    /// What to do before the next search, of `at_hand` bytes.
    #[inline(always)]
    pub fn step(&self, at_hand: usize) -> Step {
        if !self.is_due() {
            Step::GoOn
        } else if at_hand < LEAST_SAMPLE {
            Step::Gather
        } else {
            Step::Tune
        }
    }

    /// Whether to tune before the next span of a text in memory, with `rest` bytes to go.
    pub fn tunes_before(&self, rest: usize) -> bool {
        rest >= LEAST_SAMPLE && self.is_due_before(rest)
    }

    /// Whether the engine in use was tuned.
    fn is_tuned(&self) -> bool {
        match self.engine {
            Engine::Prefilter => false,
            Engine::Factors | Engine::ShiftOr | Engine::Automaton => true,
        }
    }

    /// Whether a loss has reached its bound.
    #[inline(always)]
    fn is_due(&self) -> bool {
        self.loss.is_too_much()
            || match &self.awaited {
                Some(awaited) => awaited.is_too_much(),
                None => false,
            }
    }

    /// As `is_due`, in a text with `rest` bytes to go. Under the prefilter, the loss expected in the rest counts too.
    fn is_due_before(&self, rest: usize) -> bool {
        let likely = self
            .loss
            .lost
            .saturating_mul(rest / self.measured.bytes.max(1));
        self.is_due() || !self.is_tuned() && likely >= self.loss.bound.saturating_mul(SURE)
    }

    /// Whether the loss, or the loss above an engine that it waits for, has reached a price.
    pub fn has_lost(&self, price: usize) -> bool {
        let awaited = match self.awaited {
            Some(awaited) => awaited.lost,
            None => 0,
        };
        self.loss.lost.max(awaited) >= price
    }

    /// Waits for an engine with this estimate, or goes on waiting: it is due once the engine in use has cost `price`
    /// more. The prefilter is kept only where it is about as good as the tuned engines, so nothing is waited for then.
    pub fn wait_for(&mut self, estimate: usize, price: usize) {
        if !self.is_tuned() {
            return;
        }
        let lost = match self.awaited {
            Some(awaited) => awaited.lost,
            None => 0,
        };
        self.awaited = Some(Loss {
            lost,
            ..Loss::above(estimate, price)
        });
    }

    /// Waits for no engine any more.
    pub fn stop_waiting(&mut self) {
        self.awaited = None;
    }

    /// Adds the cost of some bytes, and the ends found in them.
    #[inline]
    pub fn note(&mut self, bytes: usize, cost: usize, found: EndRate) {
        let before = self.measured;
        self.measured = Measured {
            bytes: before.bytes.saturating_add(bytes),
            cost: before.cost.saturating_add(cost),
            found: EndRate {
                ends: before.found.ends.saturating_add(found.ends),
                starts: before.found.starts.saturating_add(found.starts),
            },
        };
        self.loss.add(bytes, cost);
        if let Some(awaited) = &mut self.awaited {
            awaited.add(bytes, cost);
        }
    }

    /// Changes to the engine with the lowest estimate, unless the prefilter is in use and this is not clearly better.
    /// The measurement begins anew.
    pub fn choose(&mut self, estimates: Estimates) {
        let (engine, cost) = estimates.best();
        let allowed = allowed_for(cost);
        let is_better = self.is_better(cost, allowed);
        let bound = if is_better {
            (self.loss.bound / 2).max(LEAST_LOSS)
        } else {
            self.loss
                .bound
                .saturating_mul(2)
                .min(LEAST_LOSS * MOST_WAIT)
        };
        if is_better || self.is_tuned() {
            self.engine = engine;
            self.loss = Loss::above(allowed, bound);
        } else {
            self.loss = Loss::above(self.loss.allowed, bound);
        }
        self.measured = Measured::nothing();
    }

    /// Whether an estimate is clearly better. Under the prefilter it has to be an eighth below the measured cost. Under
    /// another engine its allowance has to be an eighth below the allowance in use, or below half of the measured cost.
    /// Estimates are often too low: frequent literals cost factors more than a sample shows.
    fn is_better(&self, cost: usize, allowed: usize) -> bool {
        let spent = self.measured_cost();
        if self.is_tuned() {
            allowed < self.loss.allowed - self.loss.allowed / 8 || allowed < spent / 2
        } else {
            cost < spent - spent / 8
        }
    }

    /// The ends since the last choice, and the starts of a search after them, for 1,024 bytes.
    pub fn rate(&self) -> EndRate {
        let bytes = self.measured.bytes.max(1);
        EndRate {
            ends: self.measured.found.ends.saturating_mul(1024) / bytes,
            starts: self.measured.found.starts.saturating_mul(1024) / bytes,
        }
    }

    /// The measured cost of 1,024 bytes since the last choice. Under the prefilter only false positives and ends are
    /// noted, so the filter is charged by its price, `MASKS_COST`.
    fn measured_cost(&self) -> usize {
        let cost = self.measured.cost.saturating_mul(1024) / self.measured.bytes.max(1);
        if self.is_tuned() {
            cost
        } else {
            cost.saturating_add(MASKS_COST)
        }
    }
}

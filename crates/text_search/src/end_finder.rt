//! A search through texts that tunes itself to them.
ghost use Rattle.std.specs.Prelude.{◌≡◌, ◌+◌, ◌-◌, ◌^◌, ◌<◌, ◌≤◌, IfOk, IfSome, IsTrue, None, Ok, is_some, length};
ghost use Rattle.text_search.specs.Searched.{AddsHits, FindsNext};

use crate::hit_search::{HitSearch, PrefilterSearch};
use crate::prices::{cost_by_automaton, cost_by_prefilter, cost_of_dense_ends};
use crate::sampling::Sample;
use crate::strategy::{
    Engine, Estimates, Step, Strategy, Wanted, has_factors, has_use, least_gathered, sample_len,
    span_after, wants_automaton, wants_automaton_first, wants_shift_or,
};
use crate::text_search::{TextSearch, next_of};
use crate::tuning::STATE_PRICE;
use factor_search::{FactorEnds, Factors};
use lit_plan::Compiled;
use shift_search::{ShiftOr, ShiftOrEnds};
use std::alloc::{AllocError, Global};
use std::marker::Model;
use text_automaton::{Automaton, AutomatonEnds};
use text_ends::{EndRate, Hit, add_hits_of};

/// A search through the texts of one run for the literals of a plan. It begins as `first_end_after` does. When false
/// positives and ends have cost too much, it tunes itself to a sample of the text. It then compares the estimates of
/// factors, shift-or and the automaton, and changes to the cheapest if this promises a gain. Its results do not depend
/// on this. It takes all its memory when it is made.
#[derive(Debug, Drop)]
pub struct EndFinder {
    /// Factors, unless the list is too long for them.
    factors: Option<Factors>,
    shift_or: ShiftOr,
    automaton: Automaton,
    /// Whether the tables of the automaton were refused: then it has no estimate.
    is_refused: bool,
    /// Bytes gathered from short pieces of a stream. The finder takes the sample out while it tunes.
    sample: Option<Sample>,
    strategy: Strategy,
}

impl Model for EndFinder {
    ghost use Rattle.std.specs.Prelude.{◌≡◌, IfSome};
    ghost use Rattle.lit_base.specs.Literals.{Literals};

    ghost Value = { Literals };

    ghost view = { λ s. s.shift_or.literals };

    ghost invariant = { λ s. IfSome s.factors (λ factors. factors.literals ≡ s.shift_or.literals) × (s.automaton.literals ≡ s.shift_or.literals) };
}

impl EndFinder {
    /// A search by a plan, before any text.
    pub fn new(alloc: Global, compiled: &Compiled) -> Result<EndFinder, AllocError>
        ensures { IfOk result (λ finder. finder ≡ compiled.now.literals) }
    {
        let factors = factors_of(alloc, compiled)?;
        let shift_or = ShiftOr::new(alloc, compiled.shared_index()?)?;
        let automaton = Automaton::new(alloc, compiled.shared_index()?)?;
        let sample = Sample::new(alloc)?;
        Ok(EndFinder {
            factors,
            shift_or,
            automaton,
            is_refused: false,
            sample: Some(sample),
            strategy: Strategy::new(),
        })
    }

    /// As `new`, or `None` if the plan has at most three literals. They are searched for by one to three bytes of each,
    /// whatever the text.
    pub fn new_unless_few(
        alloc: Global,
        compiled: &Compiled,
    ) -> Result<Option<EndFinder>, AllocError>
        ensures plan { IfOk result (λ finder. IfSome finder (λ literals. literals ≡ compiled.now.literals)) }
        ensures few { length compiled.now.literals.texts ≤ 3 → result ≡ Ok None }
        ensures many { 3 < length compiled.now.literals.texts → IfOk result (λ finder. IsTrue (is_some finder)) }
    {
        if !has_use(compiled.list().len()) {
            return Ok(None);
        }
        Ok(Some(EndFinder::new(alloc, compiled)?))
    }

    /// The engine in use.
    #[inline(always)]
    pub fn engine(&self) -> Engine {
        self.strategy.engine()
    }

    /// The first position of a search's text after `from` at which some literal ends, wherever it begins, or `None`. It
    /// takes no memory.
    pub fn next_end_in(&mut self, search: &mut TextSearch<'_>, from: usize) -> Option<usize>
        requires { self.old ≡ search.old.plan.literals }
        ensures same { self.new ≡ self.old }
        ensures search { search.new ≡ search.old }
        ensures next { FindsNext search.old.plan.literals search.old.text from result }
    {
        let text = search.text();
        if from >= text.len() {
            return None;
        }
        self.tune_if_due(search.compiled(), text, from, Wanted::Ends);
        self.next_by_engine(search, from)
    }

    /// As `next_end_in`, by the engine in use.
    fn next_by_engine(&mut self, search: &mut TextSearch<'_>, from: usize) -> Option<usize>
        requires plan { self.old ≡ search.old.plan.literals }
        requires inside { from < length search.old.text }
        ensures same { self.new ≡ self.old }
        ensures search { search.new ≡ search.old }
        ensures next { FindsNext search.old.plan.literals search.old.text from result }
    {
        let text = search.text();
        match (self.engine(), &self.factors) {
            (Engine::Factors, Some(factors)) => {
                let mut ends = FactorEnds::after(factors, text, from);
                let found = next_of(&mut ends);
                let (count, rate) = passed(text, from, found);
                let spent = factors.cost_of(count, ends.tally(), rate);
                self.strategy.note(count, spent, rate);
                found
            }
            (Engine::ShiftOr, _) => {
                let mut ends = ShiftOrEnds::after(&self.shift_or, text, from);
                let found = next_of(&mut ends);
                let (count, rate) = passed(text, from, found);
                let spent = self
                    .shift_or
                    .cost_of(count, ends.tally().false_positives, rate);
                self.strategy.note(count, spent, rate);
                found
            }
            (Engine::Automaton, _) => self.next_by_automaton(search, from),
            (Engine::Prefilter, _) | (Engine::Factors, None) => {
                let before = search.false_positives();
                let found = search.next_end_after(from);
                let (count, rate) = passed(text, from, found);
                let more = search.false_positives().saturating_sub(before);
                self.strategy.note(count, cost_by_prefilter(more, 0), rate);
                found
            }
        }
    }

    /// As `next_end_in`, by the automaton, or by the prefilter if the automaton is not made. It stands alone because its
    /// reading takes 8 KiB of the stack.
    #[inline(never)]
    fn next_by_automaton(&mut self, search: &mut TextSearch<'_>, from: usize) -> Option<usize>
        requires plan { self.old ≡ search.old.plan.literals }
        requires inside { from < length search.old.text }
        ensures same { self.new ≡ self.old }
        ensures search { search.new ≡ search.old }
        ensures next { FindsNext search.old.plan.literals search.old.text from result }
    {
        let text = search.text();
        let Some(mut ends) = AutomatonEnds::after(&self.automaton, text, from) else {
            return search.next_end_after(from);
        };
        let found = next_of(&mut ends);
        let (count, rate) = passed(text, from, found);
        let spent = self.cost_of_automaton(search.compiled(), count, rate);
        self.strategy.note(count, spent, rate);
        found
    }

    /// Adds hits by the automaton, as `add_hits` does, or by the prefilter if the automaton is not made. It stands
    /// alone because its readings take 8 KiB of the stack.
    #[inline(never)]
    fn add_by_automaton(
        &mut self,
        compiled: &Compiled,
        text: &[u8],
        from: usize,
        at: u64,
        most: usize,
        out: &mut Vec<Hit>,
    ) -> Result<usize, AllocError>
        requires plan { self.old ≡ compiled.now.literals }
        requires inside { from ≤ length text.now }
        requires room { at + (length text.now - from) < 2 ^ 64 }
        ensures same { self.new ≡ self.old }
        ensures hits { AddsHits compiled.now.literals text.now from at most out.old.items out.new.items result }
    {
        let Some(mut ends) = AutomatonEnds::after(&self.automaton, text, from) else {
            return PrefilterSearch.add_hits(compiled, text, from, at, most, out);
        };
        let stop = add_hits_of(&mut ends, text, from, at, most, out)?;
        let found = scanned(text, stop, ends.ends());
        let spent = self.cost_of_automaton(compiled, stop - from, found);
        self.strategy.note(stop - from, spent, found);
        Ok(stop)
    }

    /// Tunes itself to the text after `from`, if the rest is expected to gain by that.
    fn tune_if_sure(&mut self, compiled: &Compiled, text: &[u8], from: usize)
        requires { from ≤ length text.now }
        ensures { self.new ≡ self.old }
    {
        if self.strategy.tunes_before(text.len() - from) {
            self.tune(compiled, text, from, Wanted::Hits);
        }
    }

    /// Tunes itself to the text after `from`, if it is due and the text is long enough for a sample. A shorter text is
    /// gathered.
    #[inline(always)]
    fn tune_if_due(&mut self, compiled: &Compiled, text: &[u8], from: usize, wanted: Wanted)
        requires { from ≤ length text.now }
        ensures { self.new ≡ self.old }
    {
        match self.strategy.step(text.len() - from) {
            Step::GoOn => (),
            Step::Gather => self.gather(compiled, text, from, wanted),
            Step::Tune => self.tune(compiled, text, from, wanted),
        }
    }

    /// Gathers the bytes of a piece after `from`, unless they are too short, and tunes itself once the sample is full. A
    /// text in which one end after the other is searched for is gathered at its start alone.
    #[inline(never)]
    fn gather(&mut self, compiled: &Compiled, text: &[u8], from: usize, wanted: Wanted)
        requires { from ≤ length text.now }
        ensures { self.new ≡ self.old }
    {
        let (_, rest) = text.split_at(from);
        let is_gathered = match wanted {
            Wanted::Hits => false,
            Wanted::Ends => from > 0,
        };
        if is_gathered || rest.len() < least_gathered(compiled.index().len()) {
            return;
        }
        let Some(mut sample) = self.sample.take() else {
            return;
        };
        if sample.add(rest) {
            self.tune(compiled, sample.text(), 0, wanted);
            sample.clear();
        }
        self.sample = Some(sample);
    }

    /// Tunes itself to a sample of the text after `from`, and forgets the bytes gathered before. While the automaton is
    /// best but not paid for, the next best engine is used.
    #[inline(never)]
    fn tune(&mut self, compiled: &Compiled, text: &[u8], from: usize, wanted: Wanted)
        requires { from ≤ length text.now }
        ensures { self.new ≡ self.old }
    {
        let (_, after) = text.split_at(from);
        let most = sample_len(compiled.index().len());
        let (sample, _) = after.split_at(after.len().min(most));
        let rate = self.strategy.rate();
        let dense = cost_of_dense_ends(rate);
        let by_factors = self.tune_factors(sample, rate).saturating_add(dense);
        let automaton_estimate = self.estimate_automaton(compiled, rate);
        let price = self.price_of_automaton(wanted);
        let is_paid = self.strategy.has_lost(price);
        let is_built_first = self.build_automaton_if(
            is_paid && wants_automaton_first(automaton_estimate, by_factors),
        );
        let by_shift_or = if !is_built_first && wants_shift_or(by_factors) {
            self.shift_or.tune(sample, rate).saturating_add(dense)
        } else {
            usize::MAX
        };
        let is_best = wants_automaton(automaton_estimate, by_factors, by_shift_or);
        let by_automaton = if self.build_automaton_if(is_paid && is_best) {
            automaton_estimate
        } else {
            usize::MAX
        };
        self.strategy.choose(Estimates {
            factors: by_factors,
            shift_or: by_shift_or,
            automaton: by_automaton,
        });
        if is_best && !is_paid {
            self.strategy.wait_for(automaton_estimate, price);
        } else {
            self.strategy.stop_waiting();
        }
        if let Some(sample) = &mut self.sample {
            sample.clear();
        }
    }

    /// Chooses factors by a sample. Returns the estimate of a search by them; `usize::MAX` if there are none.
    fn tune_factors(&mut self, sample: &[u8], rate: EndRate) -> usize
        ensures { self.new ≡ self.old }
    {
        match &mut self.factors {
            Some(factors) => factors.tune(sample, rate),
            None => usize::MAX,
        }
    }

    /// The estimate of a search by the automaton; `usize::MAX` if its tables were refused.
    fn estimate_automaton(&self, compiled: &Compiled, rate: EndRate) -> usize {
        if self.is_refused {
            return usize::MAX;
        }
        self.cost_of_automaton(compiled, 1024, rate)
    }

    /// Builds the tables of the automaton if it is wanted. Returns whether they are built.
    fn build_automaton_if(&mut self, is_wanted: bool) -> bool
        ensures { self.new ≡ self.old }
    {
        if !is_wanted {
            return false;
        }
        let is_built = self.automaton.build();
        self.is_refused = !is_built;
        is_built
    }

    /// What has to be lost before the automaton is built: nothing in a scan, or where it is in use. A search for single
    /// ends may be short, so it first loses what building takes.
    fn price_of_automaton(&self, wanted: Wanted) -> usize {
        match (wanted, self.engine()) {
            (Wanted::Hits, _) | (Wanted::Ends, Engine::Automaton) => 0,
            (Wanted::Ends, _) => self.automaton.room().saturating_mul(STATE_PRICE),
        }
    }

    /// The cost of a search by the automaton that found this much in `count` bytes.
    fn cost_of_automaton(&self, compiled: &Compiled, count: usize, found: EndRate) -> usize {
        cost_by_automaton(self.automaton.room(), compiled.carry(), count, found)
    }
}

impl HitSearch for EndFinder {
    ghost serves = { λ finder literals. finder ≡ literals };

    fn add_hits(
        &mut self,
        compiled: &Compiled,
        text: &[u8],
        from: usize,
        at: u64,
        most: usize,
        out: &mut Vec<Hit>,
    ) -> Result<usize, AllocError> {
        self.tune_if_due(compiled, text, from, Wanted::Hits);
        match (self.strategy.engine_for(text.len() - from), &self.factors) {
            (Engine::Automaton, _) => self.add_by_automaton(compiled, text, from, at, most, out),
            (Engine::Factors, Some(factors)) => {
                let mut ends = FactorEnds::after(factors, text, from);
                let stop = add_hits_of(&mut ends, text, from, at, most, out)?;
                let found = scanned(text, stop, ends.tally().ends);
                let spent = factors.cost_of(stop - from, ends.tally(), found);
                self.strategy.note(stop - from, spent, found);
                Ok(stop)
            }
            (Engine::ShiftOr, _) => {
                let mut ends = ShiftOrEnds::after(&self.shift_or, text, from);
                let stop = add_hits_of(&mut ends, text, from, at, most, out)?;
                let tally = ends.tally();
                let found = scanned(text, stop, tally.ends);
                let spent = self
                    .shift_or
                    .cost_of(stop - from, tally.false_positives, found);
                self.strategy.note(stop - from, spent, found);
                Ok(stop)
            }
            (Engine::Prefilter, _) | (Engine::Factors, None) => {
                let mut ends = compiled.prefilter_ends(text, from);
                let stop = add_hits_of(&mut ends, text, from, at, most, out)?;
                let found = scanned(text, stop, ends.tally().ends);
                let spent = cost_by_prefilter(ends.tally().false_positives, found.ends);
                self.strategy.note(stop - from, spent, found);
                Ok(stop)
            }
        }
    }

    /// It may tune itself before each span.
    fn add_spans(
        &mut self,
        compiled: &Compiled,
        text: &[u8],
        from: usize,
        most: usize,
        out: &mut Vec<Hit>,
    ) -> Result<usize, AllocError> {
        let before = out.len();
        let enough = most.max(1);
        let mut place = from;
        'spans: while place < text.len() {
            self.tune_if_sure(compiled, text, place);
            let stop = text
                .len()
                .min(place.saturating_add(span_after(place - from)));
            let (prefix, _) = text.split_at(stop);
            let left = most - (out.len() - before);
            match self.add_hits(compiled, prefix, place, place as u64, left, out) {
                Ok(end) => place = end,
                Err(refused) => {
                    out.truncate(before);
                    return Err(refused);
                }
            }
            if out.len() - before >= enough {
                return Ok(place);
            }
        }
        Ok(text.len())
    }
}

/// The factors of a plan's literals, or `None` if these are too many.
fn factors_of(alloc: Global, compiled: &Compiled) -> Result<Option<Factors>, AllocError>
    ensures { IfOk result (λ factors. IfSome factors (λ some. some.literals ≡ compiled.now.literals)) }
{
    if !has_factors(compiled.list().len()) {
        return Ok(None);
    }
    Ok(Some(Factors::new(alloc, compiled.shared_index()?)?))
}

/// How many bytes after `from` a search for one end has passed, and the rate that it adds.
fn passed(text: &[u8], from: usize, found: Option<usize>) -> (usize, EndRate) {
    let count = found.unwrap_or(text.len()).saturating_sub(from);
    (count, EndRate::of_searches(usize::from(found.is_some())))
}

/// The rate that a scan of a text adds, which found `ends` ends up to `stop`: before the end of the text it had as many
/// hits as were wanted, and the next scan begins anew.
fn scanned(text: &[u8], stop: usize, ends: usize) -> EndRate {
    EndRate {
        starts: usize::from(stop < text.len()),
        ..EndRate::of_scan(ends)
    }
}

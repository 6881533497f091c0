//! The engine that a tuned search uses next.
use crate::prices::{cost_by_automaton, cost_by_prefilter, cost_of_dense_ends};
use crate::strategy::{Engine, Estimates, Strategy};
use crate::tuning::LEAST_SAMPLE;
use text_ends::EndRate;

/// Bytes of a search between two choices.
const BYTES: usize = 65536;

/// These estimates.
fn estimates(factors: usize, shift_or: usize, automaton: usize) -> Estimates {
    Estimates {
        factors,
        shift_or,
        automaton,
    }
}

/// A tuned search with these estimates for factors and shift-or, after the prefilter took far more.
fn promised(by_factors: usize, by_shift_or: usize) -> Strategy {
    promised_three(by_factors, by_shift_or, usize::MAX)
}

/// The same with an estimate for the automaton too.
fn promised_three(by_factors: usize, by_shift_or: usize, by_automaton: usize) -> Strategy {
    let mut strategy = Strategy::new();
    strategy.note(BYTES, 1 << 30, EndRate::nothing());
    strategy.choose(estimates(by_factors, by_shift_or, by_automaton));
    strategy
}

/// A search after `BYTES` more bytes, which cost this much for 1,024.
fn after(mut strategy: Strategy, cost: usize) -> Strategy {
    let taken = cost.saturating_mul(BYTES / 1024);
    strategy.note(BYTES, taken, EndRate::nothing());
    strategy
}

#[test]
fn goes_by_what_promises_less(rt: HostRuntime) {
    assert_eq!(rt; promised(8_000, 9_000).engine(), Engine::Factors);
    assert_eq!(rt; promised(9_000, 8_000).engine(), Engine::ShiftOr);
    assert_eq!(rt; promised(8_000, usize::MAX).engine(), Engine::Factors);
    assert_eq!(rt; promised(usize::MAX, 8_000).engine(), Engine::ShiftOr);
    assert_eq!(rt;
        promised_three(8_000, 9_000, 7_000).engine(),
        Engine::Automaton
    );
    assert_eq!(rt;
        promised_three(8_000, 9_000, 8_500).engine(),
        Engine::Factors
    );
    assert_eq!(rt;
        promised_three(usize::MAX, usize::MAX, 8_500).engine(),
        Engine::Automaton
    );
}

#[test]
fn keeps_its_engine_until_it_tunes_again(rt: HostRuntime) {
    let mut strategy = after(promised(8_000, 9_000), 240_000);
    assert_eq!(rt; strategy.engine(), Engine::Factors);
    strategy.choose(estimates(100_000, 9_000, usize::MAX));
    assert_eq!(rt; strategy.engine(), Engine::ShiftOr);
}

#[test]
fn waits_until_the_price_is_lost(rt: HostRuntime) {
    let mut strategy = promised(9_000, 8_000);
    strategy.wait_for(6_000, 200_000);
    let once = after(strategy, 8_000);
    assert!(rt; once.has_lost(128_000));
    assert!(rt; !once.has_lost(128_001));
    assert!(rt; !once.tunes_before(LEAST_SAMPLE));
    assert!(rt; after(once, 8_000).tunes_before(LEAST_SAMPLE));
}

#[test]
fn keeps_what_was_lost_while_it_tunes_again(rt: HostRuntime) {
    let mut strategy = promised(9_000, 8_000);
    strategy.wait_for(6_000, 200_000);
    let mut once = after(strategy, 8_000);
    once.choose(estimates(9_000, 8_000, usize::MAX));
    once.wait_for(6_000, 200_000);
    assert!(rt; after(once, 8_000).tunes_before(LEAST_SAMPLE));
    once.stop_waiting();
    assert!(rt; !after(once, 8_000).tunes_before(LEAST_SAMPLE));
}

#[test]
fn waits_for_nothing_under_the_prefilter(rt: HostRuntime) {
    let mut strategy = after(Strategy::new(), 2_000);
    strategy.choose(estimates(9_000, 8_000, usize::MAX));
    assert_eq!(rt; strategy.engine(), Engine::Prefilter);
    strategy.wait_for(2_000, 128_000);
    assert!(rt; !after(strategy, 4_000).has_lost(300_000));
    assert!(rt; after(strategy, 6_000).has_lost(300_000));
}

#[test]
fn takes_ends_that_stand_close_together_for_as_much_by_factors(rt: HostRuntime) {
    assert_eq!(rt; cost_by_prefilter(0, 100), 50_000);
    assert_eq!(rt; cost_by_prefilter(3, 1), 1_700);
    assert_eq!(rt; cost_of_dense_ends(EndRate::of_scan(340)), 0);
    assert_eq!(rt;
        cost_of_dense_ends(EndRate::of_scan(341)),
        cost_by_prefilter(0, 341)
    );
    assert_eq!(rt; cost_of_dense_ends(EndRate::of_searches(341)), 0);
}

/// The cost of 1,024 bytes of a scan by an automaton.
fn scanned(room: usize, before: usize, ends: usize) -> usize {
    cost_by_automaton(room, before, 1024, EndRate::of_scan(ends))
}

#[test]
fn takes_the_automaton_for_less_where_ends_are_frequent(rt: HostRuntime) {
    assert_eq!(rt; scanned(100, 0, 0), 9_500);
    assert_eq!(rt; scanned(1024, 0, 10), 4_500);
    assert_eq!(rt; scanned(8192, 0, 10), 8_084);
    assert_eq!(rt; scanned(8192, 10, 45), 0);
    assert_eq!(rt; scanned(8192, 4094, 45), 88_840);
}

#[test]
fn takes_the_automaton_for_more_where_searches_begin_anew(rt: HostRuntime) {
    assert_eq!(rt;
        cost_by_automaton(100, 0, 1024, EndRate::of_searches(1)),
        47_000
    );
}

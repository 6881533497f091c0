//! The limits in figures.
use lit_base::{
    MAX_LIST_LEN, MAX_LITERAL_LEN, MAX_LITERALS, MAX_PATTERNS, MAX_TEXT_LEN, limits_law,
};
use std::test::Fail;

#[test]
fn states_the_limits(rt: HostRuntime) -> Result<(), Fail> {
    limits_law();
    let limits = [
        MAX_PATTERNS,
        MAX_LITERAL_LEN,
        MAX_LIST_LEN,
        MAX_LITERALS,
        MAX_TEXT_LEN,
    ];
    assert_eq!(rt; limits, [4096, 4095, 1_048_576, 4096, 1_052_672]);
    Ok(())
}

//! Plans that a file publishes: the store in which they are found then, which no clause says.
use crate::plan_files::ONE;
use byte_io::{CutIn, CutOut};
use plan_store::PlanStore;
use scan_run::load_plans;
use std::alloc::Global;
use std::sync::Wait;
use std::test::Fail;

/// Whether the plan under 0 is of the literal `a` alone, and there is no other.
fn has_one(store: &PlanStore) -> bool {
    let Some(ticket) = store.find(0) else {
        return false;
    };
    let list = store.at(&ticket).list();
    list.len() == 1 && list.get(0) == b"a".as_slice() && store.find(1).is_none()
}

/// Whether the file of one plan is loaded into a new store with the line of its number, and is found there.
fn loads_one<R: Wait>(rt: &R, alloc: Global) -> Result<(bool, bool), Fail> {
    let store = PlanStore::new(alloc)?;
    let mut space = [0; 64];
    let mut err = CutOut::within(&mut space);
    load_plans(
        rt,
        alloc,
        &store,
        &mut CutIn::whole(&ONE),
        "plans",
        &mut err,
    )?;
    Ok((
        err.written() == b"scand: plan 0\n".as_slice(),
        has_one(&store),
    ))
}

#[test]
fn loads_plans_into_the_store_that_is_given(rt: HostRuntime) -> Result<(), Fail> {
    let (says_number, has_plan) = loads_one(&rt, rt.alloc())?;
    assert!(rt; says_number);
    assert!(rt; has_plan);
    Ok(())
}

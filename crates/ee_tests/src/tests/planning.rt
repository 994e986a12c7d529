//! Plans from the start that a formatted store gives.
use crate::tests::{address, formatted, same, shape};
use ee_check::{Change, Start};
use ee_flash::MemFlash;
use ee_plan::{Plan, PlanFault, plan, start_of};
use ee_store::Variables;
use std::alloc::Global;
use std::process::Abort;

// The start of a store that is on.
fn start<V: Variables>(rt: &impl Abort, memory: Global, store: &V) -> Start {
    if !store.is_on() {
        panic!(rt; "off");
    }
    start_of(memory, store).expect(rt, "no start")
}

// The start of a store that is just formatted, of one page of so many words in each set.
fn new_start(rt: &impl Abort, memory: Global, words: usize) -> Start {
    let flash = MemFlash::blank(memory, shape(rt, 1, words)).expect(rt, "no device");
    start(rt, memory, &formatted(rt, flash))
}

// The plan of writes of these addresses.
fn planned(
    rt: &impl Abort,
    memory: Global,
    words: usize,
    numbers: &[u16],
) -> Result<Plan, PlanFault> {
    let mut trace = Vec::new(memory);
    for number in numbers {
        let change = Change::Write(address(rt, *number));
        trace.push(change).expect(rt, "no room");
    }
    plan(memory, &new_start(rt, memory, words), trace.as_slice())
}

/// Words of a page, four of which are no slots, addresses, and the moments and the room of their plan.
const PLANS: [(usize, &[u16], &[u64], u64); 3] = [
    (6, &[1, 1, 1, 2, 1], &[3, 5], 0),
    (5, &[1, 1, 1], &[2, 3], 0),
    (7, &[1, 2], &[], 1),
];

#[test]
fn plans_from_a_new_store(rt: HostRuntime) {
    for (words, numbers, moments, room) in PLANS {
        let plan = planned(&rt, rt.alloc(), words, numbers);
        let plan = plan.ok().expect(&rt, "no plan");
        same(
            &rt,
            numbers,
            (plan.moments.as_slice(), plan.room),
            (moments, room),
        );
    }
}

/// Two slots, and a third address.
#[test]
fn a_trace_that_does_not_fit(rt: HostRuntime) {
    let fault = planned(&rt, rt.alloc(), 6, &[1, 2, 3]).err();
    same(&rt, "fault", fault, Some(PlanFault::NotFitting(3)));
}

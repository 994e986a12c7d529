//! A check that is so long that the checker asks for memory in its midst.
use super::plans::counts;
use crate::tests::address;
use ee_check::{Certificate, Change, Start, Stretch, check};
use std::alloc::{Allocator, Global};
use std::collections::BTreeSet;
use std::process::Abort;

// The certificate of 1101 writes on one slot, of which each but the first transfers.
fn thousand(rt: &impl Abort, memory: Global) -> Certificate {
    let mut stretches = Vec::new(memory);
    let mut from = 0;
    for to in 2..1102_u64 {
        stretches.push(Stretch { to, from }).expect(rt, "no room");
        from = 1;
    }
    Certificate {
        slots: 1,
        fill: 0,
        live: 0,
        writes: 1101,
        stretches,
    }
}

/// Behind a thousand changes the checker asks for memory once more, and goes on without
/// where that is refused.
pub fn thousand_checked<A: Allocator + Copy>(
    alloc: A,
    rt: &impl Abort,
    memory: Global,
) -> Option<bool> {
    let start = Start::new(1, 0, BTreeSet::new(memory)).expect(rt, "no start");
    let trace = vec![in memory; Change::Write(address(rt, 1)); 1101].expect(rt, "no trace");
    counts(check(alloc, &start, &trace, &thousand(rt, memory)), 1100)
}

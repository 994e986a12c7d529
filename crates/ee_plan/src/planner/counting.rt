//! What is counted of one round of a trace.
ghost use Rattle.std.specs.Prelude.{◌≡◌, ◌<◌, ◌≤◌, length, IfOk, OnOk};
ghost use Rattle.std.specs.List.{All, Contains};
ghost use Rattle.ee_check.specs.Live.{live_after};
ghost use Rattle.ee_plan.specs.Planner.Places.{AreFlats, counts_before};

use ee_check::{Change, LiveSet};
use std::alloc::{AllocError, Allocator};

/// How many addresses are live before each change. The changes are made.
pub(crate) fn count<A: Allocator + Copy>(
    alloc: A,
    trace: &[Change],
    live: &mut LiveSet<A>,
) -> Result<Vec<u64, A>, AllocError>
    ensures counts { IfOk result
        (λ counts. counts.items ≡ counts_before live.old trace.now) }
    ensures live { OnOk result (live.new ≡ live_after live.old trace.now) }
{
    let mut counts = Vec::new(alloc);
    for change in trace {
        counts.push(live.len())?;
        live.make(*change)?;
    }
    Ok(counts)
}

/// For how many changes behind each one the count stays the same.
pub(crate) fn flats<A: Allocator + Copy>(
    alloc: A,
    counts: &[u64],
) -> Result<Vec<usize, A>, AllocError>
    ensures { IfOk result (λ flats. AreFlats counts.now flats.items) }
{
    let mut flats = vec![in alloc; 0; counts.len()]?;
    for back in 1..counts.len() {
        let at = counts.len() - 1 - back;
        if counts[at] == counts[at + 1] {
            flats[at] = flats[at + 1] + 1;
        }
    }
    Ok(flats)
}

/// The greatest of these counts, or 0 where there are none.
pub(crate) fn greatest(counts: &[u64]) -> u64
    ensures one_of_them { 0 < length counts.now → Contains counts.now result }
    ensures none_more { All (λ count. count ≤ result) counts.now }
{
    counts.iter().copied().max().unwrap_or(0)
}

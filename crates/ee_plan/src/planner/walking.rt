//! From transfer to transfer through a trace that is made many times over.
ghost use Rattle.std.specs.Prelude.{◌≡◌, ◌≢◌, ℕ, ◌+◌, ◌-◌, ◌*◌, ◌^◌, ◌<◌, ◌≤◌, length, IfNone, IfSome};
ghost use Rattle.ee_plan.specs.Planner.Places.{AreRounds, IsFirstOver, IsOnWay, count_after, place_in_round};

use super::counts::Counts;
use std::alloc::Allocator;

/// How far a store has come that transfers exactly when each slot is used.
#[derive(Clone, Copy)]
pub(crate) struct Walk {
    /// The change that its last transfer came with, or 0.
    pub(crate) place: u64,
    /// How many transfers it has made.
    pub(crate) made: u64,
}

/// How many transfers such a store makes in all these changes.
pub(crate) fn transfers<A: Allocator>(counts: &Counts<A>, slots: u64, total: u64) -> u64
    requires rounds { AreRounds counts.now }
    requires slots { slots < 2 ^ 32 }
    requires total { total < 2 ^ 63 }
    ensures made { place_in_round (count_after counts.now) slots result ≤ total }
    ensures all { total < place_in_round (count_after counts.now) slots (result + 1) }
{
    let mut walk = leap(counts, slots, total);
    'walking: loop {
        let further = onward(counts, slots, total, walk);
        if further.made == walk.made {
            return walk.made;
        }
        walk = further;
    }
}

/// Walks until it comes to a change of the trace at which it has transferred before, and from there
/// by as many whole periods at once as there are changes for. Where it has been is remembered of
/// one place only, each time that the transfers have doubled.
fn leap<A: Allocator>(counts: &Counts<A>, slots: u64, total: u64) -> Walk
    requires rounds { AreRounds counts.now }
    requires slots { slots < 2 ^ 32 }
    requires total { total < 2 ^ 63 }
    ensures { IsOnWay (count_after counts.now) slots total result }
{
    let mut walk = Walk { place: 0, made: 0 };
    let mut mark = walk;
    'leaping: loop {
        let further = onward(counts, slots, total, walk);
        if further.made == walk.made {
            return walk;
        }
        walk = further;
        let length = counts.later.len() as u64;
        if length <= mark.place && (walk.place - mark.place) % length == 0 {
            return by_periods(mark, walk, total);
        }
        if 2 * mark.made < walk.made {
            mark = walk;
        }
    }
}

/// As many times as there are changes for, what it walked since the mark.
fn by_periods(mark: Walk, walk: Walk, total: u64) -> Walk
    requires further { mark.place < walk.place }
    requires more { mark.made ≤ walk.made }
    requires slow { walk.made + mark.place ≤ walk.place + mark.made }
    requires rising { walk.made ≤ walk.place }
    requires within { walk.place ≤ total }
    requires total { total < 2 ^ 63 }
    ensures walked { (periods : ℕ)
        × (result.place ≡ walk.place + periods * (walk.place - mark.place))
        × (result.made ≡ walk.made + periods * (walk.made - mark.made)) }
    ensures within { result.place ≤ total }
    ensures rising { result.made ≤ result.place }
{
    let periods = (total - walk.place) / (walk.place - mark.place);
    Walk {
        place: walk.place + periods * (walk.place - mark.place),
        made: walk.made + periods * (walk.made - mark.made),
    }
}

/// One transfer further, or as many at once as come while as many addresses are live; none, where
/// the next one would come behind the last change.
fn onward<A: Allocator>(counts: &Counts<A>, slots: u64, total: u64, walk: Walk) -> Walk
    requires rounds { AreRounds counts.now }
    requires slots { slots < 2 ^ 32 }
    requires total { total < 2 ^ 63 }
    requires walked { IsOnWay (count_after counts.now) slots total walk }
    ensures walked { IsOnWay (count_after counts.now) slots total result }
    ensures last { result.made ≡ walk.made
        → total < place_in_round (count_after counts.now) slots (walk.made + 1) }
    ensures further { result.made ≢ walk.made → walk.place < result.place }
    ensures more { walk.made ≤ result.made }
    ensures slow { result.made + walk.place ≤ result.place + walk.made }
{
    let step = slots.saturating_sub(counts.after(walk.place)) + 1;
    let more = counts.flat(walk.place) / step;
    let left = (total - walk.place) / step;
    let times = if more < left { more + 1 } else { left };
    Walk {
        place: walk.place + times * step,
        made: walk.made + times,
    }
}

/// The first change, from 0 to the last, after which more addresses are live than there are slots.
pub(crate) fn first_over<A: Allocator>(counts: &Counts<A>, slots: u64, last: u64) -> Option<u64>
    requires rounds { AreRounds counts.now }
    requires last { last < 2 ^ 63 }
    ensures found { IfSome result (IsFirstOver (count_after counts.now) slots) }
    ensures within { IfSome result (λ n. n ≤ last) }
    ensures none { IfNone result ((n : ℕ) → n ≤ last → count_after counts.now n ≤ slots) }
{
    // a set that takes the most addresses needs no look at each change
    if counts.most() <= slots {
        return None;
    }
    for number in 0..last + 1 {
        if slots < counts.after(number) {
            return Some(number);
        }
    }
    None
}

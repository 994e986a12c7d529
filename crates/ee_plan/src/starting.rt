//! What a store gives a trace to start from.
ghost use Rattle.std.specs.Prelude.{◌≡◌, length, IfOk, OnOk};
ghost use Rattle.std.specs.List.Sorted.{IsStrictlySortedBy};
ghost use Rattle.std.specs.Ordering.{nat_cmp};
ghost use Rattle.ee_flash.specs.Device.{IsOn};
ghost use Rattle.ee_flash.specs.Size.{slot_count};
ghost use Rattle.ee_pages.specs.Meaning.{live_in};
ghost use Rattle.ee_core.specs.Finished.{IsStore};
ghost use Rattle.ee_core.specs.State.{state_of};
ghost use Rattle.ee_plan.specs.Start.{AreLive, IsStartOf, with_addresses};

use ee_check::Start;
use ee_codec::Address;
use ee_core::Variables;
use ee_pages::Batch;
use std::alloc::{AllocError, Allocator};
use std::collections::BTreeSet;

/// What a store that is on gives a trace to start from: the slots of a set, how many of the live
/// set's are used, and the addresses that have a value. It goes over the live addresses once.
///
/// # Errors
///
/// Memory ran out.
///
/// Source: ours.
#[tactic(auto, using(crate::proofs::Gathering::store_starts))]
pub fn start_of<A: Allocator + Copy, V: Variables>(
    alloc: A,
    store: &V,
) -> Result<Start<A>, AllocError>
    requires { IsOn (V.device store.now) }
    ensures start { IfOk result (IsStartOf (slot_count (V.device store.now).size)
        (state_of (V.device store.now))) }
    ensures store { OnOk result (IsStore (V.device store.now)) }
{
    let live = live_addresses(alloc, store)?;
    let Some(start) = Start::new(store.slots() as u64, store.fill() as u64, live) else {
        unreachable!("a set has 1 to 32512 slots, and each live address takes one that is used");
    };
    Ok(start)
}

/// The addresses that have a value.
fn live_addresses<A: Allocator + Copy, V: Variables>(
    alloc: A,
    store: &V,
) -> Result<BTreeSet<Address, A>, AllocError>
    requires { IsOn (V.device store.now) }
    ensures live { IfOk result (λ live. AreLive (state_of (V.device store.now)).map live.keys) }
    ensures count { IfOk result (λ live.
        length live.keys ≡ live_in (state_of (V.device store.now)).map) }
{
    let mut live = Vec::new(alloc);
    let mut after = None;
    'live: loop {
        let batch = store.next_batch(after);
        push_each(&mut live, &batch.found)?;
        let Some(through) = batch.through else {
            return set_of(alloc, live);
        };
        after = Some(through);
    }
}

/// Puts these addresses, which come with values, behind the others.
fn push_each<A: Allocator>(live: &mut Vec<Address, A>, found: &Batch) -> Result<(), AllocError>
    ensures { OnOk result (live.new.items ≡ with_addresses live.old.items found.now.items) }
{
    let mut place = 0;
    'each: while let Some((address, _)) = found.get(place) {
        live.push(address)?;
        place += 1;
    }
    Ok(())
}

/// The set of these addresses. They rise, so it is built in one go.
fn set_of<A: Allocator + Copy>(
    alloc: A,
    rising: Vec<Address, A>,
) -> Result<BTreeSet<Address, A>, AllocError>
    requires { IsStrictlySortedBy nat_cmp rising.items }
    ensures { IfOk result (λ set. set.keys ≡ rising.items) }
{
    rising.into_iter().collect(alloc)
}

//! The planner: the late store makes all changes of a trace, and its stretches are the certificate.
ghost use Rattle.std.specs.Prelude.{◌≡◌, ◌⊎◌, ℕ, length, IfOk, IfErr, MatchResult};
ghost use Rattle.ee_check.specs.Live.{KeepsWithin};
ghost use Rattle.ee_check.specs.Certificate.{IsCertificate, claim_of};
ghost use Rattle.ee_plan.specs.Planner.Plan.{IsPlan, IsReached, IsBestThroughout, IsFirstNotFitting, IsPlanFault};
ghost use Rattle.ee_plan.specs.Planner.LateStore.{HasMade};

use super::late_store::LateStore;
use super::planned::{Plan, PlanFault};
use ee_check::{Certificate, Change, Start};
use std::alloc::Allocator;

/// The fewest transfers that the trace takes of any store that appends each change and transfers by
/// copying the live addresses, when it makes them, and how many slots they leave free.
///
/// Source: ours.
///
/// # Errors
///
/// The first change that makes more addresses live than there are slots; want of memory can come in
/// place of any answer.
pub fn plan<A: Allocator + Copy, B: Allocator>(
    alloc: A,
    start: &Start<B>,
    trace: &[Change],
) -> Result<Plan<A>, PlanFault>
    // The certificate is the tight one; moments, transfers and room are read off it.
    ensures planned { IfOk result (IsPlan start.now trace.now) }
    // So it is a certificate, which the checker accepts.
    ensures certificate { IfOk result (λ plan. IsCertificate start.now trace.now (claim_of plan.certificate)) }
    // A schedule of this cost and this room exists.
    ensures reached { IfOk result (λ plan. IsReached start.now trace.now plan.transfers plan.room) }
    // Wherever the trace is broken off, its moments so far are those of the tight certificate,
    // which a schedule reaches and none betters.
    ensures best { IfOk result
        (λ plan. IsBestThroughout start.now trace.now plan.moments.items) }
    ensures keeps { IfOk result (λ _. KeepsWithin start.now.slots start.now.live trace.now) }
    ensures refused { IfErr result (IsPlanFault start.now trace.now) }
    // Every trace that keeps within the slots is planned, and the first change that doesn't is
    // named.
    ensures fits { KeepsWithin start.now.slots start.now.live trace.now
        → IfErr result (λ fault. fault ≡ PlanFault.Memory) }
    ensures names { (n : ℕ) → IsFirstNotFitting start.now trace.now n
        → MatchResult result (λ _. ⊥)
        (λ fault. (fault ≡ PlanFault.NotFitting n) ⊎ (fault ≡ PlanFault.Memory)) }
{
    let store = follow(alloc, start, trace)?;
    let room = start.slots() - store.fill();
    let stretches = store.into_stretches();
    let moments = stretches.iter().map(|stretch| stretch.to).collect(alloc)?;
    Ok(Plan {
        transfers: stretches.len() as u64,
        moments,
        room,
        certificate: Certificate {
            slots: start.slots(),
            fill: start.fill(),
            live: start.live().len() as u64,
            writes: trace.len() as u64,
            stretches,
        },
    })
}

/// The late store after the whole trace.
fn follow<A: Allocator + Copy, B: Allocator>(
    alloc: A,
    start: &Start<B>,
    trace: &[Change],
) -> Result<LateStore<A>, PlanFault>
    ensures ok { IfOk result (HasMade start.now trace.now (length trace.now)) }
    ensures err { IfErr result (IsPlanFault start.now trace.now) }
{
    let mut store = LateStore::new(alloc, start, trace.len())?;
    let mut number = 0;
    for change in trace {
        number += 1;
        store.make(*change, number)?;
    }
    Ok(store)
}

//! The store that transfers exactly when each slot is used.
ghost use Rattle.std.specs.Prelude.{◌≡◌, ◌≤◌, [], length, OnOk, IfOk, IfErr};
ghost use Rattle.ee_check.specs.Start.{IsStart};
ghost use Rattle.ee_plan.specs.Planner.LateStore.{Makes, IsChangeRefused, store_after_transfer};

use super::planned::PlanFault;
use ee_check::{Change, LiveSet, Start, Stretch};
use std::alloc::{AllocError, Allocator};
use std::marker::Model;

/// A store that transfers exactly when each slot is used, on its way through a trace. It has no
/// flash: it only counts.
#[derive(Drop)]
pub(crate) struct LateStore<A: Allocator> {
    slots: u64,
    /// How many slots are used.
    fill: u64,
    live: LiveSet<A>,
    /// How many slots were used where the stretch that goes on began.
    from: u64,
    /// The stretches that have ended.
    stretches: Vec<Stretch, A>,
}

impl<A: Allocator> Model for LateStore<A> {
    ghost use Rattle.ee_plan.specs.Planner.LateStore.{LateStore};

    ghost Value = { LateStore };

    ghost view = { λ s. record {
      now = record { slots = s.slots; fill = s.fill; live = s.live };
      from = s.from;
      stretches = s.stretches.items;
    } };
}

impl<A: Allocator + Copy> LateStore<A> {
    /// A store before the first of so many changes.
    pub(crate) fn new<B: Allocator>(
        alloc: A,
        start: &Start<B>,
        changes: usize,
    ) -> Result<LateStore<A>, AllocError>
        ensures store { IfOk result
            (λ store. store ≡ record { now = start.now; from = start.now.fill; stretches = [] }) }
        ensures start { IsStart start.now }
    {
        Ok(LateStore {
            slots: start.slots(),
            fill: start.fill(),
            live: LiveSet::of(alloc, start, changes)?,
            from: start.fill(),
            stretches: Vec::new(alloc),
        })
    }

    /// Makes change `number`.
    pub(crate) fn make(&mut self, change: Change, number: u64) -> Result<(), PlanFault>
        ensures made { OnOk result (Makes self.old change number self.new) }
        ensures fits { OnOk result (length self.new.now.live ≤ self.old.now.slots) }
        ensures err { IfErr result (λ fault. IsChangeRefused self.old change number fault) }
    {
        self.live.make(change)?;
        if self.slots < self.live.len() {
            return Err(PlanFault::NotFitting(number));
        }
        if self.fill < self.slots {
            self.fill += 1;
            return Ok(());
        }
        self.transfer(number)?;
        Ok(())
    }

    /// A stretch ends with change `number`, which is made; the live addresses are copied.
    fn transfer(&mut self, number: u64) -> Result<(), AllocError>
        ensures { OnOk result (self.new ≡ store_after_transfer self.old number) }
    {
        self.stretches.push(Stretch {
            to: number,
            from: self.from,
        })?;
        self.from = self.live.len();
        self.fill = self.from;
        Ok(())
    }

    /// How many slots are used.
    pub(crate) fn fill(&self) -> u64
        ensures { result ≡ self.now.now.fill }
    {
        self.fill
    }

    /// The stretches that have ended.
    pub(crate) fn into_stretches(self) -> Vec<Stretch, A>
        ensures { result.items ≡ self.stretches }
    {
        self.stretches
    }
}

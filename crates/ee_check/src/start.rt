//! Where a trace starts: the slots of a set, how many are used, and which addresses are live.
ghost use Rattle.std.specs.Prelude.{◌≡◌, IfOk};
ghost use Rattle.std.specs.Option.{SomeIff};
ghost use Rattle.ee_check.specs.Start.{IsStart};

use ee_codec::Address;
use std::alloc::{AllocError, Allocator, Global};
use std::collections::BTreeSet;
use std::marker::Model;

/// The most slots that a set has.
const MOST_SLOTS: u64 = 32512;

/// What a trace starts from: how many slots a set has, how many of the live set's are used, and
/// which addresses are live.
#[derive(Drop)]
pub struct Start<A: Allocator = Global> {
    slots: u64,
    fill: u64,
    live: BTreeSet<Address, A>,
}

impl<A: Allocator> Model for Start<A> {
    ghost use Rattle.ee_check.specs.Schedule.{Situation};
    ghost use Rattle.ee_check.specs.Start.{IsStart};

    ghost Value = { Situation };

    ghost view = { λ s. record { slots = s.slots; fill = s.fill; live = s.live.keys } };

    ghost invariant = { λ s. IsStart record { slots = s.slots; fill = s.fill; live = s.live.keys } };
}

impl<A: Allocator> Start<A> {
    /// A start, or `None` if `slots` isn't 1 to 32512, or `fill` isn't the number of the live
    /// addresses to `slots`.
    pub fn new(slots: u64, fill: u64, live: BTreeSet<Address, A>) -> Option<Start<A>>
        ensures { SomeIff result
            (IsStart record { slots = slots; fill = fill; live = live.keys })
            record { slots = slots; fill = fill; live = live.keys } }
    {
        let has_slots = 1 <= slots && slots <= MOST_SLOTS;
        if !has_slots || fill < live.len() as u64 || slots < fill {
            return None;
        }
        Some(Start { slots, fill, live })
    }

    /// The slots of a set: 1 to 32512.
    pub fn slots(&self) -> u64
        ensures slots { result ≡ self.now.slots }
        ensures start { IsStart self.now }
    {
        self.slots
    }

    /// How many slots are used: as many as addresses are live, or more, up to all.
    pub fn fill(&self) -> u64
        ensures fill { result ≡ self.now.fill }
        ensures start { IsStart self.now }
    {
        self.fill
    }

    /// The live addresses.
    pub fn live(&self) -> &BTreeSet<Address, A>
        ensures live { result.now.keys ≡ self.now.live }
        ensures start { IsStart self.now }
    {
        &self.live
    }

    /// The live addresses once more, in memory of their own.
    pub fn live_in<B: Allocator + Copy>(&self, alloc: B) -> Result<BTreeSet<Address, B>, AllocError>
        ensures { IfOk result (λ copy. copy.keys ≡ self.now.live) }
    {
        let mut copy = BTreeSet::new(alloc);
        for address in &self.live {
            copy.insert(*address)?;
        }
        Ok(copy)
    }
}

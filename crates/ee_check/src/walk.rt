//! The checker's way through a trace, from the end of one stretch to the end of the next.
ghost use Rattle.std.specs.Prelude.{◌≡◌, ◌≤◌, OnOk, IfOk, MatchResult, length, slice_range};
ghost use Rattle.ee_check.specs.Live.{live_after};
ghost use Rattle.ee_check.specs.Certificate.{first_place, IsForced};
ghost use Rattle.ee_check.specs.Fault.{IsFlaw};

use super::certificate::Stretch;
use super::change::{Change, make_all};
use super::checking::CheckFault;
use super::live_set::LiveSet;
use super::start::Start;
use std::alloc::{AllocError, Allocator};
use std::marker::Model;

/// A walk through a trace, from the end of one stretch to the end of the next.
#[derive(Drop)]
pub(crate) struct Walk<A: Allocator> {
    /// How many changes are made.
    after: u64,
    /// How many slots are used at least by a store that made no more transfers than it had to.
    used: u64,
    live: LiveSet<A>,
}

impl<A: Allocator> Model for Walk<A> {
    ghost use Rattle.ee_check.specs.Walk.{Walked};

    ghost Value = { Walked };

    ghost view = { λ w. record { place = record { after = w.after; used = w.used }; live = w.live } };
}

impl<A: Allocator + Copy> Walk<A> {
    /// A walk that begins, through so many stretches.
    pub(crate) fn new<B: Allocator>(
        alloc: A,
        start: &Start<B>,
        stretches: usize,
    ) -> Result<Walk<A>, AllocError>
        ensures { IfOk result
            (λ walk. walk ≡ record { place = first_place start.now; live = start.now.live }) }
    {
        Ok(Walk {
            after: 0,
            used: start.fill(),
            // each of them has changes
            live: LiveSet::of(alloc, start, stretches)?,
        })
    }

    /// Whether the stretch is forced here, or why it isn't.
    pub(crate) fn judge<B: Allocator>(
        &self,
        start: &Start<B>,
        trace: &[Change],
        stretch: Stretch,
        number: u64,
    ) -> Result<(), CheckFault>
        ensures { MatchResult result
            (λ _. IsForced start.now trace.now self.now.place stretch)
            (IsFlaw start.now trace.now self.now.place stretch number) }
    {
        if stretch.to <= self.after || (trace.len() as u64) < stretch.to {
            return Err(CheckFault::NotRising(number));
        }
        if stretch.from != self.used {
            return Err(CheckFault::WrongFrom(number));
        }
        if stretch.from.saturating_add(stretch.to - self.after) <= start.slots() {
            return Err(CheckFault::NotForced(number));
        }
        Ok(())
    }

    /// Makes the changes up to this one.
    pub(crate) fn pass(&mut self, trace: &[Change], to: u64) -> Result<(), AllocError>
        requires behind { self.old.place.after ≤ to }
        requires within { to ≤ length trace.now }
        ensures live { OnOk result (self.new.live
            ≡ live_after self.old.live (slice_range trace.now self.old.place.after to)) }
        ensures place { OnOk result (self.new.place ≡ record { after = to; used = length self.new.live }) }
    {
        make_all(&trace[self.after as usize..to as usize], &mut self.live)?;
        self.after = to;
        self.used = self.live.len();
        Ok(())
    }
}

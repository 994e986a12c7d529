//! The ledger: how often each page was erased, of a device or between two looks at it.
ghost use Rattle.std.specs.Prelude.{◌≡◌, ◌<◌, ◌≤◌, IfErr, IfOk, OnOk, length, slice_index, sum};
ghost use Rattle.std.specs.List.{All, Contains};
ghost use Rattle.ee_wear.specs.Counts.{IsLedger, greatest_of, least_of};
ghost use Rattle.ee_wear.specs.Since.{IsSinceFault, NoneFell, differences};
ghost use Rattle.ee_flash.specs.Wear.{total_wear_of};

use crate::SinceFault;
use crate::since::first_fallen;
use ee_flash::Flash;
use std::alloc::{AllocError, Allocator, Global};
use std::marker::Model;

/// How often each page was erased: of a device, or between two looks at it.
///
/// Pages are numbered from 0, those of the first set first. There are 2 to 128.
///
/// Source: ours.
#[derive(Drop)]
pub struct Ledger<A: Allocator = Global> {
    /// How often each page was erased, by rising page.
    counts: Vec<u64, A>,
}

impl<A: Allocator> Model for Ledger<A> {
    ghost use Rattle.std.specs.Prelude.{ℕ, List};
    ghost use Rattle.ee_wear.specs.Counts.{IsLedger};

    ghost Value = { List ℕ };

    ghost view = { λ ledger. ledger.counts.items };

    ghost invariant = { λ ledger. IsLedger ledger.counts.items };
}

impl<A: Allocator + Copy> Ledger<A> {
    /// The wear of each page of a device, whether power is on or off.
    ///
    /// # Errors
    ///
    /// `AllocError`: memory was refused.
    pub fn of<F: Flash>(alloc: A, flash: &F) -> Result<Self, AllocError>
        ensures wear { IfOk result (λ ledger. ledger ≡ (F.device flash.now).wear) }
        ensures total { IfOk result (λ ledger. sum ledger ≡ total_wear_of (F.device flash.now)) }
    {
        let pages = 2 * flash.shape().pages();
        let counts = (0..pages).map(|page| flash.wear(page)).collect(alloc)?;
        Ok(Ledger { counts })
    }
}

impl<A: Allocator> Ledger<A> {
    /// What came since `before`, page by page: how often each page was erased between the two, as
    /// long as its wear is below `u64::MAX`.
    ///
    /// # Errors
    ///
    /// The first that applies: `OtherShape`, where the two are not of as many pages; `Backwards`,
    /// where a page has less wear than before; `Memory`, where memory was refused.
    pub fn since<B: Allocator + Copy, C: Allocator>(
        &self,
        alloc: B,
        before: &Ledger<C>,
    ) -> Result<Ledger<B>, SinceFault>
        ensures value { IfOk result (λ ledger. ledger ≡ differences before.now self.now) }
        ensures none_fell { OnOk result (NoneFell before.now self.now) }
        ensures fault { IfErr result (IsSinceFault before.now self.now) }
    {
        if self.counts.len() != before.counts.len() {
            return Err(SinceFault::OtherShape);
        }
        if let Some(page) = first_fallen(&before.counts, &self.counts) {
            return Err(SinceFault::Backwards(page));
        }
        // No page has less than before, so nothing is cut off.
        let pairs = before.counts.iter().zip(&self.counts);
        let counts = pairs
            .map(|(old, new)| new.saturating_sub(*old))
            .collect(alloc)?;
        Ok(Ledger { counts })
    }

    /// How many pages there are: 2 to 128.
    pub fn pages(&self) -> usize
        ensures value { result ≡ length self.now }
        ensures ledger { IsLedger self.now }
    {
        self.counts.len()
    }

    /// The wear of a page, which is below `pages()`.
    pub fn wear(&self, page: usize) -> u64
        requires { page < length self.now }
        ensures { result ≡ slice_index self.now page }
    {
        self.counts[page]
    }

    /// The wear of all pages together.
    pub fn total(&self) -> u128
        ensures { result ≡ sum self.now }
    {
        self.counts.iter().map(|count| u128::from(*count)).sum()
    }

    /// The wear of the pages that have the least.
    pub fn least(&self) -> u64
        ensures value { result ≡ least_of self.now }
        ensures one_of_them { Contains self.now result }
        ensures none_less { All (λ count. result ≤ count) self.now }
    {
        self.counts.iter().copied().min().unwrap_or(0)
    }

    /// The wear of the pages that have the most.
    pub fn greatest(&self) -> u64
        ensures value { result ≡ greatest_of self.now }
        ensures one_of_them { Contains self.now result }
        ensures none_more { All (λ count. count ≤ result) self.now }
    {
        self.counts.iter().copied().max().unwrap_or(0)
    }
}

//! Values are found through the slots or by an index.
ghost use Rattle.std.specs.Prelude.{◌≡◌};

use ee_codec::Address;
use ee_core::inner::Change;
use ee_core::{LiveBatch, Lookup, NoMemory, Put, Slots};
use ee_flash::{Cut, Flash};
use ee_index::SlotIndex;
use ee_index::inner::{Costs, count_live, look_count};
use ee_pages::Layout;
use std::alloc::{Allocator, Global};

/// Finds values through the slots or by an index.
#[derive(Drop)]
pub(crate) enum EitherLookup<A: Allocator = Global> {
    /// Through the slots.
    Slots(Slots),
    /// By an index.
    Index(SlotIndex<A>),
}

impl<A: Allocator + Copy> EitherLookup<A> {
    /// How many used slots a look for the value of an address goes through without an index,
    /// from the newest down.
    pub(crate) fn look_count<F: Flash>(
        &self,
        flash: &F,
        layout: &Layout,
        address: Address,
    ) -> usize {
        match self {
            EitherLookup::Slots(_) => look_count(flash, layout, address),
            EitherLookup::Index(index) => index.look_count(layout.fill, address),
        }
    }

    /// How many addresses an index has or would have: with none, as many as there are used slots.
    pub(crate) fn count(&self, layout: &Layout) -> usize {
        match self {
            EitherLookup::Slots(_) => layout.fill,
            EitherLookup::Index(index) => index.count(),
        }
    }

    /// Whether live addresses are counted sooner once there is an index, of a set of so many slots.
    pub(crate) fn pays_to_count<F: Flash>(
        &self,
        alloc: A,
        flash: &F,
        layout: &Layout,
        costs: &Costs,
        slots: usize,
    ) -> bool {
        // There are no more of them than used slots.
        if matches!(self, EitherLookup::Index(_))
            || !costs.pays_for_a_count(layout.fill, layout.fill, slots)
        {
            return false;
        }
        let live = count_live(alloc, flash, layout).unwrap_or(0);
        costs.pays_for_a_count(live, layout.fill, slots)
    }
}

impl<A: Allocator + Copy> Lookup for EitherLookup<A> {
    ghost use Rattle.ee_replay.specs.Either.{FitsEither, HasRoomEither, IsReadyEither};

    ghost fits = { λ lookup slots. FitsEither lookup slots };

    ghost is_ready = { λ lookup slots address. IsReadyEither lookup slots address };

    ghost has_room = { λ lookup slots puts. HasRoomEither lookup slots puts };

    ghost takes_memory = { Unit {0} };

    ghost can_read = { λ lookup slots. FitsEither lookup slots };

    ghost room = { λ lookup. 0 };

    fn value_of<F: Flash>(&self, flash: &F, layout: &Layout, address: Address) -> Option<u32> {
        match self {
            EitherLookup::Slots(lookup) => lookup.value_of(flash, layout, address),
            EitherLookup::Index(lookup) => lookup.value_of(flash, layout, address),
        }
    }

    fn live_count<F: Flash>(&self, flash: &F, layout: &Layout) -> usize {
        match self {
            EitherLookup::Slots(lookup) => lookup.live_count(flash, layout),
            EitherLookup::Index(lookup) => lookup.live_count(flash, layout),
        }
    }

    fn live_with<F: Flash>(&self, flash: &F, layout: &Layout, puts: &[Put]) -> usize {
        match self {
            EitherLookup::Slots(lookup) => lookup.live_with(flash, layout, puts),
            EitherLookup::Index(lookup) => lookup.live_with(flash, layout, puts),
        }
    }

    fn next_live<F: Flash>(
        &self,
        flash: &F,
        layout: &Layout,
        after: Option<Address>,
    ) -> Option<(Address, u32)> {
        match self {
            EitherLookup::Slots(lookup) => lookup.next_live(flash, layout, after),
            EitherLookup::Index(lookup) => lookup.next_live(flash, layout, after),
        }
    }

    fn next_batch<F: Flash>(
        &self,
        flash: &F,
        layout: &Layout,
        after: Option<Address>,
    ) -> LiveBatch {
        match self {
            EitherLookup::Slots(lookup) => lookup.next_batch(flash, layout, after),
            EitherLookup::Index(lookup) => lookup.next_batch(flash, layout, after),
        }
    }

    fn make_ready<F: Flash>(
        &mut self,
        flash: &F,
        layout: &Layout,
        put: Put,
    ) -> Result<(), NoMemory> {
        match self {
            EitherLookup::Slots(lookup) => lookup.make_ready(flash, layout, put),
            EitherLookup::Index(lookup) => lookup.make_ready(flash, layout, put),
        }
    }

    fn make_room<F: Flash>(
        &mut self,
        flash: &F,
        layout: &Layout,
        puts: &[Put],
    ) -> Result<(), NoMemory> {
        match self {
            EitherLookup::Slots(lookup) => lookup.make_room(flash, layout, puts),
            EitherLookup::Index(lookup) => lookup.make_room(flash, layout, puts),
        }
    }

    fn read_anew<F: Flash>(&mut self, flash: &F, layout: &Layout) {
        match self {
            EitherLookup::Slots(lookup) => lookup.read_anew(flash, layout),
            EitherLookup::Index(lookup) => lookup.read_anew(flash, layout),
        }
    }

    fn find_nothing(&mut self) {
        match self {
            EitherLookup::Slots(lookup) => lookup.find_nothing(),
            EitherLookup::Index(lookup) => lookup.find_nothing(),
        }
    }

    fn append<F: Flash>(
        &mut self,
        flash: &mut F,
        layout: &mut Layout,
        change: Change,
    ) -> Result<(), Cut> {
        match self {
            EitherLookup::Slots(lookup) => lookup.append(flash, layout, change),
            EitherLookup::Index(lookup) => lookup.append(flash, layout, change),
        }
    }

    fn transfer<F: Flash>(
        &mut self,
        flash: &mut F,
        layout: &mut Layout,
        puts: &[Put],
        forgets: bool,
    ) -> Result<(), Cut> {
        match self {
            EitherLookup::Slots(lookup) => lookup.transfer(flash, layout, puts, forgets),
            EitherLookup::Index(lookup) => lookup.transfer(flash, layout, puts, forgets),
        }
    }
}

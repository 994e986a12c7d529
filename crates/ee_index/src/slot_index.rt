//! Values are found by an index, which follows each change.
ghost use Rattle.std.specs.Prelude.{◌≡◌, ◌<◌, ◌-◌, ℕ, IfOk, MatchOption, OnErr, OnOk, length, nat_lt};
ghost use Rattle.ee_pages.specs.Layout.{IsLayout};
ghost use Rattle.ee_pages.specs.Meaning.{changed_by};
ghost use Rattle.ee_core.specs.Lookups.{slots_by};
ghost use Rattle.ee_core.specs.Puts.{HasNew, puts_of};
ghost use Rattle.ee_index.specs.Index.{HasAddresses, IsIndex, IsShownSame, shown_index, slot_for};

use crate::gathering::read_index;
use crate::index::Index;
use crate::index_changing::{append_indexed, enter_hidden, move_indexed};
use crate::listing::Listing;
use crate::reading::{batch_indexed, count_new, next_indexed, slot_in, value_indexed};
use ee_codec::Address;
use ee_core::inner::Change;
use ee_core::{Lookup, NoMemory, Put};
use ee_flash::{Cut, Flash};
use ee_pages::{Layout, LiveBatch};
use std::alloc::{AllocError, Allocator, Global};

/// Finds values by an index in memory: the slot in which each live address stands.
///
/// Source: ours.
#[derive(Drop)]
pub struct SlotIndex<A: Allocator = Global> {
    pub(crate) index: Index<A>,
}

/// The index of a live set: one look at each used slot.
pub fn index_of<F: Flash, A: Allocator + Copy>(
    alloc: A,
    flash: &F,
    layout: &Layout,
) -> Result<SlotIndex<A>, AllocError>
    requires { IsLayout (F.device flash.now) layout.now }
    ensures { IfOk result (λ lookup. IsIndex (slots_by layout.now (F.device flash.now))
        (slot_for lookup.index)) }
{
    let index = read_index(alloc, flash, layout)?;
    Ok(SlotIndex { index })
}

impl<A: Allocator> SlotIndex<A> {
    /// How many used slots, of so many, a look for the value of an address would go through, from
    /// the newest back to the one that has it: all, if none has.
    pub fn look_count(&self, fill: usize, address: Address) -> usize
        ensures { MatchOption (slot_for self.now.index address)
            (result ≡ fill) (λ slot. result ≡ fill - slot) }
    {
        match slot_in(&self.index, address) {
            None => fill,
            Some(slot) => fill.saturating_sub(slot),
        }
    }

    /// How many addresses have a value.
    pub fn count(&self) -> usize
        ensures { result ≡ length self.now.index }
    {
        self.index.entries().len()
    }
}

impl<A: Allocator + Copy> Lookup for SlotIndex<A> {
    ghost use Rattle.ee_pages.specs.Meaning.{Put};
    ghost use Rattle.ee_pages.specs.Sets.{fill_of};
    ghost use Rattle.ee_index.specs.Index.{IsIndex, IsReadyFor, IsRoomFor, slot_for};

    ghost fits = { λ lookup slots. IsIndex slots (slot_for lookup.index) };

    ghost is_ready = { λ lookup slots address.
        IsReadyFor slots (Put address 0) (fill_of slots) (slot_for lookup.index) };

    ghost has_room = { λ lookup slots puts. IsRoomFor slots puts (slot_for lookup.index) };

    ghost takes_memory = { Unit {0} };

    ghost can_read = { λ lookup slots. IsIndex slots (slot_for lookup.index) };

    ghost room = { λ lookup. 0 };

    fn value_of<F: Flash>(&self, flash: &F, layout: &Layout, address: Address) -> Option<u32> {
        value_indexed(&self.index, flash, layout, address)
    }

    fn live_count<F: Flash>(&self, flash: &F, layout: &Layout) -> usize {
        self.index.entries().len()
    }

    fn live_with<F: Flash>(&self, flash: &F, layout: &Layout, puts: &[Put]) -> usize {
        self.index.entries().len() + count_new(&self.index, puts)
    }

    fn next_live<F: Flash>(
        &self,
        flash: &F,
        layout: &Layout,
        after: Option<Address>,
    ) -> Option<(Address, u32)> {
        next_indexed(&self.index, flash, layout, after)
    }

    fn next_batch<F: Flash>(
        &self,
        flash: &F,
        layout: &Layout,
        after: Option<Address>,
    ) -> LiveBatch {
        batch_indexed(&self.index, flash, layout, after)
    }

    fn make_ready<F: Flash>(
        &mut self,
        flash: &F,
        layout: &Layout,
        put: Put,
    ) -> Result<(), NoMemory> {
        let Ok(()) = self.index.insert(put.address, layout.fill) else {
            return Err(NoMemory);
        };
        Ok(())
    }

    fn make_room<F: Flash>(
        &mut self,
        flash: &F,
        layout: &Layout,
        puts: &[Put],
    ) -> Result<(), NoMemory> {
        let Ok(()) = make_room(&mut self.index, puts, layout.fill) else {
            return Err(NoMemory);
        };
        Ok(())
    }

    // It is kept in memory of its own, and stands for what it found.
    fn read_anew<F: Flash>(&mut self, _flash: &F, _layout: &Layout) {}

    fn find_nothing(&mut self) {
        self.index.clear();
    }

    fn append<F: Flash>(
        &mut self,
        flash: &mut F,
        layout: &mut Layout,
        change: Change,
    ) -> Result<(), Cut> {
        append_indexed(flash, layout, &mut self.index, change)
    }

    fn transfer<F: Flash>(
        &mut self,
        flash: &mut F,
        layout: &mut Layout,
        puts: &[Put],
        forgets: bool,
    ) -> Result<(), Cut> {
        move_indexed(flash, layout, &mut self.index, puts, forgets)
    }
}

/// Makes room in an index for the slots of these values: each new address gets a number that is no
/// used slot's, of which there are so many. An `Err`, which only a new address meets, leaves the
/// entries of used slots alone.
fn make_room<A: Allocator>(index: &mut Index<A>, puts: &[Put], fill: usize) -> Result<(), NoMemory>
    requires { fill < 65536 }
    ensures shown { OnOk result (IsShownSame fill index.old index.new) }
    ensures there { OnOk result (HasAddresses (slot_for index.new)
        (changed_by (puts_of puts.now) (slot_for index.old))) }
    ensures new { OnErr result (HasNew puts.now (slot_for index.old)) }
    ensures err { OnErr result ((address : ℕ) → slot_for index.new address
        ≡ shown_index (λ number. nat_lt number fill) (slot_for index.old) address) }
{
    match enter_hidden(index, puts, fill) {
        Ok(()) => Ok(()),
        Err(refused) => {
            index.retain_used(fill);
            Err(refused)
        }
    }
}

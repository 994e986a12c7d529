//! How an index of a live set is made: what its slots say is gathered from the newest
//! down, and put in order.
ghost use Rattle.std.specs.Prelude.{◌≡◌, ◌<◌, ◌++◌, ℕ, IfOk, OnOk, nat_lt};
ghost use Rattle.ee_pages.specs.Layout.{IsLayout};
ghost use Rattle.ee_pages.specs.Sets.{set_of, slots_of};
ghost use Rattle.ee_index.specs.Entries.{AreInOrder, entries_said};
ghost use Rattle.ee_index.specs.Index.{IsIndex, shown_index, slot_for};

use crate::entries::Entry;
use crate::index::Index;
use ee_codec::{Slot, read_slot};
use ee_flash::Flash;
use ee_pages::{Layout, slot_word};
use std::alloc::{AllocError, Allocator};

/// The index of a live set: one look at each used slot. While it is made it takes eight
/// bytes for each of them.
pub(crate) fn read_index<F: Flash, A: Allocator>(
    alloc: A,
    flash: &F,
    layout: &Layout,
) -> Result<Index<A>, AllocError>
    requires { IsLayout (F.device flash.now) layout.now }
    ensures { let slots = slots_of (set_of layout.now.side (F.device flash.now)) in
        IfOk result (λ index. IsIndex slots (slot_for index)) }
{
    let mut entries = gather(alloc, flash, layout)?;
    put_in_order(&mut entries)?;
    let mut index = Index::of(entries);
    index.retain_used(layout.fill);
    index.shrink();
    Ok(index)
}

/// What the used slots of a live set say, from the newest down. An address that is forgotten has a
/// number that is no used slot's.
fn gather<F: Flash, A: Allocator>(
    alloc: A,
    flash: &F,
    layout: &Layout,
) -> Result<Vec<Entry, A>, AllocError>
    requires { IsLayout (F.device flash.now) layout.now }
    ensures { let slots = slots_of (set_of layout.now.side (F.device flash.now)) in
        IfOk result (λ entries. IsIndex slots
        (shown_index (λ number. nat_lt number layout.now.fill) (slot_for entries.items))) }
{
    let mut entries = Vec::with_capacity(alloc, layout.fill)?;
    'slots: for number in (0..layout.fill).rev() {
        let said = read_slot(slot_word(flash, layout, number));
        push_said(&mut entries, said, number, layout.fill)?;
    }
    Ok(entries)
}

/// Adds what the slot of this number says. An address that is forgotten gets the number `hidden`.
fn push_said<A: Allocator>(
    entries: &mut Vec<Entry, A>,
    said: Slot,
    number: usize,
    hidden: usize,
) -> Result<(), AllocError>
    requires number { number < 65536 }
    requires hidden { hidden < 65536 }
    ensures { OnOk result
        (entries.new.items ≡ entries.old.items ++ entries_said said number hidden) }
{
    match said {
        Slot::Element { address, .. } => entries.push((address, number as u16))?,
        Slot::Forgotten { address, .. } => entries.push((address, hidden as u16))?,
        _ => {}
    }
    Ok(())
}

/// Puts entries in order by address. Of each address the first stays.
fn put_in_order<A: Allocator>(entries: &mut Vec<Entry, A>) -> Result<(), AllocError>
    ensures ordered { OnOk result (AreInOrder entries.new.items) }
    ensures first { OnOk result ((address : ℕ) → slot_for entries.new.items address
        ≡ slot_for entries.old.items address) }
{
    // Entries of one address stay in their order.
    entries.sort_by_key(|entry| entry.0)?;
    entries.dedup_by_key(|entry| entry.0);
    Ok(())
}

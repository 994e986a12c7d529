//! Changes with an index: room in it is made before the first step, and it follows without memory.
ghost use Rattle.std.specs.Prelude.{◌≡◌, ◌<◌, ◌≤◌, ◌+◌, ℕ, [], ◌∷◌, IfSome, OnErr, OnOk, None, if◌then◌else◌, length, nat_lt};
ghost use Rattle.ee_flash.specs.Device.{IsOn};
ghost use Rattle.ee_flash.specs.Size.{slot_count};
ghost use Rattle.ee_pages.specs.Layout.{IsLayout};
ghost use Rattle.ee_pages.specs.Sets.{set_of, slots_of};
ghost use Rattle.ee_core.specs.Changes.{Appends, IsCutChange, IsCutMaking, Moves, NeedsTransfer, Proceeds};
ghost use Rattle.ee_core.specs.Finished.{IsMarked, IsStore};
ghost use Rattle.ee_index.specs.Entries.{AreInOrder};
ghost use Rattle.ee_index.specs.Lent.{OverfillsIndex};
ghost use Rattle.ee_index.specs.Index.{HasAddresses, IsIndex, IsNumberedAfter, IsReadyFor, IsRoomFor, IsShownSame, shown_index, slot_for, without_forgotten};
ghost use Rattle.ee_pages.specs.Meaning.{Forget as MapForget, Put as MapPut, changed_by, map_after};
ghost use Rattle.ee_core.specs.CallSteps.{ForgetsHeld, map_change};
ghost use Rattle.ee_core.specs.Puts.{AreApart, HasNew, changes_of_puts, forgets_of, puts_of};
ghost use Rattle.ee_core.specs.State.{capacity, state_of};

use crate::listing::Listing;
use crate::reading::{IndexCursor, has};
use ee_codec::Address;
use ee_core::inner::{Change, append_change, move_changes, values_put};
use ee_core::{NoMemory, Put};
use ee_flash::{Cut, Flash};
use ee_pages::Layout;

/// Enters each new address of these values with this number. An `Err`, which only a new address
/// meets, leaves some of them entered. Where the room is known, it was too small for them all.
pub(crate) fn enter_hidden<L: Listing>(
    list: &mut L,
    puts: &[Put],
    fill: usize,
) -> Result<(), NoMemory>
    requires { fill < 65536 }
    ensures shown { IsShownSame fill (L.list list.old) (L.list list.new) }
    ensures there { OnOk result (HasAddresses (slot_for (L.list list.new))
        (changed_by (puts_of puts.now) (slot_for (L.list list.old)))) }
    ensures new { OnErr result (HasNew puts.now (slot_for (L.list list.old))) }
    ensures full { OnErr result (IfSome (L.room list.new)
        (λ room. OverfillsIndex room (slot_for (L.list list.old)) puts.now)) }
    ensures same_room { L.room list.new ≡ L.room list.old }
{
    'entries: for put in puts {
        enter_new(list, put.address, fill)?;
    }
    Ok(())
}

/// Enters an address with this number, if it is new. An `Err`, which only a new address meets,
/// leaves the index as it was. Where its room is known, that is full then.
fn enter_new<L: Listing>(list: &mut L, address: Address, number: usize) -> Result<(), NoMemory>
    requires { number < 65536 }
    ensures shown { IsShownSame number (L.list list.old) (L.list list.new) }
    ensures there { OnOk result (HasAddresses (slot_for (L.list list.new))
        (map_after (MapPut address number) (slot_for (L.list list.old)))) }
    ensures absent { OnErr result (slot_for (L.list list.old) address ≡ None) }
    ensures full { OnErr result (IfSome (L.room list.new)
        (λ room. room ≤ length (L.list list.old))) }
    ensures ordered { OnErr result (AreInOrder (L.list list.old)) }
    ensures same_room { L.room list.new ≡ L.room list.old }
{
    if has(list, address) {
        return Ok(());
    }
    list.insert(address, number)?;
    Ok(())
}

/// Makes a change to which no refusal applies in the first free slot. In the index an address that
/// is put has that slot already. The layout and the index follow, and that takes no memory.
pub(crate) fn append_indexed<F: Flash, L: Listing>(
    flash: &mut F,
    layout: &mut Layout,
    list: &mut L,
    change: Change,
) -> Result<(), Cut>
    requires layout { IsLayout (F.device flash.old) layout.old }
    requires marked { IsMarked (F.device flash.old) layout.old.side }
    requires proceeds { Proceeds (F.device flash.old) (map_change change ∷ []) }
    requires forgets { ForgetsHeld (state_of (F.device flash.old)).map change }
    requires free { layout.old.fill < slot_count (F.device flash.old).size }
    requires ready { let slots = slots_of (set_of layout.old.side (F.device flash.old)) in
        IsReadyFor slots (map_change change) layout.old.fill (slot_for (L.list list.old)) }
    ensures appended { OnOk result
        (Appends (F.device flash.old) (map_change change) (F.device flash.new)) }
    ensures cut { OnErr result
        (IsCutChange (F.device flash.old) (map_change change) (F.device flash.new)) }
    ensures store { IsStore (F.device flash.new) }
    ensures layout { IsOn (F.device flash.new) → IsLayout (F.device flash.new) layout.new }
    ensures index { let slots = slots_of (set_of layout.new.side (F.device flash.new)) in
        IsOn (F.device flash.new) → IsIndex slots (slot_for (L.list list.new)) }
{
    append_change(flash, layout, change)?;
    leave_forgotten(list, &change);
    Ok(())
}

/// Makes changes to which no refusal applies with a transfer that goes over the live addresses
/// by the index: values that are put, or the forgettings of their addresses. An address that is
/// put is in the index, and hidden if it has no value yet. The layout and the index follow, and
/// that takes no memory.
pub(crate) fn move_indexed<F: Flash, L: Listing>(
    flash: &mut F,
    layout: &mut Layout,
    list: &mut L,
    puts: &[Put],
    forgets: bool,
) -> Result<(), Cut>
    requires layout { IsLayout (F.device flash.old) layout.old }
    requires apart { AreApart (changes_of_puts puts.now forgets) }
    requires proceeds { Proceeds (F.device flash.old) (changes_of_puts puts.now forgets) }
    requires needed { NeedsTransfer (capacity (F.device flash.old)) (state_of (F.device flash.old))
        (changes_of_puts puts.now forgets) }
    requires room { let slots = slots_of (set_of layout.old.side (F.device flash.old)) in
        IsRoomFor slots (if forgets then [] else puts.now) (slot_for (L.list list.old)) }
    ensures moved { OnOk result
        (Moves (F.device flash.old) (changes_of_puts puts.now forgets) (F.device flash.new)) }
    ensures cut { OnErr result
        (IsCutMaking (F.device flash.old) (changes_of_puts puts.now forgets) (F.device flash.new)) }
    ensures store { IsStore (F.device flash.new) }
    ensures layout { IsOn (F.device flash.new) → IsLayout (F.device flash.new) layout.new }
    ensures index { let slots = slots_of (set_of layout.new.side (F.device flash.new)) in
        IsOn (F.device flash.new) → IsIndex slots (slot_for (L.list list.new)) }
{
    let mut cursor = IndexCursor::new(list, layout.fill);
    move_changes(flash, layout, puts, forgets, &mut cursor)?;
    follow(list, puts, forgets);
    Ok(())
}

/// Lets an index follow a transfer: the addresses that are forgotten leave it, and the others get
/// the slots in which the transfer put them.
pub(crate) fn follow<L: Listing>(list: &mut L, puts: &[Put], forgets: bool)
    requires { length (if forgets then [] else puts.now) + length (L.list list.old) < 65536 }
    ensures numbered { IsNumberedAfter puts.now forgets (L.list list.old) (L.list list.new) }
    ensures same_room { L.room list.new ≡ L.room list.old }
{
    let put = values_put(puts, forgets);
    // Where values are put none is forgotten, and the other way round.
    let forgotten = values_put(puts, !forgets);
    leave_all(list, forgotten);
    list.renumber(put);
}

/// Takes the addresses of these values from an index.
fn leave_all<L: Listing>(list: &mut L, puts: &[Put])
    ensures left { (address : ℕ) → slot_for (L.list list.new) address
        ≡ changed_by (forgets_of puts.now) (slot_for (L.list list.old)) address }
    ensures fewer { length (L.list list.new) ≤ length (L.list list.old) }
    ensures same_room { L.room list.new ≡ L.room list.old }
{
    'entries: for put in puts {
        leave(list, put.address);
    }
}

/// Takes an address from an index.
fn leave<L: Listing>(list: &mut L, address: Address)
    ensures left { (named : ℕ) → slot_for (L.list list.new) named
        ≡ map_after (MapForget address) (slot_for (L.list list.old)) named }
    ensures fewer { length (L.list list.new) ≤ length (L.list list.old) }
    ensures same_room { L.room list.new ≡ L.room list.old }
{
    list.remove(address);
}

/// Takes an address that is forgotten from an index.
pub(crate) fn leave_forgotten<L: Listing>(list: &mut L, change: &Change)
    ensures left { (address : ℕ) → slot_for (L.list list.new) address
        ≡ without_forgotten (map_change change.now) (slot_for (L.list list.old)) address }
    ensures same_room { L.room list.new ≡ L.room list.old }
{
    if let Change::Forget { address, .. } = *change {
        leave(list, address);
    }
}

//! What used slots say goes into an index.
ghost use Rattle.std.specs.Prelude.{◌≡◌, ◌<◌, ℕ, [], IfSome, OnErr, OnOk};
ghost use Rattle.ee_pages.specs.Layout.{IsLayout};
ghost use Rattle.ee_pages.specs.Sets.{set_of, slots_of};
ghost use Rattle.ee_index.specs.Index.{IsIndex, index_with_slot, slot_for};
ghost use Rattle.ee_index.specs.Lent.{FindsNoRoom, WasTooSmall};

use crate::listing::Listing;
use ee_codec::{Slot, read_slot};
use ee_core::NoMemory;
use ee_flash::Flash;
use ee_pages::{Layout, slot_word};

/// Makes a list with no address the index of a live set: one look at each used slot. An `Err`
/// leaves some addresses in it, and tells that its room, if that is known, is too small.
pub(crate) fn enter_slots<F: Flash, L: Listing>(
    list: &mut L,
    flash: &F,
    layout: &Layout,
) -> Result<(), NoMemory>
    requires layout { IsLayout (F.device flash.now) layout.now }
    requires none { L.list list.old ≡ [] }
    ensures index { let slots = slots_of (set_of layout.now.side (F.device flash.now)) in
        OnOk result (IsIndex slots (slot_for (L.list list.new))) }
    ensures small { let slots = slots_of (set_of layout.now.side (F.device flash.now)) in
        OnErr result (IfSome (L.room list.new) (λ room. WasTooSmall room slots)) }
    ensures same_room { L.room list.new ≡ L.room list.old }
{
    for number in 0..layout.fill {
        enter(list, number, read_slot(slot_word(flash, layout, number)))?;
    }
    Ok(())
}

/// Enters what the slot of this number says.
fn enter<L: Listing>(list: &mut L, number: usize, said: Slot) -> Result<(), NoMemory>
    requires { number < 65536 }
    ensures entered { OnOk result ((address : ℕ) → slot_for (L.list list.new) address
        ≡ index_with_slot said number (slot_for (L.list list.old)) address) }
    ensures refused { OnErr result (FindsNoRoom said (L.room list.new) (L.list list.new)) }
    ensures err { OnErr result (L.list list.new ≡ L.list list.old) }
    ensures same_room { L.room list.new ≡ L.room list.old }
{
    match said {
        Slot::Element { address, .. } => {
            list.insert(address, number)?;
        }
        Slot::Forgotten { address, .. } => {
            list.remove(address);
        }
        _ => {}
    }
    Ok(())
}

//! The making of changes that nothing refuses with a transfer.
ghost use Rattle.std.specs.Prelude.{◌≡◌, ◌<◌, ℕ, [], ◌∷◌, None, OnErr, OnOk};
ghost use Rattle.ee_codec.specs.Words.{IsAddress};
ghost use Rattle.ee_flash.specs.Device.{IsOn};
ghost use Rattle.ee_flash.specs.Size.{slot_count};
ghost use Rattle.ee_pages.specs.Layout.{IsLayout};
ghost use Rattle.ee_pages.specs.Pending.{address_of};
ghost use Rattle.ee_pages.specs.Sets.{set_of, slots_of};
ghost use Rattle.ee_core.specs.Appending.{ChangeWritten};
ghost use Rattle.ee_core.specs.CallSteps.{ForgetsHeld, map_change, map_in};
ghost use Rattle.ee_core.specs.Changes.{Appends, IsCutChange, IsCutMaking, Moves, NeedsTransfer, Proceeds};
ghost use Rattle.ee_core.specs.Emptying.{Empties, IsCutClear, MayClear};
ghost use Rattle.ee_core.specs.Finished.{IsMarked, IsStore};
ghost use Rattle.ee_core.specs.Picture.{moved_words};
ghost use Rattle.ee_core.specs.Puts.{AreApart, changes_of_puts};
ghost use Rattle.ee_core.specs.State.{capacity, state_of};
ghost use Rattle.ee_core.specs.Transfers.{SetMoved};

use crate::change::Put;
use crate::live_cursor::LiveCursor;
use crate::moving::{transfer, transfer_by_slots, transfer_nothing};
use ee_flash::{Cut, Flash};
use ee_pages::Layout;

/// Makes changes to which no refusal applies with a transfer that they need, as
/// `move_changes` does, in a store without an index: it looks for the live addresses in the
/// slots. The layout follows.
pub(crate) fn move_unindexed<F: Flash>(
    flash: &mut F,
    layout: &mut Layout,
    puts: &[Put],
    forgets: bool,
) -> Result<(), Cut>
    requires layout { IsLayout (F.device flash.old) layout.old }
    requires apart { AreApart (changes_of_puts puts.now forgets) }
    requires proceeds { Proceeds (F.device flash.old) (changes_of_puts puts.now forgets) }
    requires needed { NeedsTransfer (capacity (F.device flash.old)) (state_of (F.device flash.old))
        (changes_of_puts puts.now forgets) }
    ensures moved { OnOk result
        (Moves (F.device flash.old) (changes_of_puts puts.now forgets) (F.device flash.new)) }
    ensures cut { OnErr result
        (IsCutMaking (F.device flash.old) (changes_of_puts puts.now forgets) (F.device flash.new)) }
    ensures store { IsStore (F.device flash.new) }
    ensures layout { IsOn (F.device flash.new) → IsLayout (F.device flash.new) layout.new }
{
    transfer_by_slots(flash, layout, puts, forgets)?;
    Ok(())
}

/// Makes changes to which no refusal applies with a transfer that they need: values that are put,
/// or the forgettings of their addresses. The cursor, which is before the first, goes over the live
/// addresses. The layout follows.
pub fn move_changes<F: Flash, C: LiveCursor>(
    flash: &mut F,
    layout: &mut Layout,
    puts: &[Put],
    forgets: bool,
    cursor: &mut C,
) -> Result<(), Cut>
    requires layout { IsLayout (F.device flash.old) layout.old }
    requires apart { AreApart (changes_of_puts puts.now forgets) }
    requires proceeds { Proceeds (F.device flash.old) (changes_of_puts puts.now forgets) }
    requires needed { NeedsTransfer (capacity (F.device flash.old)) (state_of (F.device flash.old))
        (changes_of_puts puts.now forgets) }
    requires first { C.behind cursor.old ≡ 0 }
    requires over { C.goes_over cursor.old (slots_of (set_of layout.old.side (F.device flash.old))) }
    ensures moved { OnOk result
        (Moves (F.device flash.old) (changes_of_puts puts.now forgets) (F.device flash.new)) }
    ensures set_moved { OnOk result
        (SetMoved (F.device flash.old) (F.device flash.new) layout.old layout.new
        (changes_of_puts puts.now forgets)
        (moved_words (changes_of_puts puts.now forgets)
        (map_in layout.old.side (F.device flash.old)))) }
    ensures cut { OnErr result
        (IsCutMaking (F.device flash.old) (changes_of_puts puts.now forgets) (F.device flash.new)) }
    ensures store { IsStore (F.device flash.new) }
    ensures layout { IsOn (F.device flash.new) → IsLayout (F.device flash.new) layout.new }
{
    transfer(flash, layout, puts, forgets, cursor)?;
    Ok(())
}

/// Makes a clear to which no refusal applies. The layout follows.
pub(crate) fn empty<F: Flash>(flash: &mut F, layout: &mut Layout) -> Result<(), Cut>
    requires layout { IsLayout (F.device flash.old) layout.old }
    requires may { MayClear (F.device flash.old) }
    ensures emptied { OnOk result (Empties (F.device flash.old) (F.device flash.new)) }
    ensures nothing { OnOk result
        ((address : ℕ) → map_in layout.new.side (F.device flash.new) address ≡ None) }
    ensures cut { OnErr result (IsCutClear (F.device flash.old) (F.device flash.new)) }
    ensures store { IsStore (F.device flash.new) }
    ensures layout { IsOn (F.device flash.new) → IsLayout (F.device flash.new) layout.new }
{
    transfer_nothing(flash, layout)?;
    Ok(())
}

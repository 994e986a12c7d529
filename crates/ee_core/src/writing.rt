//! The appending of a change: where its slot begins a further page, two marks come first.
ghost use Rattle.std.specs.Prelude.{◌≡◌, ◌<◌, ◌+◌, [], ◌∷◌, OnErr, OnOk};
ghost use Rattle.ee_flash.specs.Device.{IsOn};
ghost use Rattle.ee_flash.specs.Size.{slot_count};
ghost use Rattle.ee_flash.specs.Taking.{Takes};
ghost use Rattle.ee_pages.specs.Layout.{IsLayout};
ghost use Rattle.ee_pages.specs.Pushing.{slot_step};
ghost use Rattle.ee_pages.specs.Sets.{first_page as first_of, other as other_of, page_of_slot, place_of_slot};
ghost use Rattle.ee_core.specs.Appending.{ChangeWritten, Pushes};
ghost use Rattle.ee_core.specs.CallSteps.{ForgetsHeld, IsReady, IsSameSet, Stays, map_change, number_written};
ghost use Rattle.ee_core.specs.Changes.{Appends, IsCutChange, Proceeds};
ghost use Rattle.ee_core.specs.Cuts.{IsDrawnPartly};
ghost use Rattle.ee_core.specs.Finished.{IsMarked, IsStore};
ghost use Rattle.ee_core.specs.Picture.{IsDrawn, marked_to, picture_of};
ghost use Rattle.ee_core.specs.State.{state_of};
ghost use Rattle.ee_core.specs.StepLists.{steps_to_turn};

use crate::change::Change;
use crate::marking::mark_live;
use ee_flash::{Cut, Flash, HEADER_WORDS};
use ee_pages::{Layout, Mark, first_page};

/// Makes a change to which no refusal applies in the first free slot. If that slot is the first of a
/// further page, the page before it is marked valid and that one active first. The layout follows.
#[inline(always)]
pub fn append_change<F: Flash>(
    flash: &mut F,
    layout: &mut Layout,
    change: Change,
) -> Result<(), Cut>
    requires layout { IsLayout (F.device flash.old) layout.old }
    requires marked { IsMarked (F.device flash.old) layout.old.side }
    requires proceeds { Proceeds (F.device flash.old) (map_change change ∷ []) }
    requires forgets { ForgetsHeld (state_of (F.device flash.old)).map change }
    requires free { layout.old.fill < slot_count (F.device flash.old).size }
    ensures appended { OnOk result
        (Appends (F.device flash.old) (map_change change) (F.device flash.new)) }
    ensures written { OnOk result
        (ChangeWritten (F.device flash.old) (F.device flash.new) layout.old layout.new change) }
    ensures cut { OnErr result
        (IsCutChange (F.device flash.old) (map_change change) (F.device flash.new)) }
    ensures store { IsStore (F.device flash.new) }
    ensures layout { IsOn (F.device flash.new) → IsLayout (F.device flash.new) layout.new }
{
    let (page, at) = free_slot(flash, layout);
    open_page(flash, layout, page)?;
    push(flash, layout, page, at, change)?;
    layout.current = page;
    layout.fill += 1;
    Ok(())
}

/// The page of the first free slot, and the slot's place in it. The layout has the page in use, so
/// that this takes no division.
#[inline(always)]
fn free_slot<F: Flash>(flash: &F, layout: &Layout) -> (usize, usize)
    requires layout { IsLayout (F.device flash.now) layout.now }
    requires free { layout.now.fill < slot_count (F.device flash.now).size }
    ensures page { let size = (F.device flash.now).size in
        result.0 ≡ first_of size layout.now.side + page_of_slot size layout.now.fill }
    ensures place { result.1 ≡ place_of_slot (F.device flash.now).size layout.now.fill }
{
    let slots = flash.shape().words() - HEADER_WORDS;
    let used = layout.fill - (layout.current - first_page(flash, layout.side)) * slots;
    if used == slots {
        return (layout.current + 1, HEADER_WORDS);
    }
    (layout.current, HEADER_WORDS + used)
}

/// Marks the page of the first free slot, which is this one, as the one that is used, if it is a
/// further one, and the page before it as used up.
#[inline(always)]
fn open_page<F: Flash>(flash: &mut F, layout: &Layout, page: usize) -> Result<(), Cut>
    requires layout { IsLayout (F.device flash.old) layout.now }
    requires marked { IsMarked (F.device flash.old) layout.now.side }
    requires free { layout.now.fill < slot_count (F.device flash.old).size }
    requires page { let size = (F.device flash.old).size in
        page ≡ first_of size layout.now.side + page_of_slot size layout.now.fill }
    ensures stays { Stays (F.device flash.old) (F.device flash.new)
        layout.now.side layout.now.generation }
    ensures other { IsSameSet (other_of layout.now.side) (F.device flash.old) (F.device flash.new) }
    ensures ready { OnOk result (IsReady (F.device flash.new) layout.now.side layout.now.fill) }
    ensures drawn { OnOk result
        (IsDrawn layout.now.side (F.device flash.new)
        (marked_to (page_of_slot (F.device flash.old).size layout.now.fill)
        (picture_of layout.now.side (F.device flash.old)))) }
    ensures begun { OnErr result
        (IsDrawnPartly layout.now.side (F.device flash.new)
        (picture_of layout.now.side (F.device flash.old))
        (marked_to (page_of_slot (F.device flash.old).size layout.now.fill)
        (picture_of layout.now.side (F.device flash.old)))) }
    ensures steps { Takes result
        (steps_to_turn (F.device flash.old) layout.now.side layout.now.fill)
        (F.device flash.old) (F.device flash.new) }
{
    if page == layout.current {
        return Ok(());
    }
    mark_live(flash, layout, layout.current, Mark::Valid)?;
    mark_live(flash, layout, layout.current + 1, Mark::Active)?;
    Ok(())
}

/// Programs a change into the first free slot of the live set, which stands in this
/// place of this page.
#[inline(always)]
fn push<F: Flash>(
    flash: &mut F,
    layout: &Layout,
    page: usize,
    at: usize,
    change: Change,
) -> Result<(), Cut>
    requires layout { IsLayout (F.device flash.old) layout.now }
    requires free { layout.now.fill < slot_count (F.device flash.old).size }
    requires page { let size = (F.device flash.old).size in
        page ≡ first_of size layout.now.side + page_of_slot size layout.now.fill }
    requires place { at ≡ place_of_slot (F.device flash.old).size layout.now.fill }
    // At an error power was cut: the change is there in part, or whole, or not at all.
    ensures pushes { Pushes result (F.device flash.old) (F.device flash.new) layout.now change }
    ensures steps { Takes result
        (slot_step (F.device flash.old).size layout.now.side layout.now.fill
        (number_written change) ∷ [])
        (F.device flash.old) (F.device flash.new) }
{
    flash.program(page, at, change.word())?;
    Ok(())
}

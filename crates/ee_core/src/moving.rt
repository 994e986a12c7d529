//! A transfer: the other set is erased, opened and filled, and one mark makes it the live one.
ghost use Rattle.std.specs.Prelude.{◌≡◌, ◌≤◌, ℕ, ◌+◌, IfOk, [], ◌∷◌, true};
ghost use Rattle.std.specs.List.{All};
ghost use Rattle.ee_codec.specs.Words.{IsGeneration};
ghost use Rattle.ee_flash.specs.Size.{slot_count};
ghost use Rattle.ee_pages.specs.Filling.{IsFilling};
ghost use Rattle.ee_pages.specs.Meaning.{changed_by, live_in};
ghost use Rattle.ee_pages.specs.Page.{is_blank, marking};
ghost use Rattle.ee_pages.specs.Sets.{first_page as first_of, other as other_of, set_of, slots_of};
ghost use Rattle.ee_core.specs.CallSteps.{IsBehind, IsOlder, map_in};
ghost use Rattle.ee_core.specs.Picture.{moved_words};
ghost use Rattle.ee_core.specs.Puts.{AreApart, changes_of_puts, each_forgotten};
ghost use Rattle.ee_core.specs.StepLists.{steps_to_clear, steps_to_commit, steps_to_move};
ghost use Rattle.ee_flash.specs.Taking.{Takes};
ghost use Rattle.ee_core.specs.Transfers.{ClearsOther, CommitsOther, MovesMap, MovesSet, OpensOther};

use crate::change::Put;
use crate::cleaning::erase_other;
use crate::copying::{Cursor, Place, fill_set};
use crate::live_cursor::LiveCursor;
use crate::marking::finish;
use ee_flash::{Cut, Flash};
use ee_pages::{Layout, Mark, first_page, is_blank as page_is_blank, mark};

/// Moves the map, with values that are put or without their addresses, where these are forgotten,
/// to the other set, and makes that one live. The cursor, which is before the first, goes over the
/// live addresses. Of the layout it takes the set, in which any words may stand, and its
/// generation, no smaller than the one that the set is committed with. The layout follows.
pub(crate) fn transfer<F: Flash, C: LiveCursor>(
    flash: &mut F,
    layout: &mut Layout,
    puts: &[Put],
    forgets: bool,
    cursor: &mut C,
) -> Result<(), Cut>
    requires older { IsOlder (F.device flash.old) layout.old.side (layout.old.generation + 1) }
    requires first { C.behind cursor.old ≡ 0 }
    requires over { C.goes_over cursor.old (slots_of (set_of layout.old.side (F.device flash.old))) }
    requires generation { IsGeneration (layout.old.generation + 1) }
    requires apart { AreApart (changes_of_puts puts.now forgets) }
    requires fits { live_in (changed_by (changes_of_puts puts.now forgets)
        (map_in layout.old.side (F.device flash.old))) ≤ slot_count (F.device flash.old).size }
    // At an error power was cut: the map has moved, or the set is live as before.
    ensures moves { MovesSet result (λ done. layout.new) (F.device flash.old) (F.device flash.new)
        layout.old (changes_of_puts puts.now forgets)
        (moved_words (changes_of_puts puts.now forgets)
        (map_in layout.old.side (F.device flash.old))) }
    ensures steps { Takes result
        (steps_to_move (F.device flash.old) layout.old.side layout.old.generation
        (moved_words (changes_of_puts puts.now forgets)
        (map_in layout.old.side (F.device flash.old))))
        (F.device flash.old) (F.device flash.new) }
{
    let filled = move_map(flash, layout, puts, forgets, cursor)?;
    *layout = Layout {
        side: layout.side.other(),
        generation: layout.generation + 1,
        fill: filled.slot,
        current: filled.page,
    };
    finish(flash, layout)?;
    Ok(())
}

/// Moves the map as `transfer` does. It looks for the live addresses in the slots.
pub(crate) fn transfer_by_slots<F: Flash>(
    flash: &mut F,
    layout: &mut Layout,
    puts: &[Put],
    forgets: bool,
) -> Result<(), Cut>
    requires older { IsOlder (F.device flash.old) layout.old.side (layout.old.generation + 1) }
    requires generation { IsGeneration (layout.old.generation + 1) }
    requires apart { AreApart (changes_of_puts puts.now forgets) }
    requires fits { live_in (changed_by (changes_of_puts puts.now forgets)
        (map_in layout.old.side (F.device flash.old))) ≤ slot_count (F.device flash.old).size }
    // At an error power was cut: the map has moved, or the set is live as before.
    ensures moves { MovesSet result (λ done. layout.new) (F.device flash.old) (F.device flash.new)
        layout.old (changes_of_puts puts.now forgets)
        (moved_words (changes_of_puts puts.now forgets)
        (map_in layout.old.side (F.device flash.old))) }
    ensures steps { Takes result
        (steps_to_move (F.device flash.old) layout.old.side layout.old.generation
        (moved_words (changes_of_puts puts.now forgets)
        (map_in layout.old.side (F.device flash.old))))
        (F.device flash.old) (F.device flash.new) }
{
    let mut cursor = Cursor::new(flash, layout);
    transfer(flash, layout, puts, forgets, &mut cursor)?;
    Ok(())
}

/// Moves the map, with what it is to carry, to the other set, and makes that one live. Gives how
/// far that fills it.
fn move_map<F: Flash, C: LiveCursor>(
    flash: &mut F,
    layout: &Layout,
    puts: &[Put],
    forgets: bool,
    cursor: &mut C,
) -> Result<Place, Cut>
    requires older { IsOlder (F.device flash.old) layout.now.side (layout.now.generation + 1) }
    requires first { C.behind cursor.old ≡ 0 }
    requires over { C.goes_over cursor.old (slots_of (set_of layout.now.side (F.device flash.old))) }
    requires generation { IsGeneration (layout.now.generation + 1) }
    requires apart { AreApart (changes_of_puts puts.now forgets) }
    requires fits { live_in (changed_by (changes_of_puts puts.now forgets)
        (map_in layout.now.side (F.device flash.old))) ≤ slot_count (F.device flash.old).size }
    // At an error power was cut: the map has moved, or the set is live as before.
    ensures moves { MovesMap result (λ place. place.slot) (F.device flash.old) (F.device flash.new)
        layout.now (changes_of_puts puts.now forgets)
        (moved_words (changes_of_puts puts.now forgets)
        (map_in layout.now.side (F.device flash.old))) }
    ensures behind { IfOk result
        (IsBehind (F.device flash.new).size (other_of layout.now.side)) }
    ensures steps { Takes result
        (steps_to_commit (F.device flash.old) layout.now.side layout.now.generation
        (moved_words (changes_of_puts puts.now forgets)
        (map_in layout.now.side (F.device flash.old))))
        (F.device flash.old) (F.device flash.new) }
{
    clear(flash, layout)?;
    open_set(flash, layout)?;
    let filled = fill_set(flash, layout, puts, forgets, cursor)?;
    commit(flash, layout)?;
    Ok(filled)
}

/// Makes the other set the live one with nothing in it, as `transfer` does with a map in which
/// nothing has a value. The layout follows.
pub(crate) fn transfer_nothing<F: Flash>(flash: &mut F, layout: &mut Layout) -> Result<(), Cut>
    requires older { IsOlder (F.device flash.old) layout.old.side (layout.old.generation + 1) }
    requires generation { IsGeneration (layout.old.generation + 1) }
    // At an error power was cut: the map has moved, or the set is live as before.
    ensures moves { MovesSet result (λ done. layout.new) (F.device flash.old) (F.device flash.new)
        layout.old each_forgotten [] }
    ensures steps { Takes result
        (steps_to_move (F.device flash.old) layout.old.side layout.old.generation [])
        (F.device flash.old) (F.device flash.new) }
{
    move_nothing(flash, layout)?;
    *layout = Layout {
        side: layout.side.other(),
        generation: layout.generation + 1,
        fill: 0,
        current: first_page(flash, layout.side.other()),
    };
    finish(flash, layout)?;
    Ok(())
}

/// Makes the other set the live one with nothing in it, but for the marks of its pages and of those
/// that it leaves.
fn move_nothing<F: Flash>(flash: &mut F, layout: &Layout) -> Result<(), Cut>
    requires older { IsOlder (F.device flash.old) layout.now.side (layout.now.generation + 1) }
    requires generation { IsGeneration (layout.now.generation + 1) }
    // At an error power was cut: the map has moved, or the set is live as before.
    ensures moves { MovesMap result (λ done. 0) (F.device flash.old) (F.device flash.new)
        layout.now each_forgotten [] }
    ensures steps { Takes result
        (steps_to_commit (F.device flash.old) layout.now.side layout.now.generation [])
        (F.device flash.old) (F.device flash.new) }
{
    clear(flash, layout)?;
    open_set(flash, layout)?;
    commit(flash, layout)?;
    Ok(())
}

/// Erases each page of the other set that is not blank, by rising page.
fn clear<F: Flash>(flash: &mut F, layout: &Layout) -> Result<(), Cut>
    // At an error power was cut: some pages are erased, and one in part.
    ensures clears { ClearsOther result (F.device flash.old) (F.device flash.new) layout.now.side }
    ensures steps { Takes result (steps_to_clear (F.device flash.old) (other_of layout.now.side))
        (F.device flash.old) (F.device flash.new) }
{
    let first = first_page(flash, layout.side.other());
    'pages: for page in first..first + flash.shape().pages() {
        if !page_is_blank(flash, page) {
            erase_other(flash, layout.side, page)?;
        }
    }
    Ok(())
}

/// Gives the first page of the other set, which is blank, the receive word of the next generation.
/// Like the one below it stands in both of its callers, where it takes less code than a call.
#[inline(always)]
fn open_set<F: Flash>(flash: &mut F, layout: &Layout) -> Result<(), Cut>
    requires generation { IsGeneration (layout.now.generation + 1) }
    requires blank { All (λ page. is_blank page ≡ true)
        (set_of (other_of layout.now.side) (F.device flash.old)) }
    // At an error power was cut: the other set is open in part, and the live set as before.
    ensures opens { OpensOther result (F.device flash.old) (F.device flash.new) layout.now }
    ensures steps { Takes result
        (marking (first_of (F.device flash.old).size (other_of layout.now.side))
        (Mark.Receive (layout.now.generation + 1)) ∷ [])
        (F.device flash.old) (F.device flash.new) }
{
    let first = first_page(flash, layout.side.other());
    mark(flash, first, Mark::Receive(layout.generation + 1))?;
    Ok(())
}

/// Makes the other set, which is filled, the live one.
#[inline(always)]
fn commit<F: Flash>(flash: &mut F, layout: &Layout) -> Result<(), Cut>
    requires older { IsOlder (F.device flash.old) layout.now.side (layout.now.generation + 1) }
    requires generation { IsGeneration (layout.now.generation + 1) }
    requires filling { (count : ℕ)
        × IsFilling (F.device flash.old) (other_of layout.now.side)
        (layout.now.generation + 1) count }
    // At an error power was cut: the other set is committed, or the set is live as before.
    ensures commits { CommitsOther result (F.device flash.old) (F.device flash.new) layout.now }
    ensures steps { Takes result
        (marking (first_of (F.device flash.old).size (other_of layout.now.side)) Mark.Active ∷ [])
        (F.device flash.old) (F.device flash.new) }
{
    let first = first_page(flash, layout.side.other());
    mark(flash, first, Mark::Active)?;
    Ok(())
}

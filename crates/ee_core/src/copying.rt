//! The copying of a transfer: the map after its change, written into the other set word by word.
ghost use Rattle.std.specs.Prelude.{◌≡◌, ◌<◌, ◌≤◌, ℕ, ◌+◌, IfOk, IfSome, [], ◌∷◌, None, Ok, OnErr, OnOk, OnSome, false, length, slice_set, true};
ghost use Rattle.ee_codec.specs.Words.{IsAddress, element};
ghost use Rattle.ee_flash.specs.Size.{slot_count};
ghost use Rattle.ee_flash.specs.declared.word.Word.TheVariants.{Held};
ghost use Rattle.ee_pages.specs.Laws.{KeepsSide};
ghost use Rattle.ee_pages.specs.Meaning.{Put as MapPut, SpellsChange, changed_by, map_after, live_in};
ghost use Rattle.ee_pages.specs.LiveOrder.{IsNextLive};
ghost use Rattle.ee_pages.specs.Sets.{other as other_of, set_of, slots_of};
ghost use Rattle.ee_core.specs.CallSteps.{IsBehind, Stands, map_change, map_in, number_written, replaced_map};
ghost use Rattle.ee_core.specs.Course.{GoesOver, course_of, last_given};
ghost use Rattle.ee_core.specs.Picture.{elements_of, map_without, moved_words, put_words};
ghost use Rattle.ee_core.specs.Puts.{AreApart, changes_of_puts, names, puts_of};
ghost use Rattle.ee_core.specs.StepLists.{steps_to_mark};
ghost use Rattle.ee_flash.specs.Taking.{Takes};
ghost use Rattle.ee_pages.specs.Pushing.{slot_step};
ghost use Rattle.ee_core.specs.Transfers.{Fills, IsNewlyOpened, IsOpenAt, IsOpenFor, ProgramsSlot, ReceivesSlot};

use crate::change::{Change, Put};
use crate::live_cursor::LiveCursor;
use crate::puts::{has_put, values_put};
use ee_codec::Address;
use ee_flash::{Cut, Flash, HEADER_WORDS};
use ee_pages::{Layout, LiveBatch, Mark, first_page, mark, next_batch};
use std::marker::Model;

/// Goes over the live addresses of a set, by rising address. It looks through the slots
/// once for each batch.
///
/// Source: ours.
#[derive(Drop)]
pub struct Cursor {
    batch: LiveBatch,
    /// How many of the batch it gave.
    given: usize,
}

impl Model for Cursor {
    ghost use Rattle.ee_core.specs.Course.{Course, course_of};

    ghost Value = { Course };

    ghost view = { λ cursor. course_of cursor.batch.found.items cursor.batch.through cursor.given };
}

impl Cursor {
    /// Before the first.
    pub(crate) fn new<F: Flash>(flash: &F, layout: &Layout) -> Cursor
        ensures first { result.after ≡ 0 }
        ensures over { GoesOver (map_in layout.now.side (F.device flash.now)) result }
    {
        let mut cursor = Cursor::unread();
        cursor.begin(flash, layout);
        cursor
    }

    /// With nothing read yet, before it begins.
    pub fn unread() -> Cursor {
        Cursor {
            batch: LiveBatch::new(),
            given: 0,
        }
    }

    /// Begins before the first address of a live set.
    pub fn begin<F: Flash>(&mut self, flash: &F, layout: &Layout)
        ensures first { self.new.after ≡ 0 }
        ensures over { GoesOver (map_in layout.now.side (F.device flash.now)) self.new }
    {
        self.given = 0;
        next_batch(flash, layout, None, &mut self.batch);
    }
}

impl LiveCursor for Cursor {
    ghost use Rattle.ee_pages.specs.Meaning.{meaning};
    ghost use Rattle.ee_core.specs.Course.{GoesOver};

    ghost behind = { λ cursor. cursor.after };

    ghost goes_over = { λ cursor slots. GoesOver (meaning slots) cursor };

    fn next<F: Flash>(&mut self, flash: &F, layout: &Layout) -> Option<(Address, u32)> {
        next_given(flash, layout, &mut self.batch, &mut self.given)
    }
}

/// The next live address behind those that were given of a batch. Where all were, the batch becomes
/// the next one with an address.
fn next_given<F: Flash>(
    flash: &F,
    layout: &Layout,
    batch: &mut LiveBatch,
    given: &mut usize,
) -> Option<(Address, u32)>
    requires over { GoesOver (map_in layout.now.side (F.device flash.now))
        (course_of batch.old.found.items batch.old.through given.old) }
    ensures next { IsNextLive (map_in layout.now.side (F.device flash.now))
        (last_given batch.old.found.items given.old) result }
    ensures proper { IfSome result (λ found. IsAddress found.0) }
    ensures moved { IfSome result
        (λ found. last_given batch.new.found.items given.new ≡ found.0) }
    ensures over { OnSome result (GoesOver (map_in layout.now.side (F.device flash.now))
        (course_of batch.new.found.items batch.new.through given.new)) }
{
    'batches: loop {
        if let Some(live) = batch.found.get(*given) {
            *given += 1;
            return Some(live);
        }
        let Some(through) = batch.through else {
            return None;
        };
        next_batch(flash, layout, Some(through), batch);
        *given = 0;
    }
}

/// How far a set is filled. A transfer goes on from place to place, so that no word takes a
/// division.
#[derive(Clone, Copy)]
pub(crate) struct Place {
    /// How many slots are filled, which is the number of the next one, counted from 0.
    pub(crate) slot: usize,
    /// The page of the last of them, the set's first page where none is, counted from the device's
    /// first.
    pub(crate) page: usize,
    /// The place behind that slot in this page.
    pub(crate) at: usize,
}

/// Fills the other set, which was opened, with the map after changes: the values that are put come
/// first, in their order, and then each other live address, rising. Where they are forgotten, their
/// addresses are left out alone. Gives how far that fills it.
pub(crate) fn fill_set<F: Flash, C: LiveCursor>(
    flash: &mut F,
    layout: &Layout,
    puts: &[Put],
    forgets: bool,
    cursor: &mut C,
) -> Result<Place, Cut>
    requires opened { IsNewlyOpened (F.device flash.old) layout.now }
    requires first { C.behind cursor.old ≡ 0 }
    requires over { C.goes_over cursor.old (slots_of (set_of layout.now.side (F.device flash.old))) }
    requires apart { AreApart (changes_of_puts puts.now forgets) }
    requires fits { live_in (changed_by (changes_of_puts puts.now forgets)
        (map_in layout.now.side (F.device flash.old))) ≤ slot_count (F.device flash.old).size }
    // At an error power was cut: the words are there in part, and the live set is as before.
    ensures fills { let map = map_in layout.now.side (F.device flash.old) in
        Fills result (λ place. place.slot) (F.device flash.old) (F.device flash.new) layout.now 0
        (moved_words (changes_of_puts puts.now forgets) map)
        (changed_by (changes_of_puts puts.now forgets) map) }
    ensures each_once { IfOk result (λ place. place.slot ≡ live_in
        (changed_by (changes_of_puts puts.now forgets)
        (map_in layout.now.side (F.device flash.old)))) }
    ensures behind { IfOk result
        (IsBehind (F.device flash.new).size (other_of layout.now.side)) }
{
    let first = put_all(flash, layout, values_put(puts, forgets))?;
    let all = copy_others(flash, layout, puts, first, cursor)?;
    Ok(all)
}

/// Writes values into the first slots of the other set, in their order. Gives how far that fills
/// it.
fn put_all<F: Flash>(flash: &mut F, layout: &Layout, puts: &[Put]) -> Result<Place, Cut>
    requires opened { IsNewlyOpened (F.device flash.old) layout.now }
    requires fits { length puts.now ≤ slot_count (F.device flash.old).size }
    // At an error power was cut: the words are there in part, and the live set is as before.
    ensures fills { Fills result (λ place. place.slot) (F.device flash.old) (F.device flash.new)
        layout.now 0 (put_words (puts_of puts.now))
        (changed_by (puts_of puts.now) (λ address. None)) }
    ensures behind { IfOk result
        (IsBehind (F.device flash.new).size (other_of layout.now.side)) }
{
    let mut place = first_place(flash, layout);
    'puts: for put in puts {
        let (address, value) = (put.address, put.value);
        stage_put(flash, layout, &mut place, address, value)?;
    }
    Ok(place)
}

/// Copies each live address but those of the changes to the other set, from this place on. Gives
/// how far it is filled then.
fn copy_others<F: Flash, C: LiveCursor>(
    flash: &mut F,
    layout: &Layout,
    puts: &[Put],
    place: Place,
    cursor: &mut C,
) -> Result<Place, Cut>
    requires at { IsOpenAt (F.device flash.old) layout.now place }
    requires first { C.behind cursor.old ≡ 0 }
    requires over { C.goes_over cursor.old (slots_of (set_of layout.now.side (F.device flash.old))) }
    requires only { (address : ℕ) → names (puts_of puts.now) address ≡ false
        → map_in (other_of layout.now.side) (F.device flash.old) address ≡ None }
    requires fits { place.slot + length (elements_of
        (map_without (puts_of puts.now) (map_in layout.now.side (F.device flash.old))))
        ≤ slot_count (F.device flash.old).size }
    // At an error power was cut: the words are there in part, and the live set is as before.
    ensures fills { let map = map_in layout.now.side (F.device flash.old) in
        Fills result (λ all. all.slot) (F.device flash.old) (F.device flash.new) layout.now
        place.slot
        (elements_of (map_without (puts_of puts.now) map))
        (replaced_map (map_in (other_of layout.now.side) (F.device flash.old))
        (names (puts_of puts.now)) map) }
    ensures behind { IfOk result
        (IsBehind (F.device flash.new).size (other_of layout.now.side)) }
{
    let mut place = place;
    'live: while let Some((address, value)) = cursor.next(flash, layout) {
        let carries = has_put(puts, address);
        copy_one(flash, layout, carries, &mut place, address, value)?;
    }
    Ok(place)
}

/// Copies a live address to the next slot of the other set, which is filled up to this place, unless
/// it is passed over. The place follows.
fn copy_one<F: Flash>(
    flash: &mut F,
    layout: &Layout,
    passed: bool,
    place: &mut Place,
    address: Address,
    value: u32,
) -> Result<(), Cut>
    requires at { IsOpenAt (F.device flash.old) layout.now place.old }
    requires free { passed ≡ false → place.old.slot < slot_count (F.device flash.old).size }
    ensures keeps { KeepsSide (F.device flash.old) (F.device flash.new) layout.now.side }
    ensures at { OnOk result (IsOpenAt (F.device flash.new) layout.now place.new) }
    ensures passed { passed ≡ true → (result ≡ Ok tt) × (place.new ≡ place.old)
        × (F.device flash.new ≡ F.device flash.old) }
    // At an error power was cut: the words are there in part, and the live set is as before.
    ensures fills { passed ≡ false
        → Fills result (λ done. place.new.slot) (F.device flash.old) (F.device flash.new)
        layout.now place.old.slot (Held (element address value) ∷ [])
        (map_after (MapPut address value) (map_in (other_of layout.now.side) (F.device flash.old))) }
    ensures wear { (F.device flash.new).wear ≡ (F.device flash.old).wear }
{
    if passed {
        return Ok(());
    }
    stage_put(flash, layout, place, address, value)?;
    Ok(())
}

/// Writes an address with its value into the next slot of the other set, which is filled up to this
/// place, as `stage` does a change. The place follows. Both callers hand these over in registers,
/// which makes firmware smaller.
#[inline(never)]
fn stage_put<F: Flash>(
    flash: &mut F,
    layout: &Layout,
    place: &mut Place,
    address: Address,
    value: u32,
) -> Result<(), Cut>
    requires at { IsOpenAt (F.device flash.old) layout.now place.old }
    requires free { place.old.slot < slot_count (F.device flash.old).size }
    // At an error power was cut: the words are there in part, and the live set is as before.
    ensures fills { Fills result (λ done. place.new.slot) (F.device flash.old) (F.device flash.new)
        layout.now place.old.slot (Held (element address value) ∷ [])
        (map_after (MapPut address value) (map_in (other_of layout.now.side) (F.device flash.old))) }
    ensures behind { OnOk result
        (IsBehind (F.device flash.new).size (other_of layout.now.side) place.new) }
{
    let next = next_place(flash, layout, *place);
    stage(flash, layout, next, Change::Put { address, value })?;
    *place = Place {
        slot: next.slot + 1,
        page: next.page,
        at: next.at + 1,
    };
    Ok(())
}

/// Writes a change into this place of the other set, its first free slot. A further page gets its
/// receive word first.
fn stage<F: Flash>(flash: &mut F, layout: &Layout, place: Place, change: Change) -> Result<(), Cut>
    requires at { IsOpenFor (F.device flash.old) layout.now place }
    requires free { place.slot < slot_count (F.device flash.old).size }
    // At an error power was cut: the words are there in part, and the live set is as before.
    ensures fills { Fills result (λ done. place.slot + 1) (F.device flash.old) (F.device flash.new)
        layout.now place.slot (Held (number_written change) ∷ [])
        (map_after (map_change change) (map_in (other_of layout.now.side) (F.device flash.old))) }
    // The change stands in the slot of this number.
    ensures slot { OnOk result ((number : ℕ) × SpellsChange number (map_change change)
        × (slots_of (set_of (other_of layout.now.side) (F.device flash.new))
        ≡ slice_set (slots_of (set_of (other_of layout.now.side) (F.device flash.old))) place.slot
        (Held number))) }
{
    if place.at == HEADER_WORDS {
        receive(flash, layout, place)?;
    }
    put_in(flash, layout, place, change)?;
    Ok(())
}

/// Gives the page of this place of the other set the receive word, if it has none.
fn receive<F: Flash>(flash: &mut F, layout: &Layout, place: Place) -> Result<(), Cut>
    requires at { IsOpenFor (F.device flash.old) layout.now place }
    requires free { place.slot < slot_count (F.device flash.old).size }
    // At an error power was cut: the receive word is there, or torn, or not there.
    ensures receives { ReceivesSlot result (F.device flash.old) (F.device flash.new) layout.now
        place.slot }
    ensures steps { Takes result
        (steps_to_mark (F.device flash.old) (Mark.Receive (layout.now.generation + 1)) place.page)
        (F.device flash.old) (F.device flash.new) }
{
    mark(flash, place.page, Mark::Receive(layout.generation + 1))?;
    Ok(())
}

/// Programs a change into this place of the other set, its first free slot.
fn put_in<F: Flash>(flash: &mut F, layout: &Layout, place: Place, change: Change) -> Result<(), Cut>
    requires at { IsOpenFor (F.device flash.old) layout.now place }
    requires free { place.slot < slot_count (F.device flash.old).size }
    // At an error power was cut: the slot has the change, or is torn, or as before.
    ensures programs { ProgramsSlot result (F.device flash.old) (F.device flash.new) layout.now
        place.slot change }
    ensures steps { Takes result
        (slot_step (F.device flash.old).size (other_of layout.now.side) place.slot
        (number_written change) ∷ [])
        (F.device flash.old) (F.device flash.new) }
{
    flash.program(place.page, place.at, change.word())?;
    Ok(())
}

/// How far a set is filled that was opened.
fn first_place<F: Flash>(flash: &F, layout: &Layout) -> Place
    ensures first { result.slot ≡ 0 }
    ensures behind { IsBehind (F.device flash.now).size (other_of layout.now.side) result }
{
    Place {
        slot: 0,
        page: first_page(flash, layout.side.other()),
        at: HEADER_WORDS,
    }
}

/// The place of the next slot of the other set, which is filled up to this place: one further in
/// the page, or the first one of the next page.
fn next_place<F: Flash>(flash: &F, layout: &Layout, place: Place) -> Place
    requires behind { IsBehind (F.device flash.now).size (other_of layout.now.side) place }
    requires free { place.slot < slot_count (F.device flash.now).size }
    ensures same { result.slot ≡ place.slot }
    ensures stands { Stands (F.device flash.now).size (other_of layout.now.side) result }
{
    if place.at == flash.shape().words() {
        return Place {
            slot: place.slot,
            page: place.page + 1,
            at: HEADER_WORDS,
        };
    }
    place
}

//! What is read by an index.
ghost use Rattle.std.specs.Prelude.{◌≡◌, ◌<◌, ◌≤◌, ◌+◌, ◌^◌, ℕ, IfSome, MatchOption, None, Some, is_some, length, nat_lt, slice_index_or};
ghost use Rattle.std.specs.List.{All};
ghost use Rattle.ee_codec.specs.Words.{IsAddress};
ghost use Rattle.ee_flash.specs.Size.{slot_count};
ghost use Rattle.ee_flash.specs.declared.word.Word.TheVariants.{Erased};
ghost use Rattle.ee_pages.specs.Layout.{IsLayout};
ghost use Rattle.ee_pages.specs.Meaning.{says};
ghost use Rattle.ee_pages.specs.LiveOrder.{AreLiveThrough, IsNextLive, above_of};
ghost use Rattle.ee_pages.specs.Sets.{set_of, slots_of};
ghost use Rattle.ee_index.specs.Entries.{AreAbove, AreInOrder, entries_from};
ghost use Rattle.ee_index.specs.Index.{AddsAddresses, AreHidden, IsIndex, IsNextShown, slot_for};
ghost use Rattle.ee_core.specs.CallSteps.{map_in};

use crate::entries::Entry;
use crate::listing::Listing;
use ee_codec::Address;
use ee_core::Put;
use ee_core::inner::LiveCursor;
use ee_flash::Flash;
use ee_pages::{Batch, Layout, LiveBatch, slot_value};

/// The slot of an address, if a list has it.
pub(crate) fn slot_in<L: Listing>(list: &L, address: Address) -> Option<usize>
    ensures { result ≡ slot_for (L.list list.now) address }
{
    match list.find(address) {
        Ok(place) => match list.entries().get(place) {
            Some(entry) => Some(usize::from(entry.1)),
            None => None,
        },
        Err(_) => None,
    }
}

/// Whether a list has an address.
pub(crate) fn has<L: Listing>(list: &L, address: Address) -> bool
    ensures { result ≡ is_some (slot_for (L.list list.now) address) }
{
    list.find(address).is_ok()
}

/// The entries of the addresses above `after`, or all if `after` is `None`.
fn entries_above<L: Listing>(list: &L, after: Option<Address>) -> &[Entry]
    ensures above { MatchOption after (result.now ≡ L.list list.now)
        (λ address. AreAbove address (L.list list.now) result.now) }
    ensures ordered { AreInOrder (L.list list.now) }
{
    let entries = list.entries();
    let Some(address) = after else {
        return entries;
    };
    &entries[place_above(list, address)..]
}

/// The place of the first entry of an address above this one, counted from 0.
fn place_above<L: Listing>(list: &L, address: Address) -> usize
    requires ordered { AreInOrder (L.list list.now) }
    requires few { length (L.list list.now) < 2 ^ 63 }
    ensures within { result ≤ length (L.list list.now) }
    ensures above { AreAbove address (L.list list.now) (entries_from (L.list list.now) result) }
{
    match list.find(address) {
        Ok(place) => place + 1,
        Err(place) => place,
    }
}

/// How many of these values, each of which is of an address of its own, are of addresses that an
/// index doesn't have.
pub(crate) fn count_new<L: Listing>(list: &L, puts: &[Put]) -> usize
    ensures adds { AddsAddresses puts.now (slot_for (L.list list.now)) result }
    ensures few { result ≤ length puts.now }
{
    let mut count = 0;
    'entries: for put in puts {
        count += !has(list, put.address) as usize;
    }
    count
}

/// The value that the slot of this number says, any number if it says none.
pub(crate) fn value_in<F: Flash>(flash: &F, layout: &Layout, number: usize) -> u32
    requires { number < slot_count (F.device flash.now).size }
    ensures { let slots = slots_of (set_of layout.now.side (F.device flash.now)) in
        (address value : ℕ) → says (slice_index_or slots number Erased) address
        ≡ Some (Some value) → result ≡ value }
{
    slot_value(flash, layout, number)
}

/// The value of an address, by an index of the live set. `None` if it has none.
pub(crate) fn value_indexed<F: Flash, L: Listing>(
    list: &L,
    flash: &F,
    layout: &Layout,
    address: Address,
) -> Option<u32>
    requires layout { IsLayout (F.device flash.now) layout.now }
    requires index { let slots = slots_of (set_of layout.now.side (F.device flash.now)) in
        IsIndex slots (slot_for (L.list list.now)) }
    ensures { result ≡ map_in layout.now.side (F.device flash.now) address }
{
    match slot_in(list, address) {
        None => None,
        Some(number) => Some(value_in(flash, layout, number)),
    }
}

/// The first address of an index above `after`, or of all if `after` is `None`, with its slot.
fn first_above<L: Listing>(list: &L, after: Option<Address>) -> Option<(Address, usize)>
    ensures { IsNextLive (slot_for (L.list list.now)) (above_of after) result }
{
    let Some((entry, _)) = entries_above(list, after).split_first() else {
        return None;
    };
    // No address is 0, where a reader of all begins.
    prove!(entry.0.get() > 0);
    Some((entry.0, usize::from(entry.1)))
}

/// The next live address above `after`, or the first of all if `after` is `None`, with its value,
/// by an index of the live set.
pub(crate) fn next_indexed<F: Flash, L: Listing>(
    list: &L,
    flash: &F,
    layout: &Layout,
    after: Option<Address>,
) -> Option<(Address, u32)>
    requires layout { IsLayout (F.device flash.now) layout.now }
    requires index { let slots = slots_of (set_of layout.now.side (F.device flash.now)) in
        IsIndex slots (slot_for (L.list list.now)) }
    ensures next { IsNextLive (map_in layout.now.side (F.device flash.now)) (above_of after)
        result }
    ensures proper { IfSome result (λ found. IsAddress found.0) }
{
    let Some((address, number)) = first_above(list, after) else {
        return None;
    };
    Some((address, value_in(flash, layout, number)))
}

/// The next live addresses above `after`, or the first of all if `after` is `None`, with their
/// values, by an index of the live set: as many as a batch takes.
pub(crate) fn batch_indexed<F: Flash, L: Listing>(
    list: &L,
    flash: &F,
    layout: &Layout,
    after: Option<Address>,
) -> LiveBatch
    requires layout { IsLayout (F.device flash.now) layout.now }
    requires index { let slots = slots_of (set_of layout.now.side (F.device flash.now)) in
        IsIndex slots (slot_for (L.list list.now)) }
    ensures live { AreLiveThrough (map_in layout.now.side (F.device flash.now)) (above_of after)
        result.found.items result.through }
    ensures proper { All (λ found. IsAddress found.0) result.found.items }
{
    let mut found = Batch::new();
    let mut behind = after;
    // One search finds where the batch begins, and each further address stands behind the last.
    let mut entries = entries_above(list, after);
    'batch: while !found.is_full() {
        let Some((entry, rest)) = entries.split_first() else {
            return LiveBatch {
                found,
                through: None,
            };
        };
        found.push(entry.0, value_in(flash, layout, usize::from(entry.1)));
        behind = Some(entry.0);
        entries = rest;
    }
    LiveBatch {
        found,
        through: behind,
    }
}

/// Goes over the live addresses by an index. A hidden address, which has no value
/// yet, is passed over.
#[derive(Drop)]
pub(crate) struct IndexCursor<'a> {
    /// The entries that are left.
    entries: &'a [Entry],
    /// The address given last.
    after: Option<Address>,
    /// How many slots are used.
    fill: usize,
}

impl<'a> IndexCursor<'a> {
    /// Before the first.
    pub(crate) fn new<L: Listing>(list: &'a L, fill: usize) -> IndexCursor<'a>
        ensures fill { result.fill ≡ fill }
        ensures entries { result.entries.now ≡ L.list list.now }
        ensures ordered { AreInOrder (L.list list.now) }
        ensures first { result.after ≡ None }
    {
        IndexCursor {
            entries: list.entries(),
            after: None,
            fill,
        }
    }
}

impl<'a> LiveCursor for IndexCursor<'a> {
    ghost use Rattle.ee_pages.specs.LiveOrder.{above_of};
    ghost use Rattle.ee_index.specs.Index.{IsFilledLeft};

    ghost behind = { λ cursor. above_of cursor.after };

    ghost goes_over = { λ cursor slots. IsFilledLeft slots cursor.fill cursor.after cursor.entries.now };

    fn next<F: Flash>(&mut self, flash: &F, layout: &Layout) -> Option<(Address, u32)> {
        let Some((entry, rest)) = next_shown(self.entries, self.fill) else {
            return None;
        };
        self.entries = rest;
        self.after = Some(entry.0);
        Some((entry.0, value_in(flash, layout, usize::from(entry.1))))
    }
}

/// The next entry whose slot is one of those used, of which there are so many, and
/// what is left behind it.
fn next_shown(entries: &[Entry], fill: usize) -> Option<(Entry, &[Entry])>
    ensures { MatchOption result (AreHidden (λ number. nat_lt number fill) entries.now)
        (λ next. IsNextShown (λ number. nat_lt number fill) entries.now (Some next.0) next.1.now) }
{
    let mut left = entries;
    'entries: while let Some((entry, rest)) = left.split_first() {
        if usize::from(entry.1) < fill {
            return Some((*entry, rest));
        }
        left = rest;
    }
    None
}

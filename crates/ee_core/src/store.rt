//! The store: it knows where the live set is and how far it is used, and finds values by a look-up.
ghost use Rattle.std.specs.Bool.{MatchBool};
ghost use Rattle.std.specs.Prelude.{◌≡◌, ◌≢◌, ◌<◌, ◌≤◌, [], ◌∷◌, length};
ghost use Rattle.ee_flash.specs.Device.{IsOn};
ghost use Rattle.ee_pages.specs.Layout.{IsLayout};
ghost use Rattle.ee_core.specs.Calls.{Writes, WritesAll};
ghost use Rattle.ee_core.specs.Changes.{greatest_generation};
ghost use Rattle.ee_core.specs.Finished.{IsStore};
ghost use Rattle.ee_core.specs.Loads.{Loads, ReadsSpan};
ghost use Rattle.ee_core.specs.Lookups.{slots_by};
ghost use Rattle.ee_pages.specs.Meaning.{changed_by, live_in};
ghost use Rattle.ee_core.specs.Puts.{AreApart, puts_of};
ghost use Rattle.ee_core.specs.State.{capacity, state_of, torn_slots_of};

use crate::change::Put;
use crate::changing::empty;
use crate::cleaning::count_pending;
use crate::known::Known;
use crate::lookup::{Lookup, Slots};
use crate::puts::first_twice;
use crate::variables::{
    ClearFault, ForgetFault, Off, Variables, WriteAllFault, WriteFault, Written,
};
use ee_codec::Address;
use ee_flash::{Cut, Flash};
use ee_pages::{Layout, LiveBatch, Span, Wanted, load, read_span, torn_slots};
use std::marker::Model;

/// The greatest generation of a set.
pub const GREATEST_GENERATION: u32 = 4_294_967_294;

/// Variables in a flash device. It keeps in memory where the live set is and how far it is used,
/// and finds values by a look-up: `Slots` keeps nothing, and reads all else from the flash.
///
/// Source: two sets, of which one takes the writes, AN4894; the rest is ours.
#[derive(Drop)]
pub struct Store<F: Flash + Drop, L: Lookup + Drop = Slots> {
    pub(crate) flash: F,
    pub(crate) known: Known<L>,
}

impl<F: Flash + Drop, L: Lookup + Drop> Model for Store<F, L> {
    ghost use Rattle.ee_flash.specs.Device.{Device};
    ghost use Rattle.ee_core.specs.Known.{Knows};

    ghost Value = { Device };

    ghost view = { λ store. F.device store.flash };

    ghost invariant = { λ store. Knows L.fits (F.device store.flash) store.known };
}

impl<F: Flash + Drop> Store<F> {
    /// A store of this device, of which this is the layout. It looks through the slots.
    pub(crate) fn of(flash: F, layout: Layout) -> Store<F>
        requires store { IsStore (F.device flash) }
        requires layout { IsLayout (F.device flash) layout }
        ensures { result ≡ F.device flash }
    {
        let lookup = Slots;
        Store {
            flash,
            known: Known { layout, lookup },
        }
    }

    /// This store, which finds values by this look-up from here on. The look-up is read anew first,
    /// and no step is taken.
    ///
    /// Source: ours.
    pub fn with_lookup<L: Lookup + Drop>(self, lookup: L) -> Store<F, L>
        requires on { IsOn self }
        requires readable { (layout : Layout) → IsLayout self layout
            → L.can_read lookup (slots_by layout self) }
        ensures { result ≡ self }
    {
        let Store { flash, known } = self;
        let layout = known.layout;
        let mut lookup = lookup;
        lookup.read_anew(&flash, &layout);
        Store {
            flash,
            known: Known { layout, lookup },
        }
    }
}

impl<F: Flash + Drop, L: Lookup + Drop> Store<F, L> {
    /// The device, to be looked at.
    pub fn flash(&self) -> &F
        ensures { F.device result.now ≡ self.now }
    {
        &self.flash
    }

    /// The look-up, to be looked at.
    pub fn lookup(&self) -> &L
        ensures { IsOn self.now → ((layout : Layout) × IsLayout self.now layout
            × L.fits result.now (slots_by layout self.now)) }
    {
        &self.known.lookup
    }

    /// The device, as it is.
    pub fn into_flash(self) -> F
        ensures device { F.device result ≡ self }
        ensures store { IsStore self }
    {
        self.flash
    }

    /// How many slots of the live set are torn, 0 to its fill: words in whose step power was cut.
    /// It reads each slot once.
    ///
    /// Source: ours.
    pub fn torn_slots(&self) -> usize
        requires { IsOn self.now }
        ensures { result ≡ torn_slots_of self.now }
    {
        torn_slots(&self.flash, &self.known.layout)
    }

    /// Gives each entry of a list the value of its address, as `read` would, by one look through
    /// the slots. An address may stand in the list more than once.
    ///
    /// Source: ours.
    ///
    /// # Errors
    ///
    /// The store is off. The list is as it was.
    pub fn load(&self, entries: &mut [Wanted]) -> Result<(), Off>
        // At `Ok` each entry has the map's value; at `Err` the device is off.
        ensures { Loads self.now entries.old result entries.new }
    {
        if !self.flash.is_on() {
            return Err(Off);
        }
        load(&self.flash, &self.known.layout, entries);
        Ok(())
    }

    /// The values of so many addresses from this one on, or of fewer, by one look through the
    /// slots. Of one address alone it is by the store's look-up.
    ///
    /// Source: ours.
    ///
    /// # Errors
    ///
    /// The store is off.
    pub fn read_span(&self, first: Address, count: usize) -> Result<Span, Off>
        requires { 0 < count }
        // At `Ok` each address of the span has the map's value; at `Err` the device is off.
        ensures { ReadsSpan self.now first result }
    {
        if count == 1 {
            let value = self.known.read(&self.flash, first)?;
            return Ok(Span::of_one(first, value));
        }
        if !self.flash.is_on() {
            return Err(Off);
        }
        Ok(read_span(&self.flash, &self.known.layout, first, count))
    }

    /// Writes the one value of a list.
    fn write_one(&mut self, put: Put) -> Result<Written, WriteAllFault>
        // At `Ok` all values are there; at `Err` nothing changed, or power was cut: all, or none.
        ensures writes { WritesAll self.old (put ∷ []) result self.new }
        ensures memory { result ≡ Err WriteAllFault.Memory → L.takes_memory }
    {
        match self.write(put.address, put.value) {
            Ok(written) => Ok(written),
            Err(WriteFault::Off) => Err(WriteAllFault::Off),
            Err(WriteFault::Full) => Err(WriteAllFault::Full),
            Err(WriteFault::Spent) => Err(WriteAllFault::Spent),
            Err(WriteFault::Cut) => Err(WriteAllFault::Cut),
            Err(WriteFault::Memory) => Err(WriteAllFault::Memory),
        }
    }

    /// Writes two values or more, with a transfer.
    fn write_several(&mut self, puts: &[Put]) -> Result<Written, WriteAllFault>
        requires on { IsOn self.old }
        requires several { 1 < length puts.now }
        // At `Ok` all values are there; at `Err` nothing changed, or power was cut: all, or none.
        ensures writes { WritesAll self.old puts.now result self.new }
        ensures memory { result ≡ Err WriteAllFault.Memory → L.takes_memory }
    {
        if let Some(place) = first_twice(puts) {
            return Err(WriteAllFault::Twice(place));
        }
        if self.is_full_for_all(puts) {
            return Err(WriteAllFault::Full);
        }
        if self.is_last() {
            return Err(WriteAllFault::Spent);
        }
        let Ok(()) = self
            .known
            .lookup
            .make_room(&self.flash, &self.known.layout, puts)
        else {
            return Err(WriteAllFault::Memory);
        };
        match self
            .known
            .lookup
            .transfer(&mut self.flash, &mut self.known.layout, puts, false)
        {
            Ok(()) => Ok(Written::Moved),
            Err(Cut) => Err(WriteAllFault::Cut),
        }
    }

    /// Whether more addresses would have a value than there are slots, with these values, each of
    /// which is of an address of its own.
    fn is_full_for_all(&self, puts: &[Put]) -> bool
        requires on { IsOn self.now }
        requires apart { AreApart (puts_of puts.now) }
        ensures { let live = live_in (changed_by (puts_of puts.now) (state_of self.now).map) in
            MatchBool result (capacity self.now < live) (live ≤ capacity self.now) }
    {
        let slots = self.flash.shape().slots();
        puts.len() > slots
            || self
                .known
                .lookup
                .live_with(&self.flash, &self.known.layout, puts)
                > slots
    }

    /// Whether no generation is left for a transfer.
    fn is_last(&self) -> bool
        requires { IsOn self.now }
        ensures { MatchBool result ((state_of self.now).generation ≡ greatest_generation)
            (¬ ((state_of self.now).generation ≡ greatest_generation)) }
    {
        self.known.layout.generation == GREATEST_GENERATION
    }
}

impl<F: Flash + Drop, L: Lookup + Drop> Variables for Store<F, L> {
    ghost use Rattle.ee_flash.specs.Device.{Device};

    ghost device = { λ store. store };

    fn slots(&self) -> usize {
        self.flash.shape().slots()
    }

    fn is_on(&self) -> bool {
        self.flash.is_on()
    }

    fn read(&self, address: Address) -> Result<Option<u32>, Off> {
        self.known.read(&self.flash, address)
    }

    #[inline(always)]
    fn write(&mut self, address: Address, value: u32) -> Result<Written, WriteFault>
        // At `Ok` the change is appended or moved; at `Err` nothing changed, or power was cut.
        ensures writes { Writes self.old address value result self.new }
        // With a look-up that takes no memory it never runs out of it.
        ensures memory { result ≡ Err WriteFault.Memory → L.takes_memory }
    {
        self.known.write(&mut self.flash, address, value)
    }

    fn write_all(&mut self, changes: &[Put]) -> Result<Written, WriteAllFault>
        // At `Ok` all values are there; at `Err` nothing changed, or power was cut: all, or none.
        ensures writes { WritesAll self.old changes.now result self.new }
        // With a look-up that takes no memory it never runs out of it.
        ensures memory { result ≡ Err WriteAllFault.Memory → L.takes_memory }
    {
        if !self.flash.is_on() {
            return Err(WriteAllFault::Off);
        }
        if changes.is_empty() {
            return Ok(Written::Appended);
        }
        if changes.len() == 1 {
            return self.write_one(changes[0]);
        }
        self.write_several(changes)
    }

    fn forget(&mut self, address: Address) -> Result<Written, ForgetFault> {
        self.known.forget(&mut self.flash, address)
    }

    fn clear(&mut self) -> Result<bool, ClearFault> {
        if !self.flash.is_on() {
            return Err(ClearFault::Off);
        }
        if self.known.layout.fill == 0 {
            return Ok(false);
        }
        if self.is_last() {
            return Err(ClearFault::Spent);
        }
        match empty(&mut self.flash, &mut self.known.layout) {
            Ok(()) => {
                self.known.lookup.find_nothing();
                Ok(true)
            }
            Err(Cut) => Err(ClearFault::Cut),
        }
    }

    fn clean_step(&mut self) -> Result<bool, WriteFault> {
        self.known.clean_step(&mut self.flash)
    }

    fn pending(&self) -> usize {
        count_pending(&self.flash, self.known.layout.side.other())
    }

    fn fill(&self) -> usize {
        self.known.layout.fill
    }

    fn generation(&self) -> u32 {
        self.known.layout.generation
    }

    fn live_count(&self) -> usize {
        self.known
            .lookup
            .live_count(&self.flash, &self.known.layout)
    }

    fn next_live(&self, after: Option<Address>) -> Option<(Address, u32)> {
        self.known
            .lookup
            .next_live(&self.flash, &self.known.layout, after)
    }

    fn next_batch(&self, after: Option<Address>) -> LiveBatch {
        self.known
            .lookup
            .next_batch(&self.flash, &self.known.layout, after)
    }
}

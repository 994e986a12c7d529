//! How a store finds values, and makes the changes that nothing refuses: each kind of store has a
//! look-up of its own.
ghost use Rattle.std.specs.Prelude.{◌≡◌, ◌<◌, ◌≤◌, ℕ, List, [], ◌∷◌, IfSome, None, OnErr, OnOk, length};
ghost use Rattle.std.specs.List.{All};
ghost use Rattle.ee_codec.specs.Words.{IsAddress};
ghost use Rattle.ee_flash.specs.Device.{IsOn};
ghost use Rattle.ee_flash.specs.Size.{slot_count};
ghost use Rattle.ee_flash.specs.declared.word.Word.{Word};
ghost use Rattle.ee_pages.specs.Layout.{IsLayout};
ghost use Rattle.ee_pages.specs.LiveOrder.{AreLiveThrough, IsNextLive, above_of};
ghost use Rattle.ee_pages.specs.Meaning.{changed_by, live_in, meaning};
ghost use Rattle.ee_core.specs.CallSteps.{ForgetsHeld, map_change, map_in};
ghost use Rattle.ee_core.specs.Changes.{Appends, IsCutChange, IsCutMaking, Moves, NeedsTransfer, Proceeds};
ghost use Rattle.ee_core.specs.Finished.{IsMarked, IsStore};
ghost use Rattle.ee_core.specs.Lookups.{HasRoomToMove, IsReadyToMake, slots_by};
ghost use Rattle.ee_core.specs.Puts.{AreApart, HasNew, changes_of_puts, puts_of};
ghost use Rattle.ee_core.specs.State.{capacity, state_of};

use crate::change::{Change, Put};
use crate::changing::move_unindexed;
use crate::puts::live_with;
use crate::writing::append_change;
use ee_codec::Address;
use ee_flash::{Cut, Flash};
use ee_pages::{Layout, LiveBatch, latest, live_count, next_batch, next_live};

/// Memory ran out.
///
/// Source: ours.
#[derive(Clone, Copy, Debug, PartialEq, Eq)]
pub struct NoMemory;

/// How a store finds the value of an address. A look-up may keep something in memory, and makes
/// each change itself, so that what it keeps follows.
///
/// Source: ours.
pub trait Lookup {
    ghost use Rattle.std.specs.Prelude.{List, ℕ};
    ghost use Rattle.ee_flash.specs.declared.word.Word.{Word};
    ghost use Rattle.ee_core.specs.declared.change.Put as listed;

    /// It finds the values that these slots give.
    ghost fits: { Self → List Word → Type 0 };

    /// It is ready for a value of this address in the first free slot behind these.
    ghost is_ready: { Self → List Word → ℕ → Type 0 };

    /// It has room for a transfer of these slots with these values.
    ghost has_room: { Self → List Word → List listed.Put → Type 0 };

    /// It can run out of memory.
    ghost takes_memory: { Type 0 };

    /// It can be read anew, of these slots.
    ghost can_read: { Self → List Word → Type 0 };

    /// How many entries the memory that was lent to it has: 0 if it was lent none. Each of its
    /// calls keeps it, so a store, which makes no look-up of its own, keeps it too.
    ghost room: { Self → ℕ };

    /// The value of an address, `None` if it has none.
    fn value_of<F: Flash>(&self, flash: &F, layout: &Layout, address: Address) -> Option<u32>
        requires layout { IsLayout (F.device flash.now) layout.now }
        requires fits { fits self.now (slots_by layout.now (F.device flash.now)) }
        ensures { result ≡ map_in layout.now.side (F.device flash.now) address };

    /// How many addresses have a value.
    fn live_count<F: Flash>(&self, flash: &F, layout: &Layout) -> usize
        requires layout { IsLayout (F.device flash.now) layout.now }
        requires fits { fits self.now (slots_by layout.now (F.device flash.now)) }
        ensures { result ≡ live_in (map_in layout.now.side (F.device flash.now)) };

    /// How many addresses have a value with these values, each of which is of an
    /// address of its own.
    fn live_with<F: Flash>(&self, flash: &F, layout: &Layout, puts: &[Put]) -> usize
        requires layout { IsLayout (F.device flash.now) layout.now }
        requires fits { fits self.now (slots_by layout.now (F.device flash.now)) }
        requires few { length puts.now ≤ slot_count (F.device flash.now).size }
        requires apart { AreApart (puts_of puts.now) }
        ensures { result ≡ live_in
            (changed_by (puts_of puts.now) (map_in layout.now.side (F.device flash.now))) };

    /// The next live address above `after`, or of all if `after` is `None`, with its value.
    fn next_live<F: Flash>(
        &self,
        flash: &F,
        layout: &Layout,
        after: Option<Address>,
    ) -> Option<(Address, u32)>
        requires layout { IsLayout (F.device flash.now) layout.now }
        requires fits { fits self.now (slots_by layout.now (F.device flash.now)) }
        ensures next { IsNextLive (map_in layout.now.side (F.device flash.now)) (above_of after)
            result }
        ensures proper { IfSome result (λ found. IsAddress found.0) };

    /// The next live addresses above `after`, or the first of all if `after` is `None`.
    fn next_batch<F: Flash>(&self, flash: &F, layout: &Layout, after: Option<Address>) -> LiveBatch
        requires layout { IsLayout (F.device flash.now) layout.now }
        requires fits { fits self.now (slots_by layout.now (F.device flash.now)) }
        ensures live { AreLiveThrough (map_in layout.now.side (F.device flash.now)) (above_of after)
            result.found.items result.through }
        ensures proper { All (λ found. IsAddress found.0) result.found.items };

    /// Makes ready for a value in the first free slot. An `Err`, which only a new address meets,
    /// leaves it as it was.
    fn make_ready<F: Flash>(&mut self, flash: &F, layout: &Layout, put: Put) -> Result<(), NoMemory>
        requires layout { IsLayout (F.device flash.now) layout.now }
        requires fits { fits self.old (slots_by layout.now (F.device flash.now)) }
        ensures ready { OnOk result (is_ready self.new
            (slots_by layout.now (F.device flash.now)) put.address) }
        ensures memory { OnErr result takes_memory }
        ensures new { OnErr result
            ((state_of (F.device flash.now)).map put.address ≡ None) }
        ensures fits { OnErr result
            (fits self.new (slots_by layout.now (F.device flash.now))) }
        ensures same_room { room self.new ≡ room self.old };

    /// Makes room for a transfer with these values. An `Err`, which only a new address meets,
    /// leaves it as it was.
    fn make_room<F: Flash>(
        &mut self,
        flash: &F,
        layout: &Layout,
        puts: &[Put],
    ) -> Result<(), NoMemory>
        requires layout { IsLayout (F.device flash.now) layout.now }
        requires fits { fits self.old (slots_by layout.now (F.device flash.now)) }
        ensures room { OnOk result (has_room self.new
            (slots_by layout.now (F.device flash.now)) puts.now) }
        ensures memory { OnErr result takes_memory }
        ensures new { OnErr result (HasNew puts.now (state_of (F.device flash.now)).map) }
        ensures fits { OnErr result
            (fits self.new (slots_by layout.now (F.device flash.now))) }
        ensures same_room { room self.new ≡ room self.old };

    /// Reads anew what it keeps in lent memory. It takes no more memory than it has.
    fn read_anew<F: Flash>(&mut self, flash: &F, layout: &Layout)
        requires layout { IsLayout (F.device flash.now) layout.now }
        requires readable { can_read self.old (slots_by layout.now (F.device flash.now)) }
        ensures fits { fits self.new (slots_by layout.now (F.device flash.now)) }
        ensures same_room { room self.new ≡ room self.old };

    /// Follows a clear: it finds nothing from here on.
    fn find_nothing(&mut self)
        ensures fits { (slots : List Word) → ((address : ℕ) → meaning slots address ≡ None)
            → fits self.new slots }
        ensures same_room { room self.new ≡ room self.old };

    /// Makes a change to which no refusal applies in the first free slot. The layout and
    /// the look-up follow.
    fn append<F: Flash>(
        &mut self,
        flash: &mut F,
        layout: &mut Layout,
        change: Change,
    ) -> Result<(), Cut>
        requires layout { IsLayout (F.device flash.old) layout.old }
        requires ready { let slots = slots_by layout.old (F.device flash.old) in
            IsReadyToMake (fits self.old slots) (is_ready self.old slots) change }
        requires marked { IsMarked (F.device flash.old) layout.old.side }
        requires proceeds { Proceeds (F.device flash.old) (map_change change ∷ []) }
        requires forgets { ForgetsHeld (state_of (F.device flash.old)).map change }
        requires free { layout.old.fill < slot_count (F.device flash.old).size }
        ensures appended { OnOk result
            (Appends (F.device flash.old) (map_change change) (F.device flash.new)) }
        ensures cut { OnErr result
            (IsCutChange (F.device flash.old) (map_change change) (F.device flash.new)) }
        ensures store { IsStore (F.device flash.new) }
        ensures layout { IsOn (F.device flash.new) → IsLayout (F.device flash.new) layout.new }
        ensures fits { IsOn (F.device flash.new)
            → fits self.new (slots_by layout.new (F.device flash.new)) }
        ensures same_room { room self.new ≡ room self.old };

    /// Makes changes to which no refusal applies with a transfer that they need. The layout and
    /// the look-up follow.
    fn transfer<F: Flash>(
        &mut self,
        flash: &mut F,
        layout: &mut Layout,
        puts: &[Put],
        forgets: bool,
    ) -> Result<(), Cut>
        requires layout { IsLayout (F.device flash.old) layout.old }
        requires room { let slots = slots_by layout.old (F.device flash.old) in
            HasRoomToMove (fits self.old slots) (has_room self.old slots) puts.now forgets }
        requires apart { AreApart (changes_of_puts puts.now forgets) }
        requires proceeds { Proceeds (F.device flash.old) (changes_of_puts puts.now forgets) }
        requires needed { NeedsTransfer (capacity (F.device flash.old))
            (state_of (F.device flash.old))
            (changes_of_puts puts.now forgets) }
        ensures moved { OnOk result
            (Moves (F.device flash.old) (changes_of_puts puts.now forgets) (F.device flash.new)) }
        ensures cut { OnErr result
            (IsCutMaking (F.device flash.old) (changes_of_puts puts.now forgets)
            (F.device flash.new)) }
        ensures store { IsStore (F.device flash.new) }
        ensures layout { IsOn (F.device flash.new) → IsLayout (F.device flash.new) layout.new }
        ensures fits { IsOn (F.device flash.new)
            → fits self.new (slots_by layout.new (F.device flash.new)) }
        ensures same_room { room self.new ≡ room self.old };
}

/// Looks through the slots, and keeps nothing in memory.
///
/// Source: ours.
#[derive(Clone, Copy, Drop)]
pub struct Slots;

impl Lookup for Slots {
    ghost fits = { λ slots words. Unit {0} };

    ghost is_ready = { λ slots words address. Unit {0} };

    ghost has_room = { λ slots words puts. Unit {0} };

    ghost takes_memory = { ⊥ };

    ghost can_read = { λ slots words. Unit {0} };

    ghost room = { λ slots. 0 };

    #[inline(always)]
    fn value_of<F: Flash>(&self, flash: &F, layout: &Layout, address: Address) -> Option<u32> {
        latest(flash, layout, address)
    }

    #[inline(always)]
    fn live_count<F: Flash>(&self, flash: &F, layout: &Layout) -> usize {
        live_count(flash, layout)
    }

    #[inline(always)]
    fn live_with<F: Flash>(&self, flash: &F, layout: &Layout, puts: &[Put]) -> usize {
        live_with(flash, layout, puts)
    }

    #[inline(always)]
    fn next_live<F: Flash>(
        &self,
        flash: &F,
        layout: &Layout,
        after: Option<Address>,
    ) -> Option<(Address, u32)> {
        next_live(flash, layout, after)
    }

    #[inline(always)]
    fn next_batch<F: Flash>(
        &self,
        flash: &F,
        layout: &Layout,
        after: Option<Address>,
    ) -> LiveBatch {
        let mut batch = LiveBatch::new();
        next_batch(flash, layout, after, &mut batch);
        batch
    }

    #[inline(always)]
    fn make_ready<F: Flash>(
        &mut self,
        _flash: &F,
        _layout: &Layout,
        _put: Put,
    ) -> Result<(), NoMemory> {
        Ok(())
    }

    #[inline(always)]
    fn make_room<F: Flash>(
        &mut self,
        _flash: &F,
        _layout: &Layout,
        _puts: &[Put],
    ) -> Result<(), NoMemory> {
        Ok(())
    }

    #[inline(always)]
    fn read_anew<F: Flash>(&mut self, _flash: &F, _layout: &Layout) {}

    #[inline(always)]
    fn find_nothing(&mut self) {}

    #[inline(always)]
    fn append<F: Flash>(
        &mut self,
        flash: &mut F,
        layout: &mut Layout,
        change: Change,
    ) -> Result<(), Cut> {
        append_change(flash, layout, change)
    }

    #[inline(always)]
    fn transfer<F: Flash>(
        &mut self,
        flash: &mut F,
        layout: &mut Layout,
        puts: &[Put],
        forgets: bool,
    ) -> Result<(), Cut> {
        move_unindexed(flash, layout, puts, forgets)
    }
}

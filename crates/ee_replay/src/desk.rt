//! A device on the desk, and what a store of it knows: a cut is armed, and power comes back.
//! Values are found through the slots or by an index. Where the look-up may change, the desk
//! makes an index when looking through the slots has cost more than that, and gives it back when
//! looking would cost less.
ghost use Rattle.std.specs.Prelude.{◌≡◌, IfErr, IfOk, OnOk};
ghost use Rattle.ee_flash.specs.Device.{IsOn};
ghost use Rattle.ee_flash.specs.Memory.{with_fuse};
ghost use Rattle.ee_flash.specs.Size.{slot_count};
ghost use Rattle.ee_flash.specs.Taking.{HasFuse};
ghost use Rattle.ee_core.specs.Finished.{IsStore};
ghost use Rattle.ee_core.specs.Points.{open_point};
ghost use Rattle.ee_core.specs.Runs.{Cleaned, DidRead, Forgot, Wrote};
ghost use Rattle.ee_core.specs.State.{state_of};
ghost use Rattle.ee_image_store.specs.Opening.{IsOpenFault, IsOpened};
ghost use Rattle.ee_plan.specs.Start.{IsStartOf};
ghost use Rattle.ee_replay.specs.Desk.{CallsAtDesk, SaysTheSame};
ghost use Rattle.ee_replay.specs.Serving.{PowerAnswers};

use super::either_lookup::EitherLookup;
use ee_check::Start;
use ee_codec::Address;
use ee_core::inner::{Known, clean, open_on, parts_of, store_of};
use ee_core::{ForgetFault, Lookup, Off, OpenFault, Slots, Store, WriteFault, Written};
use ee_flash::{Cut, Flash, Fuse, MemFlash};
use ee_image_store::open_image;
use ee_index::inner::{Costs, index_of};
use ee_interface::ReplayFault;
use ee_interface::script::Answer;
use ee_plan::start_of;
use std::alloc::{AllocError, Allocator, Global};
use std::marker::Model;

/// How the values of a store are found.
#[derive(Clone, Copy)]
pub(crate) enum Kind {
    /// Through the slots.
    Plain,
    /// By an index, which a test tells by its requests for memory.
    Indexed,
    /// Through the slots until an index pays. Where memory for one is refused it goes on without.
    AsPays,
}

/// A device, and what a store of it knows. The store is open while the device is on.
#[derive(Drop)]
pub(crate) struct Desk<A: Allocator + Copy = Global> {
    flash: MemFlash<A>,
    known: Known<EitherLookup<A>>,
    /// What is counted to tell which look-up pays.
    costs: Costs,
}

impl<A: Allocator + Copy> Model for Desk<A> {
    ghost use Rattle.ee_flash.specs.Device.{Device};
    ghost use Rattle.ee_flash.specs.Memory.{device_of};
    ghost use Rattle.ee_core.specs.Known.{Knows};
    ghost use Rattle.ee_replay.specs.Either.{FitsEither};

    ghost Value = { Device };

    ghost view = { λ desk. device_of desk.flash };

    ghost invariant = { λ desk. Knows FitsEither (device_of desk.flash) desk.known };
}

impl<A: Allocator + Copy> Desk<A> {
    /// A desk with this store, whose values are found through the slots.
    pub(crate) fn of(store: Store<MemFlash<A>>) -> Desk<A>
        ensures { result ≡ store }
    {
        let (flash, known) = parts_of(store);
        let lookup = EitherLookup::Slots(known.lookup);
        let known = Known {
            layout: known.layout,
            lookup,
        };
        Desk {
            flash,
            known,
            costs: Costs::new(),
        }
    }

    /// The store of the image that a text spells, whose values are found so.
    pub(crate) fn open(alloc: A, image: &[u8], kind: Kind) -> Result<Desk<A>, ReplayFault>
        ensures opened { IfOk result (λ desk. IsOpened image.now desk) }
        ensures fault { IfErr result (IsOpenFault image.now) }
    {
        let mut desk = Desk::of(open_image(alloc, image)?);
        if let Kind::Indexed = kind {
            desk.make_index(alloc)?;
        }
        desk.settle_to_count(alloc, kind);
        Ok(desk)
    }

    /// The same desk, and what its store gives a trace to start from.
    pub(crate) fn started(self, alloc: A) -> Result<(Desk<A>, Start<A>), AllocError>
        requires { IsOn self }
        ensures start { IfOk result (λ started.
            IsStartOf (slot_count self.size) (state_of self) started.1) }
        ensures same { IfOk result (λ started. started.0 ≡ self) }
        ensures fused { OnOk result (HasFuse self) }
        ensures store { OnOk result (IsStore self) }
    {
        let costs = self.costs;
        let store = self.into_store();
        let start = start_of(alloc, &store)?;
        let (flash, known) = parts_of(store);
        let desk = Desk {
            flash,
            known,
            costs,
        };
        Ok((desk, start))
    }

    /// The store.
    pub(crate) fn into_store(self) -> Store<MemFlash<A>, EitherLookup<A>>
        ensures { result ≡ self }
    {
        store_of(self.flash, self.known)
    }

    /// Writes.
    #[inline(always)]
    pub(crate) fn write(&mut self, address: Address, value: u32) -> Result<Written, WriteFault>
        ensures calls { let old = self.old in CallsAtDesk old.on old
            (Wrote address value result) (open_point self.new) }
        ensures fused { HasFuse self.new }
    {
        self.known.write(&mut self.flash, address, value)
    }

    /// Forgets.
    pub(crate) fn forget(&mut self, address: Address) -> Result<Written, ForgetFault>
        ensures calls { let old = self.old in CallsAtDesk old.on old
            (Forgot address result) (open_point self.new) }
        ensures fused { HasFuse self.new }
    {
        self.known.forget(&mut self.flash, address)
    }

    /// Takes a clean step.
    pub(crate) fn clean_step(&mut self) -> Result<bool, WriteFault>
        ensures calls { let old = self.old in CallsAtDesk old.on old
            (Cleaned result) (open_point self.new) }
        ensures fused { HasFuse self.new }
    {
        self.known.clean_step(&mut self.flash)
    }

    /// Reads.
    pub(crate) fn read(&self, address: Address) -> Result<Option<u32>, Off>
        ensures calls { let old = self.now in CallsAtDesk old.on old
            (DidRead address result) (open_point old) }
        ensures fused { HasFuse self.now }
    {
        self.known.read(&self.flash, address)
    }

    /// How many slots are used.
    pub(crate) fn fill(&self) -> usize
        requires { IsOn self.now }
        ensures { result ≡ (state_of self.now).fill }
    {
        self.known.layout.fill
    }

    /// Arms a cut.
    pub(crate) fn arm(&mut self, fuse: Fuse)
        ensures armed { self.new ≡ with_fuse fuse self.old }
        ensures fused { HasFuse self.new }
    {
        self.flash.arm(fuse)
    }

    /// Turns power on and opens the store, whose values are found so, which changes nothing where
    /// one is open. An error says that memory ran out.
    pub(crate) fn power_on(&mut self, alloc: A, kind: Kind) -> Result<Answer, AllocError>
        ensures powers { let old = self.old in IfOk result
            (λ answer. PowerAnswers old.on old answer (open_point self.new)) }
        ensures same { SaysTheSame self.old self.new }
        ensures fused { HasFuse self.new }
    {
        if self.flash.is_on() {
            return Ok(Answer::Opened);
        }
        self.flash.power_on();
        match open_on(&mut self.flash) {
            Ok(layout) => {
                let lookup = EitherLookup::Slots(Slots);
                self.known = Known { layout, lookup };
                self.costs = Costs::new();
                if let Kind::Indexed = kind {
                    self.make_index(alloc)?;
                }
                Ok(Answer::Opened)
            }
            Err(OpenFault::Cut) => Ok(Answer::Cut),
            Err(OpenFault::Scan(_)) => unreachable!("its image is legal"),
        }
    }

    /// Takes note of what a line took, and says whether the look-up is to be settled now.
    // One for each line of a script, and most lines are appended or read.
    #[inline(always)]
    pub(crate) fn weigh_line(&mut self, answer: Answer) -> bool
        ensures { self.new ≡ self.old }
    {
        match answer {
            Answer::Appended => self.costs.note_append(),
            Answer::Value(_) => self.costs.note_read(),
            Answer::NoValue | Answer::Absent | Answer::Moved | Answer::Full | Answer::Spent => {
                self.note_looks(answer)
            }
            _ => false,
        }
    }

    /// Takes note of what a line costs for which all slots are looked at. Says whether the other
    /// look-up may pay now.
    #[inline(never)]
    fn note_looks(&mut self, answer: Answer) -> bool
        ensures { self.new ≡ self.old }
    {
        let fill = self.known.layout.fill;
        match answer {
            Answer::Moved => self.costs.note_move(fill, self.flash.shape().slots()),
            Answer::Full => self.costs.note_full(fill),
            _ => self.costs.note_absent(fill),
        }
        self.costs.is_time_to_change(fill)
    }

    /// Goes on with the look-up that pays behind a line about this address.
    #[inline(never)]
    pub(crate) fn settle(&mut self, alloc: A, address: Address)
        ensures { self.new ≡ self.old }
    {
        let Known { layout, lookup } = &self.known;
        if self.costs.measures_now() {
            let looks = lookup.look_count(&self.flash, layout, address);
            self.costs.measure_read(looks, lookup.count(layout));
        }
        if !self.flash.is_on() || !self.costs.is_time_to_change(layout.fill) {
            return;
        }
        if let EitherLookup::Slots(_) = lookup {
            let _ = self.make_index(alloc);
            return;
        }
        self.known.lookup = EitherLookup::Slots(Slots);
        self.costs = self.costs.without_index();
    }

    /// Goes on with the look-up by which a store that is open, and whose look-up may
    /// change, is counted sooner.
    pub(crate) fn settle_to_count(&mut self, alloc: A, kind: Kind)
        ensures { self.new ≡ self.old }
    {
        let slots = self.flash.shape().slots();
        let Known { layout, lookup } = &self.known;
        if matches!(kind, Kind::AsPays)
            && self.flash.is_on()
            && lookup.pays_to_count(alloc, &self.flash, layout, &self.costs, slots)
        {
            let _ = self.make_index(alloc);
        }
    }

    /// Whether no slot is free.
    #[inline(always)]
    pub(crate) fn is_filled(&self) -> bool {
        self.known.layout.fill >= self.flash.shape().slots()
    }

    /// Goes on with an index where no slot is free, if the store counts its live addresses sooner
    /// by one, as it has to for a write of an address with no value.
    #[inline(never)]
    pub(crate) fn settle_to_write(&mut self, alloc: A, address: Address)
        ensures { self.new ≡ self.old }
    {
        let slots = self.flash.shape().slots();
        let fill = self.known.layout.fill;
        if self.costs.pays_for_a_count(fill, fill, slots)
            && matches!(self.read(address), Ok(None))
        {
            self.settle_to_count(alloc, Kind::AsPays);
        }
    }

    /// Goes on with an index. An error says that memory is refused: costs are counted anew then.
    fn make_index(&mut self, alloc: A) -> Result<(), AllocError>
        requires { IsOn self.old }
        ensures { self.new ≡ self.old }
    {
        match index_of(alloc, &self.flash, &self.known.layout) {
            Ok(index) => {
                self.known.lookup = EitherLookup::Index(index);
                self.costs = self.costs.with_index(self.known.layout.fill);
                Ok(())
            }
            Err(error) => {
                self.costs = Costs::new();
                Err(error)
            }
        }
    }
}

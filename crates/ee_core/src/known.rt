//! What a store keeps in memory beside its device, and the calls that stand on it.
ghost use Rattle.std.specs.Bool.{MatchBool};
ghost use Rattle.std.specs.Prelude.{◌≡◌, ◌<◌};
ghost use Rattle.ee_flash.specs.Device.{IsOn};
ghost use Rattle.ee_flash.specs.Size.{slot_count};
ghost use Rattle.ee_core.specs.Calls.{Cleans, Forgets, Reads, Writes};
ghost use Rattle.ee_core.specs.Changes.{IsFull};
ghost use Rattle.ee_core.specs.Known.{Knows};
ghost use Rattle.ee_core.specs.State.{capacity, state_of};

use crate::change::{Change, Put};
use crate::cleaning::clean;
use crate::lookup::Lookup;
use crate::store::GREATEST_GENERATION;
use crate::variables::{ForgetFault, Off, WriteFault, Written};
use ee_codec::Address;
use ee_flash::{Cut, Flash};
use ee_pages::Layout;

/// What a store keeps in memory beside its device.
#[derive(Drop)]
pub struct Known<L: Lookup + Drop> {
    /// Where the live set is, and how far it is used.
    pub layout: Layout,
    /// What finds values.
    pub lookup: L,
}

impl<L: Lookup + Drop> Known<L> {
    /// `Variables::read` on the device of which this is known.
    pub fn read<F: Flash>(&self, flash: &F, address: Address) -> Result<Option<u32>, Off>
        requires { Knows L.fits (F.device flash.now) self.now }
        // At `Ok` it is the map's value; at `Err` the device is off.
        ensures { Reads (F.device flash.now) address result }
    {
        if !flash.is_on() {
            return Err(Off);
        }
        Ok(self.lookup.value_of(flash, &self.layout, address))
    }

    /// `Variables::write` on the device of which this is known.
    #[inline(always)]
    pub fn write<F: Flash>(
        &mut self,
        flash: &mut F,
        address: Address,
        value: u32,
    ) -> Result<Written, WriteFault>
        requires { Knows L.fits (F.device flash.old) self.old }
        // At `Ok` the change is appended or moved; at `Err` nothing changed, or power was cut.
        ensures writes { Writes (F.device flash.old) address value result (F.device flash.new) }
        ensures memory { result ≡ Err WriteFault.Memory → L.takes_memory }
        ensures known { Knows L.fits (F.device flash.new) self.new }
    {
        if !flash.is_on() {
            return Err(WriteFault::Off);
        }
        if self.layout.fill < flash.shape().slots() {
            return self.append_value(flash, address, value);
        }
        self.move_value(flash, address, value)
    }

    /// `Variables::forget` on the device of which this is known.
    #[inline(always)]
    pub fn forget<F: Flash>(
        &mut self,
        flash: &mut F,
        address: Address,
    ) -> Result<Written, ForgetFault>
        requires { Knows L.fits (F.device flash.old) self.old }
        // At `Ok` the address has no value; at `Err` nothing changed, or power was cut.
        ensures forgets { Forgets (F.device flash.old) address result (F.device flash.new) }
        ensures known { Knows L.fits (F.device flash.new) self.new }
    {
        if !flash.is_on() {
            return Err(ForgetFault::Off);
        }
        let Some(value) = self.lookup.value_of(flash, &self.layout, address) else {
            return Err(ForgetFault::Absent);
        };
        if self.layout.fill < flash.shape().slots() {
            let change = Change::Forget { address, value };
            return match self.lookup.append(flash, &mut self.layout, change) {
                Ok(()) => Ok(Written::Appended),
                Err(Cut) => Err(ForgetFault::Cut),
            };
        }
        if self.layout.generation == GREATEST_GENERATION {
            return Err(ForgetFault::Spent);
        }
        let put = Put { address, value };
        match self.lookup.transfer(flash, &mut self.layout, &[put], true) {
            Ok(()) => Ok(Written::Moved),
            Err(Cut) => Err(ForgetFault::Cut),
        }
    }

    /// `Variables::clean_step` on the device of which this is known.
    pub fn clean_step<F: Flash>(&self, flash: &mut F) -> Result<bool, WriteFault>
        requires { Knows L.fits (F.device flash.old) self.now }
        // At `true` one page is erased; at `false` and `Err` nothing changed, or power was cut.
        ensures cleans { Cleans (F.device flash.old) result (F.device flash.new) }
        ensures known { Knows L.fits (F.device flash.new) self.now }
    {
        if !flash.is_on() {
            return Err(WriteFault::Off);
        }
        match clean(flash, &self.layout) {
            Ok(erased) => Ok(erased),
            Err(Cut) => Err(WriteFault::Cut),
        }
    }

    /// Writes a value into the first free slot.
    #[inline(always)]
    fn append_value<F: Flash>(
        &mut self,
        flash: &mut F,
        address: Address,
        value: u32,
    ) -> Result<Written, WriteFault>
        requires known { Knows L.fits (F.device flash.old) self.old }
        requires on { IsOn (F.device flash.old) }
        requires free { self.old.layout.fill < slot_count (F.device flash.old).size }
        ensures writes { Writes (F.device flash.old) address value result (F.device flash.new) }
        ensures memory { result ≡ Err WriteFault.Memory → L.takes_memory }
        ensures known { Knows L.fits (F.device flash.new) self.new }
    {
        let put = Put { address, value };
        let Ok(()) = self.lookup.make_ready(flash, &self.layout, put) else {
            return Err(WriteFault::Memory);
        };
        let change = Change::Put { address, value };
        match self.lookup.append(flash, &mut self.layout, change) {
            Ok(()) => Ok(Written::Appended),
            Err(Cut) => Err(WriteFault::Cut),
        }
    }

    /// Writes a value with the transfer that it needs, since every slot is used.
    fn move_value<F: Flash>(
        &mut self,
        flash: &mut F,
        address: Address,
        value: u32,
    ) -> Result<Written, WriteFault>
        requires known { Knows L.fits (F.device flash.old) self.old }
        requires on { IsOn (F.device flash.old) }
        requires used { (state_of (F.device flash.old)).fill ≡ capacity (F.device flash.old) }
        ensures writes { Writes (F.device flash.old) address value result (F.device flash.new) }
        ensures memory { result ≡ Err WriteFault.Memory → L.takes_memory }
        ensures known { Knows L.fits (F.device flash.new) self.new }
    {
        if self.has_no_place(flash, address) {
            return Err(WriteFault::Full);
        }
        if self.layout.generation == GREATEST_GENERATION {
            return Err(WriteFault::Spent);
        }
        let puts = [Put { address, value }];
        let Ok(()) = self.lookup.make_room(flash, &self.layout, &puts) else {
            return Err(WriteFault::Memory);
        };
        match self.lookup.transfer(flash, &mut self.layout, &puts, false) {
            Ok(()) => Ok(Written::Moved),
            Err(Cut) => Err(WriteFault::Cut),
        }
    }

    /// Whether the address has no value and there is no slot for one more.
    fn has_no_place<F: Flash>(&self, flash: &F, address: Address) -> bool
        requires known { Knows L.fits (F.device flash.now) self.now }
        requires on { IsOn (F.device flash.now) }
        ensures { let device = F.device flash.now in
            MatchBool result (IsFull (capacity device) (state_of device) address)
            (¬ IsFull (capacity device) (state_of device) address) }
    {
        let slots = flash.shape().slots();
        match self.lookup.value_of(flash, &self.layout, address) {
            Some(_) => false,
            None => self.lookup.live_count(flash, &self.layout) == slots,
        }
    }
}

//! The store with an index: a read is one look in the index and one word of the flash.
ghost use Rattle.std.specs.Prelude.{IfErr, IfOk};
ghost use Rattle.ee_flash.specs.Device.{IsOn};
ghost use Rattle.ee_core.specs.Openings.{Opens};
ghost use Rattle.ee_index.specs.Index.{IndexedOpenFails};

use crate::slot_index::{SlotIndex, index_of};
use ee_core::Store;
use ee_core::inner::{Known, finish, store_of};
use ee_flash::{Cut, Flash};
use ee_pages::{ScanFault, scan};
use std::alloc::{Allocator, Global};

/// Why a device can't be opened with an index, the first cause that applies.
///
/// Source: ours.
#[derive(Clone, Copy, Debug, PartialEq, Eq)]
pub enum IndexedFault {
    /// The image is not legal. Nothing changed.
    Scan(ScanFault),
    /// Memory ran out. Nothing changed.
    Memory,
    /// Power failed in setting a mark. The device is off; its variables are as before.
    Cut,
}

/// Variables in a flash device, with an index in memory: the slot in which each live address
/// stands. A read is one look in the index and one word of the flash.
///
/// Source: two sets, of which one takes the writes, AN4894; the rest is ours.
pub type IndexedStore<F, A = Global> = Store<F, SlotIndex<A>>;

/// Opens the store of a legal image, on a device that is on, and sets the marks that a cut left to
/// set. The variables are as before. Where no mark was left it takes no step.
///
/// Source: ours.
///
/// # Errors
///
/// The device and the first `IndexedFault` that applies.
pub fn open_indexed<F: Flash + Drop, A: Allocator + Copy>(
    alloc: A,
    flash: F,
) -> Result<IndexedStore<F, A>, (F, IndexedFault)>
    requires { IsOn (F.device flash) }
    ensures opened { IfOk result (Opens (F.device flash)) }
    ensures failed { IfErr result
        (λ failed. IndexedOpenFails (F.device flash) failed.1 (F.device failed.0)) }
{
    let mut flash = flash;
    let layout = match scan(&flash) {
        Ok(layout) => layout,
        Err(fault) => return Err((flash, IndexedFault::Scan(fault))),
    };
    // The index is made before the first step, so want of memory leaves the device as it was.
    let lookup = match index_of(alloc, &flash, &layout) {
        Ok(index) => index,
        Err(_) => return Err((flash, IndexedFault::Memory)),
    };
    match finish(&mut flash, &layout) {
        Ok(()) => Ok(store_of(flash, Known { layout, lookup })),
        Err(Cut) => Err((flash, IndexedFault::Cut)),
    }
}

/// `IndexedStore::open`. The store is a type of `ee_core`, so the call is of a trait.
///
/// Source: ours.
pub trait OpenIndexed<F: Flash + Drop, A: Allocator + Copy> {
    /// `open_indexed`.
    ///
    /// # Errors
    ///
    /// The device and the first `IndexedFault` that applies.
    fn open(alloc: A, flash: F) -> Result<IndexedStore<F, A>, (F, IndexedFault)>
        requires { IsOn (F.device flash) }
        ensures opened { IfOk result (Opens (F.device flash)) }
        ensures failed { IfErr result
            (λ failed. IndexedOpenFails (F.device flash) failed.1 (F.device failed.0)) };
}

impl<F: Flash + Drop, A: Allocator + Copy> OpenIndexed<F, A> for IndexedStore<F, A> {
    fn open(alloc: A, flash: F) -> Result<IndexedStore<F, A>, (F, IndexedFault)> {
        open_indexed(alloc, flash)
    }
}

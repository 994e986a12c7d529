//! How a store comes to be: opened from a legal image, or made anew on any device.
ghost use Rattle.std.specs.Prelude.{IfErr, IfOk, OnOk};
ghost use Rattle.ee_flash.specs.Device.{IsOn};
ghost use Rattle.ee_pages.specs.Layout.{IsLayout};
ghost use Rattle.ee_core.specs.Openings.{IsCutFormat, IsFormatted, OpenFails, Opens};

use crate::formatting::write_format;
use crate::marking::finish;
use crate::store::Store;
use ee_flash::{Cut, Flash};
use ee_pages::{Layout, ScanFault, scan};

/// Why a device can't be opened, the first cause that applies.
///
/// Source: ours.
#[derive(Clone, Copy, Debug, PartialEq, Eq)]
pub enum OpenFault {
    /// The image is not legal. Nothing changed.
    Scan(ScanFault),
    /// Power failed in setting a mark. The device is off; its variables are as before.
    Cut,
}

/// Opens the store of a legal image, on a device that is on, and sets the marks that a cut left to
/// set. The variables are as before. Where no mark was left it takes no step.
///
/// Source: ours.
///
/// # Errors
///
/// The device and the first `OpenFault` that applies.
pub fn open<F: Flash + Drop>(flash: F) -> Result<Store<F>, (F, OpenFault)>
    requires { IsOn (F.device flash) }
    ensures opened { IfOk result (Opens (F.device flash)) }
    ensures failed { IfErr result
        (λ failed. OpenFails (F.device flash) failed.1 (F.device failed.0)) }
{
    let mut flash = flash;
    match open_on(&mut flash) {
        Ok(layout) => Ok(Store::of(flash, layout)),
        Err(fault) => Err((flash, fault)),
    }
}

/// `open` in place: the layout of the store that the device becomes.
pub fn open_on<F: Flash>(flash: &mut F) -> Result<Layout, OpenFault>
    requires { IsOn (F.device flash.old) }
    ensures opened { OnOk result (Opens (F.device flash.old) (F.device flash.new)) }
    ensures layout { IfOk result (IsLayout (F.device flash.new)) }
    ensures failed { IfErr result
        (λ fault. OpenFails (F.device flash.old) fault (F.device flash.new)) }
{
    let layout = match scan(flash) {
        Ok(layout) => layout,
        Err(fault) => return Err(OpenFault::Scan(fault)),
    };
    match finish(flash, &layout) {
        Ok(()) => Ok(layout),
        Err(Cut) => Err(OpenFault::Cut),
    }
}

/// Makes a store with nothing in it, of a device that is on: each page that is not blank is erased,
/// by rising page, and the first set becomes the live set with generation 1.
///
/// Source: ours.
///
/// # Errors
///
/// The device, off: power failed. What it held is gone in part, until a `format` ends.
pub fn format<F: Flash + Drop>(flash: F) -> Result<Store<F>, (F, Cut)>
    requires { IsOn (F.device flash) }
    ensures formatted { IfOk result (IsFormatted (F.device flash)) }
    ensures cut { IfErr result (λ failed. IsCutFormat (F.device flash) (F.device failed.0)) }
{
    let mut flash = flash;
    match write_format(&mut flash) {
        Ok(layout) => Ok(Store::of(flash, layout)),
        Err(cut) => Err((flash, cut)),
    }
}

//! The call for whenever a device is switched on: it opens the store, or makes the first one.
ghost use Rattle.std.specs.Prelude.{◌≡◌, ◌≢◌, ◌<◌, ◌≤◌, ℕ, IfErr, IfOk, OnErr, OnOk, false, true};
ghost use Rattle.ee_flash.specs.Device.{IsOn, word_at};
ghost use Rattle.ee_flash.specs.Size.{header_words, page_count};
ghost use Rattle.ee_pages.specs.Layout.{IsLayout, IsScanFault};
ghost use Rattle.ee_core.specs.Openings.{IsFormatted};
ghost use Rattle.ee_core.specs.Starts.{HoldsNone, IsCutStart, IsStartable, StartFails, Starts};

use crate::formatting::write_format;
use crate::opening::{OpenFault, open_on};
use crate::store::Store;
use ee_flash::{Cut, Flash, HEADER_WORDS, Word};
use ee_pages::{Layout, ScanFault};

/// Opens the store of a device that is on, as `open` does, or makes the first one, as `format`
/// does: on a device in which no set is committed and each word behind a page's header is erased or
/// torn. So it is the call to make whenever the device is switched on: a first start in which power
/// is cut is made again, and no word that may be a value is ever erased.
///
/// Source: ours.
///
/// # Errors
///
/// The device and the first `OpenFault` that applies. At a fault of the scan nothing changed. After
/// a cut the variables are as before: in a first start there are none.
pub fn start<F: Flash + Drop>(flash: F) -> Result<Store<F>, (F, OpenFault)>
    requires { IsOn (F.device flash) }
    ensures started { IfOk result (Starts (F.device flash)) }
    ensures failed { IfErr result
        (λ failed. StartFails (F.device flash) failed.1 (F.device failed.0)) }
{
    let mut flash = flash;
    match start_on(&mut flash) {
        Ok(layout) => Ok(Store::of(flash, layout)),
        Err(fault) => Err((flash, fault)),
    }
}

/// `start` in place: the layout of the store that the device becomes.
pub fn start_on<F: Flash>(flash: &mut F) -> Result<Layout, OpenFault>
    requires { IsOn (F.device flash.old) }
    ensures started { OnOk result (Starts (F.device flash.old) (F.device flash.new)) }
    ensures layout { IfOk result (IsLayout (F.device flash.new)) }
    ensures failed { IfErr result
        (λ fault. StartFails (F.device flash.old) fault (F.device flash.new)) }
{
    let fault = match open_on(flash) {
        Ok(layout) => return Ok(layout),
        Err(fault) => fault,
    };
    let OpenFault::Scan(scan) = fault else {
        return Err(fault);
    };
    if !is_startable(flash, scan) {
        return Err(fault);
    }
    start_anew(flash)
}

/// Whether a device of which a scan says this can be started.
fn is_startable<F: Flash>(flash: &F, fault: ScanFault) -> bool
    requires { IsScanFault (F.device flash.now) fault }
    ensures yes { result ≡ true → IsStartable (F.device flash.now) }
    ensures no { result ≡ false → ¬ IsStartable (F.device flash.now) }
{
    match fault {
        ScanFault::Unformatted => true,
        ScanFault::NoLiveSet => holds_none(flash),
        ScanFault::TwoLive => false,
        ScanFault::Foreign { .. } => false,
    }
}

/// Whether each word behind a page's header is erased or torn.
fn holds_none<F: Flash>(flash: &F) -> bool
    ensures yes { result ≡ true → HoldsNone (F.device flash.now) }
    ensures no { result ≡ false → ¬ HoldsNone (F.device flash.now) }
{
    for page in 0..2 * flash.shape().pages() {
        if page_holds(flash, page) {
            return false;
        }
    }
    true
}

/// Whether a word behind the header of a page can be read.
fn page_holds<F: Flash>(flash: &F, page: usize) -> bool
    requires { page < page_count (F.device flash.now).size }
    ensures yes { result ≡ true → (at : ℕ) × (number : ℕ) × (header_words ≤ at)
        × (word_at (F.device flash.now) page at ≡ Word.Held number) }
    ensures no { result ≡ false → (at number : ℕ) → header_words ≤ at
        → at < (F.device flash.now).size.words
        → word_at (F.device flash.now) page at ≢ Word.Held number }
{
    for at in HEADER_WORDS..flash.shape().words() {
        if let Word::Held(_) = flash.word(page, at) {
            return true;
        }
    }
    false
}

/// Makes the first store.
fn start_anew<F: Flash>(flash: &mut F) -> Result<Layout, OpenFault>
    requires on { IsOn (F.device flash.old) }
    requires startable { IsStartable (F.device flash.old) }
    ensures formatted { OnOk result (IsFormatted (F.device flash.old) (F.device flash.new)) }
    ensures layout { IfOk result (IsLayout (F.device flash.new)) }
    ensures fault { IfErr result (λ fault. fault ≡ OpenFault.Cut) }
    ensures cut { OnErr result (IsCutStart (F.device flash.old) (F.device flash.new)) }
{
    match write_format(flash) {
        Ok(layout) => Ok(layout),
        Err(Cut) => Err(OpenFault::Cut),
    }
}

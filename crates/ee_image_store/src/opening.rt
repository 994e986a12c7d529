//! Stores of images, and images of devices, as text.
ghost use Rattle.std.specs.Prelude.{IfOk, IfErr};
ghost use Rattle.ee_pages.specs.Layout.{IsScanFault};
ghost use Rattle.ee_core.specs.Openings.{IsFormatted, Opens};
ghost use Rattle.ee_image_store.specs.Opening.{IsNewStore, IsOpenFault, IsOpened, IsStoreLeft, SpellsDevice, StaysOn};

use ee_core::{OpenFault, Store, format, open};
use ee_flash::{Flash, MemFlash, Shape};
use ee_image::{read_image, write_image};
use ee_interface::ReplayFault;
use ee_pages::ScanFault;
use std::alloc::{AllocError, Allocator, Global};

/// What a command gives that changes an image.
///
/// Source: ours.
#[derive(Debug, Drop)]
pub struct ImageAndText<A: Allocator = Global> {
    /// The text of the image that is left.
    pub image: Vec<u8, A>,
    /// What there is to print.
    pub text: Vec<u8, A>,
}

/// The store of the image that a text spells, in memory.
///
/// Source: ours.
///
/// # Errors
///
/// The first that applies: the text spells no device, or the device is not legal. Memory can run
/// out in place of any answer.
pub fn open_image<A: Allocator + Copy>(
    alloc: A,
    image: &[u8],
) -> Result<Store<MemFlash<A>>, ReplayFault>
    ensures opened { IfOk result (IsOpened image.now) }
    ensures fault { IfErr result (IsOpenFault image.now) }
{
    let flash = read_image(alloc, image)?;
    match open_still(flash) {
        Ok(store) => Ok(store),
        Err(fault) => Err(ReplayFault::Open(fault)),
    }
}

/// Opens the store of a device whose power is never cut.
fn open_still<F: Flash + Drop>(flash: F) -> Result<Store<F>, ScanFault>
    requires { StaysOn (F.device flash) }
    ensures opened { IfOk result (Opens (F.device flash)) }
    ensures fault { IfErr result (IsScanFault (F.device flash)) }
{
    match open(flash) {
        Ok(store) => Ok(store),
        Err((_, OpenFault::Scan(fault))) => Err(fault),
        Err((_, OpenFault::Cut)) => unreachable!("power is never cut"),
    }
}

/// A store with nothing in it, on a new device in memory.
///
/// Source: ours.
///
/// # Errors
///
/// Memory can run out.
pub fn new_store<A: Allocator + Copy>(
    alloc: A,
    shape: Shape,
) -> Result<Store<MemFlash<A>>, AllocError>
    ensures { IfOk result (IsNewStore shape) }
{
    let flash = MemFlash::blank(alloc, shape)?;
    Ok(format_still(flash))
}

/// Formats a device whose power is never cut.
fn format_still<F: Flash + Drop>(flash: F) -> Store<F>
    requires { StaysOn (F.device flash) }
    ensures { IsFormatted (F.device flash) result }
{
    match format(flash) {
        Ok(store) => store,
        Err(_) => unreachable!("power is never cut"),
    }
}

/// The text of a device.
///
/// Source: ours.
///
/// # Errors
///
/// Memory can run out.
pub fn text_of<A: Allocator, F: Flash>(alloc: A, flash: &F) -> Result<Vec<u8, A>, AllocError>
    ensures { IfOk result (λ text. SpellsDevice text.items (F.device flash.now)) }
{
    let mut text = Vec::new(alloc);
    write_image(flash, &mut text)?;
    Ok(text)
}

/// Closes a store whose power stays on, and gives the text of the image that it leaves.
///
/// Source: ours.
///
/// # Errors
///
/// Memory can run out.
pub fn text_left<A: Allocator, F: Flash + Drop>(
    alloc: A,
    store: Store<F>,
) -> Result<Vec<u8, A>, AllocError>
    requires stays_on { StaysOn store }
    ensures left { IfOk result (λ text. IsStoreLeft store.size text.items store) }
{
    text_of(alloc, &store.into_flash())
}

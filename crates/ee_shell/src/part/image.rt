//! The devices that the commands work on.
ghost use Rattle.std.specs.Prelude.{IfErr, IfOk};
ghost use Rattle.ee_flash.specs.Memory.{device_of};
ghost use Rattle.ee_image_store.specs.Opening.{SpellsDevice};
ghost use Rattle.ee_image_store.specs.FileFaults.{IsReadingFault};
ghost use Rattle.ee_interface.specs.Causes.{NamesEach};

use ee_flash::MemFlash;
use ee_image::read_image;
use ee_interface::{Fault, File};
use std::alloc::Allocator;

/// The device that an image's text spells, legal or not.
pub(crate) fn read_part<A: Allocator + Copy>(alloc: A, image: &[u8]) -> Result<MemFlash<A>, Fault>
    ensures read { IfOk result (λ flash. SpellsDevice image.now (device_of flash)) }
    ensures fault { IfErr result (IsReadingFault image.now) }
    ensures names { NamesEach Fault.Memory (IsReadingFault image.now) result }
{
    match read_image(alloc, image) {
        Ok(flash) => Ok(flash),
        Err(fault) => Err(Fault::image(File::Image, fault)),
    }
}

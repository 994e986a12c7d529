//! The command that makes an image legal, whatever stands in it.
ghost use Rattle.std.specs.Prelude.{◌≡◌, ◌<◌, ◌++◌, Some, IfOk, IfErr, OnOk};
ghost use Rattle.ee_text.specs.Line.{line_of};
ghost use Rattle.ee_pages.specs.Rescue.{rescued_side};
ghost use Rattle.ee_pages.specs.RescuedSets.{IsRescuedSet};
ghost use Rattle.ee_core.specs.Rescues.{IsRescued};
ghost use Rattle.ee_commands.specs.Rescuing.{IsNotRescued, IsRescueFault, IsRescuedImage, bad_line, bad_lines, part_name, rescued_text};
ghost use Rattle.ee_image_store.specs.Opening.{StaysOn};
ghost use Rattle.ee_image_store.specs.Told.{each_below};
ghost use Rattle.ee_interface.specs.Causes.{NamesEach};

use ee_core::{RescueFault, Rescued, Store, rescue};
use ee_flash::{Flash, HEADER_WORDS};
use ee_image::read_image;
use ee_image_store::{ImageAndText, text_left};
use ee_interface::{Fault, File};
use ee_pages::{RescuedSet, first_page, is_bad_word, rescued_set};
use ee_text::push_number_behind;
use std::alloc::{AllocError, Allocator};

/// Makes a store of the image that a text spells, whatever stands in it, as `ee_core::rescue` does.
/// Gives the text of the image that this leaves, and what there is to print: a line for each bad
/// word of the set that was rescued, by page and place, `bad PAGE AT` and `header` or `slot`; then
/// `rescued live N bad B`, N how many addresses have a value and B how many words were bad.
///
/// Source: ours.
///
/// # Errors
///
/// The image is no device's; no set of it is begun; or the set that would be rescued names the
/// greatest generation. `Memory` can come in place of any answer.
pub fn rescue_image<A: Allocator + Copy>(alloc: A, image: &[u8]) -> Result<ImageAndText<A>, Fault>
    ensures rescued { IfOk result
        (λ given. IsRescuedImage image.now given.image.items given.text.items) }
    ensures fault { IfErr result (IsRescueFault image.now) }
    // No cause is passed over.
    ensures names { NamesEach Fault.Memory (IsRescueFault image.now) result }
{
    let flash = match read_image(alloc, image) {
        Ok(flash) => flash,
        Err(fault) => return Err(Fault::image(File::Image, fault)),
    };
    let mut text = Vec::new(alloc);
    push_bad(&flash, &mut text)?;
    let (store, rescued) = rescue_still(flash)?;
    push_rescued(&mut text, rescued)?;
    let image = text_left(alloc, store)?;
    Ok(ImageAndText { image, text })
}

/// Rescues a device whose power is never cut.
fn rescue_still<F: Flash + Drop>(flash: F) -> Result<(Store<F>, Rescued), Fault>
    requires { StaysOn (F.device flash) }
    ensures rescued { IfOk result (λ made. IsRescued (F.device flash) made.1 made.0) }
    ensures fault { IfErr result (IsNotRescued (F.device flash)) }
{
    match rescue(flash) {
        Ok(made) => Ok(made),
        Err((_, RescueFault::NothingBegun)) => Err(Fault::NothingToRescue),
        Err((_, RescueFault::Spent)) => Err(Fault::Spent),
        Err((_, RescueFault::Cut)) => unreachable!("power is never cut"),
    }
}

/// Writes the lines of the bad words of the set that is rescued. After an error there
/// may be a part of them.
fn push_bad<F: Flash, A: Allocator>(flash: &F, out: &mut Vec<u8, A>) -> Result<(), AllocError>
    ensures { let device = F.device flash.now in OnOk result
        (out.new.items ≡ out.old.items ++ bad_lines device (rescued_side device)) }
{
    match rescued_set(flash) {
        Some(set) => push_bad_in_set(flash, &set, out),
        None => Ok(()),
    }
}

/// Writes the lines of the bad words of the set. After an error there may be a part of them.
fn push_bad_in_set<F: Flash, A: Allocator>(
    flash: &F,
    set: &RescuedSet,
    out: &mut Vec<u8, A>,
) -> Result<(), AllocError>
    requires { IsRescuedSet (F.device flash.now) set.now }
    ensures { OnOk result
        (out.new.items ≡ out.old.items ++ bad_lines (F.device flash.now) (Some set.now.side)) }
{
    'pages: for page in 0..flash.shape().pages() {
        push_bad_in_page(flash, set, page, out)?;
    }
    Ok(())
}

/// Writes the lines of the bad words of a page of the set. After an error there may be a part of
/// them.
fn push_bad_in_page<F: Flash, A: Allocator>(
    flash: &F,
    set: &RescuedSet,
    page: usize,
    out: &mut Vec<u8, A>,
) -> Result<(), AllocError>
    requires set { IsRescuedSet (F.device flash.now) set.now }
    requires page_in_range { page < (F.device flash.now).size.pages }
    ensures { let device = F.device flash.now in OnOk result (out.new.items
        ≡ out.old.items ++ each_below device.size.words (bad_line device set.now.side page)) }
{
    'places: for at in 0..flash.shape().words() {
        push_if_bad(flash, set, page, at, out)?;
    }
    Ok(())
}

/// Writes the line of a word of the set, if it is bad. After an error there may be a part of it.
fn push_if_bad<F: Flash, A: Allocator>(
    flash: &F,
    set: &RescuedSet,
    page: usize,
    at: usize,
    out: &mut Vec<u8, A>,
) -> Result<(), AllocError>
    requires set { IsRescuedSet (F.device flash.now) set.now }
    requires page_in_range { page < (F.device flash.now).size.pages }
    requires place_in_range { at < (F.device flash.now).size.words }
    ensures { OnOk result (out.new.items
        ≡ out.old.items ++ bad_line (F.device flash.now) set.now.side page at) }
{
    if !is_bad_word(flash, set, page, at) {
        return Ok(());
    }
    let number = first_page(flash, set.side) + page;
    push_number_behind(out, b"bad ", number as u64)?;
    push_number_behind(out, b" ", at as u64)?;
    out.extend_from_slice(b" ")?;
    out.extend_from_slice(name_of_part(at))?;
    out.extend_from_slice(b"\n")
}

/// What a word is to its page.
fn name_of_part(at: usize) -> &'static [u8]
    ensures { result.now ≡ part_name at }
{
    if at < HEADER_WORDS {
        b"header"
    } else {
        b"slot"
    }
}

/// Writes how many addresses have a value, and how many words were bad. After an error there may be
/// a part of the line.
fn push_rescued<A: Allocator>(out: &mut Vec<u8, A>, rescued: Rescued) -> Result<(), AllocError>
    ensures { OnOk result (out.new.items ≡ out.old.items ++ line_of (rescued_text rescued)) }
{
    push_number_behind(out, b"rescued live ", rescued.live as u64)?;
    push_number_behind(out, b" bad ", rescued.bad_words as u64)?;
    out.extend_from_slice(b"\n")
}

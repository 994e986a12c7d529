//! The document of `states`.
ghost use Rattle.std.specs.Prelude.{◌≡◌, ◌++◌, ◌∷◌, IfErr, IfOk, OnOk};
ghost use Rattle.ee_image_store.specs.FileFaults.{IsReadingFault};
ghost use Rattle.ee_commands.specs.Documents.{IsStatesDocument};
ghost use Rattle.ee_commands.specs.Json.{item, state_items, state_object, states_document};
ghost use Rattle.ee_interface.specs.Causes.{NamesEach};

use super::writing::push_array;
use crate::images::name_of;
use ee_flash::Flash;
use ee_image::read_image;
use ee_interface::{Fault, File};
use ee_pages::{State, state_of};
use ee_text::push_number_behind;
use std::alloc::{AllocError, Allocator};

/// The state of each page of the image that a text spells, as a document: `{"pages":[..]}`, with
/// `{"page":I,"state":"STATE"}` for each page by rising page. The image may be one that no store
/// can work on.
///
/// Source: ours.
///
/// # Errors
///
/// The image is no device's; `Memory` can come in place of any answer.
pub fn states_json<A: Allocator + Copy>(alloc: A, image: &[u8]) -> Result<Vec<u8, A>, Fault>
    ensures states { IfOk result (λ text. IsStatesDocument image.now text.items) }
    ensures fault { IfErr result (IsReadingFault image.now) }
    // No cause is passed over.
    ensures names { NamesEach Fault.Memory (IsReadingFault image.now) result }
{
    let flash = match read_image(alloc, image) {
        Ok(flash) => flash,
        Err(fault) => return Err(Fault::image(File::Image, fault)),
    };
    Ok(document_of(alloc, &flash)?)
}

/// The document of a device.
fn document_of<A: Allocator + Copy, F: Flash>(alloc: A, flash: &F) -> Result<Vec<u8, A>, AllocError>
    ensures { IfOk result (λ text. text.items ≡ states_document (F.device flash.now).image) }
{
    let mut pages = Vec::new(alloc);
    push_states(flash, &mut pages)?;
    let mut text = Vec::new(alloc);
    text.extend_from_slice(b"{\"pages\":")?;
    push_array(&mut text, &pages)?;
    text.extend_from_slice(b"}\n")?;
    Ok(text)
}

/// Writes the objects of the pages' states, each behind a comma. After an error there may be a part
/// of them.
fn push_states<F: Flash, A: Allocator>(flash: &F, out: &mut Vec<u8, A>) -> Result<(), AllocError>
    ensures { OnOk result (out.new.items
        ≡ out.old.items ++ state_items 0 (F.device flash.now).image) }
{
    'pages: for page in 0..2 * flash.shape().pages() {
        push_state(out, page, state_of(flash, page))?;
    }
    Ok(())
}

/// Writes the object of a page's state behind a comma. After an error there may be a part of it.
fn push_state<A: Allocator>(
    out: &mut Vec<u8, A>,
    page: usize,
    state: State,
) -> Result<(), AllocError>
    ensures { OnOk result (out.new.items ≡ out.old.items ++ item (state_object page state)) }
{
    push_number_behind(out, b",{\"page\":", page as u64)?;
    out.extend_from_slice(b",\"state\":\"")?;
    out.extend_from_slice(name_of(state))?;
    out.extend_from_slice(b"\"}")
}

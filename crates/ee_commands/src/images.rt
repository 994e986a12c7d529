//! The commands without a script.
ghost use Rattle.std.specs.Prelude.{◌≡◌, ◌<◌, ◌-◌, ◌++◌, IfOk, IfErr, Ok, OnOk, replicate, true};
ghost use Rattle.ee_text.specs.Line.{line_of};
ghost use Rattle.ee_core.specs.Calls.{Cleans, ErasesLowest};
ghost use Rattle.ee_core.specs.Runs.{Cleaned, IsWholeRun};
ghost use Rattle.ee_core.specs.State.{Wears, pending_pages, state_of, with_pending};
ghost use Rattle.ee_image_store.specs.FileFaults.{IsReadingFault, IsOpeningFault};
ghost use Rattle.ee_commands.specs.Images.{AreStates, IsCleaned, IsFormattedText, cleaned_text, state_lines, state_name, state_text};
ghost use Rattle.ee_image_store.specs.Opening.{StaysOn};
ghost use Rattle.ee_interface.specs.Causes.{NamesEach};

use ee_core::Variables;
use ee_flash::{Flash, Shape};
use ee_image::read_image;
use ee_image_store::{ImageAndText, new_store, open_image, text_left};
use ee_interface::{Fault, File};
use ee_pages::{State, state_of as state_of_page};
use ee_text::push_number;
use std::alloc::{AllocError, Allocator};

/// The text of the image of a new device of this shape, formatted.
///
/// Source: ours.
///
/// # Errors
///
/// `Memory`.
pub fn format_image<A: Allocator + Copy>(alloc: A, shape: Shape) -> Result<Vec<u8, A>, Fault>
    ensures formatted { IfOk result (λ image. IsFormattedText shape image.items) }
    ensures fault { IfErr result (λ fault. fault ≡ Fault.Memory) }
{
    let store = new_store(alloc, shape)?;
    Ok(text_left(alloc, store)?)
}

/// Erases each page that waits for it in the image that a text spells, and gives the text of the
/// image that this leaves, and what there is to print: `cleaned N`, N the number of pages erased.
/// The wear of each of them is one more, up to `u64::MAX`, and no other page wears.
///
/// Source: ours.
///
/// # Errors
///
/// The image is no device's, or not legal; `Memory` can come in place of any answer.
pub fn clean_image<A: Allocator + Copy>(alloc: A, image: &[u8]) -> Result<ImageAndText<A>, Fault>
    ensures cleaned { IfOk result
        (λ given. IsCleaned image.now given.image.items given.text.items) }
    ensures fault { IfErr result (IsOpeningFault image.now) }
    // No cause is passed over.
    ensures names { NamesEach Fault.Memory (IsOpeningFault image.now) result }
{
    let mut store = open_image(alloc, image)?;
    let erased = clean_all(&mut store);
    let image = text_left(alloc, store)?;
    let mut text = Vec::new(alloc);
    push_cleaned(&mut text, erased)?;
    Ok(ImageAndText { image, text })
}

/// The state of each page of the image that a text spells, a line for each page by rising page:
/// `page I STATE`, with `ERASED`, `RECEIVE`, `ACTIVE`, `VALID` or `ERASING`. The image may be one
/// that no store can work on.
///
/// Source: ours.
///
/// # Errors
///
/// The image is no device's; `Memory` can come in place of any answer.
pub fn states_text<A: Allocator + Copy>(alloc: A, image: &[u8]) -> Result<Vec<u8, A>, Fault>
    ensures states { IfOk result (λ text. AreStates image.now text.items) }
    ensures fault { IfErr result (IsReadingFault image.now) }
    // No cause is passed over.
    ensures names { NamesEach Fault.Memory (IsReadingFault image.now) result }
{
    let flash = match read_image(alloc, image) {
        Ok(flash) => flash,
        Err(fault) => return Err(Fault::image(File::Image, fault)),
    };
    let mut text = Vec::new(alloc);
    push_states(&flash, &mut text)?;
    Ok(text)
}

/// Erases each page that waits for it, and gives their number.
#[tactic(auto, using(crate::proofs::Fronts::front_none, crate::proofs::Fronts::front_more, crate::proofs::Fronts::front_all, crate::proofs::Cleaning::cleans_none, crate::proofs::Cleaning::cleans_more))]
fn clean_all<V: Variables>(store: &mut V) -> usize
    requires { StaysOn (V.device store.old) }
    ensures count { result ≡ (state_of (V.device store.old)).pending }
    ensures stays_on { StaysOn (V.device store.new) }
    ensures same_size { (V.device store.new).size ≡ (V.device store.old).size }
    ensures cleans { IsWholeRun (replicate result (Cleaned (Ok true)))
        (V.device store.old) (V.device store.new) }
    ensures state { state_of (V.device store.new)
        ≡ with_pending 0 (state_of (V.device store.old)) }
    ensures wear { let old = V.device store.old in Wears (pending_pages old) old (V.device store.new) }
{
    let waiting = store.pending();
    let mut erased = 0;
    'cleaning: while erased < waiting {
        clean_one(store);
        erased += 1;
    }
    erased
}

/// Erases a page that waits for it; there is one.
fn clean_one<V: Variables>(store: &mut V)
    requires stays_on { StaysOn (V.device store.old) }
    requires some { 0 < (state_of (V.device store.old)).pending }
    ensures stays_on { StaysOn (V.device store.new) }
    ensures same_size { (V.device store.new).size ≡ (V.device store.old).size }
    ensures state { let old = state_of (V.device store.old) in
        state_of (V.device store.new) ≡ with_pending (old.pending - 1) old }
    ensures lowest { ErasesLowest (V.device store.old) (V.device store.new) }
    ensures cleans { Cleans (V.device store.old) (Ok true) (V.device store.new) }
{
    match store.clean_step() {
        Ok(true) => {}
        Ok(false) => unreachable!("a page waits"),
        Err(_) => unreachable!("power stays on, and a clean step takes no memory"),
    }
}

/// Writes how many pages were erased. After an error there may be a part of the line.
fn push_cleaned<A: Allocator>(out: &mut Vec<u8, A>, pages: usize) -> Result<(), AllocError>
    ensures { OnOk result (out.new.items ≡ out.old.items ++ cleaned_text pages) }
{
    out.extend_from_slice(b"cleaned ")?;
    push_number(out, pages as u64)?;
    out.extend_from_slice(b"\n")
}

/// Writes the lines of the pages' states. After an error there may be a part of them.
fn push_states<F: Flash, A: Allocator>(flash: &F, out: &mut Vec<u8, A>) -> Result<(), AllocError>
    ensures { OnOk result
        (out.new.items ≡ out.old.items ++ state_lines 0 (F.device flash.now).image) }
{
    'pages: for page in 0..2 * flash.shape().pages() {
        push_state(out, page, state_of_page(flash, page))?;
    }
    Ok(())
}

/// Writes the line of a page's state. After an error there may be a part of it.
fn push_state<A: Allocator>(
    out: &mut Vec<u8, A>,
    page: usize,
    state: State,
) -> Result<(), AllocError>
    ensures { OnOk result (out.new.items ≡ out.old.items ++ line_of (state_text page state)) }
{
    out.extend_from_slice(b"page ")?;
    push_number(out, page as u64)?;
    out.extend_from_slice(b" ")?;
    out.extend_from_slice(name_of(state))?;
    out.extend_from_slice(b"\n")
}

/// The name of a page's state.
pub(crate) fn name_of(state: State) -> &'static [u8]
    ensures { result.now ≡ state_name state }
{
    match state {
        State::Erased => b"ERASED",
        State::Receive => b"RECEIVE",
        State::Active => b"ACTIVE",
        State::Valid => b"VALID",
        State::Erasing => b"ERASING",
    }
}

//! The words of the pages of X-CUBE-EEPROM.
ghost use Rattle.std.specs.Prelude.{◌≡◌, ◌<◌, ◌≤◌, ◌+◌, ◌++◌, IfOk, OnOk};
ghost use Rattle.std.specs.Bool.{OnFalse, OnTrue};
ghost use Rattle.ee_flash.specs.Size.{page_count};
ghost use Rattle.ee_image_store.specs.Told.{each_below};
ghost use Rattle.ee_shell.specs.Xcube.Pages.{IsUnused, any_erasing, was_left, is_in, is_state_word, slot_number, held_number, elements_in, numbers_of, page_numbers};

use ee_codec::{MarkRead, read_mark};
use ee_flash::{Flash, HEADER_WORDS, Word};
use ee_pages::State;
use std::alloc::{AllocError, Allocator};

/// Whether a page is used.
pub(super) fn has_used_page<F: Flash>(flash: &F) -> bool
    ensures used { OnTrue result (¬ IsUnused (F.device flash.now)) }
    ensures unused { OnFalse result (IsUnused (F.device flash.now)) }
{
    for page in 0..2 * flash.shape().pages() {
        if !is_in(State::Erased, flash, page) {
            return true;
        }
    }
    false
}

/// What the pages hold, the oldest first.
pub(super) fn numbers_of<F: Flash, A: Allocator>(
    alloc: A,
    flash: &F,
) -> Result<Vec<u64, A>, AllocError>
    ensures { IfOk result (λ numbers. numbers.items ≡ numbers_of (F.device flash.now)) }
{
    let mut numbers = Vec::new(alloc);
    push_pages(State::Erasing, flash, &mut numbers)?;
    push_pages(State::Valid, flash, &mut numbers)?;
    push_pages(State::Active, flash, &mut numbers)?;
    push_pages(State::Receive, flash, &mut numbers)?;
    Ok(numbers)
}

/// Writes what the pages in this state hold. After an error there may be a part of it.
fn push_pages<F: Flash, A: Allocator>(
    state: State,
    flash: &F,
    out: &mut Vec<u64, A>,
) -> Result<(), AllocError>
    ensures { OnOk result
        (out.new.items ≡ out.old.items ++ elements_in (F.device flash.now) state) }
{
    'pages: for page in 0..2 * flash.shape().pages() {
        push_page(state, flash, page, out)?;
    }
    Ok(())
}

/// Writes what a page holds, if it is in this state. After an error there may be a part of it.
fn push_page<F: Flash, A: Allocator>(
    state: State,
    flash: &F,
    page: usize,
    out: &mut Vec<u64, A>,
) -> Result<(), AllocError>
    requires { page < page_count (F.device flash.now).size }
    ensures { OnOk result
        (out.new.items ≡ out.old.items ++ page_numbers (F.device flash.now) state page) }
{
    if is_in(state, flash, page) {
        push_slots(flash, page, out)
    } else {
        Ok(())
    }
}

/// Writes what the slots of a page hold. After an error there may be a part of it.
fn push_slots<F: Flash, A: Allocator>(
    flash: &F,
    page: usize,
    out: &mut Vec<u64, A>,
) -> Result<(), AllocError>
    requires { page < page_count (F.device flash.now).size }
    ensures { let device = F.device flash.now in OnOk result
        (out.new.items ≡ out.old.items ++ each_below device.size.words (slot_number device page)) }
{
    'places: for at in 0..flash.shape().words() {
        push_place(flash, page, at, out)?;
    }
    Ok(())
}

/// Writes what a place of a page holds, if it is a slot. After an error there may be a part of it.
fn push_place<F: Flash, A: Allocator>(
    flash: &F,
    page: usize,
    at: usize,
    out: &mut Vec<u64, A>,
) -> Result<(), AllocError>
    requires page_in_range { page < page_count (F.device flash.now).size }
    requires place_in_range { at < (F.device flash.now).size.words }
    ensures { OnOk result
        (out.new.items ≡ out.old.items ++ slot_number (F.device flash.now) page at) }
{
    if at < HEADER_WORDS {
        return Ok(());
    }
    push_number(flash.word(page, at), out)
}

/// Writes what a word holds, if it holds something.
fn push_number<A: Allocator>(word: Word, out: &mut Vec<u64, A>) -> Result<(), AllocError>
    ensures { OnOk result (out.new.items ≡ out.old.items ++ held_number word) }
{
    match word {
        Word::Held(number) => out.extend_from_slice(&[number]),
        Word::Erased | Word::Torn => Ok(()),
    }
}

/// Whether a page is in this state: that of ERASING if its set was left, else that which the last of
/// its state words that holds the mark names.
fn is_in<F: Flash>(state: State, flash: &F, page: usize) -> bool
    requires { page < page_count (F.device flash.now).size }
    ensures { result ≡ is_in state (F.device flash.now) page }
{
    let receive = is_state_word(flash, page, 0);
    let active = is_state_word(flash, page, 1);
    let valid = is_state_word(flash, page, 2);
    let erasing = was_left(flash, page);
    match state {
        State::Erasing => erasing,
        State::Valid => valid && !erasing,
        State::Active => active && !valid && !erasing,
        State::Receive => receive && !active && !valid && !erasing,
        State::Erased => !receive && !active && !valid && !erasing,
    }
}

/// Whether a page of this one's set has the word of ERASING.
fn was_left<F: Flash>(flash: &F, page: usize) -> bool
    requires { page < page_count (F.device flash.now).size }
    ensures { result ≡ was_left (F.device flash.now) page }
{
    let pages = flash.shape().pages();
    any_erasing(flash, if page < pages { 0 } else { pages })
}

/// Whether a page of the set with this first page has it.
fn any_erasing<F: Flash>(flash: &F, first: usize) -> bool
    requires { let size = (F.device flash.now).size in first + size.pages ≤ page_count size }
    ensures { let device = F.device flash.now in result ≡ any_erasing device first device.size.pages }
{
    let mut found = false;
    'pages: for index in 0..flash.shape().pages() {
        found = found || is_state_word(flash, first + index, 3);
    }
    found
}

/// Whether a word of a page's header holds the mark.
fn is_state_word<F: Flash>(flash: &F, page: usize, place: usize) -> bool
    requires page_in_range { page < page_count (F.device flash.now).size }
    requires place_in_range { place < 4 }
    ensures { result ≡ is_state_word (F.device flash.now) page place }
{
    matches!(read_mark(flash.word(page, place)), MarkRead::Present)
}

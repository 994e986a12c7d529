//! Writing a dump.
ghost use Rattle.std.specs.Prelude.{◌≡◌, ◌<◌, ◌++◌, IfErr, IfNone, IfOk, IfSome, OnOk};
ghost use Rattle.std.specs.List.{flat_map};
ghost use Rattle.ee_flash.specs.Device.{page_at};
ghost use Rattle.ee_flash.specs.Size.{page_count};
ghost use Rattle.ee_shell.specs.Dumps.Dump.{IsCodable, IsDump, IsWholePage, word_bytes};
ghost use Rattle.ee_shell.specs.Dumps.Fault.{HasUncoded, IsWriteFault};
ghost use Rattle.ee_shell.specs.Dumps.Writing.{IsTornPageFault};
ghost use Rattle.ee_interface.specs.Causes.{NamesEach};

use crate::dumps::word::push_word;
use crate::dumps::{Form, WriteFault, first_uncoded};
use ee_flash::{Flash, Word};
use std::alloc::Allocator;

/// The dump of a device.
///
/// # Errors
///
/// The first that applies: `TornWord`, the first torn word; `Uncoded`, of coded words the first
/// number that has none. `Memory` can come in place of any answer.
///
/// Source: ours.
pub fn write_dump<F: Flash, A: Allocator>(
    alloc: A,
    form: Form,
    flash: &F,
) -> Result<Vec<u8, A>, WriteFault>
    ensures written { IfOk result (λ dump. IsDump form (F.device flash.now) dump.items) }
    ensures fault { IfErr result (IsWriteFault form (F.device flash.now)) }
    // No cause is passed over.
    ensures names { NamesEach WriteFault.Memory (IsWriteFault form (F.device flash.now)) result }
{
    let shape = flash.shape();
    let mut dump = Vec::with_capacity(alloc, form.dump_length(shape))?;
    for page in 0..2 * shape.pages() {
        push_page(form, flash, page, &mut dump)?;
    }
    match first_without_code(form, flash) {
        Some((page, at)) => Err(WriteFault::Uncoded { page, at }),
        None => Ok(dump),
    }
}

/// Of coded words the first number that has none.
fn first_without_code<F: Flash>(form: Form, flash: &F) -> Option<(usize, usize)>
    ensures found { IfSome result (λ place. HasUncoded form (F.device flash.now) place.0 place.1) }
    ensures none { IfNone result (IsCodable form (F.device flash.now)) }
{
    match form {
        Form::Coded => first_uncoded(flash),
        Form::Words | Form::Pairs => None,
    }
}

/// Writes the words of a page. After an error there may be a part of them.
fn push_page<F: Flash, A: Allocator>(
    form: Form,
    flash: &F,
    page: usize,
    out: &mut Vec<u8, A>,
) -> Result<(), WriteFault>
    requires { page < page_count (F.device flash.now).size }
    ensures whole { OnOk result (IsWholePage (F.device flash.now) page) }
    ensures written { OnOk result (out.new.items
        ≡ out.old.items ++ flat_map (word_bytes form (F.device flash.now).size)
        (page_at (F.device flash.now) page)) }
    ensures fault { IfErr result (IsTornPageFault (F.device flash.now) page) }
{
    let shape = flash.shape();
    for at in 0..shape.words() {
        match flash.word(page, at) {
            Word::Torn => return Err(WriteFault::TornWord { page, at }),
            word => push_word(form, shape, word, out)?,
        }
    }
    Ok(())
}

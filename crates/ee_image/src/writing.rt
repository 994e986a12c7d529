//! Writing the text of an image.
ghost use Rattle.std.specs.Prelude.{◌≡◌, ◌++◌, ◌<◌, OnOk, OnErr};
ghost use Rattle.ee_text.specs.Line.{line_of, IsLonger};
ghost use Rattle.ee_flash.specs.Size.{page_count};
ghost use Rattle.ee_flash.specs.Device.{page_at, wear_at};
ghost use Rattle.ee_image.specs.Text.{size_text, page_text, image_text};

use crate::word::push_word;
use ee_flash::{Flash, Shape};
use ee_text::push_number;
use std::alloc::{AllocError, Allocator};

/// Writes the text of a device at the end.
///
/// # Errors
///
/// `AllocError`: memory was refused, and `out` is as it was.
///
/// Source: ours.
pub fn write_image<F: Flash, A: Allocator>(
    flash: &F,
    out: &mut Vec<u8, A>,
) -> Result<(), AllocError>
    ensures ok { OnOk result (out.new.items ≡ out.old.items ++ image_text (F.device flash.now)) }
    ensures err { OnErr result (out.new.items ≡ out.old.items) }
{
    let before = out.len();
    let written = push_lines(flash, out);
    if written.is_err() {
        out.truncate(before);
    }
    written
}

/// Writes the lines. After an error there may be a part of them.
fn push_lines<F: Flash, A: Allocator>(flash: &F, out: &mut Vec<u8, A>) -> Result<(), AllocError>
    ensures ok { OnOk result (out.new.items ≡ out.old.items ++ image_text (F.device flash.now)) }
    ensures err { OnErr result (IsLonger out.old.items out.new.items) }
{
    let shape = flash.shape();
    push_first_line(shape, out)?;
    for page in 0..2 * shape.pages() {
        push_page(flash, page, out)?;
    }
    Ok(())
}

/// Writes the first line. After an error there may be a part of it.
fn push_first_line<A: Allocator>(shape: Shape, out: &mut Vec<u8, A>) -> Result<(), AllocError>
    ensures ok { OnOk result (out.new.items ≡ out.old.items ++ line_of (size_text shape)) }
    ensures err { OnErr result (IsLonger out.old.items out.new.items) }
{
    out.extend_from_slice(b"ee ")?;
    push_number(out, shape.pages() as u64)?;
    out.extend_from_slice(b" ")?;
    push_number(out, shape.words() as u64)?;
    out.extend_from_slice(b"\n")
}

/// Writes a page's line. After an error there may be a part of it.
fn push_page<F: Flash, A: Allocator>(
    flash: &F,
    page: usize,
    out: &mut Vec<u8, A>,
) -> Result<(), AllocError>
    requires { page < page_count (F.device flash.now).size }
    ensures ok { let device = F.device flash.now in
        OnOk result (out.new.items
        ≡ out.old.items ++ line_of (page_text (wear_at device page) (page_at device page))) }
    ensures err { OnErr result (IsLonger out.old.items out.new.items) }
{
    push_number(out, flash.wear(page))?;
    for at in 0..flash.shape().words() {
        out.extend_from_slice(b" ")?;
        push_word(out, flash.word(page, at))?;
    }
    out.extend_from_slice(b"\n")?;
    Ok(())
}

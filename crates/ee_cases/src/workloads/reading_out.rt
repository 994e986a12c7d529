//! Images to a part's bytes and back.
use super::part::Part;
use ee_shell::{
    Form, export_hex, export_image, import_hex, import_image, inspect_text, states_text, wear_text,
};

/// The address of the parts' first byte.
const BASE: u32 = 0x08040000;

/// A part in use is read out, looked at, and put into a further one.
pub fn parts(part: &mut Part) {
    part.write(1000, 0, 2, 30);
    part.answer(false);
    through_hex(part);
    through_bytes(part);
}

/// Exports an image as Intel HEX, and takes what an import makes of that.
fn through_hex(part: &mut Part) {
    let hex = export_hex(part.alloc, false, Form::Words, part.image.as_slice(), BASE);
    part.take_text(hex);
    let hex = part.told.as_slice();
    let further = import_hex(part.alloc, part.shape, Form::Words, BASE, hex);
    let inside = inspect_text(part.alloc, part.image.as_slice());
    part.take_text(inside);
    part.put(further);
}

/// Exports an image as a part's bytes, and takes what an import makes of them.
fn through_bytes(part: &mut Part) {
    let dump = export_image(part.alloc, Form::Words, part.image.as_slice());
    part.take_text(dump);
    let dump = part.told.as_slice();
    let further = import_image(part.alloc, part.shape, Form::Words, dump);
    look(part);
    part.put(further);
}

/// Looks at the states of a part's pages, and at their wear.
fn look(part: &mut Part) {
    let states = states_text(part.alloc, part.image.as_slice());
    part.take_text(states);
    let wear = wear_text(part.alloc, part.image.as_slice(), None);
    part.take_text(wear);
}

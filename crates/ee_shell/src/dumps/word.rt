//! A word as bytes.
ghost use Rattle.std.specs.Prelude.{◌≡◌, ◌≢◌, ◌++◌, OnOk};
ghost use Rattle.ee_flash.specs.Device.{IsBelowAllOnes};
ghost use Rattle.ee_shell.specs.Dumps.Dump.{plain_bytes, word_bytes};
ghost use Rattle.ee_shell.specs.Dumps.Writing.{number_bytes};

use crate::dumps::Form;
use ee_flash::{Shape, Word};
use ee_nor::coded::coded_number;
use ee_nor::complement_of;
use std::alloc::{AllocError, Allocator};

/// The word of these bytes.
pub(crate) fn word_of(bytes: [u8; 8]) -> Word
    ensures spelled { plain_bytes result ≡ bytes }
    ensures whole { result ≢ Word.Torn }
    ensures below_all_ones { IsBelowAllOnes result }
{
    match u64::from_le_bytes(bytes) {
        u64::MAX => Word::Erased,
        value => Word::Held(value),
    }
}

/// Writes the bytes of a word of a device of this shape, none for a torn one. After an error there
/// may be a part of them.
pub(crate) fn push_word<A: Allocator>(
    form: Form,
    shape: Shape,
    word: Word,
    out: &mut Vec<u8, A>,
) -> Result<(), AllocError>
    ensures { OnOk result (out.new.items ≡ out.old.items ++ word_bytes form shape word) }
{
    match word {
        Word::Erased => push_number(form, u64::MAX, u64::MAX, out),
        Word::Held(value) => match form {
            Form::Coded => push_number(form, coded_number(shape, value), 0, out),
            Form::Words | Form::Pairs => push_number(form, value, complement_of(value), out),
        },
        Word::Torn => Ok(()),
    }
}

/// Writes the bytes of a number, and of pairs those of the one beside it. After an error there
/// may be a part of them.
fn push_number<A: Allocator>(
    form: Form,
    number: u64,
    check: u64,
    out: &mut Vec<u8, A>,
) -> Result<(), AllocError>
    ensures { OnOk result (out.new.items ≡ out.old.items ++ number_bytes form number check) }
{
    out.extend_from_slice(&number.to_le_bytes())?;
    match form {
        Form::Words | Form::Coded => Ok(()),
        Form::Pairs => out.extend_from_slice(&check.to_le_bytes()),
    }
}

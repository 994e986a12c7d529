//! Reading a dump.
ghost use Rattle.std.specs.Prelude.{◌≡◌, ◌≢◌, ◌⊎◌, ◌*◌, ℕ, Err, IfErr, IfOk, MatchResult, length};
ghost use Rattle.ee_flash.specs.Memory.{device_of, memory_of, unused_memory};
ghost use Rattle.ee_shell.specs.Dumps.Dump.{IsImport};
ghost use Rattle.ee_interface.specs.CommandLine.Form.{dump_length};
ghost use Rattle.ee_shell.specs.Dumps.Fault.{HasLowPair, IsDumpFault};
ghost use Rattle.ee_shell.specs.Dumps.Reading.{AreCells, AreWords};

use crate::dumps::word::word_of;
use crate::dumps::{DumpFault, Form};
use ee_flash::{Cells, MemFlash, Shape};
use ee_nor::coded::word_of_reading;
use ee_nor::is_low;
use std::alloc::{AllocError, Allocator};

/// The device whose words a dump has. But for them it is one that was never used: it is on, with no
/// wear, no cuts, no steps and no fuse.
///
/// # Errors
///
/// `Length`, where the dump has not as many bytes as the words of both sets; else `LowPair`,
/// of pairs the first that sums to less than `u64::MAX`. `Memory` can come in place of any
/// answer but `Length`.
///
/// Source: ours.
pub fn read_dump<A: Allocator + Copy>(
    alloc: A,
    shape: Shape,
    form: Form,
    dump: &[u8],
) -> Result<MemFlash<A>, DumpFault>
    ensures read { IfOk result (λ flash. IsImport form shape dump.now (device_of flash)) }
    ensures unused { IfOk result (λ flash. memory_of flash ≡ unused_memory (device_of flash)) }
    ensures fault { IfErr result (IsDumpFault form shape dump.now) }
    // A dump of another length is never passed over.
    ensures names { length dump.now ≢ dump_length form shape → result ≡ Err DumpFault.Length }
    // Nor is a pair that sums to less than all ones.
    ensures names_low { (page at : ℕ) → HasLowPair form shape dump.now page at
        → MatchResult result
        (λ _. ⊥)
        (λ fault. (fault ≡ DumpFault.LowPair page at) ⊎ (fault ≡ DumpFault.Memory)) }
{
    if dump.len() != form.dump_length(shape) {
        return Err(DumpFault::Length);
    }
    let cells = read_cells(alloc, shape, form, dump)?;
    let wear = vec![in alloc; 0; 2 * shape.pages()]?;
    match MemFlash::of_cells(shape, cells, wear) {
        Ok(flash) => Ok(flash),
        Err(_) => unreachable!("the words are those of both sets"),
    }
}

/// The words that a dump of the right length spells.
fn read_cells<A: Allocator + Copy>(
    alloc: A,
    shape: Shape,
    form: Form,
    dump: &[u8],
) -> Result<Cells<A>, DumpFault>
    requires { length dump.now ≡ dump_length form shape }
    ensures read { IfOk result (λ cells. AreCells form shape dump.now cells) }
    ensures fault { IfErr result (IsDumpFault form shape dump.now) }
    ensures names { (page at : ℕ) → HasLowPair form shape dump.now page at
        → MatchResult result
        (λ _. ⊥)
        (λ fault. (fault ≡ DumpFault.LowPair page at) ⊎ (fault ≡ DumpFault.Memory)) }
{
    match form {
        Form::Words => Ok(read_words(alloc, dump)?),
        Form::Pairs => read_pairs(alloc, shape, dump),
        Form::Coded => Ok(read_codes(alloc, shape, dump)?),
    }
}

/// The words that the bytes spell, eight for each.
fn read_words<A: Allocator + Copy>(alloc: A, dump: &[u8]) -> Result<Cells<A>, AllocError>
    ensures { IfOk result (λ cells. AreWords dump.now cells) }
{
    let (words, _) = dump.as_chunks::<8>();
    let mut cells = Cells::with_capacity(alloc, words.len())?;
    for bytes in words {
        cells.push(word_of(*bytes))?;
    }
    Ok(cells)
}

/// The words that the bytes spell on a part of this shape, a coded number for each.
fn read_codes<A: Allocator + Copy>(
    alloc: A,
    shape: Shape,
    dump: &[u8],
) -> Result<Cells<A>, AllocError>
    requires { length dump.now ≡ dump_length Form.Coded shape }
    ensures { IfOk result (λ cells. AreCells Form.Coded shape dump.now cells) }
{
    let (numbers, _) = dump.as_chunks::<8>();
    let mut cells = Cells::with_capacity(alloc, numbers.len())?;
    for number in numbers {
        cells.push(word_of_reading(shape, Some(u64::from_le_bytes(*number))))?;
    }
    Ok(cells)
}

/// The words that the bytes spell, two numbers for each.
fn read_pairs<A: Allocator + Copy>(
    alloc: A,
    shape: Shape,
    dump: &[u8],
) -> Result<Cells<A>, DumpFault>
    requires { length dump.now ≡ dump_length Form.Pairs shape }
    ensures read { IfOk result (λ cells. AreCells Form.Pairs shape dump.now cells) }
    ensures fault { IfErr result (IsDumpFault Form.Pairs shape dump.now) }
    ensures names { (page at : ℕ) → HasLowPair Form.Pairs shape dump.now page at
        → MatchResult result
        (λ _. ⊥)
        (λ fault. (fault ≡ DumpFault.LowPair page at) ⊎ (fault ≡ DumpFault.Memory)) }
{
    let (numbers, _) = dump.as_chunks::<8>();
    let (pairs, _) = numbers.as_chunks::<2>();
    let mut cells = Cells::with_capacity(alloc, pairs.len())?;
    for pair in pairs {
        let [number, check] = *pair;
        let (number, check) = (u64::from_le_bytes(number), u64::from_le_bytes(check));
        if is_low(number, check) {
            let (place, words) = (cells.len(), shape.words());
            return Err(DumpFault::LowPair {
                page: place / words,
                at: place % words,
            });
        }
        let Ok(()) = cells.push(ee_nor::word_of(number, check)) else {
            return Err(DumpFault::Memory);
        };
    }
    Ok(cells)
}

//! A store with the values of a part of X-CUBE-EEPROM.
ghost use Rattle.std.specs.Prelude.{◌≡◌, ◌<◌, ◌⊎◌, [], IfErr, IfOk, None, is_some, true};
ghost use Rattle.std.specs.List.{list_any};
ghost use Rattle.ee_flash.specs.Memory.{device_of};
ghost use Rattle.ee_flash.specs.Size.{slot_count};
ghost use Rattle.ee_pages.specs.Meaning.{Put, live_in};
ghost use Rattle.ee_core.specs.Changes.{Appends, IsFull};
ghost use Rattle.ee_core.specs.State.{capacity, state_of};
ghost use Rattle.ee_interface.specs.Causes.{NamesEach};
ghost use Rattle.ee_shell.specs.Xcube.Element.{address_in, is_xcube_element as says_something};
ghost use Rattle.ee_shell.specs.Xcube.Import.{HasValuesOf, IsPartFault, IsXcubeFault, IsXcubeImported};
ghost use Rattle.ee_shell.specs.Xcube.Values.{HoldsValues, IsTidy, TakesNumber, lacks_elements, latest};

use super::element::{element_of, is_xcube_element};
use super::pages::{has_used_page, numbers_of};
use crate::dumps::{DumpFault, Form, read_dump};
use ee_codec::Address;
use ee_core::{Store, Variables, WriteFault, Written};
use ee_flash::{Flash, MemFlash, Shape};
use ee_image_store::{new_store, text_left};
use ee_interface::Fault;
use std::alloc::Allocator;

/// The text of the image of a store of this shape with the values that a part of X-CUBE-EEPROM
/// has, each written once, on pages that were never erased. The dump is that of the part's pages,
/// of both of its sets, in the shape of the store, which `read_dump` reads as words.
///
/// A page is in the state that the last of its four state words that is whole names, but in ERASING
/// if a page of its set is: all values of that set were copied. The elements count in this order:
/// those of pages in ERASING, VALID, ACTIVE and RECEIVE, in one state by page. The last of an
/// address has its value. What is no element whose CRC fits, as one that a cut left, counts for
/// nothing, nor does one of the addresses 0 and 65535.
///
/// Source: AN4894, and ours where it says nothing.
///
/// # Errors
///
/// The first that applies: `DumpLength`, where the dump has not `16 × pages × words` bytes;
/// `DumpUnused`, where each page is erased; `DumpNoCrc`, where words are written, and none is an
/// element whose CRC fits; `DumpFull`, where more addresses have a value than the store has slots.
/// `Memory` can come in place of any answer but the first.
pub fn import_xcube<A: Allocator + Copy>(
    alloc: A,
    shape: Shape,
    dump: &[u8],
) -> Result<Vec<u8, A>, Fault>
    ensures imported { IfOk result (λ image. IsXcubeImported shape dump.now image.items) }
    ensures fault { IfErr result (IsXcubeFault shape dump.now) }
    // No cause is passed over.
    ensures names { NamesEach Fault.Memory (IsXcubeFault shape dump.now) result }
{
    match read_dump(alloc, shape, Form::Words, dump) {
        Ok(part) => import_part(alloc, &part),
        Err(DumpFault::Length) => Err(Fault::DumpLength),
        Err(DumpFault::LowPair { .. }) => unreachable!("these are no pairs"),
        Err(DumpFault::Memory) => Err(Fault::Memory),
    }
}

/// The same of a part that was read.
fn import_part<A: Allocator + Copy>(alloc: A, part: &MemFlash<A>) -> Result<Vec<u8, A>, Fault>
    ensures imported { IfOk result (λ image. HasValuesOf (device_of part.now) image.items) }
    ensures fault { IfErr result (IsPartFault (device_of part.now)) }
{
    if !has_used_page(part) {
        return Err(Fault::DumpUnused);
    }
    let numbers = numbers_of(alloc, part)?;
    if has_no_element(&numbers) {
        return Err(Fault::DumpNoCrc);
    }
    let mut store = new_store(alloc, part.shape())?;
    take_all(&mut store, &numbers)?;
    Ok(text_left(alloc, store)?)
}

/// Whether there are numbers, and none of them is an element.
fn has_no_element(numbers: &[u64]) -> bool
    ensures { result ≡ lacks_elements numbers.now }
{
    !numbers.is_empty() && !has_element(numbers)
}

/// Whether one of the numbers is an element.
fn has_element(numbers: &[u64]) -> bool
    ensures { result ≡ list_any says_something numbers.now }
{
    numbers.iter().any(|number| is_xcube_element(*number))
}

/// Takes the numbers, the last first, into a new store.
fn take_all<A: Allocator>(store: &mut Store<MemFlash<A>>, numbers: &[u64]) -> Result<(), Fault>
    requires { HoldsValues store.old.size (latest []) store.old }
    ensures taken { IfOk result
        (λ _. HoldsValues store.old.size (latest numbers.now) store.new) }
    ensures fault { IfErr result (λ fault.
        (slot_count store.old.size < live_in (latest numbers.now) × (fault ≡ Fault.DumpFull))
        ⊎ (fault ≡ Fault.Memory)) }
{
    'numbers: for index in (0..numbers.len()).rev() {
        take(store, numbers[index])?;
    }
    Ok(())
}

/// Writes what a number says of its address, if that has no value.
fn take<A: Allocator>(store: &mut Store<MemFlash<A>>, number: u64) -> Result<(), Fault>
    requires { IsTidy store.old }
    ensures taken { IfOk result (λ _. TakesNumber store.old number store.new) }
    ensures fault { let old = store.old in IfErr result (λ fault.
        ((says_something number ≡ true) × IsFull (capacity old) (state_of old) (address_in number)
        × (fault ≡ Fault.DumpFull))
        ⊎ (fault ≡ Fault.Memory)) }
{
    match element_of(number) {
        Some((address, value)) if !has_value(store, address) => write_new(store, address, value),
        _ => Ok(()),
    }
}

/// Whether an address has a value.
fn has_value<A: Allocator>(store: &Store<MemFlash<A>>, address: Address) -> bool
    requires { IsTidy store.now }
    ensures { result ≡ is_some ((state_of store.now).map address) }
{
    match store.read(address) {
        Ok(stored) => stored.is_some(),
        Err(_) => unreachable!("power stays on"),
    }
}

/// Writes a value at an address that has none.
fn write_new<A: Allocator>(
    store: &mut Store<MemFlash<A>>,
    address: Address,
    value: u32,
) -> Result<(), Fault>
    requires tidy { IsTidy store.old }
    requires new { (state_of store.old).map address ≡ None }
    ensures written { IfOk result (λ _. Appends store.old (Put address value) store.new) }
    ensures fault { let old = store.old in IfErr result (λ fault.
        (IsFull (capacity old) (state_of old) address × (fault ≡ Fault.DumpFull))
        ⊎ (fault ≡ Fault.Memory)) }
{
    match store.write(address, value) {
        Ok(Written::Appended) => Ok(()),
        Err(WriteFault::Full) => Err(Fault::DumpFull),
        Err(WriteFault::Memory) => Err(Fault::Memory),
        Ok(Written::Moved) | Err(WriteFault::Spent) => unreachable!("a slot is free"),
        Err(WriteFault::Off | WriteFault::Cut) => unreachable!("power stays on"),
    }
}

//! Devices, stores with an index, and events that drive a store. That their device is as it was
//! where memory is refused is said by their clauses.
use crate::tests::{address, device, formatted, same, shape};
use ee_codec::Address;
use ee_fakes::ListFlash;
use ee_fakes::images::ONE_MOVE;
use ee_flash::{Flash, MemFlash};
use ee_store::{
    Answer, Event, IndexedFault, IndexedStore, Put, Variables, WriteAllFault, WriteFault, Written,
    drive, open_indexed,
};
use std::alloc::{Allocator, Global};
use std::process::Abort;

pub fn blank_list<A: Allocator + Copy>(alloc: A, rt: &impl Abort) -> Option<bool> {
    let size = shape(rt, 2, 6);
    match ListFlash::blank(alloc, size, &[]) {
        Ok(flash) => Some(flash.shape() == size && flash.is_on() && flash.cuts() == 0),
        Err(_) => None,
    }
}

fn put(rt: &impl Abort, number: u16, value: u32) -> Put {
    Put {
        address: address(rt, number),
        value,
    }
}

fn events(address: Address, puts: &[Put]) -> [Event<'_>; 10] {
    [
        Event::Get { address },
        Event::Reopen,
        Event::Get { address },
        Event::Put { address, value: 13 },
        Event::Clean,
        Event::Clean,
        Event::Forget { address },
        Event::Get { address },
        Event::PutAll(puts),
        Event::Get { address },
    ]
}

/// What they are answered after one move.
const ANSWERS: [Answer; 10] = [
    Answer::Off,
    Answer::Opened,
    Answer::Value(Some(12)),
    Answer::Done(Written::Appended),
    Answer::Cleaned(true),
    Answer::Cleaned(false),
    Answer::Done(Written::Moved),
    Answer::Value(None),
    Answer::Done(Written::Moved),
    Answer::Value(Some(14)),
];

pub fn events_driven<A: Allocator + Copy>(
    alloc: A,
    rt: &impl Abort,
    memory: Global,
) -> Option<bool> {
    let puts = [put(rt, 2, 15), put(rt, 1, 14)];
    match drive(
        alloc,
        device(rt, memory, ONE_MOVE),
        &events(address(rt, 1), &puts),
    ) {
        Ok(driven) => Some(driven.log.as_slice() == ANSWERS.as_slice() && driven.kept.is_empty()),
        Err(_) => None,
    }
}

/// How many addresses are written, each once: more than one node of the index holds.
const COUNT: u16 = 40;

// What is written at one of them, by its number from 0.
fn nth_put(rt: &impl Abort, number: u16) -> Put {
    put(rt, number.saturating_add(1), 1001 + u32::from(number))
}

// Whether a store has a value at each address.
fn has_all<V: Variables>(store: &V) -> bool {
    store.is_on() && store.live_count() == usize::from(COUNT)
}

// Whether each address is written in its turn, or one is not for want of memory.
fn are_written<V: Variables>(rt: &impl Abort, store: &mut V) -> Option<bool> {
    for number in 0..COUNT {
        let put = nth_put(rt, number);
        match store.write(put.address, put.value) {
            Ok(_) => {}
            Err(WriteFault::Memory) => return None,
            Err(_) => return Some(false),
        }
    }
    Some(has_all(store))
}

// Whether all are written at once, or none is for want of memory.
fn are_written_at_once<V: Variables>(store: &mut V, puts: &[Put]) -> Option<bool> {
    match store.write_all(puts) {
        Ok(written) => Some(written == Written::Moved && has_all(store)),
        Err(WriteAllFault::Memory) => None,
        Err(_) => Some(false),
    }
}

/// A call of a store with an index.
#[derive(Clone, Copy)]
pub enum Task {
    Open,
    Write,
    WriteAll,
}

// Whether a store opens with an index of all of them.
fn is_opened<A: Allocator + Copy, F: Flash + Drop>(
    alloc: A,
    rt: &impl Abort,
    flash: F,
) -> Option<bool> {
    let mut store = formatted(rt, flash);
    same(rt, "written", are_written(rt, &mut store), Some(true));
    let mut flash = store.into_flash();
    flash.power_on();
    match open_indexed(alloc, flash) {
        Ok(store) => Some(has_all(&store)),
        Err((_, IndexedFault::Memory)) => None,
        Err(_) => Some(false),
    }
}

// A store with an index on the device before the first write, if there is memory for it.
fn empty_index<A: Allocator + Copy, F: Flash + Drop>(
    alloc: A,
    rt: &impl Abort,
    flash: F,
) -> Option<IndexedStore<F, A>> {
    let mut flash = formatted(rt, flash).into_flash();
    flash.power_on();
    open_indexed(alloc, flash).ok()
}

// A list of all of them, each with its value.
fn all_puts(rt: &impl Abort, memory: Global) -> Vec<Put> {
    let mut puts = Vec::new(memory);
    for number in 0..COUNT {
        puts.push(nth_put(rt, number)).expect(rt, "no room");
    }
    puts
}

// Whether a call does what is wanted on a blank device.
fn is_done<A: Allocator + Copy, F: Flash + Drop>(
    task: Task,
    alloc: A,
    rt: &impl Abort,
    memory: Global,
    flash: F,
) -> Option<bool> {
    if let Task::Open = task {
        return is_opened(alloc, rt, flash);
    }
    let mut store = empty_index(alloc, rt, flash)?;
    if let Task::Write = task {
        return are_written(rt, &mut store);
    }
    are_written_at_once(&mut store, all_puts(rt, memory).as_slice())
}

/// Whether it does what is wanted on a device with room for all of them.
pub fn done<A: Allocator + Copy>(
    task: Task,
    alloc: A,
    rt: &impl Abort,
    memory: Global,
) -> Option<bool> {
    let flash = MemFlash::blank(memory, shape(rt, 1, 60)).expect(rt, "no device");
    is_done(task, alloc, rt, memory, flash)
}

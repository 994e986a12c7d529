//! How many words of the flash a read by the index takes, on a device that counts them.
use crate::tests::{address, formatted, indexed_in, opened, same, shape};
use ee_fakes::ListFlash;
use ee_flash::Flash;
use ee_store::{Entry, Variables, open_indexed};
use std::alloc::Global;
use std::process::Abort;

/// How many addresses have a value, each in a slot of its own.
const COUNT: u16 = 40;

// A device of two pages of 26 slots.
fn blank<'a>(rt: &impl Abort, memory: Global) -> ListFlash<'a> {
    ListFlash::blank(memory, shape(rt, 2, 30), &[]).expect(rt, "no device")
}

// The device, on which these were written by rising address.
fn filled<F: Flash + Drop>(rt: &impl Abort, flash: F) -> F {
    let mut store = formatted(rt, flash);
    for number in 0..COUNT {
        let one = address(rt, number.saturating_add(1));
        store.write(one, u32::from(number)).expect(rt, "no write");
    }
    store.into_flash()
}

// Reads an address so many times.
fn read_often<V: Variables>(rt: &impl Abort, store: &V, number: u16, times: u32) {
    for _ in 0..times {
        store.read(address(rt, number)).expect(rt, "no read");
    }
}

// The device behind so many reads of an address by a store with an index.
fn read_by_index<F: Flash + Drop>(
    rt: &impl Abort,
    memory: Global,
    flash: F,
    number: u16,
    times: u32,
) -> F {
    let mut flash = filled(rt, flash);
    flash.power_on();
    let store = open_indexed(memory, flash).ok().expect(rt, "no store");
    read_often(rt, &store, number, times);
    store.into_flash()
}

// The same with an index in this room.
fn read_by_lent<F: Flash + Drop>(
    rt: &impl Abort,
    flash: F,
    room: &mut [Entry],
    number: u16,
    times: u32,
) -> F {
    let store = indexed_in(rt, opened(rt, filled(rt, flash)), room);
    read_often(rt, &store, number, times);
    store.into_flash()
}

// The same without one.
fn read_by_scan<F: Flash + Drop>(rt: &impl Abort, flash: F, number: u16, times: u32) -> F {
    let store = opened(rt, filled(rt, flash));
    read_often(rt, &store, number, times);
    store.into_flash()
}

// How many words are read until a store with an index is open, and an address was
// read so many times.
fn by_index(rt: &impl Abort, memory: Global, number: u16, times: u32) -> u64 {
    read_by_index(rt, memory, blank(rt, memory), number, times).reads()
}

// The same with an index in this room.
fn by_lent(rt: &impl Abort, memory: Global, room: &mut [Entry], number: u16, times: u32) -> u64 {
    read_by_lent(rt, blank(rt, memory), room, number, times).reads()
}

// The same without one.
fn by_scan(rt: &impl Abort, memory: Global, number: u16, times: u32) -> u64 {
    read_by_scan(rt, blank(rt, memory), number, times).reads()
}

/// A store without an index reads more: so one that scans would be told.
#[test]
fn a_read_by_the_index_takes_one_word_or_none(rt: HostRuntime) {
    let index = by_index(&rt, rt.alloc(), 1, 0);
    let scan = by_scan(&rt, rt.alloc(), 1, 0);
    for (number, wanted) in [(1, 100), (20, 100), (COUNT, 100), (COUNT + 1, 0)] {
        let found = by_index(&rt, rt.alloc(), number, 100);
        same(&rt, number, found.checked_sub(index), Some(wanted));
    }
    for (number, wanted) in [(1, 4000), (COUNT + 1, 4000)] {
        let found = by_scan(&rt, rt.alloc(), number, 100);
        same(&rt, number, found.checked_sub(scan) >= Some(wanted), true);
    }
}

/// Where there is no room for one address more, the store looks through the slots.
#[test]
fn a_read_by_a_lent_index_takes_one_word_or_none(rt: HostRuntime) {
    let mut room = [(address(&rt, 1), 0); COUNT as usize];
    let opening = by_lent(&rt, rt.alloc(), &mut room, 1, 0);
    for (number, wanted) in [(1, 100), (20, 100), (COUNT, 100), (COUNT + 1, 0)] {
        let found = by_lent(&rt, rt.alloc(), &mut room, number, 100);
        same(&rt, number, found.checked_sub(opening), Some(wanted));
    }
    let mut less = [(address(&rt, 1), 0); COUNT as usize - 1];
    let found = by_lent(&rt, rt.alloc(), &mut less, 1, 100);
    same(&rt, "less room", found >= 4000, true);
}

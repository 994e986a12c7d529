//! Stores whose erases are cut in every mix of words, one cut after another: what no fuse makes.
use crate::tests::{address, formatted, opened, same, shape};
use ee_codec::Address;
use ee_fakes::{Fate, Left, ListFlash};
use ee_flash::Flash;
use ee_store::{OpenFault, Variables, WriteFault, Written, open};
use std::alloc::Global;
use std::process::Abort;

const LEFTS: [Left; 3] = [Left::Before, Left::After, Left::Torn];

// What is left of each of five words: each list of them for one number below 243.
fn mix_of(number: usize) -> [Left; 5] {
    [
        LEFTS[number % 3],
        LEFTS[number / 3 % 3],
        LEFTS[number / 9 % 3],
        LEFTS[number / 27 % 3],
        LEFTS[number / 81 % 3],
    ]
}

// Writes 1 at an address in each slot of the first set, and then 2 in each of the second, where
// each set has so many slots.
fn fill_both<V: Variables>(rt: &impl Abort, store: &mut V, one: Address, slots: usize) {
    for slot in 0..slots.saturating_mul(2) {
        let value = if slot < slots { 1 } else { 2 };
        store.write(one, value).expect(rt, "no write");
    }
}

// A device with so many pages a set and one slot a page.
fn blank<'a>(rt: &impl Abort, memory: Global, pages: usize) -> ListFlash<'a> {
    ListFlash::blank(memory, shape(rt, pages, 5), &[]).expect(rt, "no device")
}

// The device, with address 1 written with 1 in each slot and then with 2 in each: the second set
// is live and full, and the pages of the first wait to be erased.
fn moved_once<F: Flash + Drop>(rt: &impl Abort, flash: F, one: Address) -> F {
    let slots = flash.shape().slots();
    let mut store = formatted(rt, flash);
    fill_both(rt, &mut store, one, slots);
    store.into_flash()
}

// Whether a store has this value, and these numbers: its generation, its fill, and
// how many pages wait.
fn has<V: Variables>(
    store: &V,
    one: Address,
    value: u32,
    (generation, fill, pending): (u32, usize, usize),
) -> bool {
    store.is_on()
        && store.read(one) == Ok(Some(value))
        && store.generation() == generation
        && store.fill() == fill
        && store.pending() == pending
}

// Whether a clean step is cut, or a write that transfers.
fn is_cut<V: Variables>(store: &mut V, cleans: bool, one: Address) -> bool {
    let fault = if cleans {
        store.clean_step().err()
    } else {
        store.write(one, 3).err()
    };
    fault == Some(WriteFault::Cut) && !store.is_on()
}

// How many pages wait behind a cut of the erase of the first set's page, as the list says: the
// page, if it isn't blank. Its third word was erased before.
fn pending_behind(list: &[Left; 5]) -> usize {
    match *list {
        [
            Left::After,
            Left::After,
            Left::Before | Left::After,
            Left::After,
            Left::After,
        ] => 0,
        _ => 1,
    }
}

// Whether the old value stands, and a write moves it.
fn stands<V: Variables>(store: &mut V, one: Address, pending: usize) -> bool {
    has(store, one, 2, (2, 1, pending))
        && store.write(one, 3) == Ok(Written::Moved)
        && has(store, one, 3, (3, 1, 1))
}

// Whether the first erase is cut, in a clean step or in a write that transfers, and behind it the
// old value stands and so many pages wait.
fn is_cut_and_stands<F: Flash + Drop>(
    rt: &impl Abort,
    flash: F,
    cleans: bool,
    one: Address,
    pending: usize,
) -> bool {
    let mut store = opened(rt, flash);
    let is_cut = is_cut(&mut store, cleans, one);
    let mut store = opened(rt, store.into_flash());
    is_cut && stands(&mut store, one, pending)
}

// Cuts the erase of the first set's page in this mix.
fn cut_the_erase(rt: &impl Abort, memory: Global, cleans: bool, one: Address, mix: usize) {
    let list = mix_of(mix);
    let fates = [Fate::Cut(&list)];
    let mut flash = moved_once(rt, blank(rt, memory, 1), one);
    flash.set_fates(&fates);
    let found = is_cut_and_stands(rt, flash, cleans, one, pending_behind(&list));
    same(rt, mix, found, true);
}

#[test]
fn each_mix_of_a_cut_erase(rt: HostRuntime) {
    let one = address(&rt, 1);
    for mix in 0..243usize {
        for cleans in [true, false] {
            cut_the_erase(&rt, rt.alloc(), cleans, one, mix);
        }
    }
}

// Whether a write of 3 is done. Before it the store reads a value that is no less than
// `least`, which it becomes.
fn is_written<V: Variables>(rt: &impl Abort, store: &mut V, one: Address, least: &mut u32) -> bool {
    let value = store.read(one).ok().flatten().unwrap_or(0);
    same(rt, value, *least <= value && value <= 3, true);
    *least = value;
    match store.write(one, 3) {
        Ok(_) => {
            same(rt, value, store.read(one) == Ok(Some(3)), true);
            true
        }
        Err(fault) => {
            same(rt, value, fault == WriteFault::Cut, true);
            false
        }
    }
}

// Opens the store and writes 3 at the address, until a write is done or the tries are used up.
// Between two cuts the store reads the old value, or the new one, and then no more the old one.
// Gives how many cuts there were.
fn write_through<F: Flash + Drop>(rt: &impl Abort, flash: F, one: Address, tries: usize) -> u64 {
    let mut flash = flash;
    let mut least = 2;
    for _ in 0..tries {
        flash.power_on();
        flash = match open(flash) {
            Ok(mut store) => {
                let is_done = is_written(rt, &mut store, one, &mut least);
                let flash = store.into_flash();
                if is_done {
                    return flash.cuts();
                }
                flash
            }
            Err((off, fault)) => {
                same(rt, least, fault == OpenFault::Cut, true);
                off
            }
        };
    }
    panic!(rt; "too many cuts")
}

// A transfer is cut in its erase, and what follows in one later step after another, each as one
// of three mixes says.
fn fates_of<'a>(mixes: &'a [[Left; 5]; 3]) -> [Fate<'a>; 17] {
    [
        Fate::Cut(&mixes[0]),
        Fate::Cut(&mixes[1]),
        Fate::Cut(&mixes[2]),
        Fate::Done,
        Fate::Cut(&mixes[1]),
        Fate::Done,
        Fate::Done,
        Fate::Cut(&mixes[2]),
        Fate::Done,
        Fate::Done,
        Fate::Done,
        Fate::Cut(&mixes[0]),
        Fate::Done,
        Fate::Done,
        Fate::Done,
        Fate::Done,
        Fate::Cut(&mixes[1]),
    ]
}

// Gives how many cuts there were until a write was done.
fn cut_often(
    rt: &impl Abort,
    memory: Global,
    pages: usize,
    one: Address,
    mixes: &[[Left; 5]; 3],
) -> u64 {
    let fates = fates_of(mixes);
    let mut flash = moved_once(rt, blank(rt, memory, pages), one);
    flash.set_fates(&fates);
    write_through(rt, flash, one, 12)
}

#[test]
fn cuts_one_after_another(rt: HostRuntime) {
    let one = address(&rt, 1);
    for number in 0..81usize {
        let mixes = [mix_of(number), mix_of(number * 3), mix_of(242 - number)];
        for pages in [1, 2] {
            let cuts = cut_often(&rt, rt.alloc(), pages, one, &mixes);
            same(&rt, (number, pages), cuts >= 3, true);
        }
    }
}

//! What no clause says, each once, and what several modules make their values with.
//!
//! What goes wrong while a test is prepared ends it by `expect`. So a function has no path on which
//! it drops what it owns, and each such path costs the prover time. So does each generic call that
//! names a device's type. So what a test does with a store is generic over the device, and the test
//! makes one call of it.
mod cells;
mod commands;
mod counted;
mod cuts;
mod driving;
mod formats;
mod index_behind_a_cut;
mod lent;
mod outside;
mod pairs;
mod planning;
mod prefixes;
mod refused_opening;
mod requests;
mod rescues;
mod saving;
mod streams;
mod tidying;
mod trail;

use ee_codec::Address;
use ee_flash::{Flash, MemFlash, Shape};
use ee_image::{read_image, write_image};
use ee_store::{Entry, LentIndex, Store, Variables, format, open};
use std::alloc::Global;
use std::fmt::Debug;
use std::process::Abort;

/// A value is the one that is wanted. A failure names its place in a table or a loop. Each
/// assertion that stands in a test is proved there; a call of this one costs next to nothing.
fn same<P: Debug + Copy, T: PartialEq + Debug + Copy>(
    rt: &impl Abort,
    place: P,
    found: T,
    wanted: T,
) {
    assert_eq!(rt; found, wanted, "at {place:?}");
}

/// The shape with these numbers of pages and words, which are in range.
fn shape(rt: &impl Abort, pages: usize, words: usize) -> Shape {
    Shape::new(pages, words).expect(rt, "no shape")
}

/// The address of a number that has one.
fn address(rt: &impl Abort, number: u16) -> Address {
    Address::new(number).expect(rt, "no address")
}

/// The device of an image's text, which is on.
fn device(rt: &impl Abort, memory: Global, text: &[u8]) -> MemFlash {
    read_image(memory, text).expect(rt, "no device")
}

/// The empty store of a device that is formatted, with power turned on.
fn formatted<F: Flash + Drop>(rt: &impl Abort, mut flash: F) -> Store<F> {
    flash.power_on();
    format(flash).ok().expect(rt, "no store")
}

/// The store of a device, with power turned on.
fn opened<F: Flash + Drop>(rt: &impl Abort, mut flash: F) -> Store<F> {
    flash.power_on();
    open(flash).ok().expect(rt, "no store")
}

/// A store that is on, with an index in this room.
fn indexed_in<'a, F: Flash + Drop>(
    rt: &impl Abort,
    store: Store<F>,
    room: &'a mut [Entry],
) -> Store<F, LentIndex<'a>> {
    if !store.is_on() {
        panic!(rt; "off");
    }
    store.with_lookup(LentIndex::new(room))
}

/// The image of a device.
fn text_of<F: Flash>(rt: &impl Abort, memory: Global, flash: &F) -> Vec<u8> {
    let mut text = Vec::new(memory);
    write_image(flash, &mut text).expect(rt, "no image");
    text
}

//! An index in lent memory: when it gives itself up, and when it comes back.
use crate::tests::{address, formatted, indexed_in, same, shape};
use ee_flash::{Flash, MemFlash};
use ee_store::{Entry, Variables};
use std::alloc::Global;
use std::process::Abort;

/// A change of the variables.
enum Change {
    Put(u16),
    Forget(u16),
    Clear,
}

/// Changes of a store with five slots, and whether an index with room for three addresses is
/// given up behind each.
const CHANGES: [(Change, bool); 11] = [
    (Change::Put(7), false),
    (Change::Put(5), false),
    (Change::Put(9), false),
    (Change::Put(5), false),
    (Change::Put(1), true),
    // A transfer of four addresses.
    (Change::Put(7), true),
    (Change::Forget(9), true),
    // A transfer of three.
    (Change::Put(5), false),
    (Change::Put(2), true),
    (Change::Clear, false),
    (Change::Put(3), false),
];

// A device with one page a set and five slots a page.
fn blank(rt: &impl Abort, memory: Global) -> MemFlash {
    MemFlash::blank(memory, shape(rt, 1, 9)).expect(rt, "no device")
}

// Makes a change.
fn make<V: Variables>(rt: &impl Abort, store: &mut V, change: &Change) {
    match *change {
        Change::Put(number) => {
            store.write(address(rt, number), 1).expect(rt, "no write");
        }
        Change::Forget(number) => {
            store
                .forget(address(rt, number))
                .expect(rt, "not forgotten");
        }
        Change::Clear => {
            store.clear().expect(rt, "not cleared");
        }
    }
}

// An index with this room is given up behind each change as the row says.
fn give_up<F: Flash + Drop>(rt: &impl Abort, flash: F, room: &mut [Entry]) {
    let mut store = indexed_in(rt, formatted(rt, flash), room);
    for (place, (change, wanted)) in CHANGES.iter().enumerate() {
        make(rt, &mut store, change);
        same(rt, place, store.lookup().is_given_up(), *wanted);
    }
}

// Whether an index with this room is given up when it is made behind the first of these changes.
fn is_given_up_behind<F: Flash + Drop>(
    rt: &impl Abort,
    flash: F,
    room: &mut [Entry],
    changes: usize,
) -> bool {
    let mut store = formatted(rt, flash);
    for (change, _) in CHANGES.iter().take(changes) {
        make(rt, &mut store, change);
    }
    indexed_in(rt, store, room).lookup().is_given_up()
}

#[test]
fn an_index_is_given_up_where_it_has_no_room(rt: HostRuntime) {
    let mut room = [(address(&rt, 1), 0); 3];
    give_up(&rt, blank(&rt, rt.alloc()), &mut room);
}

#[test]
fn an_index_that_is_made_tells_the_same(rt: HostRuntime) {
    for (place, (_, wanted)) in CHANGES.iter().enumerate() {
        let mut room = [(address(&rt, 1), 0); 3];
        let flash = blank(&rt, rt.alloc());
        let found = is_given_up_behind(&rt, flash, &mut room, place.saturating_add(1));
        same(&rt, place, found, *wanted);
    }
}

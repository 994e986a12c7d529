//! Events that drive a store: the worked ones to the last, and changes in which power
//! is cut, kept and not.
use crate::tests::{address, device, same};
use ee_codec::Address;
use ee_fakes::images::ONE_MOVE;
use ee_flash::{Fuse, MemFlash, Tear};
use ee_store::{
    Answer, Driven, Event, ForgetFault, Put, WriteAllFault, WriteFault, Written, drive,
};
use std::alloc::Global;
use std::process::Abort;

// What the events leave of the device after one move.
fn driven(
    rt: &impl Abort,
    memory: Global,
    fuse: Option<Fuse>,
    events: &[Event<'_>],
) -> Driven<MemFlash> {
    let mut flash = device(rt, memory, ONE_MOVE);
    if let Some(fuse) = fuse {
        flash.arm(fuse);
    }
    drive(memory, flash, events).ok().expect(rt, "no answers")
}

// The list of 15 at address 2 and 14 at address 1.
fn puts(rt: &impl Abort) -> [Put; 2] {
    [
        Put {
            address: address(rt, 2),
            value: 15,
        },
        Put {
            address: address(rt, 1),
            value: 14,
        },
    ]
}

fn worked_events(address: Address, puts: &[Put]) -> [Event<'_>; 12] {
    [
        Event::Get { address },
        Event::Reopen,
        Event::Get { address },
        Event::Start,
        Event::Put { address, value: 13 },
        Event::Clean,
        Event::Clean,
        Event::Get { address },
        Event::Forget { address },
        Event::Get { address },
        Event::PutAll(puts),
        Event::Get { address },
    ]
}

const WORKED_ANSWERS: [Answer; 12] = [
    Answer::Off,
    Answer::Opened,
    Answer::Value(Some(12)),
    Answer::Opened,
    Answer::Done(Written::Appended),
    Answer::Cleaned(true),
    Answer::Cleaned(false),
    Answer::Value(Some(13)),
    Answer::Done(Written::Moved),
    Answer::Value(None),
    Answer::Done(Written::Moved),
    Answer::Value(Some(14)),
];

#[test]
fn the_worked_events(rt: HostRuntime) {
    let puts = puts(&rt);
    let events = worked_events(address(&rt, 1), &puts);
    let driven = driven(&rt, rt.alloc(), None, &events);
    same(
        &rt,
        "answers",
        driven.log.as_slice(),
        WORKED_ANSWERS.as_slice(),
    );
    same(&rt, "kept", driven.kept.as_slice(), [].as_slice());
}

/// A change of address 1, which has 12.
#[derive(Clone, Copy, Debug, PartialEq)]
enum Kind {
    Put,
    PutAll,
    Forget,
}

// The change, and what is read behind it once the store is open again.
fn cut_events<'a>(kind: Kind, address: Address, puts: &'a [Put]) -> [Event<'a>; 5] {
    let change = match kind {
        Kind::Put => Event::Put { address, value: 13 },
        Kind::PutAll => Event::PutAll(puts),
        Kind::Forget => Event::Forget { address },
    };
    [
        Event::Reopen,
        change,
        Event::Get { address },
        Event::Reopen,
        Event::Get { address },
    ]
}

fn cut_answers(kind: Kind, value: Option<u32>) -> [Answer; 5] {
    let cut = match kind {
        Kind::Put => Answer::Refused(WriteFault::Cut),
        Kind::PutAll => Answer::NotWritten(WriteAllFault::Cut),
        Kind::Forget => Answer::NotForgotten(ForgetFault::Cut),
    };
    [
        Answer::Opened,
        cut,
        Answer::Off,
        Answer::Opened,
        Answer::Value(value),
    ]
}

// Whether a change that is cut is answered so, is kept so, and leaves this value.
fn is_cut(
    rt: &impl Abort,
    memory: Global,
    kind: Kind,
    fuse: Fuse,
    (kept, value): (bool, Option<u32>),
) -> bool {
    let puts = puts(rt);
    let events = cut_events(kind, address(rt, 1), &puts);
    let driven = driven(rt, memory, Some(fuse), &events);
    driven.log.as_slice() == cut_answers(kind, value).as_slice()
        && driven.kept.as_slice() == [kept].as_slice()
}

/// A put and a forgetting take one step. The list moves: its fifth step is the mark that commits.
#[test]
fn changes_that_are_kept_and_not(rt: HostRuntime) {
    for (kind, after, tear, kept, value) in [
        (Kind::Put, 0, Tear::Torn, false, Some(12)),
        (Kind::Put, 0, Tear::Nothing, false, Some(12)),
        (Kind::Put, 0, Tear::Done, true, Some(13)),
        (Kind::Forget, 0, Tear::Torn, false, Some(12)),
        (Kind::Forget, 0, Tear::Done, true, None),
        (Kind::PutAll, 4, Tear::Torn, false, Some(12)),
        (Kind::PutAll, 4, Tear::Done, true, Some(14)),
        (Kind::PutAll, 5, Tear::Torn, true, Some(14)),
    ] {
        let fuse = Fuse { after, tear };
        let found = is_cut(&rt, rt.alloc(), kind, fuse, (kept, value));
        same(&rt, (kind, fuse), found, true);
    }
}

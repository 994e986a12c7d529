//! A script for which an index pays: `replay` makes one, and answers without it where a request
//! for memory is refused.
use super::commands::replays;
use crate::tests::{same, shape};
use ee_fakes::Refusing;
use ee_shell::{replay, replay_indexed, replay_reader, try_script};
use ee_text::push_number_behind;
use std::alloc::Global;
use std::process::Abort;

/// A part of such a script: changes, and looks for what has no value.
const ROUND: &[u8] = b"w 1 7\nw 2 8\nr 1\nf 2\nr 2
r 3\nr 4\nr 5\nr 6\nr 7\nr 8\nr 9\nr 10\nr 11\nr 12\nr 13\nr 14\n";

// A script of 150 rounds, which make several moves, with a line behind 60 of them and
// power on near the end.
fn long_script(rt: &impl Abort, memory: Global, line: &[u8]) -> Vec<u8> {
    let mut script = Vec::new(memory);
    for (rounds, end) in [(60, line), (80, b"p\n"), (10, b"")] {
        let rounds = ROUND.repeat(memory, rounds).expect(rt, "no rounds");
        script
            .extend_from_slice(rounds.as_slice())
            .expect(rt, "no room");
        script.extend_from_slice(end).expect(rt, "no room");
    }
    script
}

// The image that a script leaves that gives forty addresses a value: an index of them takes several
// requests for memory.
fn filled_image(rt: &impl Abort, memory: Global) -> Vec<u8> {
    let mut script = Vec::new(memory);
    for address in 300..340u64 {
        push_number_behind(&mut script, b"w ", address).expect(rt, "no room");
        script.extend_from_slice(b" 7\n").expect(rt, "no room");
    }
    let filled = try_script(memory, shape(rt, 1, 260), script.as_slice());
    filled.expect(rt, "no image").image
}

// How many requests for memory were made of a heap that is to refuse the last of all.
fn requests(heap: &Refusing<Global>) -> u64 {
    u64::MAX - heap.left()
}

// How many requests `replay_indexed` makes, which is to give this report and this image.
fn requests_by_index(
    rt: &impl Abort,
    memory: Global,
    (image, script): (&[u8], &[u8]),
    (report, left): (&[u8], &[u8]),
) -> u64 {
    let heap = Refusing::new(memory, u64::MAX);
    let found = replays(replay_indexed(&heap, image, script), report, left);
    same(rt, "by index", found, Some(true));
    requests(&heap)
}

// Replays a script with each request refused in turn, which gives this report and this image all
// the same. Gives how many requests there are.
fn refused_behind(
    rt: &impl Abort,
    memory: Global,
    (image, script): (&[u8], &[u8]),
    (report, left): (&[u8], &[u8]),
) -> u64 {
    for nth in 1..u64::MAX {
        let heap = Refusing::new(memory, nth);
        let found = replays(replay(&heap, image, script), report, left);
        same(rt, nth, found, Some(true));
        if !heap.has_refused() {
            return nth - 1;
        }
    }
    panic!(rt; "requests without end")
}

// Where `replay` makes an index it answers as a store without one does, also where a request is
// refused: it begins anew without an index then. An index takes two requests or more.
fn pays(rt: &impl Abort, memory: Global, image: &[u8], script: &[u8]) {
    let mut reader = script;
    let plain = Refusing::new(memory, u64::MAX);
    let replayed = replay_reader(&plain, image, &mut reader).expect(rt, "no replay");
    let wanted = (replayed.report.as_slice(), replayed.image.as_slice());
    let least = requests(&plain).saturating_add(2);
    let indexed = requests_by_index(rt, memory, (image, script), wanted);
    same(rt, indexed, least <= indexed, true);
    let count = refused_behind(rt, memory, (image, script), wanted);
    same(rt, count, least <= count, true);
}

#[test]
fn an_index_that_pays(rt: HostRuntime) {
    let image = filled_image(&rt, rt.alloc());
    for line in [b"r 1\n".as_slice(), b"x 200 t\n"] {
        pays(
            &rt,
            rt.alloc(),
            image.as_slice(),
            long_script(&rt, rt.alloc(), line).as_slice(),
        );
    }
}

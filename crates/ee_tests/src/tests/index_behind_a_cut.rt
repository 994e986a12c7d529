//! Power is cut in a run by an index: behind the opening there is an index again.
use crate::tests::{same, shape};
use ee_fakes::Refusing;
use ee_shell::{format_image, replay_indexed, replay_reader};
use ee_text::push_number_behind;
use std::alloc::Global;
use std::process::Abort;

// A script in which a write is cut and power turned on, and then forty addresses are given a value:
// an index of them takes several requests for memory.
fn script(rt: &impl Abort, memory: Global) -> Vec<u8> {
    let mut script = Vec::new(memory);
    script
        .extend_from_slice(b"w 1 7\nx 1 t\nw 1 8\np\n")
        .expect(rt, "no room");
    for address in 300..340u64 {
        push_number_behind(&mut script, b"w ", address).expect(rt, "no room");
        script.extend_from_slice(b" 7\n").expect(rt, "no room");
    }
    script
}

// How many requests for memory were made of a heap that is to refuse the last of all.
fn requests(heap: &Refusing<Global>) -> u64 {
    u64::MAX - heap.left()
}

// How many requests a run with an index makes.
fn by_index(rt: &impl Abort, memory: Global, image: &[u8], script: &[u8]) -> u64 {
    let heap = Refusing::new(memory, u64::MAX);
    let _ = replay_indexed(&heap, image, script).expect(rt, "no replay");
    requests(&heap)
}

// How many requests a run without one makes.
fn without(rt: &impl Abort, memory: Global, image: &[u8], script: &[u8]) -> u64 {
    let mut reader = script;
    let heap = Refusing::new(memory, u64::MAX);
    let _ = replay_reader(&heap, image, &mut reader).expect(rt, "no replay");
    requests(&heap)
}

#[test]
fn there_is_an_index_behind_a_cut(rt: HostRuntime) {
    let image = format_image(rt.alloc(), shape(&rt, 1, 60)).expect(&rt, "no image");
    let script = script(&rt, rt.alloc());
    let indexed = by_index(&rt, rt.alloc(), image.as_slice(), script.as_slice());
    let least = without(&rt, rt.alloc(), image.as_slice(), script.as_slice()).saturating_add(5);
    same(&rt, (indexed, least), least <= indexed, true);
}

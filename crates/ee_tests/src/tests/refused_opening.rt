//! An opening of a store with an index for which memory is refused: the device stays as it was.
use crate::tests::{device, same, text_of};
use ee_fakes::Refusing;
use ee_fakes::images::ONE_MOVE;
use ee_flash::Flash;
use ee_store::{IndexedFault, open_indexed};
use std::alloc::Global;
use std::process::Abort;

/// 10 at address 1, and a mark that an opening sets.
const UNFINISHED: &[u8] = b"ee 1 6
0 aaaaaaaa00000001 aaaaaaaaaaaaaaaa - - 0000000a00000001 -
0 aaaaaaaa00000002 ? - - ? -
";

// The device of an opening for which memory is refused.
fn refused<F: Flash + Drop>(rt: &impl Abort, memory: Global, mut flash: F) -> F {
    let heap = Refusing::new(memory, 1);
    flash.power_on();
    match open_indexed(&heap, flash) {
        Err((flash, IndexedFault::Memory)) => flash,
        _ => panic!(rt; "not refused"),
    }
}

#[test]
fn a_refused_opening_changes_nothing(rt: HostRuntime) {
    for image in [ONE_MOVE, UNFINISHED] {
        let flash = refused(&rt, rt.alloc(), device(&rt, rt.alloc(), image));
        let text = text_of(&rt, rt.alloc(), &flash);
        same(&rt, "image", text.as_slice(), image);
        same(
            &rt,
            "power and steps",
            (flash.is_on(), flash.steps()),
            (true, 0),
        );
    }
}

//! A rescue, worked by hand: the words that it leaves, and how many were bad. No command makes one.
use crate::tests::{device, same, text_of};
use ee_flash::Flash;
use ee_store::{RescueFault, Rescued, rescue};
use std::alloc::Global;
use std::process::Abort;

/// An image in which a word went bad, the one that a rescue leaves, how many words were bad, and
/// how many addresses have a value.
const ROWS: [(&[u8], &[u8], usize, usize); 3] = [
    // The receive word of the live set can't be read, and the other set is blank.
    (
        b"ee 1 6\n0 ? aaaaaaaaaaaaaaaa - - 0000000a00000001 -\n0 - - - - - -\n",
        b"ee 1 6\n0 ? aaaaaaaaaaaaaaaa - aaaaaaaaaaaaaaaa 0000000a00000001 -\n\
          0 aaaaaaaa00000002 aaaaaaaaaaaaaaaa - - 0000000a00000001 -\n",
        1,
        1,
    ),
    // The newest element of address 1 reads as none, and the set that waits has an older value.
    (
        b"ee 1 6\n0 aaaaaaaa00000001 aaaaaaaaaaaaaaaa - aaaaaaaaaaaaaaaa 0000000900000001 -\n\
          0 aaaaaaaa00000002 aaaaaaaaaaaaaaaa - - 0000000a00000001 0000000b00ff0001\n",
        b"ee 1 6\n1 aaaaaaaa00000003 aaaaaaaaaaaaaaaa - - 0000000a00000001 -\n\
          0 aaaaaaaa00000002 aaaaaaaaaaaaaaaa - aaaaaaaaaaaaaaaa 0000000a00000001 0000000b00ff0001\n",
        1,
        1,
    ),
    // The erasing word of the live set isn't erased any more, and a word behind the
    // free slot isn't either.
    (
        b"ee 1 7\n0 - - - - - - -\n0 aaaaaaaa00000005 aaaaaaaaaaaaaaaa - 0000000000000007 0000000a00000001 - ?\n",
        b"ee 1 7\n0 aaaaaaaa00000006 aaaaaaaaaaaaaaaa - - 0000000a00000001 - -\n\
          0 aaaaaaaa00000005 aaaaaaaaaaaaaaaa - 0000000000000007 0000000a00000001 - ?\n",
        2,
        1,
    ),
];

// The image that a rescue leaves of a device, and what it tells.
fn rescued<F: Flash + Drop>(
    rt: &impl Abort,
    memory: Global,
    mut flash: F,
) -> (Vec<u8>, Result<Rescued, RescueFault>) {
    flash.power_on();
    let (flash, told) = match rescue(flash) {
        Ok((store, told)) => (store.into_flash(), Ok(told)),
        Err((flash, fault)) => (flash, Err(fault)),
    };
    (text_of(rt, memory, &flash), told)
}

#[test]
fn a_rescue_leaves_a_store(rt: HostRuntime) {
    for (image, wanted, bad_words, live) in ROWS {
        let (text, told) = rescued(&rt, rt.alloc(), device(&rt, rt.alloc(), image));
        same(&rt, image, text.as_slice(), wanted);
        same(&rt, image, told, Ok(Rescued { bad_words, live }));
    }
}

/// Nothing is rescued of a part on which nothing was begun, nor above the greatest generation.
#[test]
fn a_rescue_that_is_refused(rt: HostRuntime) {
    for (image, fault) in REFUSED {
        let (text, told) = rescued(&rt, rt.alloc(), device(&rt, rt.alloc(), image));
        same(&rt, image, text.as_slice(), image);
        same(&rt, image, told, Err(fault));
    }
}

const REFUSED: [(&[u8], RescueFault); 2] = [
    (
        b"ee 1 5\n0 aaaaaaaa00000001 - - - -\n0 - - - - ?\n",
        RescueFault::NothingBegun,
    ),
    (
        b"ee 1 5\n0 aaaaaaaafffffffe ? - - -\n0 - - - - -\n",
        RescueFault::Spent,
    ),
];

//! A format of a device that is not blank: the order of its steps, and how many it takes.
//! No command makes one.
use crate::tests::{device, same, text_of};
use ee_flash::{Flash, Fuse, MemFlash, Tear};
use ee_store::format;
use std::alloc::Global;
use std::process::Abort;

// What a format leaves of a device that is on.
fn formatted<F: Flash + Drop>(mut flash: F) -> F {
    flash.power_on();
    match format(flash) {
        Ok(store) => store.into_flash(),
        Err((flash, _)) => flash,
    }
}

// Whether a device is on behind a format, which leaves this image, and how many steps it took.
fn power_and_steps(rt: &impl Abort, memory: Global, flash: MemFlash, image: &[u8]) -> (bool, u64) {
    let flash = formatted(flash);
    same(rt, "image", text_of(rt, memory, &flash).as_slice(), image);
    (flash.is_on(), flash.steps())
}

/// A format erases the pages that are not blank by rising page, and leaves a blank one alone.
#[test]
fn a_format_erases_the_lowest_page_first(rt: HostRuntime) {
    let written = b"ee 2 5\n7 - - - - -\n8 - - - - ?\n9 - - - - -\n5 - - 0000000000000000 - -\n";
    let image =
        b"ee 2 5\n7 aaaaaaaa00000001 aaaaaaaaaaaaaaaa - - -\n9 - - - - -\n9 - - - - -\n6 - - - - -\n";
    let (is_on, steps) = power_and_steps(&rt, rt.alloc(), device(&rt, rt.alloc(), written), image);
    same(&rt, "power", is_on, true);
    // Two erases, the receive word, the active mark.
    same(&rt, "steps", steps, 4);
}

/// So behind its first step the lowest page is erased alone.
#[test]
fn a_format_that_is_cut(rt: HostRuntime) {
    let mut flash = device(&rt, rt.alloc(), b"ee 1 5\n0 - - - - ?\n0 - - - - ?\n");
    flash.arm(Fuse {
        after: 1,
        tear: Tear::Nothing,
    });
    let (is_on, _) = power_and_steps(
        &rt,
        rt.alloc(),
        flash,
        b"ee 1 5\n1 - - - - -\n1 - - - - ?\n",
    );
    same(&rt, "power", is_on, false);
}

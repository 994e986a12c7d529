//! What a scan finds of devices that are made cell by cell, and the words in the slots of the live
//! set.
use crate::tests::{device, same, shape};
use ee_codec::MARK;
use ee_fakes::images::ONE_MOVE;
use ee_flash::{Flash, MemFlash, Word};
use ee_pages::{Layout, ScanFault, Side, scan, slot_word};
use std::alloc::Global;
use std::process::Abort;

/// The word that a letter stands for: erased, torn, a mark, the receive word of the first or the
/// second generation, or else 10 at address 1.
fn word_of(letter: u8) -> Word {
    match letter {
        b'-' => Word::Erased,
        b'?' => Word::Torn,
        b'm' => Word::Held(MARK),
        b'1' => Word::Held(0xaaaa_aaaa_0000_0001),
        b'2' => Word::Held(0xaaaa_aaaa_0000_0002),
        _ => Word::Held(0x0000_000a_0000_0001),
    }
}

/// The device of these numbers of pages and words with a cell for each letter, page by page, and
/// with no wear.
fn device_of(
    rt: &impl Abort,
    memory: Global,
    pages: usize,
    words: usize,
    cells: &[u8],
) -> MemFlash {
    let mut list = Vec::new(memory);
    for letter in cells {
        if *letter != b' ' {
            list.push(word_of(*letter)).expect(rt, "no room");
        }
    }
    let wear = vec![in memory; 0u64; pages.saturating_mul(2)].expect(rt, "no room");
    MemFlash::from_cells(shape(rt, pages, words), list, wear)
        .ok()
        .expect(rt, "no device")
}

/// The first set, of the first generation, with so many slots used, all on its first page.
fn first(fill: usize) -> Result<Layout, ScanFault> {
    Ok(Layout {
        side: Side::First,
        generation: 1,
        fill,
        current: 0,
    })
}

/// The first word that may not stand where it does.
fn foreign(page: usize, at: usize) -> Result<Layout, ScanFault> {
    Err(ScanFault::Foreign { page, at })
}

#[test]
fn scans_of_cells(rt: HostRuntime) {
    for (pages, words, cells, wanted) in [
        (1, 6, b"1m---- ------".as_slice(), first(0)),
        (1, 6, b"1m---- 1m----", Err(ScanFault::TwoLive)),
        (1, 6, b"------ ------", Err(ScanFault::Unformatted)),
        // The mark that commits is torn.
        (1, 6, b"1?---- ------", Err(ScanFault::NoLiveSet)),
        // The second slot is used, and the first isn't.
        (1, 6, b"1m---e ------", foreign(0, 5)),
        // The second page is begun, and the first isn't full.
        (2, 5, b"1m--- 1---- ----- -----", foreign(1, 0)),
        // It isn't of the live generation.
        (2, 5, b"1m--e 2---- ----- -----", foreign(1, 0)),
        // The live set waits to be erased.
        (2, 5, b"1m-m- ----- ----- -----", foreign(0, 3)),
        // Torn words are legal there, and a torn slot is used.
        (2, 5, b"1m?-? ??--- ----- -----", first(1)),
    ] {
        let flash = device_of(&rt, rt.alloc(), pages, words, cells);
        same(&rt, cells, scan(&flash), wanted);
    }
}

// The word in a slot of the live set, if there is such a slot.
fn word_in<F: Flash>(flash: &F, slot: usize) -> Option<Word> {
    let layout = scan(flash).ok()?;
    if slot >= flash.shape().slots() {
        return None;
    }
    Some(slot_word(flash, &layout, slot))
}

#[test]
fn words_in_slots(rt: HostRuntime) {
    let flash = device(&rt, rt.alloc(), ONE_MOVE);
    for (slot, wanted) in [
        (0, Some(Word::Held(0x0000_000c_0000_0001))),
        (1, Some(Word::Erased)),
        (2, None),
    ] {
        same(&rt, slot, word_in(&flash, slot), wanted);
    }
}

//! Values from outside that no command shows: the words of the store, and the largest texts.
use crate::tests::{address, device, same, shape, text_of};
use ee_codec::{
    MARK, MarkRead, Slot, element_word, forget_word, read_mark, read_receive, read_slot,
    receive_word,
};
use ee_flash::{Flash, MemFlash, Word};
use ee_image::{ImageFault, read_image};

/// What a word says in the place of a slot: its kind, and of an element or a forgetting its address
/// and value, else zeros.
type InSlot = (&'static str, u16, u32);

/// What a word says in the place of a slot, of a receive word and of a mark.
type Said = (InSlot, Option<u32>, MarkRead);

fn in_slot(word: Word) -> InSlot {
    match read_slot(word) {
        Slot::Free => ("free", 0, 0),
        Slot::Spoiled => ("spoiled", 0, 0),
        Slot::Element { address, value } => ("element", address.get(), value),
        Slot::Forgotten { address, value } => ("forgotten", address.get(), value),
        Slot::Foreign => FOREIGN,
    }
}

const FOREIGN: InSlot = ("foreign", 0, 0);

/// What a word says that is nothing in any place.
const NOTHING: Said = (FOREIGN, None, MarkRead::Foreign);

fn said(word: Word) -> Said {
    (in_slot(word), read_receive(word), read_mark(word))
}

/// Addresses with values, and the word of each.
const ELEMENTS: [(u16, u32, u64); 6] = [
    (1, 1, 0x0000_0001_0000_0001),
    (1, 10, 0x0000_000a_0000_0001),
    (1, 13, 0x0000_000d_0000_0001),
    (2, 5, 0x0000_0005_0000_0002),
    (65534, 4_294_967_295, 0xffff_ffff_0000_fffe),
    (1, 0, 0x0000_0000_0000_0001),
];

#[test]
fn elements(rt: HostRuntime) {
    for (number, value, word) in ELEMENTS {
        same(&rt, word, element_word(address(&rt, number), value), word);
        let wanted = (("element", number, value), None, MarkRead::Foreign);
        same(&rt, word, said(Word::Held(word)), wanted);
    }
}

/// Other words, and what each says.
const READ: [(Word, Said); 12] = [
    (Word::Erased, (("free", 0, 0), None, MarkRead::Absent)),
    (Word::Torn, (("spoiled", 0, 0), None, MarkRead::Broken)),
    (
        Word::Held(0x0000_000a_0001_0001),
        (("forgotten", 1, 10), None, MarkRead::Foreign),
    ),
    (Word::Held(0x0000_000a_0002_0001), NOTHING),
    (Word::Held(0x0000_000a_0000_0000), NOTHING),
    (Word::Held(0x0000_000a_0000_ffff), NOTHING),
    (Word::Held(0x0000_0000_0000_0000), NOTHING),
    (Word::Held(0xaaaa_aaaa_0000_0000), NOTHING),
    (Word::Held(0xaaaa_aaaa_ffff_ffff), NOTHING),
    (
        Word::Held(0xaaaa_aaaa_0000_0001),
        (("element", 1, 2_863_311_530), Some(1), MarkRead::Foreign),
    ),
    (
        Word::Held(0xaaaa_aaaa_ffff_fffe),
        (FOREIGN, Some(4_294_967_294), MarkRead::Foreign),
    ),
    // By its place alone the mark is a receive word.
    (
        Word::Held(0xaaaa_aaaa_aaaa_aaaa),
        (FOREIGN, Some(2_863_311_530), MarkRead::Present),
    ),
];

#[test]
fn words_that_are_read(rt: HostRuntime) {
    for (word, wanted) in READ {
        same(&rt, word, said(word), wanted);
    }
}

#[test]
fn words_that_are_written(rt: HostRuntime) {
    let found = [
        forget_word(address(&rt, 1), 10),
        receive_word(1),
        receive_word(4_294_967_294),
        MARK,
    ];
    let wanted = [
        0x0000_000a_0001_0001,
        0xaaaa_aaaa_0000_0001,
        0xaaaa_aaaa_ffff_fffe,
        0xaaaa_aaaa_aaaa_aaaa,
    ];
    same(&rt, "words", found, wanted);
}

#[test]
fn the_largest_image(rt: HostRuntime) {
    let blank = MemFlash::blank(rt.alloc(), shape(&rt, 64, 512)).expect(&rt, "no device");
    let out = text_of(&rt, rt.alloc(), &blank);
    same(&rt, "length", out.len(), 10 + 128 * (2 + 1024));
    let largest = device(&rt, rt.alloc(), out.as_slice());
    same(&rt, "slots", largest.shape().slots(), 32512);
}

#[test]
fn the_longest_text(rt: HostRuntime) {
    let long = vec![in rt.alloc(); b'-'; 4_194_305].expect(&rt, "no text");
    let fault = read_image(rt.alloc(), long.as_slice()).err();
    same(&rt, "too long", fault, Some(ImageFault::TooLong));
    let fault = read_image(rt.alloc(), &long[1..]).err();
    same(
        &rt,
        "as long as it may be",
        fault,
        Some(ImageFault::BadLine(1)),
    );
}

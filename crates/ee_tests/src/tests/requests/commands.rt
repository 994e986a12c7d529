//! The commands over bytes.
use ee_fakes::images::{
    CERTIFICATE, CLEANED, FORMATTED, ONE_MOVE, REPORT, SCRIPT, TIDIED, TWO_MOVES, VOLUME,
};
use ee_flash::Shape;
use ee_pages::ScanFault;
use ee_shell::{
    Fault, Form, ImageAndText, Language, ReplayFault, Replayed, apply_values, check_script,
    clean_image, export_hex, export_image, fault_line, forget_all, format_image, get_setting,
    header_text, import_hex, import_image, import_xcube, inspect_text, list_text, plan_script,
    replay, replay_indexed, replay_reader, rescue_image, set_setting, size_parts, stale_text,
    states_text, tidy_image, try_script, unset_setting, verify_values, wear_text,
};
use std::alloc::{Allocator, Global};

// What a fault says of a call: none is a usual answer, but for want of memory.
fn met(fault: Fault) -> Option<bool> {
    match fault {
        Fault::Memory => None,
        _ => Some(false),
    }
}

// Whether these bytes were given, or none for want of memory.
pub fn gives<A: Allocator>(given: Result<Vec<u8, A>, Fault>, wanted: &[u8]) -> Option<bool> {
    match given {
        Ok(text) => Some(text.as_slice() == wanted),
        Err(fault) => met(fault),
    }
}

/// With 10 written at address 1.
pub const TEN: &[u8] = b"ee 1 6
0 aaaaaaaa00000001 aaaaaaaaaaaaaaaa - - 0000000a00000001 -
0 - - - - - -
";

/// The same, with address 1 forgotten.
const FORGOTTEN: &[u8] = b"ee 1 6
0 aaaaaaaa00000001 aaaaaaaaaaaaaaaa - - 0000000a00000001 0000000a00010001
0 - - - - - -
";

/// With 10 at address 1, and then all addresses forgotten.
const EMPTIED: &[u8] = b"ee 1 6
0 aaaaaaaa00000001 aaaaaaaaaaaaaaaa - aaaaaaaaaaaaaaaa 0000000a00000001 -
0 aaaaaaaa00000002 aaaaaaaaaaaaaaaa - - - -
";

/// With 10 at address 1 and a word that no store wrote, and rescued from that.
const BAD: &[u8] = b"ee 1 6
0 aaaaaaaa00000001 aaaaaaaaaaaaaaaa - - 0000000a00000001 0000000b00000000
0 - - - - - -
";

const RESCUED: &[u8] = b"ee 1 6
0 aaaaaaaa00000001 aaaaaaaaaaaaaaaa - aaaaaaaaaaaaaaaa 0000000a00000001 0000000b00000000
0 aaaaaaaa00000002 aaaaaaaaaaaaaaaa - - 0000000a00000001 -
";

/// The part of the formatted image, as bytes and as Intel HEX from 0807f000 on.
pub const DUMP: &[u8] = b"\x01\x00\x00\x00\xaa\xaa\xaa\xaa\xaa\xaa\xaa\xaa\xaa\xaa\xaa\xaa\
\xff\xff\xff\xff\xff\xff\xff\xff\xff\xff\xff\xff\xff\xff\xff\xff\
\xff\xff\xff\xff\xff\xff\xff\xff\xff\xff\xff\xff\xff\xff\xff\xff\
\xff\xff\xff\xff\xff\xff\xff\xff\xff\xff\xff\xff\xff\xff\xff\xff\
\xff\xff\xff\xff\xff\xff\xff\xff\xff\xff\xff\xff\xff\xff\xff\xff\
\xff\xff\xff\xff\xff\xff\xff\xff\xff\xff\xff\xff\xff\xff\xff\xff";

pub const HEX: &[u8] = b":020000040807EB
:10F0000001000000AAAAAAAAAAAAAAAAAAAAAAAA07
:10F01000FFFFFFFFFFFFFFFFFFFFFFFFFFFFFFFF00
:10F02000FFFFFFFFFFFFFFFFFFFFFFFFFFFFFFFFF0
:10F03000FFFFFFFFFFFFFFFFFFFFFFFFFFFFFFFFE0
:10F04000FFFFFFFFFFFFFFFFFFFFFFFFFFFFFFFFD0
:10F05000FFFFFFFFFFFFFFFFFFFFFFFFFFFFFFFFC0
:00000001FF
";

/// What is found in it.
pub const SCAN: &[u8] = b"scan ok
set 0 generation 1 fill 0 room 2 live 0 pending 0 superseded 0 torn 0\n";

/// The bytes of that part where it has each word beside its complement.
pub const PAIRS: &[u8] = b"\x01\x00\x00\x00\xaa\xaa\xaa\xaa\xfe\xff\xff\xff\x55\x55\x55\x55\
\xaa\xaa\xaa\xaa\xaa\xaa\xaa\xaa\x55\x55\x55\x55\x55\x55\x55\x55\
\xff\xff\xff\xff\xff\xff\xff\xff\xff\xff\xff\xff\xff\xff\xff\xff\
\xff\xff\xff\xff\xff\xff\xff\xff\xff\xff\xff\xff\xff\xff\xff\xff\
\xff\xff\xff\xff\xff\xff\xff\xff\xff\xff\xff\xff\xff\xff\xff\xff\
\xff\xff\xff\xff\xff\xff\xff\xff\xff\xff\xff\xff\xff\xff\xff\xff\
\xff\xff\xff\xff\xff\xff\xff\xff\xff\xff\xff\xff\xff\xff\xff\xff\
\xff\xff\xff\xff\xff\xff\xff\xff\xff\xff\xff\xff\xff\xff\xff\xff\
\xff\xff\xff\xff\xff\xff\xff\xff\xff\xff\xff\xff\xff\xff\xff\xff\
\xff\xff\xff\xff\xff\xff\xff\xff\xff\xff\xff\xff\xff\xff\xff\xff\
\xff\xff\xff\xff\xff\xff\xff\xff\xff\xff\xff\xff\xff\xff\xff\xff\
\xff\xff\xff\xff\xff\xff\xff\xff\xff\xff\xff\xff\xff\xff\xff\xff";

/// The bytes of that part where it has coded words, by `docs/coded.py`.
pub const CODED: &[u8] = b"\x01\x00\x56\x73\xaa\xaa\xaa\xaa\x00\x00\xdf\xea\x06\x00\x01\x00\
\xff\xff\xff\xff\xff\xff\xff\xff\xff\xff\xff\xff\xff\xff\xff\xff\
\xff\xff\xff\xff\xff\xff\xff\xff\xff\xff\xff\xff\xff\xff\xff\xff\
\xff\xff\xff\xff\xff\xff\xff\xff\xff\xff\xff\xff\xff\xff\xff\xff\
\xff\xff\xff\xff\xff\xff\xff\xff\xff\xff\xff\xff\xff\xff\xff\xff\
\xff\xff\xff\xff\xff\xff\xff\xff\xff\xff\xff\xff\xff\xff\xff\xff";

/// The bytes of X-CUBE-EEPROM in which the setting is 10.
pub const XCUBE: &[u8] = b"\
\xff\xff\xff\xff\xff\xff\xff\xff\xaa\xaa\xaa\xaa\xaa\xaa\xaa\xaa\
\xff\xff\xff\xff\xff\xff\xff\xff\xff\xff\xff\xff\xff\xff\xff\xff\
\x01\x00\x55\x80\x0a\x00\x00\x00\xff\xff\xff\xff\xff\xff\xff\xff\
\xff\xff\xff\xff\xff\xff\xff\xff\xff\xff\xff\xff\xff\xff\xff\xff\
\xff\xff\xff\xff\xff\xff\xff\xff\xff\xff\xff\xff\xff\xff\xff\xff\
\xff\xff\xff\xff\xff\xff\xff\xff\xff\xff\xff\xff\xff\xff\xff\xff";

/// The header of the schema.
pub const HEADER: &[u8] = b"// Made by `ee header --rust` from a file of settings.

pub const VOLUME_ADDRESS: u16 = 1;
pub const VOLUME_MIN: u32 = 0;
pub const VOLUME_MAX: u32 = 10;
pub const VOLUME_DEFAULT: u32 = 5;

// Name, address, min, max, default.
pub const SETTINGS: [(&str, u16, u32, u32, u32); 1] = [
    (\"VOLUME\", 1, 0, 10, 5),
];
";

/// A command that gives a text.
#[derive(Clone, Copy)]
pub enum Text {
    Format,
    States,
    Wear,
    WearSince,
    Plan,
    Check,
    Get,
    Stale,
    List,
    ListNamed,
    Import,
    Export,
    ImportPairs,
    ExportPairs,
    ImportCoded,
    ExportCoded,
    ImportHex,
    ExportHex,
    ImportXcube,
    Inspect,
    Header,
    Verify,
}

pub const BASE: u32 = 0x0807_f000;

/// The states of the pages after one move, and the wear after two.
pub const STATES: &[u8] = b"page 0 ERASING\npage 1 ACTIVE\n";

pub const WEAR: &[u8] = b"page 0 wear 1\npage 1 wear 0\ntotal 1 least 0 greatest 1\n";

/// The wear that came by tidying.
pub const WEAR_SINCE: &[u8] = b"page 0 wear 0\npage 1 wear 1\ntotal 1 least 0 greatest 1\n";

pub const PROVED: &[u8] = b"proved 2\n";

pub const STORED: &[u8] = b"10 stored\n";

/// After two moves, the setting that is stale, and the values without settings and with them.
pub const STALE: &[u8] = b"volume 13\n";

pub const LISTED: &[u8] = b"1 13\n2 5\n";

pub const NAMED: &[u8] = b"1 13 stale volume\n2 5\n";

/// What differs then from the greatest value of the setting.
pub const DIFFERENCE: &[u8] = b"volume 13 stale wanted 10\n";

// What it gives. The tables of settings are read on the heap.
fn text_of<A: Allocator + Copy>(
    text: Text,
    alloc: A,
    heap: Global,
    shape: Shape,
) -> Result<Vec<u8, A>, Fault> {
    match text {
        Text::Format => format_image(alloc, shape),
        Text::States => states_text(alloc, ONE_MOVE),
        Text::Wear => wear_text(alloc, TWO_MOVES, None),
        Text::WearSince => wear_text(alloc, TIDIED, Some(TWO_MOVES)),
        Text::Plan => plan_script(alloc, FORMATTED, SCRIPT),
        Text::Check => check_script(alloc, FORMATTED, SCRIPT, CERTIFICATE),
        Text::Get => get_setting(alloc, heap, TEN, VOLUME, "volume"),
        Text::Stale => stale_text(alloc, heap, TWO_MOVES, VOLUME),
        Text::List => list_text(alloc, heap, TWO_MOVES, None),
        Text::ListNamed => list_text(alloc, heap, TWO_MOVES, Some(VOLUME)),
        Text::Import => import_image(alloc, shape, Form::Words, DUMP),
        Text::Export => export_image(alloc, Form::Words, FORMATTED),
        Text::ImportPairs => import_image(alloc, shape, Form::Pairs, PAIRS),
        Text::ExportPairs => export_image(alloc, Form::Pairs, FORMATTED),
        Text::ImportCoded => import_image(alloc, shape, Form::Coded, CODED),
        Text::ExportCoded => export_image(alloc, Form::Coded, FORMATTED),
        Text::ImportHex => import_hex(alloc, shape, Form::Words, BASE, HEX),
        Text::ExportHex => export_hex(alloc, true, Form::Words, FORMATTED, BASE),
        Text::ImportXcube => import_xcube(alloc, shape, XCUBE),
        Text::Inspect => inspect_text(alloc, FORMATTED),
        Text::Header => header_text(alloc, heap, VOLUME, Language::Rust),
        Text::Verify => {
            let verified = verify_values(alloc, heap, TWO_MOVES, VOLUME, b"volume = 10\n")?;
            Ok(verified.text)
        }
    }
}

/// Whether it gives this text.
pub fn text_given<A: Allocator + Copy>(
    text: Text,
    alloc: A,
    heap: Global,
    wanted: &[u8],
) -> Option<bool> {
    gives(text_of(text, alloc, heap, Shape::new(1, 6)?), wanted)
}

// Whether this image and this text were given.
fn gives_both<A: Allocator>(
    given: Result<ImageAndText<A>, Fault>,
    image: &[u8],
    text: &[u8],
) -> Option<bool> {
    match given {
        Ok(left) => Some(left.image.as_slice() == image && left.text.as_slice() == text),
        Err(fault) => met(fault),
    }
}

// Whether this report and this image were given.
pub fn replays<A: Allocator>(
    given: Result<Replayed<A>, ReplayFault>,
    report: &[u8],
    image: &[u8],
) -> Option<bool> {
    match given {
        Ok(replayed) => {
            Some(replayed.report.as_slice() == report && replayed.image.as_slice() == image)
        }
        Err(fault) => met(Fault::from(fault)),
    }
}

/// A command that gives an image beside a text.
#[derive(Clone, Copy)]
pub enum Change {
    Clean,
    Rescue,
    ForgetAll,
    Set,
    Unset,
    Tidy,
    Apply,
}

/// Whether it gives its image and its text. The tables of settings are read on the heap.
pub fn change_given<A: Allocator + Copy>(change: Change, alloc: A, heap: Global) -> Option<bool> {
    let (given, image, text): (_, _, &[u8]) = match change {
        Change::Clean => (clean_image(alloc, ONE_MOVE), CLEANED, b"cleaned 1\n"),
        Change::Rescue => {
            let given = rescue_image(alloc, BAD);
            (given, RESCUED, b"bad 0 5 slot\nrescued live 1 bad 1\n")
        }
        Change::ForgetAll => (forget_all(alloc, true, TEN), EMPTIED, b"forgotten 1\n"),
        Change::Set => {
            let given = set_setting(alloc, heap, FORMATTED, VOLUME, "volume", 10);
            (given, TEN, b"set\n")
        }
        Change::Unset => {
            let given = unset_setting(alloc, heap, TEN, VOLUME, "volume");
            (given, FORGOTTEN, b"unset\n")
        }
        Change::Tidy => {
            let given = tidy_image(alloc, heap, TWO_MOVES, VOLUME);
            (given, TIDIED, b"tidied 1\n")
        }
        Change::Apply => {
            let given = apply_values(alloc, heap, FORMATTED, VOLUME, b"volume = 10\n");
            (given, TEN, b"applied 1 of 1\n")
        }
    };
    gives_both(given, image, text)
}

/// How the script is answered.
#[derive(Clone, Copy)]
pub enum Replay {
    Plain,
    Indexed,
    Reader,
}

// What it gives over an image.
fn replayed<A: Allocator + Copy>(
    how: Replay,
    alloc: A,
    image: &[u8],
) -> Result<Replayed<A>, ReplayFault> {
    let mut reader = SCRIPT;
    match how {
        Replay::Plain => replay(alloc, image, SCRIPT),
        Replay::Indexed => replay_indexed(alloc, image, SCRIPT),
        Replay::Reader => replay_reader(alloc, image, &mut reader),
    }
}

/// Whether it makes the two moves.
pub fn moves_made<A: Allocator + Copy>(how: Replay, alloc: A) -> Option<bool> {
    replays(replayed(how, alloc, FORMATTED), REPORT, TWO_MOVES)
}

/// Whether they are made on a device that is formatted for them.
pub fn moves_tried<A: Allocator + Copy>(alloc: A) -> Option<bool> {
    let tried = try_script(alloc, Shape::new(1, 6)?, SCRIPT);
    replays(tried, REPORT, TWO_MOVES)
}

/// Not formatted.
const BLANK: &[u8] = b"ee 1 6\n0 - - - - - -\n0 - - - - - -\n";

/// Whether the fault is that the image is not formatted.
pub fn unformatted<A: Allocator + Copy>(how: Replay, alloc: A) -> Option<bool> {
    match replayed(how, alloc, BLANK) {
        Err(ReplayFault::Open(ScanFault::Unformatted)) => Some(true),
        Err(fault) => met(Fault::from(fault)),
        Ok(_) => Some(false),
    }
}

/// Ten writes of two addresses in all.
pub fn sizes_given<A: Allocator + Copy>(alloc: A) -> Option<bool> {
    let front = b"pages 1 slots 2 transfers 8 erases 4 least 4 limit 0 worn for all
pages 2 slots 4 transfers 2 erases 1 least 1 limit 0 enough\n";
    match size_parts(alloc, 6, b"w 1 1\nw 2 2\nr 1\n", 3, 5) {
        Ok(sizes) => Some(sizes.some_enough && sizes.text.as_slice().starts_with(front)),
        Err(fault) => met(fault),
    }
}

pub fn fault_told<A: Allocator + Copy>(alloc: A, fault: Fault, line: &[u8]) -> Option<bool> {
    match fault_line(alloc, &fault) {
        Ok(text) => Some(text.as_slice() == line),
        Err(_) => None,
    }
}

//! Each call that allocates: its answer with ample memory, and want of memory wherever one of its
//! requests is refused.
mod certificates;
mod commands;
mod indexes;
mod plans;
mod schemas;
mod stores;
mod texts;

use crate::tests::same;
use commands::{
    CODED, Change, DIFFERENCE, DUMP, HEADER, HEX, LISTED, NAMED, PAIRS, PROVED, Replay, SCAN,
    STALE, STATES, STORED, TEN, Text, WEAR, WEAR_SINCE,
};
use ee_fakes::images::{CERTIFICATE, CLEANED, FORMATTED, SCRIPT, TIDIED, TWO_MOVES};
use ee_fakes::{FailingReader, Refusing};
use ee_shell::{Fault, File, ReadFault, read_whole};
use plans::{NO_MOVE, ONE_SLOT, TWO_SLOTS, Task};
use std::alloc::{Allocator, Global};
use std::io::ErrorKind;
use std::process::Abort;
use texts::{
    ANSWERS, BLANK, Bytes, Device, END_AND_CERTIFICATE, END_AND_IMAGE, FIRST, FIRST_HEX, Pushed,
};

/// A call, on arguments of its own.
#[derive(Clone, Copy)]
enum Call {
    BlankList,
    Drive,
    Index(stores::Task),
    CheckThousand,
    ReadWhole,
    SizeParts,
    FaultLine(Fault, &'static [u8]),
    Text(Text, &'static [u8]),
    Change(Change),
    Try,
    Replay(Replay),
    ReplayBlank(Replay),
    Plans(plans::Task),
    Schema(schemas::Task),
    Device(Device, &'static [u8]),
    Bytes(Bytes, &'static [u8]),
    Pushed(Pushed, &'static [u8]),
}

const UNREAD: Fault = Fault::CannotRead(File::Script);

const BAD_LINE: Fault = Fault::BadLine {
    file: File::Certificate,
    line: 12,
};

/// The calls, each with the least number of its requests.
const CALLS: &[(Call, u64)] = &[
    (Call::BlankList, 2),
    (Call::Drive, 2),
    (Call::Index(stores::Task::Open), 1),
    (Call::Index(stores::Task::Write), 2),
    (Call::Index(stores::Task::WriteAll), 2),
    (Call::CheckThousand, 2),
    (Call::ReadWhole, 2),
    (Call::SizeParts, 6),
    (Call::FaultLine(UNREAD, b"ee: cannot read script\n"), 1),
    (Call::FaultLine(BAD_LINE, b"ee: certificate line 12\n"), 1),
    (Call::FaultLine(Fault::Memory, b"ee: out of memory\n"), 1),
    (Call::Text(Text::Format, FORMATTED), 3),
    (Call::Text(Text::States, STATES), 3),
    (Call::Text(Text::Wear, WEAR), 4),
    (Call::Text(Text::WearSince, WEAR_SINCE), 7),
    (Call::Text(Text::Plan, CERTIFICATE), 5),
    (Call::Text(Text::Check, PROVED), 5),
    (Call::Text(Text::Get, STORED), 4),
    (Call::Text(Text::Stale, STALE), 7),
    (Call::Text(Text::List, LISTED), 6),
    (Call::Text(Text::ListNamed, NAMED), 6),
    (Call::Text(Text::Import, FORMATTED), 3),
    (Call::Text(Text::Export, DUMP), 3),
    (Call::Text(Text::ImportPairs, FORMATTED), 3),
    (Call::Text(Text::ExportPairs, PAIRS), 3),
    (Call::Text(Text::ImportCoded, FORMATTED), 3),
    (Call::Text(Text::ExportCoded, CODED), 3),
    (Call::Text(Text::ImportHex, FORMATTED), 4),
    (Call::Text(Text::ExportHex, HEX), 4),
    (Call::Text(Text::ImportXcube, TEN), 6),
    (Call::Text(Text::Inspect, SCAN), 3),
    (Call::Text(Text::Header, HEADER), 2),
    (Call::Text(Text::Verify, DIFFERENCE), 3),
    (Call::Change(Change::Clean), 4),
    (Call::Change(Change::Rescue), 4),
    (Call::Change(Change::ForgetAll), 4),
    (Call::Change(Change::Set), 5),
    (Call::Change(Change::Unset), 5),
    (Call::Change(Change::Tidy), 6),
    (Call::Change(Change::Apply), 5),
    (Call::Try, 5),
    (Call::Replay(Replay::Plain), 5),
    (Call::Replay(Replay::Indexed), 5),
    (Call::Replay(Replay::Reader), 5),
    (Call::ReplayBlank(Replay::Plain), 1),
    (Call::ReplayBlank(Replay::Indexed), 1),
    (Call::ReplayBlank(Replay::Reader), 1),
    (Call::Plans(Task::Plan(&TWO_SLOTS)), 3),
    (Call::Plans(Task::Plan(&ONE_SLOT)), 3),
    (Call::Plans(Task::Plan(&NO_MOVE)), 1),
    (Call::Plans(Task::Check(&TWO_SLOTS)), 1),
    (Call::Plans(Task::Check(&ONE_SLOT)), 1),
    (Call::Plans(Task::Read(&TWO_SLOTS)), 1),
    (Call::Plans(Task::Rounds), 3),
    (Call::Plans(Task::Start), 2),
    (Call::Plans(Task::Live), 1),
    (Call::Plans(Task::LiveSet), 1),
    (Call::Plans(Task::Ledger), 1),
    (Call::Plans(Task::Since), 1),
    (Call::Schema(schemas::Task::Read), 1),
    (Call::Schema(schemas::Task::Entries), 1),
    (Call::Schema(schemas::Task::Stale), 1),
    (Call::Schema(schemas::Task::List), 1),
    (Call::Device(Device::Blank, BLANK), 2),
    (Call::Device(Device::Image, TWO_MOVES), 2),
    (Call::Device(Device::Dump, FORMATTED), 2),
    (Call::Bytes(Bytes::Dump, DUMP), 1),
    (Call::Bytes(Bytes::FromHex, FIRST), 1),
    (Call::Bytes(Bytes::Hex, FIRST_HEX), 1),
    (Call::Bytes(Bytes::Script, ANSWERS), 1),
    (Call::Bytes(Bytes::Pieces, ANSWERS), 1),
    (Call::Bytes(Bytes::Reader, ANSWERS), 1),
    (
        Call::Pushed(Pushed::Number, b"end\n18446744073709551615"),
        2,
    ),
    (
        Call::Pushed(Pushed::NumberBehind, b"end\nto 18446744073709551615"),
        2,
    ),
    (Call::Pushed(Pushed::Answer, b"end\n4294967295\n"), 2),
    (Call::Pushed(Pushed::Image, END_AND_IMAGE), 2),
    (Call::Pushed(Pushed::Certificate, END_AND_CERTIFICATE), 2),
];

/// Whether a call gives its usual answer, or `None` for want of memory.
fn answer<A: Allocator + Copy>(
    rt: &impl Abort,
    memory: Global,
    call: Call,
    alloc: A,
) -> Option<bool> {
    match call {
        Call::BlankList => stores::blank_list(alloc, rt),
        Call::Drive => stores::events_driven(alloc, rt, memory),
        Call::Index(task) => stores::done(task, alloc, rt, memory),
        Call::CheckThousand => certificates::thousand_checked(alloc, rt, memory),
        Call::ReadWhole => script_read(alloc),
        Call::SizeParts => commands::sizes_given(alloc),
        Call::FaultLine(fault, line) => commands::fault_told(alloc, fault, line),
        Call::Text(text, wanted) => commands::text_given(text, alloc, memory, wanted),
        Call::Change(change) => commands::change_given(change, alloc, memory),
        Call::Try => commands::moves_tried(alloc),
        Call::Replay(how) => commands::moves_made(how, alloc),
        Call::ReplayBlank(how) => commands::unformatted(how, alloc),
        Call::Plans(task) => plans::done(task, alloc, rt, memory),
        Call::Schema(task) => schemas::done(task, alloc, rt, memory),
        Call::Device(what, image) => texts::device_made(what, alloc, rt, memory, image),
        Call::Bytes(what, wanted) => texts::bytes_given(what, alloc, rt, memory, wanted),
        Call::Pushed(what, wanted) => texts::is_pushed(what, alloc, rt, memory, wanted),
    }
}

fn script_read<A: Allocator + Copy>(alloc: A) -> Option<bool> {
    let mut reader = FailingReader {
        rest: SCRIPT,
        most: 7,
        fails_at: 0,
        failure: ErrorKind::Other,
    };
    match read_whole(alloc, &mut reader) {
        Ok(bytes) => Some(bytes.as_slice() == SCRIPT),
        Err(ReadFault::Memory) => None,
        Err(_) => Some(false),
    }
}

// What is wrong with a run, if something is: with its answer, with a request refused or none, and
// with enough of them made or too few.
fn complaint(answer: Option<bool>, is_refused: bool, are_enough: bool) -> Option<&'static str> {
    match answer {
        Some(false) => Some("another answer"),
        None if !is_refused => Some("want of memory with nothing refused"),
        _ if !is_refused && !are_enough => Some("an end too soon"),
        _ => None,
    }
}

#[test]
fn each_complaint(rt: HostRuntime) {
    for (answer, is_refused, are_enough, wanted) in [
        (Some(false), true, true, Some("another answer")),
        (
            None,
            false,
            true,
            Some("want of memory with nothing refused"),
        ),
        (Some(true), false, false, Some("an end too soon")),
        (Some(true), true, false, None),
        (None, true, false, None),
        (Some(true), false, true, None),
    ] {
        same(
            &rt,
            answer,
            complaint(answer, is_refused, are_enough),
            wanted,
        );
    }
}

// Makes a call with its first request for memory refused, then with its second, and so on to a run
// in which none is, which is to make `least` requests or more. A failure names the call by its
// place in the table, from 0, and the request.
fn refuse_each(rt: &impl Abort, memory: Global, place: usize, row: &(Call, u64)) {
    let (call, least) = *row;
    for nth in 1..u64::MAX {
        let alloc = Refusing::new(memory, nth);
        let answer = answer(rt, memory, call, &alloc);
        let is_refused = alloc.has_refused();
        same(
            rt,
            (place, nth),
            complaint(answer, is_refused, nth > least),
            None,
        );
        if !is_refused {
            return;
        }
    }
    panic!(rt; "requests without end")
}

#[test]
fn each_request_is_refused_in_turn(rt: HostRuntime) {
    for (place, row) in CALLS.iter().enumerate() {
        refuse_each(&rt, rt.alloc(), place, row);
    }
}

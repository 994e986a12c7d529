//! Starts, live addresses, plans, checks, certificates' texts, rounds and ledgers.
use crate::tests::{address, device, opened};
use ee_check::{
    Certificate, Change, CheckFault, LiveSet, Start, TextFault, check, read_certificate,
    write_certificate,
};
use ee_codec::Address;
use ee_fakes::images::CERTIFICATE;
use ee_plan::{Demand, Plan, PlanFault, Rounds, RoundsFault, plan, start_of};
use ee_store::Variables;
use ee_wear::{Ledger, SinceFault};
use std::alloc::{AllocError, Allocator, Global};
use std::collections::BTreeSet;
use std::process::Abort;

/// A trace of writes whose plan was worked by hand, from a start with no slot used.
pub struct Worked {
    slots: u64,
    /// The addresses that are written.
    addresses: &'static [u16],
    moments: &'static [u64],
    room: u64,
    certificate: &'static [u8],
}

/// Two moves on two slots.
pub const TWO_SLOTS: Worked = Worked {
    slots: 2,
    addresses: &[1, 1, 1, 2, 1],
    moments: &[3, 5],
    room: 0,
    certificate: CERTIFICATE,
};

/// On one slot each write but the first moves.
pub const ONE_SLOT: Worked = Worked {
    slots: 1,
    addresses: &[1, 1, 1],
    moments: &[2, 3],
    room: 0,
    certificate: b"slots 1 fill 0 live 0 writes 3\nto 2 from 0\nto 3 from 1\ntransfers 2\n",
};

/// Two writes on three slots, of which a third stays free.
pub const NO_MOVE: Worked = Worked {
    slots: 3,
    addresses: &[1, 2],
    moments: &[],
    room: 1,
    certificate: b"slots 3 fill 0 live 0 writes 2\ntransfers 0\n",
};

/// A call of plans and ledgers.
#[derive(Clone, Copy)]
pub enum Task {
    Plan(&'static Worked),
    Check(&'static Worked),
    Read(&'static Worked),
    Rounds,
    Start,
    Live,
    LiveSet,
    Ledger,
    Since,
}

/// Whether it gives what was worked.
pub fn done<A: Allocator + Copy>(
    task: Task,
    alloc: A,
    rt: &impl Abort,
    memory: Global,
) -> Option<bool> {
    match task {
        Task::Plan(worked) => planned(alloc, rt, memory, worked),
        Task::Check(worked) => checked(alloc, rt, memory, worked),
        Task::Read(worked) => read(alloc, memory, worked.certificate),
        Task::Rounds => rounds_counted(alloc, rt, memory),
        Task::Start => started(alloc, rt, memory),
        Task::Live => live_changed(alloc, rt, memory),
        Task::LiveSet => live_set_changed(alloc, rt, memory),
        Task::Ledger => ledger_given(alloc, rt, memory),
        Task::Since => difference_given(alloc, rt, memory),
    }
}

// Its start.
fn start(rt: &impl Abort, memory: Global, worked: &Worked) -> Start {
    Start::new(worked.slots, 0, BTreeSet::new(memory)).expect(rt, "no start")
}

// Its trace.
fn trace(rt: &impl Abort, memory: Global, worked: &Worked) -> Vec<Change> {
    let mut trace = Vec::new(memory);
    for number in worked.addresses {
        let change = Change::Write(address(rt, *number));
        trace.push(change).expect(rt, "no room");
    }
    trace
}

// Whether a certificate has this text.
fn has_text<A: Allocator>(memory: Global, certificate: &Certificate<A>, text: &[u8]) -> bool {
    let mut out = Vec::new(memory);
    write_certificate(certificate, &mut out).is_ok() && out.as_slice() == text
}

// Whether a plan is the one that was worked.
fn is_worked<A: Allocator>(memory: Global, plan: &Plan<A>, worked: &Worked) -> bool {
    plan.transfers == worked.moments.len() as u64
        && plan.moments.as_slice() == worked.moments
        && plan.room == worked.room
        && has_text(memory, &plan.certificate, worked.certificate)
}

fn planned<A: Allocator + Copy>(
    alloc: A,
    rt: &impl Abort,
    memory: Global,
    worked: &Worked,
) -> Option<bool> {
    match plan(
        alloc,
        &start(rt, memory, worked),
        &trace(rt, memory, worked),
    ) {
        Ok(plan) => Some(is_worked(memory, &plan, worked)),
        Err(PlanFault::Memory) => None,
        Err(_) => Some(false),
    }
}

/// Whether a check gave this count, or none for want of memory.
pub fn counts(checked: Result<u64, CheckFault>, wanted: u64) -> Option<bool> {
    match checked {
        Ok(count) => Some(count == wanted),
        Err(CheckFault::Memory) => None,
        Err(_) => Some(false),
    }
}

fn checked<A: Allocator + Copy>(
    alloc: A,
    rt: &impl Abort,
    memory: Global,
    worked: &Worked,
) -> Option<bool> {
    let certificate = read_certificate(memory, worked.certificate).expect(rt, "no certificate");
    let start = start(rt, memory, worked);
    let checked = check(alloc, &start, &trace(rt, memory, worked), &certificate);
    counts(checked, worked.moments.len() as u64)
}

fn read<A: Allocator + Copy>(alloc: A, memory: Global, text: &[u8]) -> Option<bool> {
    match read_certificate(alloc, text) {
        Ok(certificate) => Some(has_text(memory, &certificate, text)),
        Err(TextFault::Memory) => None,
        Err(_) => Some(false),
    }
}

// Ten writes of two addresses in all, on two slots.
fn rounds_counted<A: Allocator + Copy>(alloc: A, rt: &impl Abort, memory: Global) -> Option<bool> {
    let changes = [Change::Write(address(rt, 1)), Change::Write(address(rt, 2))];
    let trace = changes.to_vec(alloc).ok()?;
    match Rounds::new(alloc, trace, 5) {
        Ok(rounds) => Some(rounds.changes() == 10 && rounds.demand(2) == Demand::Transfers(8)),
        Err(RoundsFault::Memory) => None,
        Err(_) => Some(false),
    }
}

/// Three slots of four used, by two addresses.
const NINE_TWO_NINE: &[u8] = b"ee 1 8
0 aaaaaaaa00000001 aaaaaaaaaaaaaaaa - - 0000000100000009 0000000100000002 0000000100000009 -
0 - - - - - - - -
";

// Whether these addresses alone are live.
fn are_live<A: Allocator>(rt: &impl Abort, live: &BTreeSet<Address, A>, numbers: [u16; 2]) -> bool {
    let [first, second] = numbers;
    live.len() == 2 && live.contains(&address(rt, first)) && live.contains(&address(rt, second))
}

// Whether a store starts there.
fn starts<A: Allocator + Copy, V: Variables>(alloc: A, rt: &impl Abort, store: &V) -> Option<bool> {
    if !store.is_on() {
        return Some(false);
    }
    let start = start_of(alloc, store).ok()?;
    let numbers = (start.slots(), start.fill());
    Some(numbers == (4, 3) && are_live(rt, start.live(), [2, 9]))
}

fn started<A: Allocator + Copy>(alloc: A, rt: &impl Abort, memory: Global) -> Option<bool> {
    starts(alloc, rt, &opened(rt, device(rt, memory, NINE_TWO_NINE)))
}

// A start where address 9 is live.
fn start_of_nine(rt: &impl Abort, memory: Global) -> Start {
    let mut live = BTreeSet::new(memory);
    live.insert(address(rt, 9)).expect(rt, "no room");
    Start::new(2, 1, live).expect(rt, "no start")
}

// What a change of address 2 leaves: two live addresses, or the one of before where
// there is no memory.
fn added(change: Result<(), AllocError>, count: u64) -> Option<bool> {
    match change {
        Ok(()) => Some(count == 2),
        Err(_) if count == 1 => None,
        Err(_) => Some(false),
    }
}

fn live_changed<A: Allocator + Copy>(alloc: A, rt: &impl Abort, memory: Global) -> Option<bool> {
    let mut live = start_of_nine(rt, memory).live_in(alloc).ok()?;
    let change = Change::Write(address(rt, 2)).make(&mut live);
    added(change, live.len() as u64)
}

fn live_set_changed<A: Allocator + Copy>(
    alloc: A,
    rt: &impl Abort,
    memory: Global,
) -> Option<bool> {
    let mut live = LiveSet::of(alloc, &start_of_nine(rt, memory), 1).ok()?;
    let change = live.make(Change::Write(address(rt, 2)));
    added(change, live.len())
}

/// Erased three times and five times, and earlier.
const WORN: &[u8] = b"ee 1 5\n3 - - - - -\n5 - - - - -\n";

const LESS_WORN: &[u8] = b"ee 1 5\n1 - - - - -\n5 - - - - -\n";

// Whether a ledger of two pages has this wear.
fn has_wear<A: Allocator>(ledger: &Ledger<A>, total: u128, least: u64, greatest: u64) -> bool {
    ledger.pages() == 2
        && ledger.total() == total
        && ledger.least() == least
        && ledger.greatest() == greatest
}

// The ledger of an image.
fn ledger(rt: &impl Abort, memory: Global, image: &[u8]) -> Ledger {
    Ledger::of(memory, &device(rt, memory, image)).expect(rt, "no ledger")
}

fn ledger_given<A: Allocator + Copy>(alloc: A, rt: &impl Abort, memory: Global) -> Option<bool> {
    let ledger = Ledger::of(alloc, &device(rt, memory, WORN)).ok()?;
    Some(has_wear(&ledger, 8, 3, 5))
}

fn difference_given<A: Allocator + Copy>(
    alloc: A,
    rt: &impl Abort,
    memory: Global,
) -> Option<bool> {
    let before = ledger(rt, memory, LESS_WORN);
    match ledger(rt, memory, WORN).since(alloc, &before) {
        Ok(since) => Some(has_wear(&since, 2, 0, 2)),
        Err(SinceFault::Memory) => None,
        Err(_) => Some(false),
    }
}

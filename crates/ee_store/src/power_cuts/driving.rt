//! A store at the bench: each event is one call, and after a cut in a change the
//! image is looked at.
ghost use Rattle.std.specs.Prelude.{◌≡◌, ◌↔◌, IfErr, IfOk, IsTrue};
ghost use Rattle.ee_pages.specs.Legal.{IsLegal};
ghost use Rattle.ee_core.specs.Points.{Point, open_point};
ghost use Rattle.ee_core.specs.Finished.{IsStore};
ghost use Rattle.ee_core.specs.Puts.{HasAll};
ghost use Rattle.ee_core.specs.State.{state_of};
ghost use Rattle.ee_store.specs.PowerCuts.Bench.{point_of_bench, turn_of};
ghost use Rattle.ee_store.specs.PowerCuts.Events.{IsEmptied, IsTurn};
ghost use Rattle.ee_store.specs.PowerCuts.Outcome.{Drives};

use crate::power_cuts::event::{Answer, Driven, Event};
use ee_codec::Address;
use ee_core::{
    ClearFault, ForgetFault, Off, Put, Store, Variables, WriteAllFault, WriteFault, open, start,
};
use ee_flash::Flash;
use ee_pages::{latest, next_live, scan};
use std::alloc::{AllocError, Allocator};

/// What is noted of an event.
#[derive(Drop)]
struct Note {
    answer: Answer,
    /// Whether the image has the change, if power was cut in one.
    found: Option<bool>,
}

impl Note {
    /// A note with nothing to look for.
    fn of(answer: Answer) -> Note
        ensures { result ≡ record { answer = answer; found = None } }
    {
        Note {
            answer,
            found: None,
        }
    }

    /// A note with what the image was found to have.
    fn looked(answer: Answer, found: bool) -> Note
        ensures { result ≡ record { answer = answer; found = Some found } }
    {
        Note {
            answer,
            found: Some(found),
        }
    }
}

/// A device, with a store open on it or without.
#[derive(Drop)]
enum Bench<F: Flash + Drop> {
    Bare(F),
    Open(Store<F>),
}

impl<F: Flash + Drop> Bench<F> {
    /// A bench with this store, which a cut closes.
    fn of(store: Store<F>) -> Bench<F>
        ensures point { point_of_bench F.device result ≡ open_point store }
        ensures store { IsStore store }
    {
        if store.is_on() {
            Bench::Open(store)
        } else {
            Bench::Bare(store.into_flash())
        }
    }

    fn into_flash(self) -> F
        ensures { F.device result ≡ (point_of_bench F.device self).device }
    {
        match self {
            Bench::Bare(flash) => flash,
            Bench::Open(store) => store.into_flash(),
        }
    }

    /// Answers the event.
    fn meet(self, event: &Event<'_>) -> (Bench<F>, Note)
        ensures { IsTurn (turn_of event.now result.1)
            (point_of_bench F.device self) (point_of_bench F.device result.0) }
    {
        match self {
            Bench::Bare(flash) => match *event {
                Event::Reopen => reopen(flash),
                Event::Start => start_up(flash),
                _ => (Bench::Bare(flash), Note::of(Answer::Off)),
            },
            Bench::Open(store) => match *event {
                Event::Put { address, value } => put(store, address, value),
                Event::PutAll(puts) => put_all(store, puts),
                Event::Forget { address } => forget(store, address),
                Event::Get { address } => get(store, address),
                Event::Clear => clear(store),
                Event::Clean => clean(store),
                Event::Reopen => reopen(store.into_flash()),
                Event::Start => start_up(store.into_flash()),
            },
        }
    }
}

fn put<F: Flash + Drop>(store: Store<F>, address: Address, value: u32) -> (Bench<F>, Note)
    ensures { IsTurn (turn_of (Event.Put address value) result.1)
        (open_point store) (point_of_bench F.device result.0) }
{
    let mut store = store;
    match store.write(address, value) {
        Ok(written) => (Bench::of(store), Note::of(Answer::Done(written))),
        Err(WriteFault::Off) => (Bench::of(store), Note::of(Answer::Off)),
        Err(WriteFault::Cut) => {
            let flash = store.into_flash();
            let found = value_in(&flash, address) == Some(value);
            let note = Note::looked(Answer::Refused(WriteFault::Cut), found);
            (Bench::Bare(flash), note)
        }
        Err(fault) => (Bench::of(store), Note::of(Answer::Refused(fault))),
    }
}

fn put_all<F: Flash + Drop>(store: Store<F>, puts: &[Put]) -> (Bench<F>, Note)
    ensures { IsTurn (turn_of (Event.PutAll puts.entry) result.1)
        (open_point store) (point_of_bench F.device result.0) }
{
    let mut store = store;
    match store.write_all(puts) {
        Ok(written) => (Bench::of(store), Note::of(Answer::Done(written))),
        Err(WriteAllFault::Off) => (Bench::of(store), Note::of(Answer::Off)),
        Err(WriteAllFault::Cut) => {
            let flash = store.into_flash();
            let found = has_all(&flash, puts);
            let note = Note::looked(Answer::NotWritten(WriteAllFault::Cut), found);
            (Bench::Bare(flash), note)
        }
        Err(fault) => (Bench::of(store), Note::of(Answer::NotWritten(fault))),
    }
}

fn forget<F: Flash + Drop>(store: Store<F>, address: Address) -> (Bench<F>, Note)
    ensures { IsTurn (turn_of (Event.Forget address) result.1)
        (open_point store) (point_of_bench F.device result.0) }
{
    let mut store = store;
    match store.forget(address) {
        Ok(written) => (Bench::of(store), Note::of(Answer::Done(written))),
        Err(ForgetFault::Off) => (Bench::of(store), Note::of(Answer::Off)),
        Err(ForgetFault::Cut) => {
            let flash = store.into_flash();
            let found = value_in(&flash, address).is_none();
            let note = Note::looked(Answer::NotForgotten(ForgetFault::Cut), found);
            (Bench::Bare(flash), note)
        }
        Err(fault) => (Bench::of(store), Note::of(Answer::NotForgotten(fault))),
    }
}

fn get<F: Flash + Drop>(store: Store<F>, address: Address) -> (Bench<F>, Note)
    ensures { IsTurn (turn_of (Event.Get address) result.1)
        (open_point store) (point_of_bench F.device result.0) }
{
    let answer = match store.read(address) {
        Ok(value) => Answer::Value(value),
        Err(Off) => Answer::Off,
    };
    (Bench::of(store), Note::of(answer))
}

fn clear<F: Flash + Drop>(store: Store<F>) -> (Bench<F>, Note)
    ensures { IsTurn (turn_of Event.Clear result.1)
        (open_point store) (point_of_bench F.device result.0) }
{
    let mut store = store;
    match store.clear() {
        Ok(some) => (Bench::of(store), Note::of(Answer::Cleared(some))),
        Err(ClearFault::Off) => (Bench::of(store), Note::of(Answer::Off)),
        Err(ClearFault::Cut) => {
            let flash = store.into_flash();
            let found = is_emptied(&flash);
            let note = Note::looked(Answer::NotCleared(ClearFault::Cut), found);
            (Bench::Bare(flash), note)
        }
        Err(fault) => (Bench::of(store), Note::of(Answer::NotCleared(fault))),
    }
}

fn clean<F: Flash + Drop>(store: Store<F>) -> (Bench<F>, Note)
    ensures { IsTurn (turn_of Event.Clean result.1)
        (open_point store) (point_of_bench F.device result.0) }
{
    let mut store = store;
    let answer = match store.clean_step() {
        Ok(erased) => Answer::Cleaned(erased),
        Err(WriteFault::Off) => Answer::Off,
        Err(fault) => Answer::Refused(fault),
    };
    (Bench::of(store), Note::of(answer))
}

/// Turns power on and opens the store.
fn reopen<F: Flash + Drop>(flash: F) -> (Bench<F>, Note)
    ensures { (old : Point) → old.device ≡ F.device flash
        → IsTurn (turn_of Event.Reopen result.1) old (point_of_bench F.device result.0) }
{
    let mut flash = flash;
    flash.power_on();
    match open(flash) {
        Ok(store) => (Bench::Open(store), Note::of(Answer::Opened)),
        Err((flash, fault)) => (Bench::Bare(flash), Note::of(Answer::NotOpened(fault))),
    }
}

/// Turns power on and starts the store.
fn start_up<F: Flash + Drop>(flash: F) -> (Bench<F>, Note)
    ensures { (old : Point) → old.device ≡ F.device flash
        → IsTurn (turn_of Event.Start result.1) old (point_of_bench F.device result.0) }
{
    let mut device = flash;
    device.power_on();
    match start(device) {
        Ok(started) => (Bench::Open(started), Note::of(Answer::Opened)),
        Err((device, fault)) => (Bench::Bare(device), Note::of(Answer::NotOpened(fault))),
    }
}

/// The value that the image gives an address, whether power is on or off.
fn value_in<F: Flash>(flash: &F, address: Address) -> Option<u32>
    requires { IsLegal (F.device flash.now) }
    ensures { result ≡ (state_of (F.device flash.now)).map address }
{
    match scan(flash) {
        Ok(layout) => latest(flash, &layout, address),
        Err(_) => None,
    }
}

/// Whether the image gives no address a value, whether power is on or off.
fn is_emptied<F: Flash>(flash: &F) -> bool
    requires { IsLegal (F.device flash.now) }
    ensures { IsTrue result ↔ IsEmptied (state_of (F.device flash.now)).map }
{
    match scan(flash) {
        Ok(layout) => next_live(flash, &layout, None).is_none(),
        Err(_) => false,
    }
}

/// Whether the image gives each address of the list its value, whether power is on or off.
fn has_all<F: Flash>(flash: &F, puts: &[Put]) -> bool
    requires { IsLegal (F.device flash.now) }
    ensures { IsTrue result ↔ HasAll puts.now (state_of (F.device flash.now)).map }
{
    'entries: for put in puts {
        if value_in(flash, put.address) != Some(put.value) {
            return false;
        }
    }
    true
}

/// Drives a store by events, one after another, through power cuts and openings. No store
/// is open at the start, whether the device is on or off. Without an open store, or on a
/// device that is off, all but `Reopen` and `Start` are answered `Off`. Memory for the answers is taken
/// before the first event.
///
/// From any legal image, and from a device on which no value was ever stored, no change that was
/// answered as done is lost, and of each that met a cut `kept` says whether the image has it. Where
/// the fuse is known, as that of a device in memory is, the events and the device decide all of it.
///
/// Source: ours.
///
/// # Errors
///
/// The device as it was: memory for the answers was refused. No event was met.
pub fn drive<F: Flash + Drop, A: Allocator + Copy>(
    alloc: A,
    flash: F,
    events: &[Event<'_>],
) -> Result<Driven<F, A>, (F, AllocError)>
    ensures driven { IfOk result (λ driven. Drives (F.device flash) events.now
        driven.log.items driven.kept.items (F.device driven.flash)) }
    ensures refused { IfErr result (λ refused. refused.0 ≡ flash) }
{
    let mut log = match Vec::with_capacity(alloc, events.len()) {
        Ok(log) => log,
        Err(error) => return Err((flash, error)),
    };
    let mut kept = match Vec::with_capacity(alloc, events.len()) {
        Ok(kept) => kept,
        Err(error) => return Err((flash, error)),
    };
    let mut bench = Bench::Bare(flash);
    'events: for event in events {
        let (next, note) = bench.meet(event);
        bench = next;
        log.push_reserved(note.answer);
        if let Some(found) = note.found {
            kept.push_reserved(found);
        }
    }
    Ok(Driven {
        flash: bench.into_flash(),
        log,
        kept,
    })
}

//! A request, drafted: a store is made or opened on a draft and asked, and its steps are listed.
ghost use Rattle.std.specs.Prelude.{◌≡◌, ◌≢◌};
ghost use Rattle.ee_flash.specs.Device.{IsOn};
ghost use Rattle.ee_web.specs.Calls.{Answers, AnswersOpen, Drafts, RescuesWords, cuts_after};
ghost use Rattle.ee_web.specs.Mirror.{IsMirror, mirrored_device};

use crate::answer::Answer;
use crate::draft::{DraftFlash, Drafted, Lent};
use crate::listing::ListedStep;
use crate::request::Request;
use ee_codec::Address;
use ee_core::{
    ClearFault, ForgetFault, OpenFault, Put, RescueFault, Store, Variables, WriteAllFault,
    WriteFault, Written, format, open, rescue,
};
use ee_flash::{Flash, Shape};

/// Drafts what is requested.
#[tactic(auto, using(crate::proofs::AnsweredCalls::drafted))]
pub(crate) fn draft<'w, 'l, K: Lent>(
    shape: Shape,
    words: &'w [u64],
    flags: &'w [u8],
    wears: &[u64],
    listed: &'l mut [ListedStep],
    request: Request<Address>,
) -> Drafted<'l>
    requires mirror { IsMirror shape words.now flags.now wears.now }
    requires start { K.start ≡ mirrored_device shape words.now flags.now wears.now }
    requires list { listed.ghost_name ≡ K.list }
    ensures same_list { result.listed.ghost_name ≡ listed.entry.ghost_name }
    ensures drafts { Drafts request K.start result.answer result.listed.now result.count }
{
    let draft = DraftFlash::<K>::of(shape, words, flags, wears, listed);
    let (draft, answer) = ask(draft, request);
    draft.ended(answer)
}

/// Asks a device for what is requested: it is formatted or rescued, or its store is opened first. A
/// cut of power says that the list is too short.
#[tactic(auto, using(crate::proofs::AnsweredCalls::opened_first))]
fn ask<F: Flash + Drop>(flash: F, request: Request<Address>) -> (F, Answer)
    requires { IsOn (F.device flash) }
    ensures answers { Answers request (F.device flash) result.1 (F.device result.0) }
    ensures cuts { (F.device result.0).cuts ≡ cuts_after result.1 (F.device flash).cuts }
{
    if let Request::Format = request {
        return match format(flash) {
            Ok(store) => (store.into_flash(), Answer::Done),
            Err((flash, _cut)) => (flash, Answer::ListTooShort),
        };
    }
    if let Request::Rescue = request {
        return ask_rescue(flash);
    }
    match open(flash) {
        Ok(store) => {
            let mut store = store;
            let answer = ask_open(&mut store, request);
            (store.into_flash(), answer)
        }
        Err((flash, fault)) => match fault {
            OpenFault::Scan(fault) => (flash, Answer::NoStore(fault)),
            OpenFault::Cut => (flash, Answer::ListTooShort),
        },
    }
}

/// Asks a device to be rescued. A cut of power says that the list is too short.
fn ask_rescue<F: Flash + Drop>(flash: F) -> (F, Answer)
    requires { IsOn (F.device flash) }
    ensures answers { RescuesWords (F.device flash) result.1 (F.device result.0) }
    ensures cuts { (F.device result.0).cuts ≡ cuts_after result.1 (F.device flash).cuts }
{
    match rescue(flash) {
        Ok((store, rescued)) => (store.into_flash(), Answer::Rescued(rescued)),
        Err((flash, fault)) => match fault {
            RescueFault::NothingBegun => (flash, Answer::NothingBegun),
            RescueFault::Spent => (flash, Answer::Spent),
            RescueFault::Cut => (flash, Answer::ListTooShort),
        },
    }
}

/// Asks a store that was opened. It is on and keeps no index, so it answers neither
/// `Off` nor `Memory`.
fn ask_open<F: Flash + Drop>(store: &mut Store<F>, request: Request<Address>) -> Answer
    requires on { IsOn store.old }
    requires not_formatted { request ≢ Request.Format }
    requires not_rescued { request ≢ Request.Rescue }
    ensures answers { AnswersOpen request store.old result store.new }
    ensures cuts { store.new.cuts ≡ cuts_after result store.old.cuts }
{
    match request {
        Request::Format | Request::Rescue | Request::Open => Answer::Done,
        Request::Write { address, value } => match store.write(address, value) {
            Ok(Written::Appended) => Answer::Done,
            Ok(Written::Moved) => Answer::Moved,
            Err(WriteFault::Full) => Answer::Full,
            Err(WriteFault::Spent) => Answer::Spent,
            Err(WriteFault::Off | WriteFault::Memory | WriteFault::Cut) => Answer::ListTooShort,
        },
        Request::WriteBoth {
            first,
            first_value,
            second,
            second_value,
        } => write_both(
            store,
            Put {
                address: first,
                value: first_value,
            },
            Put {
                address: second,
                value: second_value,
            },
        ),
        Request::Forget { address } => match store.forget(address) {
            Ok(Written::Appended) => Answer::Done,
            Ok(Written::Moved) => Answer::Moved,
            Err(ForgetFault::Absent) => Answer::Absent,
            Err(ForgetFault::Spent) => Answer::Spent,
            Err(ForgetFault::Off | ForgetFault::Cut) => Answer::ListTooShort,
        },
        Request::Clean => match store.clean_step() {
            Ok(true) => Answer::Done,
            Ok(false) => Answer::Nothing,
            Err(_) => Answer::ListTooShort,
        },
        Request::Clear => match store.clear() {
            Ok(true) => Answer::Moved,
            Ok(false) => Answer::Nothing,
            Err(ClearFault::Spent) => Answer::Spent,
            Err(ClearFault::Off | ClearFault::Cut) => Answer::ListTooShort,
        },
    }
}

/// Asks a store that was opened for two values at once, which a move makes live.
fn write_both<F: Flash + Drop>(store: &mut Store<F>, first: Put, second: Put) -> Answer
    requires on { IsOn store.old }
    ensures answers { AnswersOpen
        (Request.WriteBoth first.address first.value second.address second.value)
        store.old result store.new }
    ensures cuts { store.new.cuts ≡ cuts_after result store.old.cuts }
{
    match store.write_all(&[first, second]) {
        Ok(Written::Appended) => Answer::Done,
        Ok(Written::Moved) => Answer::Moved,
        Err(WriteAllFault::Twice(_)) => Answer::Twice,
        Err(WriteAllFault::Full) => Answer::Full,
        Err(WriteAllFault::Spent) => Answer::Spent,
        Err(WriteAllFault::Off) => Answer::ListTooShort,
        Err(WriteAllFault::Memory) => Answer::ListTooShort,
        Err(WriteAllFault::Cut) => Answer::ListTooShort,
    }
}

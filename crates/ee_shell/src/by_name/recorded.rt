//! What a record of a settings file reads as in a store.
ghost use Rattle.std.specs.Prelude.{◌≡◌, ◌<◌, IfNone, IfOk, IfSome, length};
ghost use Rattle.std.specs.List.{list_all};
ghost use Rattle.hex.specs.Hex.{encode_lower};
ghost use Rattle.ee_flash.specs.Device.{IsOn};
ghost use Rattle.ee_core.specs.State.{state_of};
ghost use Rattle.ee_settings.specs.Setting.{is_text_byte, room_of};
ghost use Rattle.ee_shell.specs.ByName.Records.{IsNoRecord, IsRecordNamed, IsRecordRead, is_quoted, in_quotes, spelled_bytes, spelled_default};

use ee_core::Store;
use ee_flash::MemFlash;
use ee_records::{Finding, ReadFault, Record};
use ee_settings::{RecordKind, RecordSetting};
use hex::encode_to_slice;
use std::alloc::{AllocError, Allocator};

/// Where the bytes come from that a record reads as.
#[derive(Clone, Copy)]
pub(crate) enum Origin {
    /// They are stored.
    Stored,
    /// Nothing is stored, and they are the default.
    Default,
    /// What is stored doesn't fit its check, and they are the default.
    Hurt,
}

/// What a record reads as, spelled.
#[derive(Drop)]
pub(crate) struct Recorded<A: Allocator> {
    /// The bytes, as text.
    pub(crate) spelled: Vec<u8, A>,
    /// Where they come from.
    pub(crate) origin: Origin,
}

/// The record of a name.
pub(crate) fn find_record<'a, A: Allocator>(
    records: &'a [RecordSetting<A>],
    name: &str,
) -> Option<&'a RecordSetting<A>>
    ensures found { IfSome result (λ one. IsRecordNamed records.now name.now one.now) }
    ensures none { IfNone result (IsNoRecord records.now name.now) }
{
    for one in records {
        if one.name() == name {
            return Some(one);
        }
    }
    None
}

/// What a record reads as in a store that is on.
#[tactic(auto, using(crate::proofs::ByNameLemmas::Recorded::stored_read, crate::proofs::ByNameLemmas::Recorded::default_read, crate::proofs::ByNameLemmas::Recorded::hurt_read))]
pub(crate) fn read_recorded<A: Allocator + Copy>(
    alloc: A,
    store: &Store<MemFlash<A>>,
    one: &RecordSetting<A>,
) -> Result<Recorded<A>, AllocError>
    requires { IsOn store.now }
    ensures { IfOk result (λ it.
        IsRecordRead (state_of store.now).map one.now.form it.origin it.spelled.items) }
{
    let record = record_of(one);
    let mut space = vec![in alloc; 0; record.capacity()]?;
    match record.read(store, Finding::Together, space.as_mut_slice()) {
        Ok(Some(length)) => {
            let bytes = &space.as_slice()[..length];
            let spelled = spell_bytes(alloc, one.room().kind, bytes)?;
            Ok(Recorded {
                spelled,
                origin: Origin::Stored,
            })
        }
        Ok(None) => default_of(alloc, one, Origin::Default),
        Err(ReadFault::Hurt) => default_of(alloc, one, Origin::Hurt),
        Err(ReadFault::TooLong(_)) => unreachable!("the space is the record's"),
        Err(ReadFault::Off) => unreachable!("power stays on"),
    }
}

/// Where a record of a settings file stands in a store.
fn record_of<A: Allocator>(one: &RecordSetting<A>) -> Record
    ensures base { result.base ≡ one.now.form.base }
    ensures words { result.words ≡ room_of one.now.form }
{
    let room = one.room();
    match Record::new(room.base, ((room.size + 3) / 4) as u16) {
        Some(record) => record,
        None => unreachable!("its addresses are proper"),
    }
}

/// The default of a record, spelled.
fn default_of<A: Allocator + Copy>(
    alloc: A,
    one: &RecordSetting<A>,
    origin: Origin,
) -> Result<Recorded<A>, AllocError>
    ensures spelled { IfOk result (λ it. it.spelled.items ≡ spelled_default one.now.form) }
    ensures origin { IfOk result (λ it. it.origin ≡ origin) }
{
    let default = one.default_spelled().as_bytes();
    let spelled = if is_quoted(one.room().kind, default) {
        in_quotes(alloc, default)?
    } else {
        Vec::from_slice(alloc, default)?
    };
    Ok(Recorded { spelled, origin })
}

/// The bytes of a record, spelled.
fn spell_bytes<A: Allocator + Copy>(
    alloc: A,
    kind: RecordKind,
    bytes: &[u8],
) -> Result<Vec<u8, A>, AllocError>
    requires { length bytes.now < 65536 }
    ensures { IfOk result (λ spelled. spelled.items ≡ spelled_bytes kind bytes.now) }
{
    if is_quoted(kind, bytes) {
        in_quotes(alloc, bytes)
    } else {
        digits_of(alloc, bytes)
    }
}

/// Two digits for each byte.
fn digits_of<A: Allocator + Copy>(alloc: A, bytes: &[u8]) -> Result<Vec<u8, A>, AllocError>
    requires { length bytes.now < 65536 }
    ensures { IfOk result (λ digits. digits.items ≡ encode_lower bytes.now) }
{
    let mut digits = vec![in alloc; 0; 2 * bytes.len()]?;
    match encode_to_slice(bytes, digits.as_mut_slice()) {
        Ok(()) => Ok(digits),
        Err(_) => unreachable!("there are two digits for each byte"),
    }
}

/// Bytes between quotes.
fn in_quotes<A: Allocator + Copy>(alloc: A, bytes: &[u8]) -> Result<Vec<u8, A>, AllocError>
    ensures { IfOk result (λ text. text.items ≡ in_quotes bytes.now) }
{
    let mut text = Vec::from_slice(alloc, b"\"")?;
    text.extend_from_slice(bytes)?;
    text.extend_from_slice(b"\"")?;
    Ok(text)
}

/// Whether the bytes of a record stand between quotes.
fn is_quoted(kind: RecordKind, bytes: &[u8]) -> bool
    ensures { result ≡ is_quoted kind bytes.now }
{
    match kind {
        RecordKind::Bytes => bytes.is_empty(),
        RecordKind::Text => may_stand_in_text(bytes),
    }
}

/// Whether each of these may stand in a text.
fn may_stand_in_text(bytes: &[u8]) -> bool
    ensures { result ≡ list_all is_text_byte bytes.now }
{
    for byte in bytes {
        if !is_of_text(*byte) {
            return false;
        }
    }
    true
}

/// Whether the byte may stand in a text: from the space to `~`, but no quotes and no backslash.
fn is_of_text(byte: u8) -> bool
    ensures { result ≡ is_text_byte byte }
{
    b' ' <= byte && byte <= b'~' && !(byte == b'"' || byte == b'\\')
}

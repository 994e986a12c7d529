//! What stands in the entry of a record, and whether a record may be so.
ghost use Rattle.std.specs.Prelude.{◌≡◌, ◌≢◌, ℕ, IfSome, IfNone, option_and_then, option_copied, pos};
ghost use Rattle.toml.specs.Data.{as_integer, as_str, get_member};
ghost use Rattle.toml.specs.View.{table_view, view};
ghost use Rattle.ee_settings.specs.File.{HasBadForm, HasRecordFields, IsRecordTableOf, RecordFields as AnyFields, key_of, kind_in};
ghost use Rattle.ee_settings.specs.Setting.{IsProperForm};

use crate::numbers::{address_of, value_of, whole_number};
use crate::record_setting::{RecordKind, RecordRoom, last_address, may_be_default};
use toml::{Table, Value};

/// What stands in the entry of a record.
#[derive(Clone, Copy)]
pub(crate) struct RecordFields<'a> {
    pub(crate) address: i64,
    pub(crate) kind: RecordKind,
    pub(crate) size: i64,
    pub(crate) default: &'a str,
}

/// What stands in the entry of a record, if it is a table of these three and nothing else.
pub(crate) fn read_record_fields(value: &Value) -> Option<RecordFields<'_>>
    ensures found { IfSome result (λ fields. IsRecordTableOf (view value.now) record {
      address = fields.address;
      kind = fields.kind;
      size = fields.size;
      default = fields.default.now;
    }) }
    ensures none { IfNone result
        ((fields : AnyFields) → ¬ IsRecordTableOf (view value.now) fields) }
{
    record_fields_in(value.as_table()?)
}

/// What stands in a table, if it is that of a record.
fn record_fields_in(table: &Table) -> Option<RecordFields<'_>>
    ensures found { IfSome result (λ fields. HasRecordFields (table_view table.now) record {
      address = fields.address;
      kind = fields.kind;
      size = fields.size;
      default = fields.default.now;
    }) }
    ensures none { IfNone result
        ((fields : AnyFields) → ¬ HasRecordFields (table_view table.now) fields) }
{
    if table.len() != 3 {
        return None;
    }
    let kind = kind_of(table);
    let address = whole_number(table, "address")?;
    let size = size_in(table, kind)?;
    let default = text_in(table, "default")?;
    Some(RecordFields {
        address,
        kind,
        size,
        default,
    })
}

/// Whether a table says how many bytes, or how many of a text.
fn kind_of(table: &Table) -> RecordKind
    ensures { result ≡ kind_in (table_view table.now) }
{
    match table.get("bytes") {
        Some(_) => RecordKind::Bytes,
        None => RecordKind::Text,
    }
}

/// How many it says, if that is a whole number.
fn size_in(table: &Table, kind: RecordKind) -> Option<i64>
    ensures { result
        ≡ option_and_then as_integer (get_member (key_of kind) (table_view table.now)) }
{
    match kind {
        RecordKind::Bytes => whole_number(table, "bytes"),
        RecordKind::Text => whole_number(table, "text"),
    }
}

/// The text under a key, if one stands there.
fn text_in<'a>(table: &'a Table, key: &str) -> Option<&'a str>
    ensures { option_copied result
        ≡ option_and_then as_str (get_member key.now (table_view table.now)) }
{
    table.get(key)?.as_str()
}

/// Where such a record stands, and how many bytes it has, if a record may be so.
pub(crate) fn checked_room(
    address: i64,
    kind: RecordKind,
    size: i64,
    default: &str,
) -> Option<RecordRoom>
    ensures found { IfSome result (λ room. (address ≡ pos room.base) × (kind ≡ room.kind)
        × (size ≡ pos room.size)) }
    ensures proper { IfSome result (λ room. IsProperForm record {
      base = room.base;
      kind = room.kind;
      size = room.size;
      default = default.now;
    }) }
    ensures none { IfNone result (HasBadForm record {
      address = address;
      kind = kind;
      size = size;
      default = default.now;
    }) }
{
    let base = address_of(address)?;
    let size = value_of(size)?;
    if size == 0 || size > 65532 {
        return None;
    }
    if last_address(base, size) > 65534 || !may_be_default(kind, size, default) {
        return None;
    }
    Some(RecordRoom { base, kind, size })
}

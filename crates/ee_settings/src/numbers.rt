//! The numbers of a setting: its address, its range and its default, and what a
//! stored value is to them.
ghost use Rattle.std.specs.Prelude.{◌≡◌, ◌≢◌, ◌<◌, ◌^◌, ℕ, IfSome, IfNone, option_and_then, pos};
ghost use Rattle.ee_codec.specs.Words.{IsAddress};
ghost use Rattle.toml.specs.Data.{as_integer, get_member};
ghost use Rattle.toml.specs.View.{table_view, view};
ghost use Rattle.ee_settings.specs.File.{HasFields, HaveBadRange, IsTableOf, fields_of_numbers};
ghost use Rattle.ee_settings.specs.Setting.{AreProper};
ghost use Rattle.ee_settings.specs.declared.numbers.Fields.{Fields};

use crate::listing::Held;
use crate::reading::Reading;
use ee_codec::Address;
use toml::{Table, Value};

/// The whole numbers of an entry.
#[derive(Clone, Copy)]
pub(crate) struct Fields {
    pub(crate) address: i64,
    pub(crate) min: i64,
    pub(crate) max: i64,
    pub(crate) default: i64,
}

/// The numbers of a setting: `min` to `max` is its range, and `default` is in it.
///
/// Source: ours.
#[derive(Clone, Copy)]
pub struct Numbers {
    /// Where its value is stored.
    pub address: Address,
    /// The least value that it may have.
    pub min: u32,
    /// The greatest value that it may have.
    pub max: u32,
    /// What it reads as without a value in the range.
    pub default: u32,
}

impl Numbers {
    ghost use Rattle.std.specs.Prelude.{◌≡◌};
    ghost use Rattle.ee_settings.specs.Listing.{held_by};
    ghost use Rattle.ee_settings.specs.Setting.{reading_of};

    /// What a setting of these numbers reads as, with this value stored.
    pub(crate) fn reading(self, stored: Option<u32>) -> Reading
        ensures { result ≡ reading_of self stored }
    {
        let Numbers {
            min,
            max,
            default,
            ..
        } = self;
        match stored {
            Some(value) if min <= value && value <= max => Reading::Stored(value),
            _ => Reading::Default(default),
        }
    }

    /// What a value is to a setting of these numbers.
    pub(crate) fn held(self, value: u32) -> Held
        ensures { result ≡ held_by self value }
    {
        match self.reading(Some(value)) {
            Reading::Stored(_) => Held::Value(value),
            Reading::Default(_) => Held::Stale(value),
        }
    }
}

/// The numbers of an entry, if it is a table of these four and nothing else.
pub(crate) fn read_fields(value: &Value) -> Option<Fields>
    ensures found { IfSome result (λ fields. IsTableOf (view value.now) fields) }
    ensures none { IfNone result ((fields : Fields) → ¬ IsTableOf (view value.now) fields) }
{
    fields_in(value.as_table()?)
}

/// The numbers in a table, if it has these four and nothing else.
fn fields_in(table: &Table) -> Option<Fields>
    ensures found { IfSome result (HasFields (table_view table.now)) }
    ensures none { IfNone result ((fields : Fields) → ¬ HasFields (table_view table.now) fields) }
{
    if table.len() != 4 {
        return None;
    }
    let address = whole_number(table, "address")?;
    let min = whole_number(table, "min")?;
    let max = whole_number(table, "max")?;
    let default = whole_number(table, "default")?;
    Some(Fields {
        address,
        min,
        max,
        default,
    })
}

/// The whole number under a key, if one stands there.
pub(crate) fn whole_number(table: &Table, key: &str) -> Option<i64>
    ensures { result ≡ option_and_then as_integer (get_member key.now (table_view table.now)) }
{
    table.get(key)?.as_integer()
}

/// The same as the numbers of a setting, if they are in their ranges.
pub(crate) fn checked(fields: Fields) -> Option<Numbers>
    ensures found { IfSome result (λ numbers. fields ≡ fields_of_numbers numbers) }
    ensures proper { IfSome result AreProper }
    ensures none { IfNone result (HaveBadRange fields) }
{
    let address = address_of(fields.address)?;
    let min = value_of(fields.min)?;
    let max = value_of(fields.max)?;
    let default = value_of(fields.default)?;
    if default < min || max < default {
        return None;
    }
    Some(Numbers {
        address,
        min,
        max,
        default,
    })
}

/// The address of a number, if it is one's.
pub(crate) fn address_of(number: i64) -> Option<Address>
    ensures found { IfSome result (λ address. (number ≡ pos address) × IsAddress address) }
    ensures none { IfNone result ((address : ℕ) → IsAddress address → number ≢ pos address) }
{
    Address::new(u16::try_from(number).ok()?)
}

/// The value of a number, if it is one of 32 bits.
pub(crate) fn value_of(number: i64) -> Option<u32>
    ensures found { IfSome result (λ value. (number ≡ pos value) × (value < 2 ^ 32)) }
    ensures none { IfNone result ((value : ℕ) → value < 2 ^ 32 → number ≢ pos value) }
{
    u32::try_from(number).ok()
}

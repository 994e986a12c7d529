//! One record of a settings file: its name, where it stands, how many bytes it has, and its default.
ghost use Rattle.std.specs.Prelude.{◌≡◌, ◌+◌, ◌*◌, ◌/◌, ◌<◌};
ghost use Rattle.std.specs.List.{list_all};
ghost use Rattle.ee_settings.specs.Setting.{is_default, is_hex_byte, is_text_byte};

use ee_codec::Address;
use std::alloc::Allocator;
use std::marker::Model;

/// How the bytes of a record are spelled.
///
/// Source: ours.
#[derive(Clone, Copy, Debug, PartialEq, Eq)]
pub enum RecordKind {
    /// Each by two hexadecimal digits.
    Bytes,
    /// As a text of ASCII.
    Text,
}

/// Where a record stands, and how many bytes it has at the most.
///
/// Source: ours.
#[derive(Clone, Copy)]
pub struct RecordRoom {
    /// The first of its addresses.
    pub base: Address,
    /// How its bytes are spelled.
    pub kind: RecordKind,
    /// How many bytes it has at the most, 1 to 65532.
    pub size: u32,
    ghost some: { 0 < size },
    ghost few: { size < 65533 },
}

/// The last address of a record of so many bytes at this base address; a number above 65534 is
/// none.
pub(crate) fn last_address(base: Address, size: u32) -> u32
    requires { size < 65533 }
    ensures { result ≡ base + 2 * ((size + 3) / 4 + 1) }
{
    u32::from(base.get()) + 2 * ((size + 3) / 4 + 1)
}

/// A record under a name.
///
/// Source: ours.
#[derive(Drop)]
pub struct RecordSetting<A: Allocator> {
    name: String<A>,
    room: RecordRoom,
    default: String<A>,
}

impl<A: Allocator> Model for RecordSetting<A> {
    ghost use Rattle.std.specs.Prelude.{string_bytes};
    ghost use Rattle.ee_settings.specs.Setting.{IsProperRecord, RecordSetting};

    ghost Value = { RecordSetting };

    ghost view = { λ s. record {
      name = string_bytes s.name;
      form = record {
        base = s.room.base;
        kind = s.room.kind;
        size = s.room.size;
        default = string_bytes s.default;
      };
    } };

    ghost invariant = { λ s. IsProperRecord record {
      name = string_bytes s.name;
      form = record {
        base = s.room.base;
        kind = s.room.kind;
        size = s.room.size;
        default = string_bytes s.default;
      };
    } };
}

impl<A: Allocator> RecordSetting<A> {
    ghost use Rattle.std.specs.Prelude.{◌≡◌, string_bytes};
    ghost use Rattle.ee_settings.specs.Setting.{IsName, IsProperForm, IsProperRecord};

    /// A record of a proper name, with a default that it may have.
    pub(crate) fn new(name: String<A>, room: RecordRoom, default: String<A>) -> RecordSetting<A>
        requires name { IsName (string_bytes name) }
        requires form { IsProperForm record {
          base = room.base;
          kind = room.kind;
          size = room.size;
          default = string_bytes default;
        } }
        ensures { result ≡ record {
          name = string_bytes name;
          form = record {
            base = room.base;
            kind = room.kind;
            size = room.size;
            default = string_bytes default;
          };
        } }
    {
        RecordSetting {
            name,
            room,
            default,
        }
    }

    /// What it is called.
    ///
    /// Source: ours.
    pub fn name(&self) -> &str
        ensures name { result.now ≡ self.now.name }
        ensures proper { IsProperRecord self.now }
    {
        self.name.as_str()
    }

    /// Where it stands, and how many bytes it has at the most.
    ///
    /// Source: ours.
    pub fn room(&self) -> RecordRoom
        ensures base { result.base ≡ self.now.form.base }
        ensures kind { result.kind ≡ self.now.form.kind }
        ensures size { result.size ≡ self.now.form.size }
        ensures proper { IsProperRecord self.now }
    {
        self.room
    }

    /// What it is where the store has none, as the settings file spells it.
    ///
    /// Source: ours.
    pub fn default_spelled(&self) -> &str
        ensures default { result.now ≡ self.now.form.default }
        ensures proper { IsProperRecord self.now }
    {
        self.default.as_str()
    }
}

/// Whether these spell what a record may have: digits of so many bytes at the most, or a text.
pub(crate) fn may_be_default(kind: RecordKind, size: u32, spelled: &str) -> bool
    ensures { result ≡ is_default kind size spelled.now }
{
    let bytes = spelled.as_bytes();
    let size = size as usize;
    match kind {
        RecordKind::Bytes => {
            bytes.len() % 2 == 0 && bytes.len() <= 2 * size && are_digits(bytes)
        }
        RecordKind::Text => bytes.len() <= size && may_stand_in_texts(bytes),
    }
}

fn are_digits(bytes: &[u8]) -> bool
    ensures { result ≡ list_all is_hex_byte bytes.now }
{
    for byte in bytes {
        if !is_hex_digit(*byte) {
            return false;
        }
    }
    true
}

fn may_stand_in_texts(bytes: &[u8]) -> bool
    ensures { result ≡ list_all is_text_byte bytes.now }
{
    for byte in bytes {
        if !may_stand_in_text(*byte) {
            return false;
        }
    }
    true
}

fn is_hex_digit(byte: u8) -> bool
    ensures { result ≡ is_hex_byte byte }
{
    (b'0' <= byte && byte <= b'9') || (b'a' <= byte && byte <= b'f')
}

fn may_stand_in_text(byte: u8) -> bool
    ensures { result ≡ is_text_byte byte }
{
    b' ' <= byte && byte <= b'~' && !(byte == b'"' || byte == b'\\')
}

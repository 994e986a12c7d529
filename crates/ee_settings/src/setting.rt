//! One setting: its name, by the rules of names, and its numbers.
ghost use Rattle.std.specs.Prelude.{◌≡◌};
ghost use Rattle.std.specs.List.{list_all};
ghost use Rattle.ee_settings.specs.Setting.{begins_with_letter, is_name, is_name_byte, is_letter};

use crate::numbers::Numbers;
use std::alloc::Allocator;
use std::marker::Model;

/// A value under a name.
///
/// Source: ours.
#[derive(Drop)]
pub struct Setting<A: Allocator> {
    name: String<A>,
    numbers: Numbers,
}

impl<A: Allocator> Model for Setting<A> {
    ghost use Rattle.std.specs.Prelude.{string_bytes};
    ghost use Rattle.ee_settings.specs.Setting.{IsProperSetting, Setting};

    ghost Value = { Setting };

    ghost view = { λ s. record { name = string_bytes s.name; numbers = s.numbers } };

    ghost invariant = { λ s. IsProperSetting record { name = string_bytes s.name; numbers = s.numbers } };
}

impl<A: Allocator> Setting<A> {
    ghost use Rattle.std.specs.Prelude.{string_bytes};
    ghost use Rattle.ee_settings.specs.Setting.{AreProper, IsName, IsProperSetting};

    /// A setting of a proper name and proper numbers.
    pub(crate) fn new(name: String<A>, numbers: Numbers) -> Setting<A>
        requires name { IsName (string_bytes name) }
        requires numbers { AreProper numbers }
        ensures { result ≡ record { name = string_bytes name; numbers = numbers } }
    {
        Setting { name, numbers }
    }

    /// What it is called.
    ///
    /// Source: ours.
    pub fn name(&self) -> &str
        ensures name { result.now ≡ self.now.name }
        ensures proper { IsProperSetting self.now }
    {
        self.name.as_str()
    }

    /// Its numbers.
    ///
    /// Source: ours.
    pub fn numbers(&self) -> Numbers
        ensures numbers { result ≡ self.now.numbers }
        ensures proper { IsProperSetting self.now }
    {
        self.numbers
    }
}

/// Whether a setting may have this name.
pub(crate) fn is_proper_name(name: &str) -> bool
    ensures { result ≡ is_name name.now }
{
    let bytes = name.as_bytes();
    begins_lowercase(bytes) && bytes.len() <= 32 && may_stand_in_names(bytes)
}

fn begins_lowercase(bytes: &[u8]) -> bool
    ensures { result ≡ begins_with_letter bytes.now }
{
    match bytes.first() {
        Some(first) => is_lowercase(*first),
        None => false,
    }
}

fn may_stand_in_names(bytes: &[u8]) -> bool
    ensures { result ≡ list_all is_name_byte bytes.now }
{
    for byte in bytes {
        if !may_stand_in_name(*byte) {
            return false;
        }
    }
    true
}

fn is_lowercase(byte: u8) -> bool
    ensures { result ≡ is_letter byte }
{
    b'a' <= byte && byte <= b'z'
}

fn may_stand_in_name(byte: u8) -> bool
    ensures { result ≡ is_name_byte byte }
{
    is_lowercase(byte) || (b'0' <= byte && byte <= b'9') || byte == b'_'
}

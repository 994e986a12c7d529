//! What each document is written by.
ghost use Rattle.std.specs.Prelude.{◌≡◌, ◌++◌, OnOk};
ghost use Rattle.ee_commands.specs.Json.{array};

use std::alloc::{AllocError, Allocator};

/// Writes an array of items, each of which is given behind a comma. After an error there may be a
/// part of it.
///
/// Source: ours.
pub fn push_array<A: Allocator>(out: &mut Vec<u8, A>, items: &[u8]) -> Result<(), AllocError>
    ensures { OnOk result (out.new.items ≡ out.old.items ++ array items.now) }
{
    out.extend_from_slice(b"[")?;
    if let Some((_, others)) = items.split_first() {
        out.extend_from_slice(others)?;
    }
    out.extend_from_slice(b"]")
}

//! Why a text isn't read as Intel HEX.
use std::alloc::AllocError;

/// Why a text isn't read.
///
/// Source: ours.
#[derive(Clone, Copy, Debug, PartialEq, Eq)]
pub enum HexFault {
    /// The number of the first bad line, counted from 1. A line that is missing is bad, and so is
    /// one behind the end record.
    BadLine(u64),
    /// Memory ran out.
    Memory,
}

impl From<AllocError> for HexFault {
    ghost use Rattle.std.specs.Prelude.{◌≡◌};
    ghost use Rattle.ee_shell.specs.declared.dumps.intel_hex.fault.HexFault.TheVariants.{Memory};

    ghost from_gives = { λ _ fault. fault ≡ Memory };

    fn from(_error: AllocError) -> HexFault {
        HexFault::Memory
    }
}

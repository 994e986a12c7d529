//! Why bytes aren't read as a dump, and why a device has none.
use std::alloc::AllocError;

/// Why bytes aren't read as a dump.
///
/// Source: ours.
#[derive(Clone, Copy, Debug, PartialEq, Eq)]
pub enum DumpFault {
    /// The bytes are not as many as the words of both sets have.
    Length,
    /// The first word whose two numbers sum to less than `u64::MAX`, by its page, counted from 0
    /// over both sets, and then by its place there. No store wrote it.
    LowPair { page: usize, at: usize },
    /// Memory ran out.
    Memory,
}

impl From<AllocError> for DumpFault {
    ghost use Rattle.std.specs.Prelude.{◌≡◌};
    ghost use Rattle.ee_shell.specs.declared.dumps.fault.DumpFault.TheVariants.{Memory};

    ghost from_gives = { λ _ fault. fault ≡ Memory };

    fn from(_error: AllocError) -> DumpFault {
        DumpFault::Memory
    }
}

/// Why no dump of a device is written.
///
/// Source: ours.
#[derive(Clone, Copy, Debug, PartialEq, Eq)]
pub enum WriteFault {
    /// The first torn word, by its page, counted from 0 over both sets, and then by its place
    /// there.
    TornWord { page: usize, at: usize },
    /// Of coded words the first held one, likewise, whose number has none.
    Uncoded { page: usize, at: usize },
    /// Memory ran out.
    Memory,
}

impl From<AllocError> for WriteFault {
    ghost use Rattle.std.specs.Prelude.{◌≡◌};
    ghost use Rattle.ee_shell.specs.declared.dumps.fault.WriteFault.TheVariants.{Memory};

    ghost from_gives = { λ _ fault. fault ≡ Memory };

    fn from(_error: AllocError) -> WriteFault {
        WriteFault::Memory
    }
}

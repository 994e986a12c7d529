//! What a trace takes of a set that starts empty.
use std::alloc::AllocError;

/// What a trace takes of a set that starts empty.
///
/// Source: ours.
#[derive(Clone, Copy, Debug, PartialEq, Eq)]
pub enum Demand {
    /// So many transfers: some store makes as few, and none makes fewer.
    Transfers(u64),
    /// This change, counted from 1, is the first write of a new address while as many addresses are
    /// live as there are slots.
    NotFitting(u64),
}

/// Why a trace made many times over isn't counted.
///
/// Source: ours.
#[derive(Clone, Copy, Debug, PartialEq, Eq)]
pub enum RoundsFault {
    /// The changes of all rounds together are 2^63 or more.
    TooMany,
    /// Memory ran out.
    Memory,
}

impl From<AllocError> for RoundsFault {
    ghost use Rattle.std.specs.Prelude.{◌≡◌};
    ghost use Rattle.ee_plan.specs.declared.planner.demand.RoundsFault.TheVariants.{Memory};

    ghost from_gives = { λ _ fault. fault ≡ Memory };

    fn from(_error: AllocError) -> RoundsFault {
        RoundsFault::Memory
    }
}

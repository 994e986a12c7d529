//! A plan: how many transfers, at which changes, how much room they leave, and the certificate.
use ee_check::Certificate;
use std::alloc::{AllocError, Allocator, Global};

/// When a store transfers that makes as few transfers as can be, and what is left to it.
///
/// Source: ours.
#[derive(Drop)]
pub struct Plan<A: Allocator = Global> {
    /// How many transfers the trace takes.
    pub transfers: u64,
    /// The changes that transfer, counted from 1, ascending.
    pub moments: Vec<u64, A>,
    /// How many slots are free at the end: as many as any store keeps with as few transfers.
    pub room: u64,
    /// The tight certificate, which `ee_check::check` accepts: no store makes fewer transfers.
    pub certificate: Certificate<A>,
}

/// Why there is no plan.
///
/// Source: ours.
#[derive(Clone, Copy, Debug, PartialEq, Eq)]
pub enum PlanFault {
    /// This change, counted from 1, is the first write of a new address while as many addresses are
    /// live as there are slots.
    NotFitting(u64),
    /// Memory ran out.
    Memory,
}

impl From<AllocError> for PlanFault {
    ghost use Rattle.std.specs.Prelude.{◌≡◌};
    ghost use Rattle.ee_plan.specs.declared.planner.planned.PlanFault.TheVariants.{Memory};

    ghost from_gives = { λ _ fault. fault ≡ Memory };

    fn from(_error: AllocError) -> PlanFault {
        PlanFault::Memory
    }
}

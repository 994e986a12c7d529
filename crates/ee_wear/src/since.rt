//! Why two ledgers have no difference, and the first page whose wear fell.
ghost use Rattle.std.specs.Prelude.{◌≡◌, IfSome, IfNone, length};
ghost use Rattle.ee_wear.specs.Since.{IsFirstFallen, NoneFell};

use std::alloc::AllocError;

/// Why there is no difference of two ledgers.
///
/// Source: ours.
#[derive(Clone, Copy, Debug, PartialEq, Eq)]
pub enum SinceFault {
    /// They are not of as many pages.
    OtherShape,
    /// This page, counted from 0 and the lowest of its kind, has less wear than before.
    Backwards(usize),
    /// Memory ran out.
    Memory,
}

impl From<AllocError> for SinceFault {
    ghost use Rattle.std.specs.Prelude.{◌≡◌};
    ghost use Rattle.ee_wear.specs.declared.since.SinceFault.TheVariants.{Memory};

    ghost from_gives = { λ _ fault. fault ≡ Memory };

    fn from(_error: AllocError) -> SinceFault {
        SinceFault::Memory
    }
}

/// The first page that has less wear now than before.
pub(crate) fn first_fallen(before: &[u64], now: &[u64]) -> Option<usize>
    requires { length now.now ≡ length before.now }
    ensures found { IfSome result (IsFirstFallen before.now now.now) }
    ensures none { IfNone result (NoneFell before.now now.now) }
{
    before.iter().zip(now).position(|(old, new)| new < old)
}

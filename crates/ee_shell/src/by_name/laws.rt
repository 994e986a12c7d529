//! What holds of all settings and values. Each function does nothing: its contract is the law.
ghost use Rattle.ee_shell.specs.ByName.Applying.{ApplyingStoresValues, ApplyingTwiceWritesNothing};
ghost use Rattle.ee_shell.specs.ByName.Verifying.{ApplyingWhatIsVerified, VerifyingWhatIsApplied};

/// After entries were applied, the setting that each names has its value stored, and every other
/// address has what it had.
#[tactic(auto, using(crate::proofs::ByNameLemmas::Stored::applying_stores_values_lem))]
pub fn applying_stores_values()
    ensures { ApplyingStoresValues }
{}

/// Applied once more, they write nothing: a factory run may be made twice.
#[tactic(auto, using(crate::proofs::ByNameLemmas::Stored::applying_twice_lem))]
pub fn applying_twice_writes_nothing()
    ensures { ApplyingTwiceWritesNothing }
{}

/// Of values that are all stored, `apply` writes nothing.
#[tactic(auto, using(crate::proofs::ByNameLemmas::Compared::applies_nothing))]
pub fn applying_what_is_verified()
    ensures { ApplyingWhatIsVerified }
{}

/// The values that were applied are all stored.
#[tactic(auto, using(crate::proofs::ByNameLemmas::Compared::applied_verified))]
pub fn verifying_what_is_applied()
    ensures { VerifyingWhatIsApplied }
{}

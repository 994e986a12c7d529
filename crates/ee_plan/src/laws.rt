//! What holds of every schedule on a device. Each function does nothing: its contract is the law.
ghost use Rattle.ee_plan.specs.Lasting.{FewestMovesLast, FewestMovesLastAsLong};
ghost use Rattle.ee_plan.specs.Wearing.{FewestTransfersWear};

/// Where no schedule of a trace makes fewer than K transfers, each of them erases the first
/// page of one of its sets at least K / 2 times, whatever its steps are, and wherever it
/// starts: that of the set that was live K / 2 times, that of the other (K + 1) / 2 times, or
/// once less where it was blank.
pub fn fewest_transfers_wear()
    ensures { FewestTransfersWear }
{}

/// Where a store's calls made no more transfers than any schedule of a trace, each schedule erases
/// its most worn page as often as they erased theirs, or once less.
pub fn fewest_moves_last()
    ensures { FewestMovesLast }
{}

/// And as often, where no clean step erased a page, and at the start no page of the set that isn't
/// live waited to be erased, or its first page did.
pub fn fewest_moves_last_as_long()
    ensures { FewestMovesLastAsLong }
{}

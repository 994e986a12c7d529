//! Laws of totals and differences, each the contract of a function that does nothing.
ghost use Rattle.ee_wear.specs.Laws.{DifferencesAddUp, ErasesWearOne, NoWearFalls, NoneFellThroughout, ProgramsWearNothing};

/// Where no page has less wear than before, the differences together are the
/// difference of the totals.
pub fn differences_add_up()
    ensures { DifferencesAddUp }
{}

/// Whatever a step leaves, no page has less wear than before.
pub fn no_wear_falls()
    ensures { NoWearFalls }
{}

/// Where no page's wear fell from a first look to a second, nor from that to a third, none fell
/// from the first to the third. So a ledger has a difference to each earlier one of its device.
pub fn none_fell_throughout()
    ensures { NoneFellThroughout }
{}

/// Whatever a program leaves, the total wear is as before.
pub fn programs_wear_nothing()
    ensures { ProgramsWearNothing }
{}

/// An erase that starts raises the total wear by one, also where it is cut, while the page's wear
/// is below `u64::MAX`.
pub fn erases_wear_one()
    ensures { ErasesWearOne }
{}

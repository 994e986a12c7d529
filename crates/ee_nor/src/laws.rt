//! Laws of pairs and of coded words, each the contract of a function that does nothing.
ghost use Rattle.ee_nor.specs.Coded.Coded.{SlotsStandInClear};
ghost use Rattle.ee_nor.specs.Coded.Shapes.{OtherMarkIsTorn};
ghost use Rattle.ee_nor.specs.Coded.Wiping.{NewStaysNew};
ghost use Rattle.ee_nor.specs.Laws.{EraseMakesNoNumber, PairsAreFormed, PartsAreAProgram, TornIsTold};

/// A word that was cut on its way to a value reads as that value, or as none.
pub fn torn_is_told()
    ensures { TornIsTold }
{}

/// An erase that is cut leaves no number that didn't stand there.
pub fn erase_makes_no_number()
    ensures { EraseMakesNoNumber }
{}

/// A number that is programmed by parts, in any order and cut in any of them, is left as a program
/// that is cut may leave it.
pub fn parts_are_a_program()
    ensures { PartsAreAProgram }
{}

/// The words of a flash of numbers that is formed are a formed device.
pub fn pairs_are_formed()
    ensures { PairsAreFormed }
{}

/// The mark of coded words of one shape is torn on a device of another.
pub fn other_mark_is_torn()
    ensures { OtherMarkIsTorn }
{}

/// In the coded word of a slot's number the value, kind and address stand as they are, and no other
/// has an address.
pub fn slots_stand_in_clear()
    ensures { SlotsStandInClear }
{}

/// Where power is cut in a first start on a flash of coded words, one may be made again.
pub fn new_stays_new()
    ensures { NewStaysNew }
{}

//! Laws of events that drive a store through power cuts and openings; each the contract of a
//! function that does nothing.
ghost use Rattle.ee_store.specs.PowerCuts.Outcome.{AKeptChangeStays, NoAnsweredChangeIsLost, NoneIsLostFromNone};

/// Whatever is cut, and however often, no change that was answered is lost; of the changes in which
/// power was cut it is known which were kept, and there are no others.
pub fn no_answered_change_is_lost()
    ensures { NoAnsweredChangeIsLost }
{}

/// So it is with a device on which no value was ever stored, however often power is cut in starting
/// it.
pub fn none_is_lost_from_none()
    ensures { NoneIsLostFromNone }
{}

/// A change that was kept stays, whatever is cut later, and however often, until a further change
/// of its address is asked for.
pub fn a_kept_change_stays()
    ensures { AKeptChangeStays }
{}

//! What holds of every script at a desk. The functions do nothing: their contracts are the laws.
ghost use Rattle.ee_replay.specs.ArmedCuts.{EachCutWasArmed};
ghost use Rattle.ee_replay.specs.Kept.{AnAnsweredChangeStays};
ghost use Rattle.ee_replay.specs.Outcomes.{OneOutcome, OneTry};

/// No line is answered `cut` before the first that arms a cut, and from one such line to the
/// next at most one is.
pub fn cuts_are_armed()
    ensures { EachCutWasArmed }
{}

/// Whatever is cut later, and however often, a change that was answered `ok` or `moved` is there in
/// the end, where no later line asks for a change of its address.
pub fn an_answered_change_stays()
    ensures { AnAnsweredChangeStays }
{}

/// With all its cuts a script is a function of texts: the image and the script decide the new image
/// and the report.
pub fn one_outcome()
    ensures { OneOutcome }
{}

/// So do the shape of a new device and a script that is tried on it.
pub fn one_try()
    ensures { OneTry }
{}

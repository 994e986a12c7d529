//! What holds of every script. Each function does nothing: its contract is the law.
ghost use Rattle.ee_interface.specs.Script.Laws.{EachTextIsJudged, OneFirstBadLine, OneScript, ScriptsAreGood};

/// A text is the script of one list of commands at most.
#[tactic(auto, using(crate::proofs::ScriptLemmas::Reading::one_script_lem))]
pub fn one_script()
    ensures { OneScript }
{}

/// A text has one first bad line at most.
pub fn one_first_bad_line()
    ensures { OneFirstBadLine }
{}

/// A script has no bad line, so a text is a script, or has a first bad line, and not both.
pub fn scripts_are_good()
    ensures { ScriptsAreGood }
{}

/// Every text is a script of some commands, or has a first bad line: no text is left unjudged.
pub fn each_text_is_judged()
    ensures { EachTextIsJudged }
{}

//! What holds of every text and all bytes. Each function does nothing: its contract is the law.
ghost use Rattle.ee_shell.specs.Dumps.intel_hex.Laws.{EachTextIsJudged, OneBadLine, OneReading, ReadingsAreGood, SparseTextsReadBack, TextsReadBack};

/// A text that is written reads back.
pub fn texts_read_back()
    ensures { TextsReadBack }
{}

/// So does one without the erased words.
pub fn sparse_texts_read_back()
    ensures { SparseTextsReadBack }
{}

/// A text says one row of bytes at most.
pub fn one_reading()
    ensures { OneReading }
{}

/// A text that says bytes has no bad line.
pub fn readings_are_good()
    ensures { ReadingsAreGood }
{}

/// A text has one first bad line at most.
pub fn one_bad_line()
    ensures { OneBadLine }
{}

/// Every text says bytes or has a bad line.
pub fn each_text_is_judged()
    ensures { EachTextIsJudged }
{}

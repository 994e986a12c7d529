//! What follows for records. Each function does nothing: its contract is the law.
ghost use Rattle.ee_records.specs.Laws.{OneWordIsTold, OtherRecordsAreKept, RecordsAreOne, RecordsGrow};

/// A map holds one record at a base address at most.
pub fn records_are_one()
    ensures { RecordsAreOne }
{}

/// Where one address but the base has any other value or none, a record reads as it was, or hurt.
pub fn one_word_is_told()
    ensures { OneWordIsTold }
{}

/// What keeps all but one record keeps each record that is apart from it.
pub fn other_records_are_kept()
    ensures { OtherRecordsAreKept }
{}

/// With more room a record is the same.
pub fn records_grow()
    ensures { RecordsGrow }
{}

//! What holds of every text. Each function does nothing: its contract is the law.
ghost use Rattle.ee_text.specs.Laws.{RowsTellFields, FieldsMakeALine, TextsTellLines, NumbersAreFields, TextsTellNumbers};

/// Two numbers are never written alike.
pub fn texts_tell_numbers()
    ensures { TextsTellNumbers }
{}

/// A number is a field of a line, of one byte to twenty.
pub fn numbers_are_fields()
    ensures { NumbersAreFields }
{}

/// Fields in a row are these and no others: a line is read in one way.
pub fn rows_tell_fields()
    ensures { RowsTellFields }
{}

/// Fields with no line feed make a line.
pub fn fields_make_a_line()
    ensures { FieldsMakeALine }
{}

/// A text of lines is of these lines and no others.
pub fn texts_tell_lines()
    ensures { TextsTellLines }
{}

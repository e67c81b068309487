//! Laws of positions, of reasons and of tests, each the contract of a function that does nothing.
ghost use Rattle.template_check.specs.Laws.{LineIsCounted, FirstLineIsCounted, ColumnIsCounted, TestsAreReadToTheirEnd};
ghost use Rattle.template_check.specs.Refusals.{ReasonsAreTrue};

/// A place's line is one more than the number of line feeds before it.
pub fn lines_are_counted()
    ensures { LineIsCounted }
{}

/// If no line feed is before a place, its column is one more than the number of bytes before it.
pub fn columns_of_the_first_line_are_counted()
    ensures { FirstLineIsCounted }
{}

/// Elsewhere its column is one more than the number of bytes between the last line feed before it and the place.
pub fn columns_are_counted()
    ensures { ColumnIsCounted }
{}

/// If a text isn't a template, the reason is true of the reading that stops at the fault's place.
pub fn reasons_are_true()
    ensures { ReasonsAreTrue }
{}

/// A text is a test exactly if reading it stops at its end and only an operator could continue it.
pub fn tests_are_read_to_their_end()
    ensures { TestsAreReadToTheirEnd }
{}

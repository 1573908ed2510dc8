//! Laws on how inputs of lines are read, each the contract of a function that does nothing.
ghost use Rattle.line_inputs.specs.GraphLinesLaws.{OneReading, EachInputIsRead};
ghost use Rattle.line_inputs.specs.GraphLinesWhole.{ReadWithinLimit, OneWholeReading, PartsAreRead};

/// States the law that each input is read in at most one way: two readings have the same graphs, in the same order, and
/// the same ending.
pub fn one_reading()
    ensures { OneReading }
{}

/// States the law that each input is read in one way at least: whatever its bytes are, it has graphs and an ending.
pub fn each_input_is_read()
    ensures { EachInputIsRead }
{}

/// States the law that an input within the limit is read as an input of any length is.
pub fn read_within_limit()
    ensures { ReadWithinLimit }
{}

/// States the law that each input of any length is read in one way at most.
pub fn one_whole_reading()
    ensures { OneWholeReading }
{}

/// States the law that an input that is cut behind the line of a graph is read as the graphs of its first part and then
/// those of the second, which begins with no header.
pub fn parts_are_read()
    ensures { PartsAreRead }
{}

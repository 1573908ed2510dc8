//! Laws on how inputs of figures are read, each the contract of a function that does nothing.
ghost use Rattle.line_inputs.specs.FigureLinesLaws.{OneReading, EachInputIsRead, ConsumedIsRead};

/// States the law that each input is read in at most one way: two readings have the same figures, in the same order,
/// and the same ending.
pub fn one_reading()
    ensures { OneReading }
{}

/// States the law that each input is read in one way at least: whatever its bytes are, it has figures and an ending.
pub fn each_input_is_read()
    ensures { EachInputIsRead }
{}

/// States the law that the bytes that a reader has consumed are read as the figures that it has answered, and end as
/// the reader says.
pub fn consumed_is_read()
    ensures { ConsumedIsRead }
{}

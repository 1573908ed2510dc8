//! Laws on how inputs of planar_code are read and written, each the contract of a function that does nothing.
ghost use Rattle.planar_code.specs.Laws.{OneReading, EachInputIsRead, RecordIsRead};
ghost use Rattle.planar_code.specs.Whole.{ReadWithinLimit, OneWholeReading, PartsAreRead};

/// States the law that each input is read in one way at most: two readings of it have the same records, in the same
/// order, and the same ending.
pub fn one_reading()
    ensures { OneReading }
{}

/// States the law that each input is read in one way at least: it has records and an ending.
pub fn each_input_is_read()
    ensures { EachInputIsRead }
{}

/// States the law that a record that `write_record` writes is read back by `next_record`, whatever stands before it and
/// after it. No other step is at its first byte, and no fault but out of memory.
pub fn record_is_read()
    ensures { RecordIsRead }
{}

/// States the law that an input within the limit is read as an input of any length is.
pub fn read_within_limit()
    ensures { ReadWithinLimit }
{}

/// States the law that each input of any length is read in one way at most.
pub fn one_whole_reading()
    ensures { OneWholeReading }
{}

/// States the law that an input that is cut at the end of a record is read as the records of its first part and then
/// those of the second, which does not begin with a header.
pub fn parts_are_read()
    ensures { PartsAreRead }
{}

//! Laws on the text of figures: what is printed is read back as the same figure, and each text has one reading.
ghost use Rattle.figure_text.specs.Laws.{PrintedIsRead, OneAnswer};

/// States the law that the text that `print_figure` appends of a figure is read back as the same figure, wherever it
/// stands and whatever follows. A reading may answer that figure, with the offset after what was appended. All numbers
/// of the figure have to be within the ranges of the text: its own from 1 to 16777216, and from 1 to 4095 vertices.
/// Neighbours are from 1 to 65535, and coordinates from -1048576 to 1048576.
pub fn printed_is_read()
    ensures { PrintedIsRead }
{}

/// States the law that there is one answer at an offset of a text, but when out of memory. Two items, two faults, or an
/// item and a fault that both hold there are the same. So what `print_figure` appended is read only as that figure.
pub fn one_answer()
    ensures { OneAnswer }
{}

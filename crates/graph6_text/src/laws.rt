//! Laws on graph6 lines: each line names one graph, and each graph has one line.
ghost use Rattle.graph6_text.specs.Laws.{LinesAreGraphs, OneGraph, OneLine};

/// States the law that a line is that of one graph: what was written is read as the same graph.
pub fn one_graph()
    ensures { OneGraph }
{}

/// States the law that a graph has one line: a line that is read is the one that is written.
pub fn one_line()
    ensures { OneLine }
{}

/// States the law that the edges of a line are those of a graph, in order and each once, and the line has no fault.
pub fn lines_are_graphs()
    ensures { LinesAreGraphs }
{}

//! Laws of verdicts and refusals: on each drawing there is at most one verdict, and lists break at most one condition
//! first. So what a check finds, and what refuses a record, is a function of its input.
#![tactic(auto)]

ghost use Rattle.verdict_laws.specs.Laws.{OneVerdict, OneOuterVerdict, OneConvexVerdict, OneBarVerdict, OneRectVerdict, OneWitnessVerdict, OneFigureVerdict, OneBreak, OneConvexBreak, OneRectBreak};

/// States the law that a drawing in a grid has at most one verdict: its first kind of fault, with the least vertices.
pub fn one_verdict()
    ensures { OneVerdict }
{}

/// States the law that a drawing has at most one verdict on its outer face, that of a base dart.
pub fn one_outer_verdict()
    ensures { OneOuterVerdict }
{}

/// States the law that a drawing has at most one verdict on whether its faces are convex over a base dart.
pub fn one_convex_verdict()
    ensures { OneConvexVerdict }
{}

/// States the law that a visibility drawing has at most one verdict for each width.
pub fn one_bar_verdict()
    ensures { OneBarVerdict }
{}

/// States the law that a rectangular dual has at most one verdict.
pub fn one_rect_verdict()
    ensures { OneRectVerdict }
{}

/// States the law that a Kuratowski witness has at most one verdict.
pub fn one_witness_verdict()
    ensures { OneWitnessVerdict }
{}

/// States the law that a figure of any kind has at most one verdict.
pub fn one_figure_verdict()
    ensures { OneFigureVerdict }
{}

/// States the law that at most one condition on biconnected maps is the first that lists break.
pub fn one_break()
    ensures { OneBreak }
{}

/// States the law that at most one condition on three-connected maps is the first that lists break.
pub fn one_convex_break()
    ensures { OneConvexBreak }
{
    conn_parts::biconnected_maps::biconnected_break_nothing();
}

/// States the law that at most one condition on maps with rectangular duals is the first that lists break.
pub fn one_rect_break()
    ensures { OneRectBreak }
{
    conn_parts::biconnected_maps::biconnected_break_nothing();
}

//! Promised laws: statements over the definitions alone, which hold of every map, drawing, text and graph.
ghost use Rattle.bar_check.specs.Laws.{YesIsValid as YesIsValidBars, OverlapIsNever};
ghost use Rattle.bipolar.specs.Laws.{NumberingIsOne};
ghost use Rattle.convex_check.specs.Laws.{YesIsConvex};
ghost use Rattle.convex_faces.specs.FaceRegionsLaws.{RegionsAreCoordinates};
ghost use Rattle.convex_laws.specs.FaceRegionsLaws.{RegionsAreOne};
ghost use Rattle.draw_check.specs.FaceLaws.{FacesYesIsYes};
ghost use Rattle.draw_check.specs.Laws.{YesIsPlane, YesIsValid};
ghost use Rattle.embed_graph.specs.Laws.{DrawnExactly};
ghost use Rattle.embed_theorem.specs.Embedding.{PlanarExactly};
ghost use Rattle.embed_theorem.specs.Refuted.{WitnessesRefute};
ghost use Rattle.figure_text.specs.Laws.{PrintedIsRead, OneAnswer};
ghost use Rattle.figure_verdicts.specs.Laws.{YesIsValidFigure};
ghost use Rattle.graph6_text.specs.Laws.{OneGraph, OneLine};
ghost use Rattle.grid_figures.specs.SchnyderFiguresLaws.{SomeSchnyderFigure};
ghost use Rattle.grid_figures.specs.ShiftFiguresLaws.{SomeShiftFigure};
ghost use Rattle.left_right_laws.specs.Forests.{ForkOrder, PlaneIsLeftRight};
ghost use Rattle.left_right_laws.specs.Tours.{PlaneByNesting};
ghost use Rattle.left_right_laws.specs.Ways.{ThreeWays};
ghost use Rattle.left_right_maps.specs.Brackets.{BalancedIsPlane};
ghost use Rattle.left_right_maps.specs.Graphs.{PlanarByLeftRight};
ghost use Rattle.left_right_maps.specs.Orders.{ForkIsOrdered};
ghost use Rattle.left_right_maps.specs.RootedMaps.{TreeHasTour};
ghost use Rattle.map_theory.specs.Bound.{EulerBound};
ghost use Rattle.pg_perm.specs.Law.{OneSwap};
ghost use Rattle.pigale_words.specs.Spelling.{JobWords};
ghost use Rattle.planar_code.specs.Laws.{OneReading, EachInputIsRead, RecordIsRead};
ghost use Rattle.planar_code.specs.Whole.{ReadWithinLimit, OneWholeReading, PartsAreRead};
ghost use Rattle.line_inputs.specs.GraphLinesWhole.{ReadWithinLimit as GraphsReadWithinLimit, OneWholeReading as OneReadingOfGraphs, PartsAreRead as PartsOfGraphsAreRead};
ghost use Rattle.plane_laws.specs.Laws.{CornerSplit, DigonSplit, EdgeRemoved, FacesMerged};
ghost use Rattle.plane_laws.specs.Smoothed.{VertexSmoothed};
ghost use Rattle.rect_check.specs.Laws.{YesIsDual};
ghost use Rattle.schnyder_grid.specs.FigureRegions.{FiguresByRegions};
ghost use Rattle.simple_maps.specs.Laws.{NoFaultIsSimple, FirstFaultIsFirst};
ghost use Rattle.wood_laws.specs.WoodOrdersLaws.{NestedInWood, CoordinatesInWood};

/// A vertex with two corners in one face of a map of genus zero separates the entries between them from the others.
pub fn corner_split()
    ensures { CornerSplit }
{
    plane_laws::corner_split();
}

/// Two adjacent vertices with corners in one face of a map of genus zero separate the two sides between them.
pub fn digon_split()
    ensures { DigonSplit }
{
    plane_laws::digon_split();
}

/// A map of genus zero without one of its edges has genus zero.
pub fn edge_removed()
    ensures { EdgeRemoved }
{
    plane_laws::edge_removed();
}

/// A map of genus zero keeps it where a vertex with two neighbours, not adjacent, becomes an edge between them.
pub fn vertex_smoothed()
    ensures { VertexSmoothed }
{
    plane_laws::map_edits::vertex_smoothed();
}

/// In a connected map of genus zero, removing an edge that is no bridge merges its two faces and changes no other.
pub fn faces_merged()
    ensures { FacesMerged }
{
    plane_laws::faces_merged();
}

/// Three ways that join two vertices of a map of genus zero, and meet nowhere else, have opposite orders at the two.
pub fn three_ways()
    ensures { ThreeWays }
{
    left_right_laws::three_ways();
}

/// A connected map with a tour along a spanning tree has genus zero exactly where all other edges are nested in it.
pub fn plane_by_nesting()
    ensures { PlaneByNesting }
{
    left_right_laws::plane_by_nesting();
}

/// At a fork of a map of genus zero, the order of its two edges tells on which side those that return by them end.
pub fn fork_order()
    ensures { ForkOrder }
{
    left_right_laws::fork_order();
}

/// A graph with a map of genus zero has, with each rooted forest, a left-right partition of its returning edges.
pub fn plane_is_left_right()
    ensures { PlaneIsLeftRight }
{
    left_right_laws::plane_is_left_right();
}

/// At each fork of a graph parted into left and right, its edges can be put in an order in which the edges that
/// return by them may stand.
pub fn fork_is_ordered()
    ensures { ForkIsOrdered }
{
    left_right_maps::fork_is_ordered();
}

/// The darts of a map with a rooted spanning tree, listed from the root, are a tour along the tree, each met once.
pub fn tree_has_tour()
    ensures { TreeHasTour }
{
    left_right_maps::tree_has_tour();
}

/// A map with a rooted spanning tree has genus zero where no two other edges cross as pairs in the tour along the tree.
pub fn balanced_is_plane()
    ensures { BalancedIsPlane }
{
    left_right_maps::balanced_is_plane();
}

/// A graph with a depth-first forest has a map of genus zero exactly if its return edges have a left-right partition.
pub fn planar_by_left_right()
    ensures { PlanarByLeftRight }
{
    left_right_maps::planar_by_left_right();
}

/// In every simple map n + f is at most 2c + m, by an even difference.
pub fn euler_bound()
    ensures { EulerBound }
{
    map_theory::euler_bound::euler_bound();
}

/// Swapping two images of a permutation cuts one orbit in two, or joins two.
pub fn one_swap()
    ensures { OneSwap }
{
    pg_perm::one_swap();
}

/// Lists have no first fault exactly where they are a simple map.
pub fn no_fault_is_simple()
    ensures { NoFaultIsSimple }
{
    simple_maps::no_fault_is_simple();
}

/// The first fault is the least of the first kind that the lists have.
pub fn first_fault_is_first()
    ensures { FirstFaultIsFirst }
{
    simple_maps::first_fault_is_first();
}

/// An input of planar_code has one reading.
pub fn one_record_reading()
    ensures { OneReading }
{
    planar_code::laws::one_reading();
}

/// Each input of planar_code has a reading.
pub fn each_record_input_is_read()
    ensures { EachInputIsRead }
{
    planar_code::laws::each_input_is_read();
}

/// A record is read as its lists, whatever bytes follow.
pub fn record_is_read()
    ensures { RecordIsRead }
{
    planar_code::laws::record_is_read();
}

/// An input of planar_code within the limit is read as one of any length is.
pub fn records_read_within_limit()
    ensures { ReadWithinLimit }
{
    planar_code::laws::read_within_limit();
}

/// An input of planar_code of any length has one reading.
pub fn one_whole_record_reading()
    ensures { OneWholeReading }
{
    planar_code::laws::one_whole_reading();
}

/// An input of planar_code that is cut at the end of a record has the records of its parts.
pub fn parts_of_records_are_read()
    ensures { PartsAreRead }
{
    planar_code::laws::parts_are_read();
}

/// An input of graph6 lines within the limit is read as one of any length is.
pub fn graphs_read_within_limit()
    ensures { GraphsReadWithinLimit }
{
    line_inputs::graph_lines::laws::read_within_limit();
}

/// An input of graph6 lines of any length has one reading.
pub fn one_whole_graph_reading()
    ensures { OneReadingOfGraphs }
{
    line_inputs::graph_lines::laws::one_whole_reading();
}

/// An input of graph6 lines that is cut behind the line of a graph has the graphs of its parts.
pub fn parts_of_graphs_are_read()
    ensures { PartsOfGraphsAreRead }
{
    line_inputs::graph_lines::laws::parts_are_read();
}

/// A line is the line of one graph.
pub fn one_graph()
    ensures { OneGraph }
{
    graph6_text::one_graph();
}

/// A graph has one line.
pub fn one_line()
    ensures { OneLine }
{
    graph6_text::one_line();
}

/// The text of a figure is read as this figure, whatever bytes follow.
pub fn printed_is_read()
    ensures { PrintedIsRead }
{
    figure_text::laws::printed_is_read();
}

/// At each offset of a text of figures there is one answer: one figure, note, end or fault.
pub fn one_answer()
    ensures { OneAnswer }
{
    figure_text::laws::one_answer();
}

/// A straight-line drawing has the verdict yes exactly where it is valid.
pub fn yes_is_valid_drawing()
    ensures { YesIsValid }
{
    draw_check::yes_is_valid();
}

/// The edges of a straight-line drawing alone have the verdict yes exactly where the drawing is plane.
pub fn yes_is_plane()
    ensures { YesIsPlane }
{
    draw_check::yes_is_plane();
}

/// A triangulation of which all inner faces are counterclockwise is drawn plane with its rotations kept.
pub fn faces_yes_is_yes()
    ensures { FacesYesIsYes }
{
    draw_check::faces_yes_is_yes();
}

/// A drawing has the verdict yes on its bends exactly where it is convex.
pub fn yes_is_convex()
    ensures { YesIsConvex }
{
    convex_check::yes_is_convex();
}

/// Rectangles have the verdict yes exactly where they are a rectangular dual.
pub fn yes_is_dual()
    ensures { YesIsDual }
{
    rect_check::yes_is_dual();
}

/// Bars have the verdict yes exactly where they are valid.
pub fn yes_is_valid_bars()
    ensures { YesIsValidBars }
{
    bar_check::yes_is_valid();
}

/// A figure has the verdict yes exactly where it is valid by its own kind.
pub fn yes_is_valid_figure()
    ensures { YesIsValidFigure }
{
    figure_verdicts::yes_is_valid_figure();
}

/// A graph with a Kuratowski subdivision has no map of genus zero.
pub fn witnesses_refute()
    ensures { WitnessesRefute }
{
    embed_theorem::witness_law::witnesses_refute();
}

/// A graph has a map of genus zero exactly where it has no Kuratowski subdivision.
pub fn planar_exactly()
    ensures { PlanarExactly }
{
    embed_theorem::embeddings::planar_exactly();
}

/// Each simple map of genus zero with three vertices or more has a drawing by the shift method.
pub fn some_shift_figure()
    ensures { SomeShiftFigure }
{
    grid_figures::shift_figures::some_shift_figure();
}

/// Each simple map of genus zero with three vertices or more has a drawing by Schnyder's coordinates.
pub fn some_schnyder_figure()
    ensures { SomeSchnyderFigure }
{
    grid_figures::schnyder_figures::some_schnyder_figure();
}

/// A graph of three vertices or more is drawn exactly where it has no Kuratowski subdivision.
pub fn drawn_exactly()
    ensures { DrawnExactly }
{
    embed_graph::embed_laws::drawn_exactly();
}

/// Where an inner vertex lies in a region of another, its region is part of that.
pub fn nested_in_wood()
    ensures { NestedInWood }
{
    wood_laws::wood_orders::nested_in_wood();
}

/// Each figure of the job `schnyder` has its coordinates by the regions of a wood of some completion.
pub fn figures_by_regions()
    ensures { FiguresByRegions }
{
    schnyder_grid::figures_by_regions();
}

/// The three coordinates of an inner vertex sum to one less than the number of vertices.
pub fn coordinates_in_wood()
    ensures { CoordinatesInWood }
{
    wood_laws::wood_orders::coordinates_in_wood();
}

/// A vertex of a convex wood has one region for each axis, with one number of faces.
pub fn regions_are_one()
    ensures { RegionsAreOne }
{
    convex_laws::face_regions::regions_are_one();
}

/// The numbers of faces in the regions of a convex wood are the coordinates of its drawing.
pub fn regions_are_coordinates()
    ensures { RegionsAreCoordinates }
{
    convex_faces::face_regions::regions_are_coordinates();
}

/// An st-order has one longest-path numbering of the dual.
pub fn numbering_is_one()
    ensures { NumberingIsOne }
{
    bipolar::bar_laws::numbering_is_one();
}

/// No bars have an overlap as their first fault.
pub fn overlap_is_never()
    ensures { OverlapIsNever }
{
    bar_check::overlap_is_never();
}

/// The words of each job are exactly those that spell it.
pub fn job_words()
    ensures { JobWords }
{
    pigale_words::job_words();
}

//! A law: the figures of the job `schnyder` are by the regions of a Schnyder wood.
ghost use Rattle.schnyder_grid.specs.FigureRegions.{FiguresByRegions};

/// States the law that each figure of the job `schnyder` has its coordinates by a Schnyder wood of some completion of
/// its map to a triangulation. The coordinate of an inner vertex for a colour is how many more vertices its region of
/// this colour has than its path of the colour before.
pub fn figures_by_regions()
    ensures { FiguresByRegions }
{
    contour_runs::covered_once();
    wood_laws::order_woods::wood_of_order();
    wood_laws::wood_regions::drawn_at_coordinates();
}

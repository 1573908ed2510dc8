//! The verdict on a straight-line drawing that is to be convex.
ghost use Rattle.std.specs.Prelude.{◌≡◌, ◌≢◌, ◌-◌, List, ℤ, pos, ◌-ℤ◌, IfOk};
ghost use Rattle.map_lists.specs.Lists.{Lists};
ghost use Rattle.pg_plane.specs.declared.grid_points.Point.{Point};
ghost use Rattle.map_theory.specs.Maps.{face_count};
ghost use Rattle.half_edges.specs.Map.{first_dart};
ghost use Rattle.draw_check.specs.Verdicts.{IsVerdict};
ghost use Rattle.draw_check.specs.declared.verdict.Verdict.TheVariants.{Yes as NoFault};
ghost use Rattle.convex_check.specs.Verdicts.{IsConvexVerdict};
ghost use Rattle.figure_verdicts.specs.Verdicts.{HasBase, IsBendVerdict, IsShapedVerdict};

use crate::FigureVerdict;
use crate::drawing_verdicts::MapDrawing;
use convex_check::{ConvexVerdict, check_convex_points};
use draw_check::{Verdict, check_points};
use half_edges::VertexId;
use pg_plane::Point;
use std::alloc::AllocError;

// Converts `verdict`, on the bends of a drawing's faces, to `Yes` or to `Convex` with that verdict.
fn of_convex(verdict: ConvexVerdict) -> FigureVerdict
    ensures { (lists : Lists) (points : List Point) → IsConvexVerdict lists points (first_dart lists 0) verdict → HasBase lists
        → IsBendVerdict lists points result }
{
    match verdict {
        ConvexVerdict::Yes => FigureVerdict::Yes,
        _ => FigureVerdict::Convex(verdict),
    }
}

impl MapDrawing<'_> {
    // Judges only the bends of the faces, with that of vertex 0's first dart outside. Returns `Yes` or `Convex`, which
    // is `OuterBent` where vertex 0 has no dart. It fails only when out of memory.
    fn bend_verdict(&self) -> Result<FigureVerdict, AllocError>
        ensures { IfOk result (IsBendVerdict self.now.map.now.lists self.now.points.now) }
    {
        match self.map.first_dart(VertexId(0)) {
            Some(base) => {
                let verdict = check_convex_points(self.alloc, self.map, base, self.points)?;
                Ok(of_convex(verdict))
            }
            None => Ok(FigureVerdict::Convex(ConvexVerdict::OuterBent)),
        }
    }

    /// Returns the verdict on a drawing that is to be convex, in the grid up to `corner`: its first fault as `Drawing`,
    /// or else how a face bends as `Convex`, or `Yes`. It fails only when out of memory.
    pub fn convex_verdict(&self, corner: Point) -> Result<FigureVerdict, AllocError>
        ensures { IfOk result (IsShapedVerdict self.now.map.now.lists self.now.points.now corner.x corner.y) }
    {
        match check_points(self.map, self.points, corner) {
            Verdict::Yes => {
                let verdict = self.bend_verdict()?;
                Ok(verdict)
            }
            verdict => Ok(FigureVerdict::Drawing(verdict)),
        }
    }
}

//! The job `convex`: drawings with convex faces.
use crate::form_printer::FormPrinter;
use crate::method::{MapRecord, Method};
use convex_draw::convex_figures::ConvexDrawer;
use figure_text::GridJob;
use half_edges::Rotations;
use pg_plane::GridFigure;
use refusals::Unserved;
use std::alloc::{AllocError, Global};

/// The method of the job `convex`: it draws with convex faces.
#[derive(Drop)]
pub struct Convex {
    drawer: ConvexDrawer,
    printer: FormPrinter,
}

impl Method for Convex {
    ghost use Rattle.convex_draw.specs.Figures.{IsConvexFigure};
    ghost use Rattle.pigale_shell.specs.Kinds.{says_of};
    ghost use Rattle.pigale_shell.specs.declared.map_jobs.MapJob.TheVariants as job;

    type Figure = GridFigure;

    ghost says = { says_of job.Convex };

    ghost IsFigure = { IsConvexFigure };

    // Makes the method, before the first map. It takes no memory.
    fn new(alloc: Global) -> Convex {
        Convex {
            drawer: ConvexDrawer::new(alloc),
            printer: FormPrinter::new(alloc),
        }
    }

    // Draws the map of `lists` convex. `Err` has the first condition of the job that they break, or says no memory.
    fn figure(&mut self, lists: &Rotations) -> Result<GridFigure, Unserved> {
        let figure = self.drawer.figure(lists)?;
        Ok(figure)
    }

    // Appends the drawing `figure` of `given` to `out`, as text or SVG. When memory runs out `out` is unchanged.
    fn print(
        &mut self,
        given: &MapRecord<'_>,
        figure: &GridFigure,
        out: &mut Vec<u8>,
    ) -> Result<(), AllocError> {
        self.printer
            .print_grid(given, GridJob::Convex, &figure.points, out)
    }

    // Drops the figure, whose memory is not used again.
    fn keep(&mut self, _figure: GridFigure) {}

    // Calls laws only. Its contract: no map is both served and refused, and each breaks one condition first.
    fn lawful() {
        convex_class::convex_maps::three_connected_break_nothing();
        verdict_laws::one_convex_break();
    }
}

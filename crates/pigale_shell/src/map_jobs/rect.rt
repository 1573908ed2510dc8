//! The job `rect`: rectangular duals.
use crate::form_printer::FormPrinter;
use crate::method::{MapRecord, Method};
use half_edges::Rotations;
use pg_plane::RectFigure;
use rect_dual::figures::RectDrawer;
use refusals::Unserved;
use std::alloc::{AllocError, Global};

/// The method of the job `rect`: it draws a rectangle for each vertex.
#[derive(Drop)]
pub struct Rect {
    drawer: RectDrawer,
    printer: FormPrinter,
}

impl Method for Rect {
    ghost use Rattle.rect_dual.specs.Figures.{IsRectFigure};
    ghost use Rattle.pigale_shell.specs.Kinds.{says_of};
    ghost use Rattle.pigale_shell.specs.declared.map_jobs.MapJob.TheVariants as job;

    type Figure = RectFigure;

    ghost says = { says_of job.Rect };

    ghost IsFigure = { IsRectFigure };

    // Makes the method, before the first map. It takes no memory.
    fn new(alloc: Global) -> Rect {
        Rect {
            drawer: RectDrawer::new(alloc),
            printer: FormPrinter::new(alloc),
        }
    }

    // Draws a rectangular dual of `lists`. `Err` has the first condition of the job that they break, or says no memory.
    fn figure(&mut self, lists: &Rotations) -> Result<RectFigure, Unserved> {
        self.drawer.figure(lists)
    }

    // Appends the drawing `figure` of `given` to `out`, as text or SVG. When memory runs out `out` is unchanged.
    fn print(
        &mut self,
        given: &MapRecord<'_>,
        figure: &RectFigure,
        out: &mut Vec<u8>,
    ) -> Result<(), AllocError> {
        self.printer.print_rects(given, figure, out)
    }

    // Drops the figure, whose memory is not used again.
    fn keep(&mut self, _figure: RectFigure) {}

    // Calls laws only. Its contract: no map is both served and refused, and each breaks one condition first.
    fn lawful() {
        rect_class::biconnected_break_nothing();
        verdict_laws::one_rect_break();
    }
}

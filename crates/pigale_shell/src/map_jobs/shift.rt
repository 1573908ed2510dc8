//! The job `shift`: drawings by the shift method.
use crate::form_printer::FormPrinter;
use crate::method::{MapRecord, Method};
use figure_text::GridJob;
use grid_figures::Drawer;
use half_edges::Rotations;
use pg_plane::GridFigure;
use refusals::Unserved;
use std::alloc::{AllocError, Global};

/// The method of the job `shift`: it draws by the shift method.
#[derive(Drop)]
pub struct Shift {
    drawer: Drawer,
    printer: FormPrinter,
}

impl Method for Shift {
    ghost use Rattle.grid_figures.specs.ShiftFiguresFigures.{IsShiftFigure};
    ghost use Rattle.pigale_shell.specs.Kinds.{says_of};
    ghost use Rattle.pigale_shell.specs.declared.map_jobs.MapJob.TheVariants as job;

    type Figure = GridFigure;

    ghost says = { says_of job.Shift };

    ghost IsFigure = { IsShiftFigure };

    // Makes the method, before the first map. It takes no memory.
    fn new(alloc: Global) -> Shift {
        Shift {
            drawer: Drawer::new(alloc),
            printer: FormPrinter::new(alloc),
        }
    }

    // Draws `lists` by the shift method. `Err` has the first condition that they break, or says no memory.
    fn figure(&mut self, lists: &Rotations) -> Result<GridFigure, Unserved> {
        self.drawer.shift_figure(lists)
    }

    // Appends the drawing `figure` of `given` to `out`, as text or SVG. When memory runs out `out` is unchanged.
    fn print(
        &mut self,
        given: &MapRecord<'_>,
        figure: &GridFigure,
        out: &mut Vec<u8>,
    ) -> Result<(), AllocError> {
        refusals::no_refusal_is_plane();
        self.printer
            .print_grid(given, GridJob::Shift, &figure.points, out)
    }

    // Takes over the memory of a figure that was printed.
    fn keep(&mut self, figure: GridFigure) {
        self.drawer.keep_shift(figure);
    }

    // Does nothing. Its contract: no map is both served and refused, and each breaks one condition first.
    fn lawful() {}
}

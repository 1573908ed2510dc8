//! The job `schnyder`: drawings by Schnyder's coordinates.
use crate::form_printer::FormPrinter;
use crate::method::{MapRecord, Method};
use figure_text::GridJob;
use grid_figures::Drawer;
use half_edges::Rotations;
use pg_plane::GridFigure;
use refusals::Unserved;
use std::alloc::{AllocError, Global};

/// The method of the job `schnyder`: it draws by Schnyder's coordinates.
#[derive(Drop)]
pub struct Schnyder {
    drawer: Drawer,
    printer: FormPrinter,
}

impl Method for Schnyder {
    ghost use Rattle.grid_figures.specs.SchnyderFiguresFigures.{IsSchnyderFigure};
    ghost use Rattle.pigale_shell.specs.Kinds.{says_of};
    ghost use Rattle.pigale_shell.specs.declared.map_jobs.MapJob.TheVariants as job;

    type Figure = GridFigure;

    ghost says = { says_of job.Schnyder };

    ghost IsFigure = { IsSchnyderFigure };

    // Makes the method, before the first map. It takes no memory.
    fn new(alloc: Global) -> Schnyder {
        Schnyder {
            drawer: Drawer::new(alloc),
            printer: FormPrinter::new(alloc),
        }
    }

    // Draws `lists` by Schnyder's coordinates. `Err` has the first condition that they break, or says no memory.
    fn figure(&mut self, lists: &Rotations) -> Result<GridFigure, Unserved> {
        self.drawer.schnyder_figure(lists)
    }

    // Appends the drawing `figure` of `given` to `out`, as text or SVG. When memory runs out `out` is unchanged.
    fn print(
        &mut self,
        given: &MapRecord<'_>,
        figure: &GridFigure,
        out: &mut Vec<u8>,
    ) -> Result<(), AllocError> {
        refusals::no_refusal_is_plane();
        self.printer
            .print_grid(given, GridJob::Schnyder, &figure.points, out)
    }

    // Takes over the memory of a figure that was printed.
    fn keep(&mut self, figure: GridFigure) {
        self.drawer.keep_schnyder(figure);
    }

    // Does nothing. Its contract: no map is both served and refused, and each breaks one condition first.
    fn lawful() {}
}

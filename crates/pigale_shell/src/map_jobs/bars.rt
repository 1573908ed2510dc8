//! The job `bars`: visibility drawings.
use crate::form_printer::FormPrinter;
use crate::method::{MapRecord, Method};
use half_edges::Rotations;
use pg_plane::BarFigure;
use refusals::Unserved;
use std::alloc::{AllocError, Global};
use visibility::bar_figures::BarDrawer;

/// The method of the job `bars`: it draws vertices as bars that see each other.
#[derive(Drop)]
pub struct Bars {
    drawer: BarDrawer,
    printer: FormPrinter,
}

impl Method for Bars {
    ghost use Rattle.visibility.specs.Figures.{IsBarFigure};
    ghost use Rattle.pigale_shell.specs.Kinds.{says_of};
    ghost use Rattle.pigale_shell.specs.declared.map_jobs.MapJob.TheVariants as job;

    type Figure = BarFigure;

    ghost says = { says_of job.Bars };

    ghost IsFigure = { IsBarFigure };

    // Makes the method, before the first map. It takes no memory.
    fn new(alloc: Global) -> Bars {
        Bars {
            drawer: BarDrawer::new(alloc),
            printer: FormPrinter::new(alloc),
        }
    }

    // Draws the map of `lists` by bars. `Err` has the first condition of the job that they break, or says no memory.
    fn figure(&mut self, lists: &Rotations) -> Result<BarFigure, Unserved> {
        self.drawer.figure(lists)
    }

    // Appends the drawing `figure` of `given` to `out`, as text or SVG. When memory runs out `out` is unchanged.
    fn print(
        &mut self,
        given: &MapRecord<'_>,
        figure: &BarFigure,
        out: &mut Vec<u8>,
    ) -> Result<(), AllocError> {
        self.printer.print_bars(given, figure, out)
    }

    // Takes over the memory of a figure that was printed.
    fn keep(&mut self, figure: BarFigure) {
        self.drawer.keep(figure);
    }

    // Calls laws only. Its contract: no map is both served and refused, and each breaks one condition first.
    fn lawful() {
        conn_parts::biconnected_maps::biconnected_break_nothing();
        verdict_laws::one_break();
    }
}

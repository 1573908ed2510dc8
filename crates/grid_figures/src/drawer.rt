//! Shift and Schnyder figures of records, one after another, by `Drawer`, which keeps memory from one to the next.
ghost use Rattle.std.specs.Prelude.{◌≡◌, ◌<◌, length, Some, None, IfOk, IfErr, OnOk};
ghost use Rattle.refusals.specs.Conditions.{first_refusal, IfRefused};
ghost use Rattle.grid_figures.specs.ShiftFiguresFigures.{IsShiftFigure};
ghost use Rattle.grid_figures.specs.SchnyderFiguresFigures.{IsSchnyderFigure};

use crate::drawing_orders::Tools;
use crate::record::Record;
use crate::schnyder_grid::WoodDrawer;
use crate::{schnyder_figures, shift_figures};
use fpp_shift::Shifter;
use half_edges::Rotations;
use pg_plane::GridFigure;
use refusals::Unserved;
use std::alloc::Global;

/// Draws records, one after another, and keeps its memory for the next: that of counts, maps, orders and tables, as
/// much as the largest record so far took.
#[derive(Drop)]
pub struct Drawer {
    tools: Tools,
    shifter: Shifter,
    woods: WoodDrawer,
}

impl Drawer {
    /// Returns a drawer that has drawn nothing yet. It takes no memory.
    pub fn new(alloc: Global) -> Drawer {
        Drawer {
            tools: Tools::new(alloc),
            shifter: Shifter::new(alloc),
            woods: WoodDrawer::new(alloc),
        }
    }

    /// Returns the figure of `lists`, at least one, by the shift method, or a refusal, as the call `shift_figure` does.
    /// After `NoMemory` the drawer can be used again.
    pub fn shift_figure(&mut self, lists: &Rotations) -> Result<GridFigure, Unserved>
        requires some_list { 0 < length lists.now }
        ensures figure { IfOk result (IsShiftFigure lists.now) }
        ensures served { OnOk result (first_refusal 3 lists.now ≡ None) }
        ensures refused { IfErr result (IfRefused (λ refusal. first_refusal 3 lists.now ≡ Some refusal)) }
    {
        lists.facts();
        shift_figures::drawn_record(&mut self.tools, &mut self.shifter, &Record { lists })
    }

    /// Keeps the memory of `figure`, by the shift method and no longer needed, for the next one.
    pub fn keep_shift(&mut self, figure: GridFigure) {
        self.shifter.keep(figure);
    }

    /// Returns the figure of `lists`, at least one, by Schnyder's coordinates, or a refusal, as the call
    /// `schnyder_figure` does. After `NoMemory` the drawer can be used again.
    pub fn schnyder_figure(&mut self, lists: &Rotations) -> Result<GridFigure, Unserved>
        requires some_list { 0 < length lists.now }
        ensures figure { IfOk result (IsSchnyderFigure lists.now) }
        ensures served { OnOk result (first_refusal 3 lists.now ≡ None) }
        ensures refused { IfErr result (IfRefused (λ refusal. first_refusal 3 lists.now ≡ Some refusal)) }
    {
        lists.facts();
        schnyder_figures::drawn_record(&mut self.tools, &mut self.woods, &Record { lists })
    }

    /// Keeps the memory of `figure`, by Schnyder's coordinates and no longer needed, for the next one.
    pub fn keep_schnyder(&mut self, figure: GridFigure) {
        self.woods.keep(figure);
    }
}

//! `RectDrawer`: rectangular duals of records, one after another, in tables that are kept.
ghost use Rattle.std.specs.Prelude.{◌<◌, length, IfOk, IfErr, OnOk};
ghost use Rattle.refusals.specs.Conditions.{IfRefused};
ghost use Rattle.drawings.specs.Frames.{IsFrame};
ghost use Rattle.rect_class.specs.RectMaps.{IsRectMap};
ghost use Rattle.rect_class.specs.Refusals.{BreaksRect};
ghost use Rattle.rect_dual.specs.Figures.{IsRectFigure};

use crate::draw::framed;
use crate::figures::record_figure::rect_figure;
use drawings::OuterFour;
use half_edges::{Rotations, VertexId};
use pg_plane::RectFigure;
use rect_class::{FrameFinder, next_on_face};
use rect_orders::rect_order::Frame;
use refusals::Unserved;
use std::alloc::{AllocError, Global};

// Draws the map `lists`, of the class of `rect`, with the outer face `four`. It fails only when out of memory.
fn drawn(alloc: Global, lists: &Rotations, four: OuterFour) -> Result<RectFigure, AllocError>
    requires class { IsRectMap lists.now }
    requires frame { IsFrame lists.now four.top.0 four.right.0 four.bottom.0 }
    ensures { IfOk result (IsRectFigure lists.now) }
{
    rect_class::biconnected_are_rect_maps();
    rect_orders::rect_duals::dual_for_first();
    let inner = next_on_face(lists, VertexId(0), four.bottom);
    let frame = Frame {
        left: VertexId(0),
        top: four.top,
        right: four.right,
        bottom: four.bottom,
        inner,
    };
    let figure = framed(alloc, lists, frame)?;
    Ok(figure)
}

/// Draws the rectangular duals of records, one after another, and keeps its tables for the next.
#[derive(Drop)]
pub struct RectDrawer {
    alloc: Global,
    finder: FrameFinder,
}

impl RectDrawer {
    /// Returns a drawer that has drawn nothing yet. It takes no memory.
    pub fn new(alloc: Global) -> RectDrawer {
        RectDrawer {
            alloc,
            finder: FrameFinder::new(alloc),
        }
    }

    /// Like `rect_figure`, returns the figure of the record `lists` or the condition that it breaks. After `NoMemory`
    /// the drawer can still be used.
    pub fn figure(&mut self, lists: &Rotations) -> Result<RectFigure, Unserved>
        requires some_list { 0 < length lists.now }
        ensures figure { IfOk result (IsRectFigure lists.now) }
        ensures served { OnOk result (IsRectMap lists.now) }
        ensures refused { IfErr result (IfRefused (BreaksRect lists.now)) }
    {
        match self.finder.frame(lists)? {
            Some(four) => {
                let figure = drawn(self.alloc, lists, four)?;
                Ok(figure)
            }
            None => rect_figure(self.alloc, lists),
        }
    }
}

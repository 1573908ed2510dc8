//! The trait `Method` of jobs over maps: what it finds of a map and how it prints that, and the records given to jobs.
ghost use Rattle.std.specs.Prelude.{◌≡◌, ◌<◌, ◌≤◌, length, IfOk, IfErr, OnOk, OnErr};
ghost use Rattle.map_lists.specs.Lists.{Lists};
ghost use Rattle.refusals.specs.Conditions.{IfRefused};
ghost use Rattle.pigale_shell.specs.Blocks.{Appends, Says, IsLawful};

use graphs::Graph;
use half_edges::Rotations;
use pigale_words::Form;
use refusals::Unserved;
use std::alloc::{AllocError, Global};

/// A planar_code record with the form of its answer: its number, and its lists, of which there is at least one.
#[derive(Clone, Copy)]
pub struct MapRecord<'a> {
    /// The form in which it is answered.
    pub form: Form,
    /// Its number, from 1 on.
    pub number: u32,
    /// Its lists.
    pub lists: &'a Rotations,
    pub ghost some: { 0 < length lists.now },
}

/// A graph of the input with the form of its answer: it has at least three vertices.
#[derive(Clone, Copy)]
pub struct GraphRecord<'a> {
    /// The form in which it is answered.
    pub form: Form,
    /// Its number, from 1 on.
    pub number: u32,
    /// The graph.
    pub graph: &'a Graph,
    pub ghost some: { 3 ≤ graph.now.n },
}

/// A job over maps: what it finds of a map, and how it writes that. It may keep memory of its own from map to map.
pub trait Method: Drop {
    /// The answer to a map: a figure, or counts.
    type Figure: Drop;

    /// The maps that it serves, the first condition that others break, and what it writes.
    ghost says: { Says };

    /// Holds of lists and the answer to them.
    ghost IsFigure: { Lists → Self.Figure → Type 0 };

    /// Makes the job, before the first map. It takes no memory.
    fn new(alloc: Global) -> Self;

    /// Returns the answer to `lists`. `Err` has the first condition that they break, or says that memory ran out.
    fn figure(&mut self, lists: &Rotations) -> Result<Self::Figure, Unserved>
        requires some_list { 0 < length lists.now }
        ensures figure { IfOk result (IsFigure lists.now) }
        ensures served { OnOk result (says.Serves lists.now) }
        ensures refused { IfErr result (IfRefused (says.Breaks lists.now)) };

    /// Appends to `out` the `figure` that was found of `given`, which it serves. Out of memory leaves `out` unchanged.
    fn print(
        &mut self,
        given: &MapRecord<'_>,
        figure: &Self::Figure,
        out: &mut Vec<u8>,
    ) -> Result<(), AllocError>
        requires served { says.Serves given.now.lists.now }
        requires figure { IsFigure given.now.lists.now figure.now }
        ensures text { OnOk result (Appends (says.IsText given.now.form given.now.number given.now.lists.now) out.old.items out.new.items) }
        ensures err { OnErr result (out.new.items ≡ out.old.items) };

    /// Takes back a figure that was printed: it may draw the next one in its memory, or drop it.
    fn keep(&mut self, figure: Self::Figure);

    /// States the law that no map is both served and refused, and each breaks one condition first.
    fn lawful()
        ensures { IsLawful (says) };
}

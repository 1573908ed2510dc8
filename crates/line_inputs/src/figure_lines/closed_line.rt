//! A closed line judged as the next of a figure input: it begins, continues or completes a figure, is a note or is bad.
ghost use Rattle.std.specs.Prelude.{◌≡◌, ◌+◌, ◌<◌, ◌≤◌, ◌++◌, ◌∷◌, [], List, ℕ, length, IfOk};
ghost use Rattle.figure_text.specs.Reading.{IsPlain};
ghost use Rattle.line_inputs.specs.Given.{IsGiven, AreDrawn};
ghost use Rattle.line_inputs.specs.Steps.{IsGrown};
ghost use Rattle.line_inputs.specs.FigureLinesProgress.{IsDue, IsOpen, Makes, IsWhole};

use crate::figure_lines::begun_figure::{AllBars, Begun, Due, SomeRows};
use crate::figure_lines::boxed::Held;
use crate::figure_lines::ending::Ending;
use crate::figure_lines::first_line::{Head, head_of};
use crate::figure_lines::vertex_lines::Rows;
use figure_text::{
    Columns, Draft, Figure, Front, Judged, Word, columns_line, draft_rects, draft_witness,
    front_line,
};
use map_lists::Rotations;
use pg_plane::{BarFigure, Ints};
use std::alloc::{AllocError, Global};

/// A closed line, without the byte 10 that closes it.
#[derive(Clone, Copy)]
pub struct ClosedLine<'a> {
    /// Where memory for it comes from.
    pub alloc: Global,
    /// Its number in the input.
    pub number: u32,
    /// Its bytes.
    pub text: &'a [u8],
}

/// The outcome of a closed line, given the figure that had begun before it.
#[derive(Drop)]
pub enum After {
    /// The figure goes on, or none has begun.
    Goes(Option<Begun>),
    /// The figure is whole.
    Whole(Held<Figure>),
    /// The input ends badly with the line.
    Bad(Ending),
}

// Returns `Whole` with the figure of `rows`, begun on line `first`. Its 1 to 4095 vertex lines, or lines of branches
// and paths, have all been read, and each gave its point, bar or rectangle. A visibility drawing comes back as `Goes`,
// as its line of columns is still due. It fails only when out of memory.
fn all_drawn(alloc: Global, first: u32, rows: Rows) -> Result<After, AllocError>
    requires some { 0 < length rows.draft.lists }
    requires few { length rows.draft.lists < 4096 }
    requires drawn { AreDrawn rows.head rows.draft }
    ensures whole { IfOk result IsWhole }
    ensures grown { IfOk result (IsGrown rows.head (length rows.draft.lists) first rows.draft) }
{
    let Rows { head, draft, .. } = rows;
    match head {
        Head::Grid(job) => {
            let Draft { lists, points, .. } = draft;
            let lists = Rotations::from_lists(lists);
            let held = Held::new(alloc, Figure::Grid { job, lists, points })?;
            Ok(After::Whole(held))
        }
        Head::Bars => {
            let draft = Held::new(alloc, draft)?;
            Ok(After::Goes(Some(Begun {
                first,
                due: Due::Columns(AllBars { draft }),
            })))
        }
        Head::Rects => {
            let held = Held::new(alloc, draft_rects(draft))?;
            Ok(After::Whole(held))
        }
        Head::Witness(kind, graph) => {
            let witness = draft_witness(alloc, kind, &draft)?;
            let held = Held::new(alloc, Figure::Witness { graph, witness })?;
            Ok(After::Whole(held))
        }
    }
}

// Returns what the figure `held`, begun on line `first`, is after one more of its lines. While other vertex lines are
// due it is `Goes` with the figure; else `all_drawn` completes it. It fails only when out of memory.
#[inline(always)]
fn grown(alloc: Global, first: u32, held: Held<Rows>) -> Result<After, AllocError>
    requires some { 0 < held.n }
    requires few { held.n < 4096 }
    requires within { length held.draft.lists ≤ held.n }
    requires drawn { AreDrawn held.head held.draft }
    ensures whole { IfOk result IsWhole }
    ensures grown { IfOk result (IsGrown held.head held.n first held.draft) }
{
    if held.is_due() {
        Ok(After::Goes(Some(Begun {
            first,
            due: Due::Row(SomeRows { held }),
        })))
    } else {
        all_drawn(alloc, first, held.into_inner())
    }
}

impl ClosedLine<'_> {
    // Judges the line as one outside a figure. Returns `Goes` with the figure that it begins, `Goes(None)` for a note
    // (a line of another job), or `Bad`. It fails only when out of memory.
    fn after_front(&self) -> Result<After, AllocError>
        ensures whole { IfOk result IsWhole }
        ensures makes { IsPlain self.now.text.now → IfOk result (Makes self.now.number self.now.number (self.now.text.now ++ 10 ∷ [])) }
    {
        match front_line(self.alloc, self.text)? {
            Front::Note => Ok(After::Goes(None)),
            Front::Begins(kind, n) => {
                let head = head_of(self.alloc, kind, self.text)?;
                let held = Held::new(self.alloc, Rows::new(self.alloc, head, n))?;
                Ok(After::Goes(Some(Begun {
                    first: self.number,
                    due: Due::Row(SomeRows { held }),
                })))
            }
            Front::Limit(_) => Ok(After::Bad(Ending::Limit(self.number))),
            Front::Bad => Ok(After::Bad(Ending::BadLine(self.number))),
        }
    }

    // Judges the line as the next vertex line, or line of branches or a path, of the figure `rows`, begun on line
    // `first`. Returns `Goes` or `Whole` with the figure after a good line, else `Bad`. `found` is scratch space for
    // words. It fails only when out of memory.
    #[inline(always)]
    fn after_row(
        &self,
        found: &mut Vec<Word>,
        first: u32,
        rows: SomeRows,
    ) -> Result<After, AllocError>
        ensures whole { IfOk result IsWhole }
        ensures makes { (text : List ℕ) (start : ℕ) → IsPlain self.now.text.now → first ≡ start → IsDue (Due.Row rows) start self.now.number text self.now.text.now
            → IfOk result (Makes start self.now.number (text ++ 10 ∷ [])) }
    {
        let SomeRows { mut held } = rows;
        match held.row(found, self.text) {
            Some(Judged::Good) => {
                let after = grown(self.alloc, first, held)?;
                Ok(after)
            }
            Some(Judged::Bad) => Ok(After::Bad(Ending::BadLine(self.number))),
            Some(Judged::Limit) => Ok(After::Bad(Ending::Limit(self.number))),
            None => Err(AllocError),
        }
    }

    // Judges the line as the columns that complete `bars`: `Whole` or `Bad`. It fails only when out of memory.
    fn after_columns(&self, bars: AllBars) -> Result<After, AllocError>
        ensures whole { IfOk result IsWhole }
        ensures makes { (text : List ℕ) (start : ℕ) → IsPlain self.now.text.now → IsDue (Due.Columns bars) start self.now.number text self.now.text.now
            → IfOk result (Makes start self.now.number (text ++ 10 ∷ [])) }
    {
        match columns_line(self.alloc, self.text) {
            Columns::Good(column) => {
                let AllBars { draft } = bars;
                let Draft {
                    lists,
                    y,
                    x1,
                    x2,
                    ..
                } = draft.into_inner();
                let lists = Rotations::from_lists(lists);
                let bars = BarFigure { y, x1, x2, column };
                let held = Held::new(self.alloc, Figure::Bars { lists, bars })?;
                Ok(After::Whole(held))
            }
            Columns::Bad => Ok(After::Bad(Ending::BadLine(self.number))),
            Columns::Limit => Ok(After::Bad(Ending::Limit(self.number))),
            Columns::NoMemory => Err(AllocError),
        }
    }

    /// Judges the line as the next of an input of figures, where `before` is the figure that has begun, or None.
    /// Returns `Goes` with the figure that is still open, or None after a note; `Whole` with a completed figure; or
    /// `Bad` with the ending. `found` is scratch space for words. It fails only when out of memory.
    #[inline(always)]
    pub fn after(&self, found: &mut Vec<Word>, before: Option<Begun>) -> Result<After, AllocError>
        ensures whole { IfOk result IsWhole }
        ensures makes { (text : List ℕ) (start : ℕ) → IsPlain self.now.text.now → IsOpen before start self.now.number text self.now.text.now
            → IfOk result (Makes start self.now.number (text ++ 10 ∷ [])) }
    {
        match before {
            Some(begun) => {
                let Begun { first, due } = begun;
                match due {
                    Due::Row(rows) => self.after_row(found, first, rows),
                    Due::Columns(bars) => self.after_columns(bars),
                }
            }
            None => self.after_front(),
        }
    }
}

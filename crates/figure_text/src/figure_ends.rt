//! The ends of figures and the type `Item`: judges the line of the columns, makes rectangles and witnesses of a draft.
ghost use Rattle.std.specs.Prelude.{◌≡◌, ◌++◌, ◌∷◌, ◌<◌, [], length, drop, map, slice_index_or, IfOk, IfSome, OnOk};
ghost use Rattle.figure_text.specs.Words.{words_of};
ghost use Rattle.figure_text.specs.Lines.{integer_of, IsColumnsLine, ColumnsInRange};
ghost use Rattle.figure_text.specs.Figures.{ids, witness_of, columns_of, JudgesColumns};

use crate::Figure;
use crate::line_shapes::{Judged, is_name, judged_columns, words_from};
use crate::line_words::{Name, Word, known_words, next_word};
use crate::plain_numbers::push_coordinates;
use crate::vertex_lines::{Draft, integer};
use kuratowski::{Kind as Subdivided, Witness};
use map_lists::{ItemLists, PathList, Rotations, VertexId, VertexList};
use pg_plane::{Ints, RectFigure};
use std::alloc::{AllocError, Global};

/// An item at an offset of a text.
#[derive(Drop)]
pub enum Item {
    /// A figure, with the offset and the number of the line after it.
    Drawn(Figure, usize, u32),
    /// A note: a line that another job wrote, with the offset and the number of the line after it.
    Note(usize, u32),
    /// The end of the text.
    End,
}

/// A line of columns, judged.
#[derive(Drop)]
pub enum Columns {
    /// These numbers.
    Good(Ints),
    /// Of another shape.
    Bad,
    /// With a number outside its range.
    Limit,
    /// Unknown when out of memory.
    NoMemory,
}

// Returns the numbers that `words` are, 0 for a word that is none. It fails only when out of memory.
fn integers(alloc: Global, words: &[Word]) -> Result<Ints, AllocError>
    ensures { IfOk result (λ list. list ≡ map integer_of words.now) }
{
    let mut list = Ints::new(alloc);
    for k in 0..words.len() {
        list.push(integer(words[k]))?;
    }
    Ok(list)
}

// Returns the numbers of `line`, if it is a line of columns, plainly written: no number has a sign or leading 0. None
// promises nothing. It fails only when out of memory.
fn plain_columns(alloc: Global, line: &[u8]) -> Result<Option<Ints>, AllocError>
    ensures { IfOk result (λ found. IfSome found (λ list. IsColumnsLine (words_of line.now) × ColumnsInRange (words_of line.now) × (list ≡ columns_of (words_of line.now)))) }
{
    let front = next_word(line, 0);
    if !is_name(front.word, Name::Columns) {
        return Ok(None);
    }
    let mut list = Ints::new(alloc);
    if !push_coordinates(line, front.end + 1, &mut list)? {
        return Ok(None);
    }
    Ok(Some(list))
}

/// Judges `line`, given without its closing byte 10, as a line of columns. Returns `Good` with its numbers, `Bad` if it
/// has another shape, `Limit` if a number is out of range, or `NoMemory`.
pub fn columns_line(alloc: Global, line: &[u8]) -> Columns
    ensures { JudgesColumns (words_of line.now) result }
{
    match plain_columns(alloc, line) {
        Ok(Some(list)) => return Columns::Good(list),
        Ok(None) => {}
        Err(_) => return Columns::NoMemory,
    }
    match known_words(alloc, line) {
        Ok(None) => Columns::Bad,
        Ok(Some(found)) => match judged_columns(&found) {
            Judged::Good => match integers(alloc, words_from(&found, 1)) {
                Ok(list) => Columns::Good(list),
                Err(_) => Columns::NoMemory,
            },
            Judged::Bad => Columns::Bad,
            Judged::Limit => Columns::Limit,
        },
        Err(_) => Columns::NoMemory,
    }
}

/// Makes a rectangular dual from `made`, a draft filled line by line: its lists, fewer than 4096, and the four sides of
/// each rectangle. It computes and checks nothing.
pub fn draft_rects(made: Draft) -> Figure
    requires { length made.lists < 4096 }
    ensures { result ≡ Figure.Rects made.lists (record { x1 = made.x1; x2 = made.x2; y1 = made.y; y2 = made.y2 }) }
{
    let Draft {
        lists,
        y,
        x1,
        x2,
        y2,
        ..
    } = made;
    Figure::Rects {
        lists: Rotations::from_lists(lists),
        rects: RectFigure { x1, x2, y1: y, y2 },
    }
}

// Returns the ids of the vertices in `list`. It fails only when out of memory.
fn ids_of(alloc: Global, list: &[u16]) -> Result<Vec<VertexId>, AllocError>
    ensures { IfOk result (λ v. v.items ≡ ids list.now) }
{
    list.iter().map(|u| VertexId(*u)).collect(alloc)
}

// Returns the paths of a witness's `draft`: its lists after the first, which is there. Fails only when out of memory.
fn paths_of(alloc: Global, draft: &Draft) -> Result<PathList, AllocError>
    requires { 0 < length draft.now.lists }
    ensures { IfOk result (λ paths. paths ≡ map ids (drop 1 draft.now.lists)) }
{
    let mut paths = PathList::new(alloc);
    for p in 1..draft.lists.len() {
        let path = ids_of(alloc, draft.lists.list(p))?;
        paths.push(&path)?;
    }
    Ok(paths)
}

/// Returns the witness of `kind` in `draft`: its first list is the branches, and each other a path. There is at least
/// one list. It fails only when out of memory.
pub fn draft_witness(alloc: Global, kind: Subdivided, draft: &Draft) -> Result<Witness, AllocError>
    requires { 0 < length draft.now.lists }
    ensures { IfOk result (λ witness. witness ≡ witness_of kind draft.now.lists) }
{
    let branch = VertexList::from_vec(ids_of(alloc, draft.lists.list(0))?);
    let paths = paths_of(alloc, draft)?;
    Ok(Witness {
        kind,
        branch,
        paths,
    })
}

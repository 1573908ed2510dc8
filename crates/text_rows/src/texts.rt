//! Test rows on the texts of figures, printed and read. A line ends with `;` in a row and in an answer.
ghost use Rattle.figure_text.specs.Text.{IsWhole};

use figure_text::{Figure, GridJob, Item, TextFault, print_figure, print_witness};
use graph6_text::read_line;
use graphs::Graph;
use half_edges::Rotations;
use line_inputs::read_figure;
use pg_plane::Points;
use row_texts::bytes::{lines_of, put_bytes};
use row_texts::fault_texts::{tell_line_fault, tell_no_memory};
use row_texts::lists::lists_of;
use row_texts::points::{bars_of, points_of};
use row_texts::reply::Reply;
use row_texts::row_arguments::behind;
use row_texts::rows::Row;
use row_texts::witnesses::witness_of;

// Appends the text of `figure` with this number to `out`.
fn put_figure(number: u16, figure: Figure, out: &mut Reply)
    requires { IsWhole figure }
{
    let mut bytes = Vec::new(out.alloc);
    let _ = print_figure(out.alloc, u32::from(number), &figure, &mut bytes);
    drop(figure);
    put_bytes(&bytes, out);
}

// Appends to `out` the text of a straight-line drawing by the job that `row` names, if each list has a point.
fn put_grid(row: &Row<'_>, lists: Rotations, points: Points, out: &mut Reply) {
    if points.len() == lists.len() {
        let job = match row.arg(1) {
            "shift" => GridJob::Shift,
            "schnyder" => GridJob::Schnyder,
            _ => GridJob::Convex,
        };
        put_figure(row.number(0), Figure::Grid { job, lists, points }, out);
    }
}

// Appends to `out` the text of a visibility drawing, if there is a bar for each of its lists.
fn put_bars(row: &Row<'_>, out: &mut Reply) {
    if let Some(given) = lists_of(out.alloc, row.arg(1)) {
        let lists = given.lists;
        if let Some(bars) = bars_of(out.alloc, behind(row.args, 2), lists.len()) {
            put_figure(row.number(0), Figure::Bars { lists, bars }, out);
        }
    }
}

// Appends to `out` the text of a witness in `graph`.
fn put_paths(row: &Row<'_>, graph: &Graph, out: &mut Reply) {
    let witness = witness_of(out.alloc, row.arg(2), row.arg(3));
    let mut bytes = Vec::new(out.alloc);
    let number = u32::from(row.number(0));
    let _ = print_witness(out.alloc, number, graph, &witness, &mut bytes);
    put_bytes(&bytes, out);
}

// Appends to `out` the text of a witness in the graph of a graph6 line.
fn put_witness(row: &Row<'_>, out: &mut Reply) {
    match read_line(out.alloc, row.arg(1).as_bytes()) {
        Ok(graph) => put_paths(row, &graph, out),
        Err(fault) => tell_line_fault(fault, out),
    }
}

// Appends to `out` the `name` of an item, and the line and offset after it.
fn put_place(name: &str, next: usize, line: u32, out: &mut Reply) {
    out.put(name);
    out.put_one(", line", u64::from(line));
    out.put_one(" at", next as u64);
}

// Appends to `out` the item found at the front of a text, or the fault there.
fn put_item(found: &Result<Item, TextFault>, out: &mut Reply) {
    match found {
        Ok(Item::Drawn(_, next, line)) => put_place("figure", *next, *line, out),
        Ok(Item::Note(next, line)) => put_place("note", *next, *line, out),
        Ok(Item::End) => out.put("end"),
        Err(TextFault::BadLine(line)) => out.put_one("BadLine", u64::from(*line)),
        Err(TextFault::Limit(line)) => out.put_one("Limit", u64::from(*line)),
        Err(TextFault::EndInFigure(line)) => out.put_one("EndInFigure", u64::from(*line)),
        Err(TextFault::NoMemory) => tell_no_memory(out),
    }
}

// Appends to `out` the item found at the front of `text`, or the fault there.
fn put_read(text: &[u8], out: &mut Reply) {
    let found = read_figure(out.alloc, text, 0, 1);
    put_item(&found, out);
    drop(found);
}

/// Appends to `out` the answer to a row on texts.
pub fn answer(row: &Row<'_>, out: &mut Reply) {
    match row.call {
        "grid" => {
            if let Some(given) = lists_of(out.alloc, row.arg(2)) {
                let points = points_of(out.alloc, row.arg(3));
                put_grid(row, given.lists, points, out);
            }
        }
        "nothing" => put_grid(row, Rotations::new(out.alloc), Points::new(out.alloc), out),
        "bars" => put_bars(row, out),
        "witness" => put_witness(row, out),
        _ => put_read(&lines_of(out.alloc, row.arg(0)), out),
    }
}

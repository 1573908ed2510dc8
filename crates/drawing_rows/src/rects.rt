//! Answers test rows on regular edge labellings and rectangular duals.
ghost use Rattle.rect_class.specs.RectMaps.{IsRectMap};

use half_edges::HalfMap;
use rect_class::rect_map;
use rect_dual::labels::{Label, Labelling, edge_labels};
use rect_dual::rect_draw;
use row_texts::fault_texts::tell_no_memory;
use row_texts::lists::SomeLists;
use row_texts::maps::{dart_between, first_base};
use row_texts::points::put_integers;
use row_texts::reply::Reply;
use row_texts::rows::Row;

// Returns the name of the label of the dart between two vertices, where there is one.
fn label_between(map: &HalfMap, labels: &Labelling, u: u16, v: u16) -> Option<&'static str> {
    match dart_between(map, u, v) {
        Some(d) if (d.0 as usize) < labels.len() => Some(match labels.of(d) {
            Label::RiseOut => "RiseOut",
            Label::RiseIn => "RiseIn",
            Label::RunOut => "RunOut",
            Label::RunIn => "RunIn",
            Label::Frame => "Frame",
        }),
        _ => None,
    }
}

// Writes the labels of both darts of the edge from `u` to `v`, where there is one.
fn put_edge(map: &HalfMap, labels: &Labelling, (u, v): (u16, u16), out: &mut Reply) {
    if let Some(one) = label_between(map, labels, u, v) {
        if let Some(other) = label_between(map, labels, v, u) {
            out.put_numbers(&[u, v]);
            out.put_letter(' ');
            out.put(one);
            out.put_letter(' ');
            out.put(other);
            out.put("; ");
        }
    }
}

// Writes the labels of all edges, each at its lesser end and at its greater one.
fn put_edges(map: &HalfMap, labels: &Labelling, out: &mut Reply) {
    for u in 0..map.n() {
        for v in 0..map.n() {
            if u < v {
                put_edge(map, labels, (u, v), out);
            }
        }
    }
}

// Writes for the dart from vertex 0 to the first of its list the labelling of `map`, or the four sides of its
// rectangles.
fn of_block(call: &str, map: &HalfMap, out: &mut Reply)
    requires { IsRectMap map.now.lists }
{
    rect_class::biconnected_are_rect_maps();
    if let Some(base) = first_base(map) {
        if call == "draw" {
            match rect_draw(out.alloc, map, base) {
                Ok(figure) => {
                    put_integers("", &figure.x1, out);
                    put_integers(";", &figure.x2, out);
                    put_integers(";", &figure.y1, out);
                    put_integers(";", &figure.y2, out);
                }
                Err(_) => tell_no_memory(out),
            }
        } else {
            match edge_labels(out.alloc, map, base) {
                Ok(labels) => put_edges(map, &labels, out),
                Err(_) => tell_no_memory(out),
            }
        }
    }
}

/// Writes the labels of the map of lists, or its rectangles, if it is of the class that has them.
pub fn answer(row: &Row<'_>, given: &SomeLists, out: &mut Reply) {
    if let Ok(map) = rect_map(out.alloc, &given.lists) {
        of_block(row.call, &map, out);
    }
}

//! Answers test rows on st-orders and visibility drawings, and on verdicts on them.
ghost use Rattle.half_edges.specs.Map.{IsLive};
ghost use Rattle.conn_parts.specs.BiconnectedMaps.{IsBiconnectedMap};

use bar_check::{BarVerdict, check_bars};
use bipolar::dual_orders::dual_numbers;
use conn_parts::biconnected_maps::biconnected_map;
use half_edges::{DartId, HalfMap};
use row_texts::fault_texts::tell_no_memory;
use row_texts::lists::{SomeLists, put_counts, put_vertices};
use row_texts::maps::dart_between;
use row_texts::points::{bars_of, integer, put_integers};
use row_texts::reply::Reply;
use row_texts::row_arguments::behind;
use row_texts::rows::Row;
use st_orders::st_order;
use visibility::bars;

// Writes for the dart `st` the visibility drawing, vertices of the st-order or columns of edges, as `row` asks.
fn of_base(row: &Row<'_>, map: &HalfMap, st: DartId, out: &mut Reply)
    requires block { IsBiconnectedMap 3 map.now.lists }
    requires live { IsLive map.now st.0 }
{
    if row.call == "drawing" {
        match bars(out.alloc, map, st) {
            Ok(figure) => {
                put_integers("", &figure.y, out);
                put_integers(";", &figure.x1, out);
                put_integers(";", &figure.x2, out);
                put_integers(";", &figure.column, out);
            }
            Err(_) => tell_no_memory(out),
        }
        return;
    }
    match st_order(out.alloc, map, st) {
        Ok(found) => match row.call {
            "order" => put_vertices(&found.at, usize::from(row.number(1)), out),
            _ => match dual_numbers(out.alloc, map, &found, st) {
                Ok(numbers) => put_counts(&numbers, out),
                Err(_) => tell_no_memory(out),
            },
        },
        Err(_) => tell_no_memory(out),
    }
}

// Writes a verdict on bars.
fn put_verdict(verdict: BarVerdict, out: &mut Reply) {
    match verdict {
        BarVerdict::BadShape => out.put("BadShape"),
        BarVerdict::BadHeight(v) => out.put_with("BadHeight", &[v.0]),
        BarVerdict::BadBar(v) => out.put_with("BadBar", &[v.0]),
        BarVerdict::BadColumn(e) => out.put_with("BadColumn", &[e.a.0, e.b.0]),
        BarVerdict::Through(e, v) => out.put_with("Through", &[e.a.0, e.b.0, v.0]),
        BarVerdict::Overlap(e, f) => out.put_with("Overlap", &[e.a.0, e.b.0, f.a.0, f.b.0]),
        BarVerdict::Turned(v) => out.put_with("Turned", &[v.0]),
        BarVerdict::Yes => out.put("Yes"),
    }
}

// Writes the verdict on the bars that `row` gives to `map`, if there is one for each vertex.
fn check(row: &Row<'_>, map: &HalfMap, out: &mut Reply) {
    if let Some(figure) = bars_of(out.alloc, behind(row.args, 1), usize::from(map.n())) {
        put_verdict(check_bars(map, &figure, integer(row.arg(5))), out);
    }
}

/// Answers a row on visibility drawings: of a map that is plane, connected and without a cut vertex, over the dart from
/// vertex 0 to vertex 1.
pub fn answer(row: &Row<'_>, given: &SomeLists, map: &HalfMap, out: &mut Reply) {
    if row.call == "check" {
        check(row, map, out);
    } else if let Ok(block) = biconnected_map(out.alloc, &given.lists, 3) {
        if let Some(st) = dart_between(&block, 0, 1) {
            of_base(row, &block, st, out);
        }
    }
}

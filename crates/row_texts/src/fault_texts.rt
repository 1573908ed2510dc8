//! Faults, refusals and out of memory written as texts, and vertices that a call may return.
use crate::reply::Reply;
use graph6_text::G6Fault;
use half_edges::{MapFault, VertexId};
use refusals::{Refusal, Unserved};
use std::alloc::AllocError;

/// Appends to `out` that there was not enough memory.
pub fn tell_no_memory(out: &mut Reply) {
    out.put("NoMemory");
}

/// Appends to `out` why a job does not serve a record: a condition by its name and numbers, or out of memory.
pub fn tell_unserved(unserved: Unserved, out: &mut Reply) {
    let condition = match unserved {
        Unserved::Refused(condition) => condition,
        Unserved::NoMemory => return tell_no_memory(out),
    };
    match condition {
        Refusal::OutOfRange(v, u) => out.put_with("OutOfRange", &[v, u]),
        Refusal::Loop(v) => out.put_with("Loop", &[v]),
        Refusal::Repeated(v, u) => out.put_with("Repeated", &[v, u]),
        Refusal::OneSided(v, u) => out.put_with("OneSided", &[v, u]),
        Refusal::Small(n) => out.put_with("Small", &[n]),
        Refusal::Genus(genus) => out.put_one("Genus", u64::from(genus)),
        _ => out.put("another"),
    }
}

/// Appends to `out` why lists are no map.
pub fn tell_fault(fault: MapFault, out: &mut Reply) {
    tell_unserved(Unserved::from(fault), out);
}

/// Appends to `out` why a line of graph6 is no graph.
pub fn tell_line_fault(fault: G6Fault, out: &mut Reply) {
    match fault {
        G6Fault::BadByte(i) => out.put_one("BadByte", i as u64),
        G6Fault::LongCount => out.put("LongCount"),
        G6Fault::TooMany(n) => out.put_one("TooMany", u64::from(n)),
        G6Fault::ShortLine => out.put("ShortLine"),
        G6Fault::ExtraByte(i) => out.put_one("ExtraByte", i as u64),
        G6Fault::Padding(i) => out.put_one("Padding", i as u64),
        G6Fault::NoMemory => tell_no_memory(out),
    }
}

/// Appends to `out` the vertex that a call returned, or that there is none.
pub fn put_vertex(found: Result<Option<VertexId>, AllocError>, out: &mut Reply) {
    match found {
        Ok(Some(v)) => out.put_number(u64::from(v.0)),
        Ok(None) => out.put("none"),
        Err(_) => tell_no_memory(out),
    }
}

/// Appends to `out` the two vertices that a call returned, or that there are none.
pub fn put_pair(found: Result<Option<(VertexId, VertexId)>, AllocError>, out: &mut Reply) {
    match found {
        Ok(Some((u, v))) => out.put_numbers(&[u.0, v.0]),
        Ok(None) => out.put("none"),
        Err(_) => tell_no_memory(out),
    }
}

//! Test rows on permutations and their orbits.
ghost use Rattle.std.specs.Prelude.{◌<◌, length};

use pg_perm::{Perm, PermFault};
use row_texts::fault_texts::tell_no_memory;
use row_texts::reply::Reply;
use row_texts::row_arguments::{number, pair};
use row_texts::rows::Row;

// Appends to `out` the length of `perm`, its images and the number of its orbits.
fn put_perm(perm: &Perm, out: &mut Reply) {
    out.put_number(u64::from(perm.len()));
    out.put(" numbers,");
    for i in 0..perm.len() {
        out.put_one("", u64::from(perm.image(i)));
    }
    match perm.orbit_count(out.alloc) {
        Ok(count) => out.put_one(",", u64::from(count)),
        Err(_) => tell_no_memory(out),
    }
    out.put(" orbits");
}

// Appends to `out` the permutation, and for each of `pairs` whether the two numbers lie in one orbit.
fn put_orbits(perm: &Perm, pairs: &str, out: &mut Reply) {
    put_perm(perm, out);
    for text in pairs.split(';') {
        let (a, b) = pair(text);
        let (a, b) = (u32::from(a), u32::from(b));
        out.put_letter(' ');
        if a < perm.len() && b < perm.len() {
            out.put_flag(perm.same_orbit(a, b));
        }
    }
}

// Appends to `out` the orbits of the permutation with these `images`, before and after an exchange that `row` may
// name, or the fault of the images.
fn put_all(images: &[u32], row: &Row<'_>, out: &mut Reply)
    requires { length images.now < 65536 }
{
    match Perm::of_images(out.alloc, images) {
        Ok(mut perm) => {
            put_orbits(&perm, row.arg(1), out);
            if row.args.len() > 2 {
                let (a, b) = pair(row.arg(2));
                let (a, b) = (u32::from(a), u32::from(b));
                if a < perm.len() && b < perm.len() {
                    perm.swap_images(a, b);
                }
                out.put("; ");
                put_orbits(&perm, row.arg(3), out);
            }
        }
        Err(fault) => match fault {
            PermFault::OutOfRange(i) => out.put_one("OutOfRange", u64::from(i)),
            PermFault::Repeated(i, j) => {
                out.put_one("Repeated", u64::from(i));
                out.put_one("", u64::from(j));
            }
            PermFault::NoMemory => tell_no_memory(out),
        },
    }
}

/// Appends to `out` the answer to a row on permutations.
pub fn answer(row: &Row<'_>, out: &mut Reply) {
    if row.call == "identity" {
        match Perm::identity(out.alloc, u32::from(row.number(0))) {
            Ok(perm) => put_perm(&perm, out),
            Err(_) => tell_no_memory(out),
        }
        return;
    }
    let mut images: Vec<u32> = Vec::new(out.alloc);
    for word in row.arg(0).split_whitespace() {
        let _ = images.push(u32::from(number(word)));
    }
    if images.len() < 65536 {
        put_all(&images, row, out);
    }
}

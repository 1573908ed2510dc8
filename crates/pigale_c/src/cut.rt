//! The call for C that tells where an input may be cut into parts.
ghost use Rattle.pigale_c.specs.Cut.{CutsTo};

use planar_code::last_cut;
use std::alloc::{AllocError, Global};

/// Writes to `end` where `input` may be cut, and to `records` how many records stand before that. Up to that offset it is a
/// header or none and whole records, and up to no greater one. Returns the number of a status.
///
/// `format` is 0 for planar_code, which is the only format so far; for another the status is 17. It is 16 where there was
/// not enough memory. Then `end` and `records` stay.
#[unsafe(no_mangle)]
pub extern "C" fn pigale_cut(
    alloc: Global,
    input: &[u8],
    format: u8,
    end: &mut usize,
    records: &mut usize,
) -> u8
    ensures { CutsTo format input.now end.old records.old result end.new records.new }
{
    if format != 0 {
        return 17;
    }
    match last_cut(alloc, input) {
        Ok(cut) => {
            *end = cut.end;
            *records = cut.records;
            0
        }
        Err(AllocError) => 16,
    }
}

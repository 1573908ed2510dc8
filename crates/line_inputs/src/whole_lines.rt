//! A line whose bytes come in several parts of an input: its front from earlier parts, joined with its end. A line
//! that stands whole in one part is judged there, and not copied.
ghost use Rattle.std.specs.Prelude.{◌≡◌, ◌++◌, if◌then◌else◌, OnOk};

use std::alloc::AllocError;

/// Appends `end` to `front`, the earlier bytes of the line, unless `end` is the whole line, as `alone` says. It fails
/// only when out of memory.
pub(crate) fn join(alone: bool, front: &mut Vec<u8>, end: &[u8]) -> Result<(), AllocError>
    ensures { OnOk result (front.new.items ≡ (if alone then front.old.items else front.old.items ++ end.now)) }
{
    if !alone {
        front.extend_from_slice(end)?;
    }
    Ok(())
}

/// Returns the whole line: `end` if `alone` says that `end` holds all of it, else `joined`, made of its parts.
pub(crate) fn chosen<'a>(alone: bool, end: &'a [u8], joined: &'a [u8]) -> &'a [u8]
    ensures { result.now ≡ (if alone then end.now else joined.now) }
{
    if alone { end } else { joined }
}

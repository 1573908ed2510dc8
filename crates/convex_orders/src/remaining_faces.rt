//! A map some of whose faces are left, as the type that searches of the contour read.
ghost use Rattle.std.specs.Prelude.{◌≡◌, length};

use crate::map_tables::Tables;

/// A map some of whose faces are left: the mark of a face says whether it is.
#[derive(Clone, Copy)]
pub(crate) struct Marked<'a> {
    pub(crate) tables: &'a Tables,
    pub(crate) marks: &'a [bool],
    ghost long: { length marks.now ≡ tables.now.faces.count },
}

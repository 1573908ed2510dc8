//! `Label`: whether an edge at a vertex is vertical or horizontal, in or out, and `Labelling`: the labels of all darts.
ghost use Rattle.std.specs.Prelude.{◌≡◌, ◌<◌, length};
ghost use Rattle.rect_dual.specs.Labellings.{label_in};

use map_lists::DartId;
use std::marker::Model;

/// How an edge of a regular edge labelling leads at the vertex that one of its darts leaves. A rise is a vertical
/// edge, a run a horizontal one.
#[derive(Clone, Copy, PartialEq, Eq)]
pub enum Label {
    /// A vertical edge that leaves the vertex, upwards.
    RiseOut,
    /// A vertical edge that enters it, from below.
    RiseIn,
    /// A horizontal edge that leaves it, to the right.
    RunOut,
    /// A horizontal edge that enters it, from the left.
    RunIn,
    /// An edge of the outer face, which is neither.
    Frame,
}

/// An edge labelling: the label of each dart of a map. An edit of the map leaves it as it was.
#[derive(Drop)]
pub struct Labelling {
    // by the numbers of the ids; any label where no dart has that id
    pub(crate) labels: Vec<Label>,
}

impl Model for Labelling {
    ghost use Rattle.std.specs.Prelude.{List};
    ghost use Rattle.rect_dual.specs.declared.labels.label_types.Label.{Label};

    ghost Value = { List Label };

    ghost view = { λ l. l.labels.items };
}

impl Labelling {
    /// Returns how many ids have a label: all below this number. It takes no memory.
    pub fn len(&self) -> usize
        ensures { result ≡ length self.now }
    {
        self.labels.len()
    }

    /// Returns the label of a dart that was live in the map: `Frame` exactly for both darts of the edges of the
    /// base's face. It takes no memory.
    pub fn of(&self, d: DartId) -> Label
        requires { d.0 < length self.now }
        ensures { result ≡ label_in self.now d.0 }
    {
        self.labels[d.0 as usize]
    }
}

//! Regular edge labellings (transversal structures) of maps with rectangular duals, for any base dart (Kant, He 1997).

mod horizontal_edges;
mod label_types;
mod labelled_darts;
mod order_labels;

pub use label_types::{Label, Labelling};
pub use order_labels::edge_labels;

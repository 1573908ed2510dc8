//! The answer of the job `convex` to a record: a convex drawing by face counts, or the first condition of the job that
//! the record breaks. The method is that of Felsner (2001).

mod draw;
mod drawer;
mod face_numbers_by_twins;

pub use draw::convex_figure;
pub use drawer::ConvexDrawer;

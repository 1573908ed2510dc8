//! The definitions of maps that contracts cite (darts, faces, components, genus), and lemmas that several crates need.
//!
//! The definitions stand in `specs/`: maps and their counts in `Maps`, paths in `Paths`, lists less an edge in `Edges`.

//! Test cases of types that a caller chooses: sources and sinks in memory and over std's readers and writers, and lists
//! of several item types. Tests alone; all others are rows of `map_rows`, `drawing_rows`, `text_rows` and `graph_rows`.
#![tactic(auto)]

#[cfg(test)]
mod blocks;
#[cfg(test)]
mod items;
#[cfg(test)]
mod sources;

//! Lemmas for the theorem on planar graphs: maps glued at a vertex or along an edge, and their faces counted by marks.
#![tactic(auto)]

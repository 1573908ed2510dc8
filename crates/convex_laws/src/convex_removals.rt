//! Theory of removals of faces: their rows, read from the last to the first, are those of a construction sequence.
//!
//! Faces are taken off a map from its contour, by removals; each has a row: the vertices of the new contour along
//! it, the cuts there, and the vertices that go. `specs/` says what the row of a removal is, and `proofs/` has the
//! lemmas by which code that appends one row after another answers the rows of a run: how rows begin
//! (`IsEnded-first`), one more (`IsEnded-more`), and the end (`IsEnded-base`).

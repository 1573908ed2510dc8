//! The trait `Format`: how the records of an input are read, piece by piece.
ghost use Rattle.std.specs.Prelude.{◌≡◌, ◌+◌, ◌<◌, ◌≤◌, Bool, List, ℕ, [], ◌∷◌, ◌++◌, length, IfOk, IfErr, IfSome};
ghost use Rattle.std.specs.Bool.{OnTrue, OnFalse};
ghost use Rattle.record_runs.specs.Texts.{Reads, input_limit};
ghost use Rattle.record_runs.specs.Run.{Moves, TakesPiece};

use std::alloc::AllocError;

/// The outcome of a piece of bytes for the record that has begun.
#[derive(Drop)]
pub enum Taken<End> {
    /// This many bytes of the piece were consumed, at least 1, and no record ended in them.
    Goes(usize),
    /// A record ended with this many bytes of the piece, at least 1, and the others are not consumed.
    Ended(usize),
    /// The input ends badly within the piece.
    Bad(End),
}

/// A reader of the records of one input, piece by piece.
///
/// It stands before the first byte at first. After a bad ending, and when memory runs out, it is not called again.
pub trait Format: Drop {
    /// A record.
    type Record;
    /// How an input ends.
    type End: Drop;

    /// How an input is read: its records and its ending.
    ghost reads: { Reads Self.Record Self.End };

    /// The bytes consumed so far hold these records, and what is pending.
    ghost At: { Self → List ℕ → List Self.Record → Type 0 };

    /// How many bytes have been consumed.
    ghost place: { Self → ℕ };

    /// The record that ended last.
    ghost lent: { Self → Self.Record };

    /// How the bytes consumed end if no more come.
    ghost ending: { Self → Self.End };

    /// Whether an ending is the good one.
    ghost ended_well: { Self.End → Bool };

    /// An ending as it is in a longer input, by how much stands before this one, as places count that.
    ghost ending_behind: { ℕ → Self.End → Self.End };

    /// A fact that holds of each record that is read.
    ghost IsGiven: { Self.Record → Type 0 };

    /// Consumes some of `piece`, which is not empty and within the limit of the input: to the end of a record at most.
    /// Returns `Goes` or `Ended` with the bytes consumed, or `Bad` with the ending. After `Ended`, `record` lends it.
    fn take(&mut self, piece: &[u8]) -> Result<Taken<Self::End>, AllocError>
        requires some_bytes { 0 < length piece.now }
        requires room { place self.old + length piece.now ≤ input_limit }
        ensures moves { IfOk result (Moves IsGiven (place self.old) (place self.new) (lent self.new) piece.now) }
        ensures reads { (consumed : List ℕ) (records : List Self.Record) → At self.old consumed records →
            IfOk result (TakesPiece (reads) At consumed records self.new (lent self.new) piece.now) };

    /// Returns the record that ended last.
    fn record(&self) -> &Self::Record
        ensures { result.now ≡ lent self.now };

    /// Returns how the bytes consumed end if no more come.
    fn end(&self) -> Self::End
        ensures { result ≡ ending self.now };

    /// Returns the bad ending of an input with more bytes, where those consumed are as many as the limit.
    fn too_long(&self) -> Self::End
        ensures bad { reads.IsBad result }
        ensures reading { (consumed : List ℕ) (records : List Self.Record) → At self.now consumed records →
            length consumed ≡ input_limit → (byte : ℕ) (tail : List ℕ) →
            reads.IsReading (consumed ++ byte ∷ tail) records result };

    /// Says whether `end` is the good ending. A no promises that it is a bad one.
    fn is_well(end: &Self::End) -> bool
        ensures is { result ≡ ended_well end.now }
        ensures well { OnTrue result (end.now ≡ reads.well) }
        ensures bad { OnFalse result (reads.IsBad end.now) };

    /// Returns `end` as it is in a longer input, where `before` stands before this one: its place is greater by so much.
    /// `None` where that place is beyond the numbers of a `usize`.
    fn end_behind(end: &Self::End, before: usize) -> Option<Self::End>
        ensures { IfSome result (λ behind. behind ≡ ending_behind before end.now) };

    /// States four laws. The place is the number of bytes consumed. These bytes are read as their records and that
    /// ending. An input begins with the records of its first bytes, and with those that it has.
    fn lawful()
        ensures place_is { (reader : Self) (consumed : List ℕ) (records : List Self.Record) → At reader consumed records → length consumed ≡ place reader }
        ensures is_read { (reader : Self) (consumed : List ℕ) (records : List Self.Record) → At reader consumed records →
            length consumed ≤ input_limit → reads.IsReading consumed records (ending reader) }
        ensures begins { (reader : Self) (consumed : List ℕ) (records : List Self.Record) (tail : List ℕ) → At reader consumed records →
            length consumed ≤ input_limit → reads.BeginsWith (consumed ++ tail) records }
        ensures has { (input : List ℕ) (records : List Self.Record) (ending : Self.End) → reads.IsReading input records ending → reads.BeginsWith input records };
}

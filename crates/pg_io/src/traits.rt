//! The traits `Source` and `Sink`, by which bytes are read and written, and their errors.
ghost use Rattle.std.specs.Prelude.{ℕ, ◌<◌, ◌≤◌, ◌≡◌, ◌↔◌, List, [], length, take, Option, IfOk, OnOk, OnErr};
ghost use Rattle.pg_io.specs.Io.{WhereTold, Gives, Grows, HasRisen};

/// A read that failed. The source has counted a fault, and has lost nothing.
#[derive(Clone, Copy, Debug, PartialEq, Eq)]
pub struct ReadFailed;

/// A write that failed. The sink has counted a fault.
#[derive(Clone, Copy, Debug, PartialEq, Eq)]
pub struct WriteFailed;

/// Gives bytes, in pieces of any size.
pub trait Source {
    /// The bytes not yet given, where the source tells them.
    ghost left: { Self → Option (List ℕ) };

    /// How often it has failed. A number at 2^64 - 1 stays there.
    ghost faults: { Self → ℕ };

    /// Writes the next bytes to the front of `buf`, which must not be empty, and returns how many. `Ok(0)` is the end
    /// of input. Where the bytes left are told, it comes exactly where there are none, and the rest of `buf` is
    /// unchanged. A read fails only where the count of faults rose, and has then taken nothing; what it leaves in `buf`
    /// is not promised. After `Ok` the count is unchanged.
    fn read(&mut self, buf: &mut [u8]) -> Result<usize, ReadFailed>
        requires { 0 < length buf.old }
        ensures within { IfOk result (λ k. k ≤ length buf.old) }
        ensures given { IfOk result (λ k. Gives (left self.old) (left self.new) k buf.old buf.new) }
        ensures end { IfOk result (λ k. WhereTold (left self.old) (λ bytes. (k ≡ 0) ↔ (bytes ≡ []))) }
        ensures failed { OnErr result
            (HasRisen (faults self.old) (faults self.new) × (left self.new ≡ left self.old)) }
        ensures kept { OnOk result (faults self.new ≡ faults self.old) }
        ensures never_falls { faults self.old ≤ faults self.new };
}

/// Takes bytes, in pieces of any size.
pub trait Sink {
    /// The bytes written so far, where the sink tells them.
    ghost written: { Self → Option (List ℕ) };

    /// How often it has failed. A number at 2^64 - 1 stays there.
    ghost faults: { Self → ℕ };

    /// Appends some first bytes of `piece`, which must not be empty, and returns how many: at least one. The count of
    /// faults is then unchanged. A write fails only where that count rose; where the bytes written are told, it has
    /// then appended nothing.
    fn write(&mut self, piece: &[u8]) -> Result<usize, WriteFailed>
        requires { 0 < length piece.now }
        ensures within { IfOk result (λ k. (0 < k) × (k ≤ length piece.now)) }
        ensures appended { IfOk result
            (λ k. Grows (written self.old) (written self.new) (take k piece.now)) }
        ensures failed { OnErr result
            (HasRisen (faults self.old) (faults self.new) × (written self.new ≡ written self.old)) }
        ensures kept { OnOk result (faults self.new ≡ faults self.old) }
        ensures never_falls { faults self.old ≤ faults self.new };
}

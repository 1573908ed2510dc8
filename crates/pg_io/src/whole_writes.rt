//! `put_all`: writes a whole slice into a sink.
ghost use Rattle.std.specs.Prelude.{◌≡◌, ◌≤◌, OnOk, OnErr};
ghost use Rattle.pg_io.specs.Io.{Grows, GrowsByPrefix, HasRisen};

use super::traits::{Sink, WriteFailed};

/// Writes all of `bytes` to `sink`, in as many writes as that needs. On `Ok` all of them were appended, in order, and
/// the sink's count of faults is unchanged. It fails only where that count rose, and has then appended some first bytes
/// of `bytes`. It takes no memory beyond what the sink does.
pub fn put_all<K: Sink>(sink: &mut K, bytes: &[u8]) -> Result<(), WriteFailed>
    ensures ok { OnOk result (Grows (K.written sink.old) (K.written sink.new) bytes.now) }
    ensures kept { OnOk result (K.faults sink.new ≡ K.faults sink.old) }
    ensures err { OnErr result
        (GrowsByPrefix (K.written sink.old) (K.written sink.new) bytes.now
        × HasRisen (K.faults sink.old) (K.faults sink.new)) }
    ensures never_falls { K.faults sink.old ≤ K.faults sink.new }
{
    let mut done = 0;
    while done < bytes.len() {
        done += sink.write(&bytes[done..])?;
    }
    Ok(())
}

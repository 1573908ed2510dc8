//! Promised contract of bytes written to a sink.
ghost use Rattle.std.specs.Prelude.{◌≡◌, ◌≤◌, OnOk, OnErr};
ghost use Rattle.pg_io.specs.Io.{Grows, GrowsByPrefix, HasRisen};

use pg_io::{Sink, WriteFailed};

/// Writes all `bytes`, or a first part of them where the count of faults rose.
pub fn put_all<K: Sink>(sink: &mut K, bytes: &[u8]) -> Result<(), WriteFailed>
    ensures ok { OnOk result (Grows (K.written sink.old) (K.written sink.new) bytes.now) }
    ensures kept { OnOk result (K.faults sink.new ≡ K.faults sink.old) }
    ensures err { OnErr result
        (GrowsByPrefix (K.written sink.old) (K.written sink.new) bytes.now
        × HasRisen (K.faults sink.old) (K.faults sink.new)) }
    ensures never_falls { K.faults sink.old ≤ K.faults sink.new }
{
    pg_io::put_all(sink, bytes)
}

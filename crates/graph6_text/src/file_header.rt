//! The optional header `>>graph6<<` of a graph6 file.
ghost use Rattle.std.specs.Prelude.{◌≡◌};
ghost use Rattle.graph6_text.specs.Header.{header_length};

/// Returns the offset at which the lines of `bytes` begin: after the header and a byte 10 directly after it, where they
/// are there. It is 0, 10 or 11.
pub fn after_graph_header(bytes: &[u8]) -> usize
    ensures { result ≡ header_length bytes.now }
{
    if bytes.starts_with(b">>graph6<<\n") {
        11
    } else if bytes.starts_with(b">>graph6<<") {
        10
    } else {
        0
    }
}

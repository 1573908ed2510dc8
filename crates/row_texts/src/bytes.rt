//! Bytes as texts of a test row, with `;` for the end of a line.
use crate::reply::Reply;
use std::alloc::Global;

/// Returns the bytes of a text, with 10 for each `;`.
pub fn lines_of(alloc: Global, text: &str) -> Vec<u8> {
    let mut bytes = Vec::new(alloc);
    for byte in text.as_bytes() {
        let _ = bytes.push(if *byte == b';' { 10 } else { *byte });
    }
    bytes
}

/// Writes bytes as a text, with `;` for the end of a line.
pub fn put_bytes(bytes: &[u8], out: &mut Reply) {
    for byte in bytes {
        out.put_letter(if *byte == 10 { ';' } else { char::from(*byte) });
    }
}

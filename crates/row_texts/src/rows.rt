//! The loop over test rows on standard input, and the trait of a program that answers them.
use crate::reply::Reply;
use crate::row_arguments::{behind, halves, number, part};
use std::io::{self, Write};

/// A test row parsed: the family of its call, the call, and its arguments.
#[derive(Clone, Copy)]
pub struct Row<'a> {
    /// The family of the call.
    pub family: &'a str,
    /// The call.
    pub call: &'a str,
    /// Its arguments.
    pub args: &'a [&'a str],
}

impl<'a> Row<'a> {
    /// Returns argument `i`, and nothing where there is none.
    pub fn arg(&self, i: usize) -> &'a str {
        part(self.args, i)
    }

    /// Returns the number that argument `i` is, and 0 where it is none.
    pub fn number(&self, i: usize) -> u16 {
        number(self.arg(i))
    }
}

/// Answers the rows of a program: a program has one type with this trait, and no values of it.
pub trait Answers {
    /// Writes the answer to a row.
    fn answer(row: &Row<'_>, out: &mut Reply);
}

// Appends to `out` the answer of `A` to `row` after what the row shows, or the row itself where it is a comment or
// empty.
fn put_line<A: Answers>(row: &str, out: &mut Reply) {
    if row.is_empty() || row.starts_with('#') {
        out.put(row);
        return;
    }
    let mut parts = Vec::new(out.alloc);
    for text in row.split('/') {
        let _ = parts.push(text);
    }
    out.put(part(&parts, 0));
    out.put(": ");
    let (family, call) = halves(part(&parts, 1));
    let row = Row {
        family,
        call,
        args: behind(&parts, 2),
    };
    A::answer(&row, out);
}

/// Reads the rows of standard input, and writes for each the line that stands for it in the answers of `A`.
pub fn answer_rows<A: Answers>(rt: HostRuntime) -> io::Result<()> {
    let mut out = rt.stdout();
    for line in rt.lines(rt.alloc()) {
        let mut reply = Reply::new(rt.alloc());
        put_line::<A>(line?.as_str(), &mut reply);
        reply.put_letter('\n');
        out.write_all(reply.into_text().as_bytes())?;
    }
    out.flush()
}

//! `RecordReader`: a reader of planar_code fed piece by piece or byte by byte, which passes over the file's header.
ghost use Rattle.std.specs.Prelude.{◌≡◌, ◌+◌, ◌<◌, ◌≤◌, ◌↔◌, ◌&&◌, ◌==◌, [], ◌∷◌, length, slice_index, IsTrue, IsFalse, IfOk, OnErr};
ghost use Rattle.planar_code.specs.Reading.{header, input_limit};
ghost use Rattle.planar_code.specs.Fed.{Feeds};
ghost use Rattle.planar_code.specs.Scan.{seen_of};
ghost use Rattle.planar_code.specs.Front.{IsCounted};
ghost use Rattle.planar_code.specs.Place.{state_of, moved, told, HasByte, CanRead};
ghost use Rattle.planar_code.specs.Taken.{Takes, shifted, looked_at};

use crate::HEADER;
use crate::record_scanner::{Scanned, Scanner};
use map_lists::Rotations;
use std::alloc::{AllocError, Global};
use std::marker::Model;

/// The outcome of one more byte for the bytes pending.
#[derive(Drop)]
pub enum Fed {
    /// They are three bytes, the first 0 and the others no number from 1 to 4095. The number is the
    /// offset of the first of them.
    Bad(usize),
    /// They are a record with these lists, which are numbered from 0.
    Record(Rotations),
    /// Neither: the record goes on, or the header of the file has ended.
    More,
}

/// The outcome of a piece of bytes for the bytes pending.
#[derive(Clone, Copy, PartialEq, Eq)]
pub enum Taken {
    /// All bytes of the piece joined them, and no record ended.
    More,
    /// A record ended with this number of bytes of the piece, at least 1. The bytes after them were not taken.
    Ended(usize),
    /// A record has a bad count. The first number is how many bytes of the piece show it, at least 1; the last of them
    /// was not taken. With them the pending bytes are three: the first is 0, and the others are no number from 1 to
    /// 4095. The second number is the offset of the first of the three.
    Bad(usize, usize),
}

/// Returns the outcome `taken` of a piece with its number of bytes raised by `passed`, the number of bytes before it.
fn shift(passed: usize, taken: Taken) -> Taken
    requires { passed + looked_at taken ≤ usize.MAX }
    ensures { result ≡ shifted passed taken }
{
    match taken {
        Taken::More => Taken::More,
        Taken::Ended(k) => Taken::Ended(passed + k),
        Taken::Bad(k, place) => Taken::Bad(passed + k, place),
    }
}

/// The position of a reader in a file: where its pending bytes begin, and whether they may be the header.
#[derive(Clone, Copy)]
pub struct Place {
    /// The offset of the first byte pending.
    start: usize,
    header_may_come: bool,
    /// The number of bytes pending.
    pending_len: usize,
    /// Whether a header may come and the bytes pending are a front of it.
    in_header: bool,
}

/// The position after the header.
const BEHIND_HEADER: Place = Place {
    start: 15,
    header_may_come: false,
    pending_len: 0,
    in_header: false,
};

/// Says whether `length` pending bytes are a front of the header, as `in_header` says, and still are one with `byte`.
fn goes_on(in_header: bool, length: usize, byte: u8) -> bool
    ensures { IsTrue result
        ↔ (IsTrue in_header × (length < 15) × (byte ≡ slice_index header length)) }
{
    in_header && length < HEADER.len() && byte == HEADER[length]
}

/// Says whether pending bytes of this `length`, a front of the header if `in_header` is set, are the whole header.
fn ends_header(in_header: bool, length: usize) -> bool
    ensures { result ≡ (in_header && (length == 15)) }
{
    in_header && length == HEADER.len()
}

/// Converts the scanner's outcome `scanned` of a piece into the reader's, and moves `place` past the bytes taken.
fn answer(place: &mut Place, scanned: Scanned) -> Taken
    requires some { HasByte scanned }
    requires fits { place.old.start + place.old.pending_len + seen_of scanned ≤ usize.MAX }
    ensures told { result ≡ told place.old scanned }
    ensures place { place.new ≡ moved place.old scanned }
{
    match scanned {
        Scanned::More(k) => {
            place.pending_len += k;
            Taken::More
        }
        Scanned::Ended(k) => {
            *place = Place {
                start: place.start + (place.pending_len + k),
                header_may_come: false,
                pending_len: 0,
                in_header: false,
            };
            Taken::Ended(k)
        }
        Scanned::Bad(k) => {
            place.pending_len += k - 1;
            Taken::Bad(k, place.start)
        }
    }
}

/// Reads `byte` with `scanner`, which has room for it, moves `place`, and returns the outcome. After the last byte of
/// the file's header `scanner` is cleared.
fn take_byte(scanner: &mut Scanner, place: &mut Place, byte: u8) -> Taken
    requires { CanRead scanner.old place.old (byte ∷ []) }
    ensures takes { Takes (state_of scanner.old place.old) (byte ∷ []) result (state_of scanner.new place.new) }
    ensures counted { IsCounted place.new.header_may_come scanner.new.bytes place.new.pending_len place.new.in_header }
    ensures room { result ≡ Taken.More → scanner.old.room ≤ scanner.new.room + 1 }
    ensures limit { result ≡ Taken.More → place.new.start + place.new.pending_len ≤ place.old.start + place.old.pending_len + 1 }
{
    let on = goes_on(place.in_header, place.pending_len, byte);
    match scanner.take(&[byte]) {
        Scanned::More(_) => {
            if ends_header(on, place.pending_len + 1) {
                scanner.clear();
                *place = BEHIND_HEADER;
                return Taken::More;
            }
            place.pending_len += 1;
            place.in_header = on;
            Taken::More
        }
        stopped => answer(place, stopped),
    }
}

/// Reads `piece` with `scanner`, which has room, to a record's end or a bad count. Moves `place`, returns the outcome.
fn take_piece(scanner: &mut Scanner, place: &mut Place, piece: &[u8]) -> Taken
    requires { CanRead scanner.old place.old piece.now }
    ensures takes { Takes (state_of scanner.old place.old) piece.now result (state_of scanner.new place.new) }
    ensures counted { IsCounted place.new.header_may_come scanner.new.bytes place.new.pending_len place.new.in_header }
{
    for k in 0..piece.len() {
        if !place.in_header {
            let scanned = scanner.take(&piece[k..]);
            let taken = answer(place, scanned);
            return shift(k, taken);
        }
        match take_byte(scanner, place, piece[k]) {
            Taken::More => {}
            stopped => return shift(k, stopped),
        }
    }
    Taken::More
}

/// A reader of the records of a file.
#[derive(Drop)]
pub struct RecordReader {
    scanner: Scanner,
    place: Place,
}

impl Model for RecordReader {
    ghost use Rattle.planar_code.specs.State.{State};
    ghost use Rattle.planar_code.specs.Place.{state_of};
    ghost use Rattle.planar_code.specs.Front.{IsCounted};

    ghost Value = { State };

    ghost view = { λ r. state_of r.scanner r.place };

    ghost invariant = { λ r. IsCounted r.place.header_may_come r.scanner.bytes r.place.pending_len r.place.in_header };
}

impl RecordReader {
    ghost use Rattle.planar_code.specs.State.{at_front};

    /// Makes a reader before the first byte of a file: nothing is pending, and a header may come. It takes no memory.
    pub fn new(alloc: Global) -> Self
        ensures { result ≡ at_front }
    {
        RecordReader {
            scanner: Scanner::new(alloc),
            place: Place {
                start: 0,
                header_may_come: true,
                pending_len: 0,
                in_header: true,
            },
        }
    }

    /// Returns the offset in the file of the first byte of the record that has begun, or of the next byte.
    pub fn start(&self) -> usize
        ensures { result ≡ self.now.start }
    {
        self.place.start
    }

    /// Says whether nothing is pending.
    pub fn is_between(&self) -> bool
        ensures { IsTrue result ↔ (self.now.pending ≡ []) }
    {
        self.place.pending_len == 0
    }

    /// Lends the lists of the record that `take` has ended last, numbered from 0. There are none before the
    /// first, and none after a record that `feed` has handed over.
    pub fn lists(&self) -> &Rotations
        ensures { result.now ≡ self.now.lists }
    {
        self.scanner.lists()
    }

    /// Takes bytes of `piece` up to the end of a record (`Ended`), to a bad count (`Bad`), or to its own end (`More`).
    /// After `Ended` the method `lists` lends the record's lists. When memory runs out nothing has changed.
    pub fn take(&mut self, piece: &[u8]) -> Result<Taken, AllocError>
        requires { self.old.start + length self.old.pending + length piece.now ≤ input_limit }
        ensures taken { IfOk result (λ taken. Takes self.old piece.now taken self.new) }
        ensures err { OnErr result (self.new ≡ self.old) }
    {
        self.scanner.reserve(piece.len())?;
        Ok(take_piece(&mut self.scanner, &mut self.place, piece))
    }

    /// Takes the next byte. Returns the lists of the record that it ends, `Bad` at a bad count, or `More`. After a bad
    /// count, and when memory runs out, nothing has changed.
    pub fn feed(&mut self, byte: u8) -> Result<Fed, AllocError>
        requires { self.old.start + length self.old.pending < input_limit }
        ensures fed { IfOk result (λ fed. Feeds self.old byte fed self.new) }
        ensures err { OnErr result (self.new ≡ self.old) }
    {
        match self.take(&[byte])? {
            Taken::More => Ok(Fed::More),
            Taken::Ended(_) => Ok(Fed::Record(self.scanner.hand_over())),
            Taken::Bad(_, place) => Ok(Fed::Bad(place)),
        }
    }
}

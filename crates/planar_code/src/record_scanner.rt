//! `Scanner`: the state machine over the bytes of one planar_code record.
//!
//! A scanner keeps the lists that are closed, the entries of the open one, and where in the record it
//! stands. So no byte is stored twice, and each is handled once.
ghost use Rattle.std.specs.Prelude.{◌≡◌, ◌+◌, ◌<◌, ◌≤◌, [], length, OnOk};
ghost use Rattle.planar_code.specs.Scan.{Scans, Exhausts, CanTake, Advances, seen_of};
ghost use Rattle.planar_code.specs.declared.record_scanner.Phase.TheVariants.{Narrow, Wide};

use super::number_gathering::{gather_narrow, gather_wide, lend_whole, number_of};
use super::open_lists::OpenLists;
use map_lists::{MOST_VERTICES, Rotations};
use std::alloc::{AllocError, Global};
use std::marker::Model;
use std::mem;

/// The outcome of scanning a piece, with the number of its bytes that were looked at.
#[derive(Clone, Copy)]
pub enum Scanned {
    /// This many bytes join the bytes before; together they are no record and no bad count.
    More(usize),
    /// With this many the bytes before are a record, whose lists are lent.
    Ended(usize),
    /// With this many the bytes before are a bad count, and all but the last join them.
    Bad(usize),
}

/// The position of a scanner in a record.
#[derive(Clone, Copy)]
pub enum Phase {
    /// Before the first byte.
    Start,
    /// After a first byte 0.
    WideStart,
    /// After a first byte 0 and this high byte of the count.
    WideHigh(u8),
    /// Among the lists of a narrow record with this count, after a number.
    Narrow(u8),
    /// Among the lists of a wide record with this count, after a number.
    Wide(u16),
    /// Among the lists of a wide record with this count, after the high byte of a number, which is kept.
    WideHalf(u16, u8),
}

/// Appends numbers of a narrow record of `count` lists from `piece` to `gathered`. If the record ends, its lists are
/// moved to `lent`. Returns the next phase and the outcome.
fn take_narrow(
    gathered: &mut OpenLists,
    lent: &mut Rotations,
    count: u8,
    piece: &[u8],
) -> (Phase, Scanned)
    requires { CanTake (Narrow count) gathered.old piece.now }
    ensures { Advances (Narrow count) gathered.old lent.old piece.now result.0 result.1 gathered.new lent.new }
{
    let taken = gather_narrow(gathered, usize::from(count), piece);
    if lend_whole(gathered, lent, usize::from(count)) {
        (Phase::Start, Scanned::Ended(taken))
    } else {
        (Phase::Narrow(count), Scanned::More(taken))
    }
}

/// Appends numbers of a wide record to `gathered`, and moves its lists to `lent`, like [`take_narrow`]. `piece` begins
/// with the first byte of a number; a single byte is kept in the phase.
fn take_wide(
    gathered: &mut OpenLists,
    lent: &mut Rotations,
    count: u16,
    piece: &[u8],
) -> (Phase, Scanned)
    requires { CanTake (Wide count) gathered.old piece.now }
    ensures { Advances (Wide count) gathered.old lent.old piece.now result.0 result.1 gathered.new lent.new }
{
    if piece.len() == 1 {
        return (Phase::WideHalf(count, piece[0]), Scanned::More(1));
    }
    let taken = gather_wide(gathered, usize::from(count), piece);
    if lend_whole(gathered, lent, usize::from(count)) {
        (Phase::Start, Scanned::Ended(taken))
    } else {
        (Phase::Wide(count), Scanned::More(taken))
    }
}

/// Scans as many bytes of `piece`, not empty, as `phase` takes. Appends their numbers to `gathered`, which has room for
/// them. If the record ends, its lists are moved to `lent`. Returns the next phase and the outcome.
fn advance(
    phase: Phase,
    gathered: &mut OpenLists,
    lent: &mut Rotations,
    piece: &[u8],
) -> (Phase, Scanned)
    requires { CanTake phase gathered.old piece.now }
    ensures { Advances phase gathered.old lent.old piece.now result.0 result.1 gathered.new lent.new }
{
    match phase {
        Phase::Start => {
            if piece[0] == 0 {
                (Phase::WideStart, Scanned::More(1))
            } else {
                (Phase::Narrow(piece[0]), Scanned::More(1))
            }
        }
        Phase::WideStart => (Phase::WideHigh(piece[0]), Scanned::More(1)),
        Phase::WideHigh(high) => {
            let count = number_of(high, piece[0]);
            if count == 0 || count > MOST_VERTICES {
                (Phase::WideHigh(high), Scanned::Bad(1))
            } else {
                (Phase::Wide(count), Scanned::More(1))
            }
        }
        Phase::Narrow(count) => take_narrow(gathered, lent, count, piece),
        Phase::Wide(count) => take_wide(gathered, lent, count, piece),
        Phase::WideHalf(count, high) => {
            gathered.collect(number_of(high, piece[0]));
            if lend_whole(gathered, lent, usize::from(count)) {
                (Phase::Start, Scanned::Ended(1))
            } else {
                (Phase::Wide(count), Scanned::More(1))
            }
        }
    }
}

/// The state of a record that has begun, and the lists of the record that ended last.
#[derive(Drop)]
pub struct Scanner {
    alloc: Global,
    phase: Phase,
    gathered: OpenLists,
    lent: Rotations,
}

impl Model for Scanner {
    ghost use Rattle.planar_code.specs.Scan.{Scan, scan_of, IsScanned};

    ghost Value = { Scan };

    ghost view = { λ s. scan_of s.phase s.gathered s.lent };

    ghost invariant = { λ s. IsScanned s.phase s.gathered };
}

impl Scanner {
    /// Makes a scanner with no bytes and no lists. It takes no memory.
    pub fn new(alloc: Global) -> Self
        ensures bytes { result.bytes ≡ [] }
        ensures lists { result.lists ≡ [] }
    {
        Scanner {
            alloc,
            phase: Phase::Start,
            gathered: OpenLists::new(alloc),
            lent: Rotations::new(alloc),
        }
    }

    /// Reserves memory for `bytes` more bytes. It fails only when out of memory.
    pub fn reserve(&mut self, bytes: usize) -> Result<(), AllocError>
        ensures bytes { self.new.bytes ≡ self.old.bytes }
        ensures lists { self.new.lists ≡ self.old.lists }
        ensures room { OnOk result (bytes ≤ self.new.room) }
    {
        self.gathered.reserve(bytes, usize::from(MOST_VERTICES))
    }

    /// Lends the lists of the record that ended last, numbered from 0.
    pub fn lists(&self) -> &Rotations
        ensures { result.now ≡ self.now.lists }
    {
        &self.lent
    }

    /// Moves out the lists of the record that ended last.
    pub fn hand_over(&mut self) -> Rotations
        ensures lists { result ≡ self.old.lists }
        ensures rest { self.new ≡ record self.old { lists = [] } }
    {
        mem::replace(&mut self.lent, Rotations::new(self.alloc))
    }

    /// Forgets the record that has begun. The lists of the one that ended last stay, and so does the room.
    pub fn clear(&mut self)
        ensures bytes { self.new.bytes ≡ [] }
        ensures lists { self.new.lists ≡ self.old.lists }
        ensures room { self.old.room ≤ self.new.room }
    {
        self.phase = Phase::Start;
        self.gathered.clear();
    }

    /// Scans as many bytes of `piece`, not empty, as one phase takes, and moves to the next phase. There must be room.
    fn advance(&mut self, piece: &[u8]) -> Scanned
        requires some { 0 < length piece.now }
        requires room { length piece.now ≤ self.old.room }
        ensures scans { Scans self.old piece.now result self.new }
        ensures some { 0 < seen_of result }
    {
        let (phase, scanned) = advance(self.phase, &mut self.gathered, &mut self.lent, piece);
        self.phase = phase;
        scanned
    }

    /// Scans `piece`, for which there must be room, up to the end of a record (`Ended`), a bad count (`Bad`), or its
    /// own end (`More`). At a bad count the last byte looked at changes nothing.
    pub fn take(&mut self, piece: &[u8]) -> Scanned
        requires room { length piece.now ≤ self.old.room }
        ensures scans { Scans self.old piece.now result self.new }
        ensures whole { Exhausts piece.now result }
    {
        let mut taken = 0;
        while taken < piece.len() {
            match self.advance(&piece[taken..]) {
                Scanned::More(k) => taken += k,
                Scanned::Ended(k) => return Scanned::Ended(taken + k),
                Scanned::Bad(k) => return Scanned::Bad(taken + k),
            }
        }
        Scanned::More(taken)
    }
}

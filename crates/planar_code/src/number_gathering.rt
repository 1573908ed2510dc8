//! The numbers of a planar_code record, one byte or two bytes each, gathered into lists up to the record's end.
ghost use Rattle.std.specs.Prelude.{◌≡◌, ◌+◌, ◌-◌, ◌*◌, ◌<◌, ◌≤◌, List, ℕ, [], length, slice_index, take, flat_map, ◌≢◌};
ghost use Rattle.std.specs.Bool.{OnTrue, OnFalse};
ghost use Rattle.planar_code.specs.Reading.{two_bytes};
ghost use Rattle.planar_code.specs.Open.{Gathers};
ghost use Rattle.planar_code.specs.Scan.{CanGather};
ghost use Rattle.planar_code.specs.declared.record_scanner.Phase.TheVariants.{Narrow, Wide};

use super::open_lists::OpenLists;
use map_lists::Rotations;

/// Returns the number of two bytes, the greater first.
pub fn number_of(high: u8, low: u8) -> u16
    ensures { result ≡ 256 * high + low }
{
    u16::from(high) * 256 + u16::from(low)
}

/// Appends numbers of one byte each from `piece`, which is not empty, to `gathered`, until `count` lists are closed or
/// `piece` ends. Returns how many bytes were read. `gathered` has room for them, and fewer than `count` closed lists.
pub fn gather_narrow(gathered: &mut OpenLists, count: usize, piece: &[u8]) -> usize
    requires { CanGather 0 (Narrow count) count gathered.old piece.now }
    ensures some { 0 < result }
    ensures within { result ≤ length piece.now }
    ensures gathers { Gathers 255 count (take result piece.now) gathered.old gathered.new }
{
    let mut lists = gathered.take_out();
    let taken = narrow_numbers(&mut lists, count, piece);
    *gathered = lists;
    taken
}

// Does the work of `gather_narrow`, and returns the bytes read.
#[inline(always)]
fn narrow_numbers(gathered: &mut OpenLists, count: usize, piece: &[u8]) -> usize
    requires { CanGather 0 (Narrow count) count gathered.old piece.now }
    ensures some { 0 < result }
    ensures within { result ≤ length piece.now }
    ensures gathers { Gathers 255 count (take result piece.now) gathered.old gathered.new }
{
    let mut k = 0;
    'bytes: while k < piece.len() {
        gathered.collect(u16::from(piece[k]));
        k += 1;
        if gathered.closed() == count {
            return k;
        }
    }
    k
}

/// Appends numbers of two bytes each from `piece`, at least two bytes, to `gathered`, until `count` lists are closed or
/// no two bytes are left. Returns how many bytes were read. `gathered` has room, and fewer than `count` closed lists.
pub fn gather_wide(gathered: &mut OpenLists, count: usize, piece: &[u8]) -> usize
    requires { CanGather 1 (Wide count) count gathered.old piece.now }
    ensures some { 0 < result }
    ensures within { result ≤ length piece.now }
    ensures gathers { (numbers : List ℕ) × (flat_map two_bytes numbers ≡ take result piece.now)
        × Gathers 65535 count numbers gathered.old gathered.new }
{
    let mut lists = gathered.take_out();
    let taken = wide_numbers(&mut lists, count, piece);
    *gathered = lists;
    taken
}

// Returns the number of the two bytes at index 2 `pair` of `piece`, the greater first.
fn pair_at(piece: &[u8], pair: usize) -> u16
    requires { 2 * pair + 1 < length piece.now }
    ensures { result ≡ 256 * slice_index piece.now (2 * pair) + slice_index piece.now (2 * pair + 1) }
{
    number_of(piece[2 * pair], piece[2 * pair + 1])
}

// Returns how many pairs of bytes `piece` has up to its last pair of zeros, with that one; or 0 where there is none.
fn pairs_to_last_zero(piece: &[u8]) -> usize
    ensures within { 2 * result ≤ length piece.now }
    ensures zero { 0 < result → 256 * slice_index piece.now (2 * (result - 1)) + slice_index piece.now (2 * (result - 1) + 1) ≡ 0 }
    ensures none { (i : ℕ) → result ≤ i → 2 * i + 1 < length piece.now → 0 < 256 * slice_index piece.now (2 * i) + slice_index piece.now (2 * i + 1) }
{
    let mut pairs = piece.len() / 2;
    while 0 < pairs {
        if pair_at(piece, pairs - 1) == 0 {
            return pairs;
        }
        pairs -= 1;
    }
    0
}

// Does the work of `gather_wide` in two loops, and returns the bytes read. Before the last pair of zeros the end of
// `piece` is not tested, and after it no list is closed.
#[inline(always)]
fn wide_numbers(gathered: &mut OpenLists, count: usize, piece: &[u8]) -> usize
    requires { CanGather 1 (Wide count) count gathered.old piece.now }
    ensures some { 0 < result }
    ensures within { result ≤ length piece.now }
    ensures gathers { (numbers : List ℕ) × (flat_map two_bytes numbers ≡ take result piece.now)
        × Gathers 65535 count numbers gathered.old gathered.new }
{
    let pairs = piece.len() / 2;
    let end = pairs_to_last_zero(piece);
    let mut k = 0;
    'lists: while k < end {
        let mut number = pair_at(piece, k);
        'list: while number != 0 {
            gathered.collect(number);
            k += 1;
            number = pair_at(piece, k);
        }
        gathered.collect(0);
        k += 1;
        if gathered.closed() == count {
            return 2 * k;
        }
    }
    for i in k..pairs {
        gathered.collect(pair_at(piece, i));
    }
    2 * pairs
}

/// Moves the lists of `gathered` to `lent` if exactly `count` are closed, and says so. `gathered` is then empty.
pub fn lend_whole(gathered: &mut OpenLists, lent: &mut Rotations, count: usize) -> bool
    requires whole { length gathered.old.lists ≡ count → gathered.old.last ≡ [] }
    requires few { count < 4096 }
    ensures whole { OnTrue result ((length gathered.old.lists ≡ count) × (lent.new ≡ gathered.old.lists)
        × (gathered.new.lists ≡ []) × (gathered.new.last ≡ [])) }
    ensures not { OnFalse result ((length gathered.old.lists ≢ count) × (gathered.new ≡ gathered.old) × (lent.new ≡ lent.old)) }
{
    if gathered.closed() == count {
        gathered.exchange(lent);
        true
    } else {
        false
    }
}

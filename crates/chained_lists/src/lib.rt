//! Lists of numbers that take a number at the front, give back their first and are joined, each in constant time.
#![tactic(auto)]

ghost use Rattle.std.specs.Prelude.{◌≡◌, ◌<◌, length};

use std::alloc::{AllocError, Global};

/// Stands for no number.
const NONE: u16 = u16::MAX;

/// Lists of numbers below a bound, by links. Each number is in one list at most.
///
/// A list is named by its index. Contracts speak of all lists at once, as a function from names to lists that `Holds`.
#[derive(Drop)]
pub struct ChainedLists {
    // for each number the one behind it in its list; for the last of a list any number
    next: Vec<u16>,
    // for each list its first number, or `NONE` where it is empty
    first: Vec<u16>,
    // for each list that is not empty its last number
    last: Vec<u16>,
    ghost few: { length next.items < 65536 },
    ghost ends: { length last.items ≡ length first.items },
}

impl ChainedLists {
    ghost use Rattle.std.specs.Prelude.{◌≡◌, ◌≢◌, ◌<◌, ◌↔◌, ◌+◌, ◌++◌, ◌∷◌, ℕ, List, [], length, IsTrue, IfOk, IfSome, slice_set, MatchOption, Contains};
    ghost use Rattle.chained_lists.specs.Chains.{put, singles};
    ghost use Rattle.chained_lists.specs.Held.{Holds, IsPopped, BeginsWith};

    /// Returns `numbers` lists, each of which has its own index as its one number, and behind them `more` empty lists. It
    /// fails only when out of memory.
    pub fn new(alloc: Global, numbers: u16, more: u16) -> Result<Self, AllocError>
        ensures held { IfOk result (λ chains. Holds chains (singles numbers)) }
        ensures count { IfOk result (λ chains. length chains.first.items ≡ numbers + more) }
        ensures numbers { IfOk result (λ chains. length chains.next.items ≡ numbers) }
    {
        let mut first = Vec::new(alloc);
        for p in 0..numbers {
            first.push(p)?;
        }
        for _ in 0..more {
            first.push(NONE)?;
        }
        let last = Vec::from_slice(alloc, &first)?;
        let next = vec![in alloc; NONE; usize::from(numbers)]?;
        Ok(ChainedLists { next, first, last })
    }

    // Says whether `x` is a number of the lists, and not `NONE`.
    fn is_number(&self, x: u16) -> bool
        ensures { IsTrue result ↔ (x < length self.now.next.items) }
    {
        usize::from(x) < self.next.len()
    }

    /// Returns the first number of list `p`, or None where it is empty or there is no such list.
    pub fn first(&self, p: usize) -> Option<u16>
        ensures number { IfSome result (λ x. (x < length self.now.next.items) × (p < length self.now.first.items)) }
        ensures first { (lists : ℕ → List ℕ) → Holds self.now lists → MatchOption result (lists p ≡ []) (BeginsWith (lists p)) }
    {
        if p >= self.first.len() {
            return None;
        }
        let x = self.first[p];
        if self.is_number(x) { Some(x) } else { None }
    }

    /// Takes the first number from list `p` and returns it, or None where the list is empty.
    pub fn pop(&mut self, p: usize) -> Option<u16>
        ensures number { IfSome result (λ x. x < length self.old.next.items) }
        ensures popped { (lists : ℕ → List ℕ) → Holds self.old lists → MatchOption result (Holds self.new lists × (lists p ≡ [])) (IsPopped self.new lists p) }
        ensures count { length self.new.first.items ≡ length self.old.first.items }
        ensures numbers { length self.new.next.items ≡ length self.old.next.items }
    {
        let x = self.first(p)?;
        let last = self.last[p];
        if x == last {
            self.first[p] = NONE;
            return Some(x);
        }
        let next = self.next[usize::from(x)];
        self.first[p] = next;
        Some(x)
    }

    /// Puts the number `x`, which is in no list, before the numbers of list `p`.
    pub fn push(&mut self, p: usize, x: u16)
        requires room { p < length self.old.first.items }
        requires number { x < length self.old.next.items }
        ensures pushed { (lists : ℕ → List ℕ) → Holds self.old lists → ((q : ℕ) → ¬ Contains (lists q) x) → Holds self.new (put p (x ∷ lists p) lists) }
        ensures count { length self.new.first.items ≡ length self.old.first.items }
        ensures numbers { length self.new.next.items ≡ length self.old.next.items }
    {
        let old = self.first[p];
        if self.is_number(old) {
            self.next[usize::from(x)] = old;
            self.first[p] = x;
            return;
        }
        self.first[p] = x;
        self.last[p] = x;
    }

    // Puts `x` behind the number `before` in its list, or does nothing if `before` is no number.
    fn link(&mut self, before: u16, x: u16)
        ensures next { self.new.next.items ≡ slice_set self.old.next.items before x }
        ensures first { self.new.first.items ≡ self.old.first.items }
        ensures last { self.new.last.items ≡ self.old.last.items }
    {
        let before = usize::from(before);
        if before < self.next.len() {
            self.next[before] = x;
        }
    }

    /// Moves the numbers of list `q` behind those of another list `p`. Where the two are one list, nothing is promised.
    pub fn join(&mut self, p: usize, q: usize)
        requires room { p < length self.old.first.items }
        ensures joined { (lists : ℕ → List ℕ) → Holds self.old lists → p ≢ q → Holds self.new (put q [] (put p (lists p ++ lists q) lists)) }
        ensures count { length self.new.first.items ≡ length self.old.first.items }
        ensures numbers { length self.new.next.items ≡ length self.old.next.items }
    {
        let Some(x) = self.first(q) else {
            return;
        };
        let begin = self.first[p];
        let end = self.last[q];
        if self.is_number(begin) {
            let before = self.last[p];
            self.link(before, x);
            self.first[q] = NONE;
            self.last[p] = end;
            return;
        }
        self.first[p] = x;
        self.first[q] = NONE;
        self.last[p] = end;
    }
}

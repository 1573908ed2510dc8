//! The lines on which the left, or the lower, sides of boxes lie, in order: a linked list that is numbered in the end.
//! A line is inserted after any other in constant time, and so the numbers of all later lines rise by one.

ghost use Rattle.std.specs.Prelude.{◌≡◌, ◌<◌, ◌^◌, ℕ, suc, List, length, slice_index, All, IfOk};
ghost use Rattle.rect_runs.specs.Numbers.{shifted, with_new};
ghost use Rattle.rect_dual.specs.Lines.{AreLines, AreWalked};

use std::alloc::{AllocError, Global};

/// Puts box `z`, the next one, on the line of box `u`: `lines` has the line of each box.
pub fn put_level(lines: &mut [u16], u: u16, z: u16)
    requires u { u < length lines.old }
    requires z { z < length lines.old }
    requires within { All (λ l. l < length lines.old) lines.old }
    ensures lines { (f : ℕ → ℕ) (q first : ℕ) (next : List ℕ) → AreLines f z q first lines.old next → u < z → AreLines (with_new z f (f u)) (suc z) q first lines.new next }
    ensures within { All (λ l. l < length lines.old) lines.new }
{
    lines[z as usize] = lines[u as usize];
}

/// Puts box `z`, the next one, on a new line `z` directly after that of box `u`. `lines` has the line of each box, and
/// `next` the line after each line.
pub fn put_own(lines: &mut [u16], next: &mut [u16], u: u16, z: u16)
    requires u { u < length lines.old }
    requires z { z < length lines.old }
    requires size { length next.old ≡ length lines.old }
    requires within { All (λ l. l < length lines.old) lines.old }
    requires next_within { All (λ l. l < length lines.old) next.old }
    ensures lines { (f : ℕ → ℕ) (q first : ℕ) → AreLines f z q first lines.old next.old → u < z
        → AreLines (with_new z (λ v. shifted (suc (f u)) (f v)) (suc (f u))) (suc z) (suc q) first lines.new next.new }
    ensures within { All (λ l. l < length lines.old) lines.new }
    ensures next_within { All (λ l. l < length lines.old) next.new }
{
    let line = lines[u as usize];
    next[z as usize] = next[line as usize];
    next[line as usize] = z;
    lines[z as usize] = z;
}

// Writes to `numbers`, at the box that names a line, the number of each of `count` lines, from `first` on along `next`.
fn walk(numbers: &mut [u32], next: &[u16], first: u16, count: usize)
    requires first { first < length next.now }
    requires size { length numbers.old ≡ length next.now }
    requires few { count < 2 ^ 20 }
    requires within { All (λ l. l < length next.now) next.now }
    ensures { (f : ℕ → ℕ) (lines : List ℕ) → (h : AreLines f (length next.now) count first lines next.now) → (r : ℕ) × AreWalked f (length next.now) count first lines next.now h count r numbers.new }
{
    let mut r = first;
    for i in 0..count {
        numbers[r as usize] = i as u32;
        r = next[r as usize];
    }
}

/// Lines as a linked list: the line of each box, and the line after each line.
#[derive(Clone, Copy)]
pub struct Linked<'a> {
    /// For each box the box that names its line.
    pub lines: &'a [u16],
    /// For each line the next one.
    pub next: &'a [u16],
    pub ghost size: { length next.now ≡ length lines.now },
    pub ghost within: { All (λ l. l < length lines.now) lines.now },
    pub ghost next_within: { All (λ l. l < length lines.now) next.now },
}

impl Linked<'_> {
    /// Returns for each box the number of its line, where there are `count` lines from `first` on. The time is
    /// linear in the boxes and the lines. It fails only when out of memory.
    pub fn numbers(&self, alloc: Global, first: u16, count: usize) -> Result<Vec<u32>, AllocError>
        requires first { first < length self.now.lines.now }
        requires few { count < 2 ^ 20 }
        ensures count { IfOk result (λ numbers. length numbers.items ≡ length self.now.lines.now) }
        ensures numbers { IfOk result (λ numbers. (f : ℕ → ℕ) → AreLines f (length self.now.lines.now) count first self.now.lines.now self.now.next.now → (v : ℕ) → v < length self.now.lines.now → slice_index numbers.items v ≡ f v) }
    {
        let Linked { lines, next } = *self;
        let mut numbers = vec![in alloc; 0; lines.len()]?;
        walk(&mut numbers, next, first, count);
        let mut made = vec![in alloc; 0; lines.len()]?;
        for v in 0..lines.len() {
            made[v] = numbers[lines[v] as usize];
        }
        Ok(made)
    }
}

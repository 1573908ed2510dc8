//! Orbits of a permutation marked by walks along them, and their number.
ghost use Rattle.std.specs.Prelude.{◌≡◌, ◌<◌, ◌^◌, ◌||◌, ℕ, false, length};
ghost use Rattle.classes.specs.Classes.{IsPermutationOfBelow, orbits, orbit_count, same_class};
ghost use Rattle.pg_perm.specs.Marks.{mark, KeepsMarks};

/// Marks the orbit of `start` in `marked`, a flag for each number. `images` is a permutation, and the marks already set
/// are of whole orbits. These stay.
pub fn mark_orbit(images: &[u32], marked: &mut [bool], start: u32)
    requires bijection { IsPermutationOfBelow images.now }
    requires marks { length marked.old ≡ length images.now }
    requires kept { KeepsMarks images.now marked.old }
    requires start_in { start < length images.now }
    ensures marked { (i : ℕ) → i < length images.now →
        mark marked.new i ≡ (mark marked.old i || same_class (orbits images.now) start i) }
{
    let mut x = start as usize;
    while !marked[x] {
        marked[x] = true;
        x = images[x] as usize;
    }
}

/// Returns the number of orbits of the permutation `images`, in linear time. `marked` has an unset mark for each
/// number, and each orbit is marked when its least number is met.
pub fn count_orbits(images: &[u32], marked: &mut [bool]) -> u32
    requires bijection { IsPermutationOfBelow images.now }
    requires few { length images.now < 2 ^ 32 }
    requires marks { length marked.old ≡ length images.now }
    requires unset { (i : ℕ) → mark marked.old i ≡ false }
    ensures { result ≡ orbit_count images.now }
{
    let mut count = 0;
    for i in 0..images.len() {
        if !marked[i] {
            count += 1;
            mark_orbit(images, marked, i as u32);
        }
    }
    count
}

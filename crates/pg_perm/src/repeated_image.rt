//! The least pair of indices at which a list of images has equal numbers.
ghost use Rattle.std.specs.Prelude.{◌≡◌, ◌≢◌, ◌<◌, ◌^◌, length, All, AllPairs, IfOk, MatchOption};
ghost use Rattle.pg_perm.specs.Repeat.{IsFirstRepeat};

use std::alloc::{AllocError, Global};

/// Returns the least pair of indices, by its first and then by its second, at which `images` has the same number, or
/// None. All numbers must be below the length. The time is linear. It fails only when out of memory.
pub fn first_repeat(alloc: Global, images: &[u32]) -> Result<Option<(u32, u32)>, AllocError>
    requires few { length images.now < 2 ^ 32 }
    requires in_range { All (λ x. x < length images.now) images.now }
    ensures { IfOk result (λ found. MatchOption found (AllPairs ◌≢◌ images.now)
        (λ pair. IsFirstRepeat images.now pair.0 pair.1)) }
{
    let none = images.len() as u32;
    // For each number the least index so far at which it stands, or `none`.
    let mut place = vec![in alloc; none; images.len()]?;
    let mut found = None;
    for i in (0..images.len()).rev() {
        let x = images[i] as usize;
        let later = place[x];
        if later != none {
            found = Some((i as u32, later));
        }
        place[x] = i as u32;
    }
    Ok(found)
}

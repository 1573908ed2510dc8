//! The adjacency bits of a graph6 line: the index of a pair of vertices, and bits read and set, six a byte.
ghost use Rattle.std.specs.Prelude.{◌≡◌, ◌+◌, ◌-◌, ◌*◌, ◌<◌, ◌≤◌, ◌/◌, ◌==◌, ◌||◌, ℕ, false, length, slice_index, All};
ghost use Rattle.graphs.specs.Bits.{pair_place as place_of_pair, pair_count as count_of_pairs, body_length as bytes_of_pairs, has_bit as is_bit, is_set as is_place_set, IsLineByte};

/// Returns the index among a graph's bits of the pair of `u`, the lesser vertex, and `v`: v(v - 1)/2 + u.
#[tactic(auto, unfolding(crate::specs::Bits::pair_place))]
pub fn pair_place(u: u16, v: u16) -> usize
    ensures { result ≡ place_of_pair u v }
{
    let after = usize::from(v);
    after * after.saturating_sub(1) / 2 + usize::from(u)
}

/// Returns the number of pairs of `n` vertices.
#[tactic(auto, unfolding(crate::specs::Bits::pair_count))]
pub fn pair_count(n: u16) -> usize
    requires { n ≤ 255 }
    ensures { result ≡ count_of_pairs n }
{
    let vertices = usize::from(n);
    vertices * vertices.saturating_sub(1) / 2
}

/// Returns the number of bytes that hold the bits of all pairs of `n` vertices, at most 255, six bits a byte.
pub fn body_length(n: u16) -> usize
    requires { n ≤ 255 }
    ensures { result ≡ bytes_of_pairs n }
{
    (pair_count(n) + 5) / 6
}

/// Returns how many of the last byte's six bits stand for no pair of `n` vertices, at most 255: from 0 to 5.
pub fn spare_bits(n: u16) -> usize
    requires { n ≤ 255 }
    ensures number { result ≡ 6 * bytes_of_pairs n - count_of_pairs n }
    ensures few { result ≤ 5 }
{
    6 * body_length(n) - pair_count(n)
}

// Says whether bit `k` of `byte`, from the highest of its six, is set.
#[tactic(auto, unfolding(crate::specs::Bits::has_bit))]
fn has_bit(byte: u8, k: usize) -> bool
    requires { k < 6 }
    ensures { result ≡ is_bit byte k }
{
    (byte.saturating_sub(63) >> (5 - k)) % 2 == 1
}

// Returns `byte`, six bits plus 63, with bit `k` of the six, from the highest, set. That bit was not set.
fn with_bit(byte: u8, k: usize) -> u8
    requires bit { k < 6 }
    requires range { IsLineByte byte }
    requires unset { is_bit byte k ≡ false }
    ensures range { IsLineByte result }
    ensures bits { (j : ℕ) → j < 6 → is_bit result j ≡ (is_bit byte j || (j == k)) }
{
    byte + (32u8 >> k)
}

/// Says whether the bit at index `place` of `body`, six bits in each byte plus 63, is set.
#[tactic(auto, unfolding(crate::specs::Bits::is_set))]
pub fn is_set(body: &[u8], place: usize) -> bool
    requires { place / 6 < length body.now }
    ensures { result ≡ is_place_set body.now place }
{
    has_bit(body[place / 6], place % 6)
}

/// Sets the bit at index `place` of `body`, six bits in each byte plus 63, and leaves the others.
pub fn set(body: &mut [u8], place: usize)
    requires within { place / 6 < length body.old }
    requires bytes { All IsLineByte body.old }
    ensures bytes { All IsLineByte body.new }
    ensures bits { (p : ℕ) → is_place_set body.new p ≡ (is_place_set body.old p || (p == place)) }
{
    if !is_set(body, place) {
        body[place / 6] = with_bit(body[place / 6], place % 6);
    }
}

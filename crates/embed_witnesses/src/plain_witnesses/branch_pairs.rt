//! Which branch vertices of K5 or K3,3 are joined, and lookups of chosen branches.
ghost use Rattle.std.specs.Prelude.{◌≡◌};
ghost use Rattle.embed_witnesses.specs.Plain.{chosen_at as vertex_chosen, is_pair as is_pair_of};

use kuratowski::Kind;

/// Says whether a witness of `kind` joins branch `i` to the later one `k`: always in K5, and in K3,3 across the sides.
pub(crate) fn is_pair(kind: Kind, i: usize, k: usize) -> bool
    ensures { result ≡ is_pair_of kind i k }
{
    match kind {
        Kind::K5 => true,
        Kind::K33 => i < 3 && 3 <= k,
    }
}

/// Returns the vertex chosen for branch `i`, or 0 where there is none yet.
pub(crate) fn chosen_at(chosen: &[u16], i: usize) -> u16
    ensures { result ≡ vertex_chosen chosen.now i }
{
    if i < chosen.len() { chosen[i] } else { 0 }
}

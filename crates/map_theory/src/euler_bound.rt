//! The Euler bound for maps: the rotation and the twin of a simple map as two permutations of its darts.

ghost use Rattle.map_theory.specs.Bound.{EulerBound};

/// States the law that in a simple map n + f is at most 2c + m, by an even difference (Euler's formula, as a bound).
pub fn euler_bound()
    ensures { EulerBound }
{}

//! Classes of numbers as lists of labels, the orbits of permutations, the law of one swap and the Euler
//! bound for two permutations: definitions and lemmas. Two laws are the contracts of functions that do
//! nothing, and speak of all pairs and all permutations.
#![tactic(auto)]

ghost use Rattle.classes.specs.Laws.{ClassesAreLeast, OrbitsAreSteps};

/// States the law that the classes into which pairs join the numbers below k hold the two numbers of each pair
/// together. They lie in every equivalence that does.
pub fn classes_are_least()
    ensures { ClassesAreLeast }
{}

/// States the law that two numbers share a permutation's orbit exactly where image steps lead from one to the other.
pub fn orbits_are_steps()
    ensures { OrbitsAreSteps }
{}

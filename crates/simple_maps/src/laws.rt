//! Laws of simple maps and their faults, for all rotation lists. Each is the contract of a function that does nothing.

ghost use Rattle.simple_maps.specs.Laws.{NoFaultIsSimple, FirstFaultIsFirst};

/// States the law that at least one list has no first fault exactly where the lists are a simple map.
pub fn no_fault_is_simple()
    ensures { NoFaultIsSimple }
{}

/// States the law that the first fault of lists is the first of their faults: by kind, then by the first vertex, then
/// by the second. Where no fault is found the lists have none.
pub fn first_fault_is_first()
    ensures { FirstFaultIsFirst }
{}

//! The plainest words of the project's definitions: membership, the first fault in a list, "or want of
//! memory", and a count that rose. There is no code but laws, each the contract of a function with an
//! empty body.
#![tactic(auto)]

ghost use Rattle.std.specs.Prelude.{◌≡◌, List, Option, Some, None};
ghost use Rattle.words.specs.Firsts.{first_fault, Faultless, IsFirstFault};

/// The fault that `first_fault` names is that of the first faulty element.
pub fn first_fault_is_first<X, E>()
    ensures { (fault : List X → X → Option E) (xs : List X) (e : E) → first_fault fault xs ≡ Some e
        → IsFirstFault fault xs e }
{}

/// Where `first_fault` names none, no element has a fault.
pub fn no_fault_is_faultless<X, E>()
    ensures { (fault : List X → X → Option E) (xs : List X) → first_fault fault xs ≡ None
        → Faultless fault xs }
{}

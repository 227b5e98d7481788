//! Laws of the checks of a circuit, one by one: each passes exactly where its rule holds, of any circuit. Each law is the
//! contract of a function with an empty body.
#![tactic(auto)]

ghost use Rattle.rule_laws.specs.Statements.{CircuitsAreChecked, ClocksAreChecked, CopiesAreChecked, DomainsAreChecked, LoopsAreChecked, MasksAreChecked, OpenPinsAreChecked, OutputsAreChecked, RoutingIsChecked, SourcesAreChecked};

/// The arcs of a text agree, and its routing is clean, exactly where the checks of both pass.
pub fn routing_is_checked()
    ensures { RoutingIsChecked }
{}

/// Each pin's feed is a modelled output exactly where no unnamed source is refused, and no table reaches itself exactly
/// where no loop is.
pub fn feeds_are_checked()
    ensures sources { SourcesAreChecked }
    ensures loops { LoopsAreChecked }
{}

/// The rules of triplication on pins hold exactly where their checks pass.
pub fn pins_are_checked()
    ensures open_pins { OpenPinsAreChecked }
    ensures clocks { ClocksAreChecked }
    ensures domains { DomainsAreChecked }
{}

/// The rules of triplication on tables, copies and outputs hold exactly where their checks pass.
pub fn copies_are_checked()
    ensures masks { MasksAreChecked }
    ensures copies { CopiesAreChecked }
    ensures outputs { OutputsAreChecked }
{}

/// A circuit is triplicated, with modelled feeds, exactly where all checks of circuits pass.
pub fn circuits_are_checked()
    ensures { CircuitsAreChecked }
{}

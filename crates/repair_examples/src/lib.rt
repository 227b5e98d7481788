//! Worked examples of repair, and that what the laws of repair ask can be met. Each is the contract of a function
//! with an empty body.
#![tactic(auto)]

ghost use Rattle.circuit.specs.Circuits.{IsConnection};
ghost use Rattle.fabric.specs.Agree.{ArcsAgree};
ghost use Rattle.fabric.specs.Image.{image_of};
ghost use Rattle.layout_laws.specs.Named.{NamesOnce};
ghost use Rattle.links.specs.Links.{IsClean};
ghost use Rattle.repair.specs.Layouts.{ArePaths, configured, turn_over, with_path};
ghost use Rattle.repair.specs.Ripping.{IsRest};
ghost use Rattle.repair.specs.Routes.{InTree};
ghost use Rattle.repair.specs.Turns.{routing};
ghost use Rattle.repair.specs.Usable.{IsUsable};
ghost use Rattle.repair_examples.specs.OneArc.{bare, graph, net, one_arc, read, routed, the_arc, way};
ghost use Rattle.repair_laws.specs.Ready.{IsReady, IsReadyTurn};
ghost use Rattle.std.specs.Prelude.{[], ◌∷◌, ◌≡◌};
ghost use Rattle.upset.specs.Safe.{IsSafe};
ghost use Rattle.words.specs.Members.{In};

/// The graph of the smallest design has one arc.
pub fn graph_of_one_arc()
    ensures { graph.arcs ≡ the_arc ∷ [] }
{}

/// The design without its arc is ready for a path, and safe.
pub fn bare_design_is_ready()
    ensures names { NamesOnce one_arc }
    ensures ready { IsReady one_arc (configured bare) }
    ensures turn { IsReadyTurn one_arc (turn_over read bare net) }
    ensures safe { IsSafe (configured bare) }
    ensures agree { ArcsAgree graph (image_of graph bare.config) bare.config }
{}

/// Its arc is usable there, from the net's tree, and so is a path of it.
pub fn arc_of_bare_design_is_usable()
    ensures usable { IsUsable (turn_over read bare net) the_arc }
    ensures tree { InTree (turn_over read bare net) the_arc.source }
    ensures paths { ArePaths read bare (way ∷ []) }
{}

/// The line of the path gives the design with its arc.
pub fn path_restores_the_design()
    ensures { with_path bare (the_arc ∷ []) ≡ routed }
{}

/// Ripping the net of the design leaves the one without its arc.
pub fn ripping_gives_the_bare_design()
    ensures clean { IsClean (routing (configured routed)) }
    ensures agree { ArcsAgree graph (image_of graph routed.config) routed.config }
    ensures rest { IsRest (In (0 ∷ [])) routed.config (configured routed) bare.config }
{}

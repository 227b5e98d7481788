//! The crossed toggle on MINI-A meets all that the main law asks of a design, and its repair hardens it. Each is the
//! contract of a function with an empty body.
#![tactic(auto)]

ghost use Rattle.config_grammar.specs.ConfigPrint.{config_text};
ghost use Rattle.design_answers.specs.Headline.{AreHardened, Hardens};
ghost use Rattle.design_checks.specs.DesignChecks.{IsAccepted};
ghost use Rattle.design_files.specs.Designs.{Design};
ghost use Rattle.fabric_laws.specs.PlainGraph.{graph_of};
ghost use Rattle.hardening_examples.specs.CrossedDesign.{crossed_design, by_default};
ghost use Rattle.hardening_examples.specs.CrossedFiles.{crossed_files, crossed_inputs};
ghost use Rattle.headline_laws.specs.Sound.{IsSoundJob};
ghost use Rattle.mini.specs.MiniA.{mini_a};
ghost use Rattle.mini.specs.Toggle.{crossed, toggle, toggle_side};
ghost use Rattle.mini.specs.ToggleCells.{toggle_cells};
ghost use Rattle.repair.specs.Layouts.{configured};
ghost use Rattle.route_examples.specs.Crossed.{crossed_job, with_cells};
ghost use Rattle.side_form.specs.SidePrint.{side_text};
ghost use Rattle.written_laws.specs.Written.{MayBeHardened};

/// The crossed toggle is a design that is read on a device that names nothing twice; it is clean, agreeing, fed from
/// named cells alone and triplicated, though one bit of it is bad.
pub fn crossed_is_a_sound_job()
    ensures { IsSoundJob (crossed_job (graph_of mini_a)) }
{}

/// So the toggle, which its repair writes, hardens it: both give the same outputs, and after the flip of any one
/// routing-mux bit of the toggle two of its three outputs at least are those of the crossed one undisturbed.
pub fn toggle_hardens_crossed()
    ensures { let g = graph_of mini_a in Hardens (configured (with_cells g crossed)) (configured (with_cells g toggle)) }
{}

/// It may be hardened, and the bytes of the toggle and its side file do harden it: they are read as a design that passes all
/// checks and does so.
pub fn toggle_bytes_harden_crossed()
    ensures may { let g = graph_of mini_a in MayBeHardened crossed_design g (toggle_cells g) by_default }
    ensures hardened { let g = graph_of mini_a in AreHardened crossed_design g (toggle_cells g) (config_text toggle) (side_text toggle_side) }
{}

/// Its printed text, its side file and the files of MINI-A are accepted, with its cells.
pub fn crossed_is_accepted()
    ensures { let g = graph_of mini_a in (design : Design)
        × IsAccepted crossed_files crossed_inputs design g (toggle_cells g) }
{}
